//! Flat code of a typed tree: a list of instructions over numbered slots, what an instruction does, and the code of each
//! value, statement, function and program. A run of it is one loop, which takes no memory.
#![tactic(auto)]

mod flat;
mod reply;

pub use flat::Instruction;
pub use reply::Ending;
