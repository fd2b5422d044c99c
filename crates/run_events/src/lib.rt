//! One instruction of a run, and what is told of it: its operands before it is done, and the events of what it did.
#![tactic(auto)]

mod operands;
mod telling;
mod trail;

pub use operands::Operands;
pub use trail::{Trail, follow};
