//! A machine for flat code: one loop over its instructions, with all memory taken before the first run.
#![tactic(auto)]

mod machine;
mod running;
mod start;

pub use machine::{Entry, Machine};
