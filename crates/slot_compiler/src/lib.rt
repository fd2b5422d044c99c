//! Flat code of a whole program: that of its functions in an order in which each stands behind those that it calls.
#![tactic(auto)]

mod bodies;
mod mains;
mod programs;
mod rooms;

pub use mains::main_number;
pub use programs::{Code, compiled};
pub use rooms::slots_in;
