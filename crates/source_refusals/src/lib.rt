//! For what a source is refused: the first of the rules of names, types, calls, constants and cases that it breaks, or the limit
//! on cells, once its names are bound.
#![tactic(auto)]

mod cells;
mod refusals;

pub use cells::{Passed, limit_passed};
pub use refusals::{all_found, decide};
