//! The rules of labels, jumps, unsequenced effects, calls in a circle, and of `break`, `continue`, `case`, `default` and `return`
//! in their places (C11 6.5, 6.8): a typed tree that breaks none of them, with its labels and an order of its functions.
#![tactic(auto)]

mod checks;
mod examined;
mod label;

pub use checks::{examine, faults_found};
pub use examined::Examined;
pub use label::LabelAt;
