//! What C programs mean: scopes, types, the rules that a source keeps, and its runs, as definitions over the source tree
//! and mathematical integers. The public functions have empty bodies: each stands for the law that its contract is.
#![tactic(auto)]

mod laws;

pub use laws::{drawn_are_there, drawn_inputs, error_places, more_turns};
