//! What is asked of a pair of labels: a store that meets the first and not the second.
#![tactic(auto)]

mod asking;
pub mod laws;

pub use asking::pair_clauses;
