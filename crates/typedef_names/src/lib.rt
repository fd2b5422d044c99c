//! The typedef names in scope, each found by its bytes at once.
#![tactic(auto)]

mod buckets;
mod names;

pub use names::Names;
