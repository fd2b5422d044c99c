//! From the bytes of a source to its typed tree, which runs as the source does, or to the first reason why it has none.
#![tactic(auto)]

mod reading;

pub use reading::{examined, tree};
