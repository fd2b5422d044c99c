//! A run of a typed tree's flat code, step by step, with the last events on the way: it ends as the replay of the same values does.
#![tactic(auto)]

mod beginning;
mod stepping;
mod tracing;

pub use tracing::{Trace, traced};
