//! The values of a body, in the order in which its statements stand.
#![tactic(auto)]

mod values;

pub use values::{values_in, values_in_all};
