//! Broken rules, summed up while a source is walked: the one that is named, and whether lines around them are still tried.
#![tactic(auto)]

mod laws;
mod lines;

pub use laws::{joined, tried};
pub use lines::{Broken, Found, both, line, none, unless};
