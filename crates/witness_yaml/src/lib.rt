//! The texts of witnesses: this project's own profile of the verification witness format 2.0 of SV-COMP, which is YAML. A witness of
//! correctness has an invariant for each loop, one of a violation has the place that a run reaches. Which keys and fields the format
//! itself requires, and what other tools do with the text, is not said here.
#![tactic(auto)]

mod entry;
mod metadata;
mod piece;

pub use entry::{Invariant, correctness, violation};
pub use metadata::Metadata;
