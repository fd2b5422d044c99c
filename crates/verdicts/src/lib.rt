//! The answers to checks of certificates and to verifications of sources, with their statuses and lines.
//!
//! Behind SAFE, UNSAFE and UNKNOWN of the source of a seed stands the line `SEED <seed> BLOCKS <blocks>`.
#![tactic(auto)]

mod lines;
mod rejection;
mod values;
mod verdict;

pub use lines::{line, seeded_lines};
pub use rejection::Rejection;
pub use values::Values;
pub use verdict::{Verdict, status};
