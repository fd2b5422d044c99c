//! The sources that seeds make: tasks for the verifier whose verdicts are known.
//!
//! Each block of a source draws a number, masks it with a constant and tests that what is left is greater than the constant, which it
//! never is. Where the seed is odd, the first block tests that it is no less, which it may be.
#![tactic(auto)]

mod source;

pub use source::{blocks, generate, generated_is_short};
