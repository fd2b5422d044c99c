//! Constant expressions: which expressions are constant, and their values (C11 6.6).
#![tactic(auto)]

mod evaluation;
mod operations;

pub use evaluation::{constant, is_constant, is_object};
