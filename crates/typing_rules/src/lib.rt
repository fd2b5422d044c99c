//! The rules of names, types, calls and constants that the expressions of a source break, summed up in one walk.
#![tactic(auto)]

mod entities;
mod expressions;
mod laws;
mod lines;
mod offsets;

pub use entities::is_object_name;
pub use expressions::{expression, parts, words};
pub use laws::{constants_summed, expressions_summed, words_summed};
pub use lines::{constant_lines, value_line};
pub use offsets::Offsets;
