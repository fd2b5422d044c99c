//! The typed tree of a C program: each name is an object or a function by its number, each value has its kind, and each
//! conversion is a node. Its run and the rules of its jumps, effects and calls are definitions.
#![tactic(auto)]

mod laws;
mod tree;
mod typed;

pub use laws::{drawn_inputs, more_turns};
pub use tree::{Function, Object, Owner, Step, Target, Value};
pub use typed::Typed;
