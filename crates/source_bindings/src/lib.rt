//! The names of a source: one walk over its tree that binds each declared name to what it stands for.
//!
//! Expressions and statements call themselves once for a level of the tree, so a tree is to be no higher than the stack
//! allows. Trees that are read from a source are at most 200 high.
#![tactic(auto)]

mod declarators;
mod expressions;
mod functions;
mod items;
mod statements;

pub use items::bind_all;
