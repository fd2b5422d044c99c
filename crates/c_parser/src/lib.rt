//! Reads the tokens of a source into their tree, one after another.
#![tactic(auto)]

mod externs;
mod measures;
mod parser;
mod settling;
mod statements;
mod steps;

pub use parser::parse;
