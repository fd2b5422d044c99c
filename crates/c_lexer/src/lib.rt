//! The tokens of a source (C11 6.4), after preprocessing.
#![tactic(auto)]

mod bytes;
mod constant;
mod lexer;
mod mark;
mod scan;
mod step;
mod token;

pub use lexer::lex;
pub use token::{Mark, NumberForm, Token, TokenKind};
