//! Token lists by their relation to the bytes (C11 6.4), and that the lexer gives them.
#![tactic(auto)]

mod laws;
mod reader;

pub use laws::{has_no_other, has_one, has_spans, is_lexed};
pub use reader::tokens_of;
