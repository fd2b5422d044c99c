//! Where the parts of a tree begin and end, and which token stands for them, as offsets.
#![tactic(auto)]

mod declarations;
mod expressions;

pub use declarations::{close_of, end_of, end_of_declaration, first_of_words, open_of};
pub use expressions::{count_parts, first_of, last_of, own_token};
