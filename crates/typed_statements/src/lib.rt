//! Statements and declarations of the typed tree, from those of a source.
//!
//! A statement calls itself once for a level of the tree, so a tree is to be no higher than the stack allows. Trees that
//! are read from a source are at most 200 high.
#![tactic(auto)]

mod declarations;
mod nodes;
mod parts;
mod statements;

pub use declarations::{add_declaration, declared, object_kind, typed_list_as};
pub use statements::{typed_statement, typed_statements};
