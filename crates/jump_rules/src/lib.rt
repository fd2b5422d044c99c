//! The rules of labels, of jumps into scopes, and of the places of `break`, `continue`, `case`, `default` and `return`
//! (C11 6.8.1, 6.8.4.2, 6.8.6), on bodies of typed trees.
#![tactic(auto)]

mod jumps;
mod labels;
mod laws;
mod names;
mod places;
mod walk;

pub use jumps::{Jump, enters};
pub use labels::jumps_found;
pub use laws::bodies_walked;
pub use walk::{Walk, walk_body};
