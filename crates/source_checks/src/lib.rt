//! From the tree of a source to its typed tree, or to the first rule that it breaks; and sources that break no rule at all, with their labels
//! and an order of their functions.
#![tactic(auto)]

mod checks;
mod typing;

pub use checks::accepted;
pub use typing::elaborate;
