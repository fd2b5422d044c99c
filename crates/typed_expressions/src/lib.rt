//! Values of the typed tree, and what is assigned to, from the expressions of a source.
#![tactic(auto)]

mod expressions;

pub use expressions::{typed_list, typed_target, typed_value};
