//! What each token does among the words of declarations, enumerations, declared names and parameters.
#![tactic(auto)]

mod declarations;
mod enumerations;
mod specifiers;

pub use declarations::{step_behind, step_listed, step_next, step_parameter, step_parameters};
pub use enumerations::{step_constant, step_enumeration, step_named, step_tagged};
pub use specifiers::step_specs;
