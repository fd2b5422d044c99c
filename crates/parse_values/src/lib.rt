//! What each token does among expressions, and where a value, a list or a declaration is whole.
#![tactic(auto)]

mod constants;
mod declared;
mod expressions;
mod modes;
mod values;

pub use constants::{enumerated, nested, valued_close, valued_comma};
pub use declared::{array_of, end_declaration, function_of, listed, with_initial, with_value};
pub use expressions::{step_operand, step_sizeof, step_value};
pub use modes::{Fork, Mode, Skip, Waiting};
pub use values::{begin_in, step_maybe, whole};
