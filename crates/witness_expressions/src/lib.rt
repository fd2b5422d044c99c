//! Formulas over the cells of a graph as expressions of C, part by part: what can be written of a formula as a conjunction is written,
//! the rest is left out, so that the expression follows from the formula.
#![tactic(auto)]

mod conjunction;
mod look;
mod names;
mod part;
mod sizes;

pub use conjunction::expression;
pub use names::Spelling;
