//! Formulas over bits of cells put into another table, with 0 in place of all cells but some.
#![tactic(auto)]

mod masks;

pub use masks::masked;
