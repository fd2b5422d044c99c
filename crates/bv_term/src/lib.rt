//! Bit-vector terms over the cells of a store, kept in a table in which each term stands once.
#![tactic(auto)]

mod key;
pub mod laws;
mod number;
mod table;
mod term;
mod value;
mod well_formed;

pub use table::Terms;
pub use term::{Term, TermId};
pub use well_formed::are_widths;
