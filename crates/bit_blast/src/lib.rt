//! Terms become clauses, and back.
//!
//! [`Bits`] holds literals for each cell of a store and for each term that was blasted since the cells last changed. A
//! call adds the clauses of one list of definitions, which the crate's specs give as a function of what is held. A term's
//! operands are found with an explicit heap and emitted in rising number, so that no depth of terms takes stack.
#![tactic(auto)]

mod bits;
mod cells;
mod cone;
mod done;
mod emit;
mod gates;
mod store;

pub use bits::{Bits, blast, blast_all};
pub use cone::Uses;
pub use done::{Done, DoneTerms};
