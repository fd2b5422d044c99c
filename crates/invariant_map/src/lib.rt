//! The map of an unwinding: for each node of its graph the disjunction of the labels of the uncovered vertices there.
//!
//! The map's table holds first, in their order in the unwinding's table, the terms of which those labels are built; then, vertex by
//! vertex, what joins the conjuncts of the vertex's label, and what joins the label to those of earlier vertices at its node; and last,
//! where a node has no uncovered vertex, the term false. Each term stands once. No call nests with the depth of terms.
#![tactic(auto)]

mod copying;
mod extraction;
mod joining;
mod marking;
mod operands;

pub use extraction::extract;
pub use operands::Uses;
