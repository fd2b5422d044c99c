//! Formulas of the cuts of a path, from one refutation of its clauses, by McMillan's rules (Interpolation and SAT-Based Model
//! Checking, 2003).
#![tactic(auto)]

mod cone;
mod formulas;
mod items;
mod joining;
pub mod laws;
mod mask;
mod occurrences;
mod placing;
mod plain;
mod recall;
mod walk;

pub use formulas::chain;
