//! What a conflict teaches: the clause that is false is resolved with the reasons of its literals, last first, until one
//! literal of the current level is left, the first unique implication point.
//!
//! The clause so far is kept as marks by variable: a marked variable that still stands on the part of the trail to come
//! has its false literal in the clause. Its literals of lower levels are listed, those of the current level counted. Then
//! those that the others imply are resolved away.
#![tactic(auto)]

mod analysis;
mod minimizing;
mod noting;
mod walk;

pub use analysis::analyze;
pub use noting::Notes;
pub use walk::Analysis;
