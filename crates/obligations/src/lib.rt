//! What is to be shown of a map of a graph, as clauses that are to be refuted.
//!
//! A map is inductive where the formula of the entry holds in every store, each edge leads from stores that meet the formula at its
//! start only to stores that meet the formula at its end, and no store meets the formula of an error node. Each of these is one
//! obligation. Obligation 0 is the entry's; then come the edges in their order, then the error nodes in theirs. The clauses of an
//! obligation are satisfiable exactly where it fails: they say that it does.
#![tactic(auto)]

mod clauses;
mod edges;
mod numbered;
mod questions;

pub use clauses::node_clauses;
pub use edges::edge_clauses;
pub use numbered::obligation;
pub use questions::{Question, obligation_count, question_at};
