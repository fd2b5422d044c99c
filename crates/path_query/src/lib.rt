//! A path's question to the solver: clauses step by step, with the literals of its cells at each cut and of its drawn
//! values.
#![tactic(auto)]

mod query;

pub use query::{Bundle, Bundles, Cuts, Lits, PathQuery, Starts};
