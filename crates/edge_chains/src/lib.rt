//! Chains of edges: a node with one way in and one way out, that is neither the entry nor a loop's, gives its edge away, and each edge
//! of another node goes on along such nodes.
//!
//! Which nodes give their edges away is guessed by counting, and tested: none is the entry or an error, and each has one edge alone. Where
//! a test fails, and where a chain has no end, the edges stay as they are. It takes time in proportion to the edges and their operations.
//! That no node is left that could give its edge away, no contract says.
#![tactic(auto)]

mod chains;
mod tables;

pub use chains::join_chains;
