//! Tests that a graph is the graph of another one's blocks.
//!
//! Where the tests say yes, each cut point of the first graph that matters has in the second the block that the rule says, or the edges
//! that it had, and no other edges; and where the entry does not matter, edges from it lead to an end or back to it. Which edges of the
//! second graph are a block's is guessed: they stand in the order in which the rule names them, from the first edge of the block's node
//! on. The tests take time in proportion to both graphs, times the places that wait at once.
#![tactic(auto)]

mod blocks;
mod growth;
mod keeping;
mod outs;
mod sizes;

pub use blocks::follows_rule;
