//! The places of a graph's nodes: how a node's edges lead away, as the rule of blocks asks for it.
//!
//! The ways are guessed by what stands first on the edges, and tested: each edge from the node is one of them, each of them is an edge
//! from the node, and they are regular.
//! Where a test fails the node has no place. That a node with regular ways is given a place, no contract says.
#![tactic(auto)]

mod edges;
mod exits;
mod leading;
mod moves;
mod places;
mod regular;

pub use places::{place_of_node, places_of_nodes};
