//! The edges of blocks: everything between two cut points of a graph becomes one edge of guarded operations, with one branch for its
//! failed checks and one for each way out.
//!
//! What a place, a cut point, a block and a sure place are, [`block_plan`] says. All that does not matter is dropped, and a run
//! that gets there is **lost**: it stops.
//!
//! **The edge of a block** goes over its places in order. Each has a guard of one bit: 1 at a sure place, else a saved cell that is
//! 1 where the run is at the place. A way to another place under a test sets that place's cell to its guard and the test, and a later
//! way to the same place adds to it. A store goes through the guard (`x := guard ? new : x`; a store into an array through its
//! index) unless the guard is 1, or no place that waits reads the cell before it sets it. A check sets a cell that says whether it
//! failed. Before a draw, and at the block's end, one branch asks whether any check failed; its true side is a chain of branches on
//! these cells in the order of the places, since the first check that failed is the one that happened. At the end the ways out are
//! branches in the order of their numbers, the last without a test unless a side was lost. Behind a lost side an Assume of its cell
//! stands at the next sure place.
//!
//! **Numbers.** Nodes keep their numbers; nodes of branches are places that the block took in, or stand behind all others. The saved
//! cells stand behind all others, and each block begins anew with the first of them, since none is read from a cut point on.
//!
//! It takes time in proportion to the graph, times the ways out that wait at once in a block.
//!
//! What each call makes, its contract says by a definition of its own; that runs of what is made meet the same errors, none says.
#![tactic(auto)]

mod blocking;
mod copies;
mod draft;
mod emission;
mod flushing;
mod members;
mod terms;
mod whole;

pub use blocking::{Plan, blocked};
pub use copies::copied_edges;
pub use members::members_of;
pub use whole::graph_of;
