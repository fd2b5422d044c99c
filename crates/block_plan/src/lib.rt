//! Which places of a graph are joined: cut points, the blocks between them, and what is read from a place on.
//!
//! A **place** is a node of the graph; places are gone through in the order of their numbers, in which edges lead up but for turns.
//! A place **matters** if it is reached from the entry, and an error or a listed loop's node is reached from it. A place is a **cut
//! point** if it is the entry, a listed loop's node, an error or an end, the target of an edge that does not lead up, led to by places of
//! different blocks, or drawing without being sure; a node with ways out of another shape than a check's or a test's keeps its
//! edges and is one too, as are those to which these lead. Each other place belongs to the block of the places that lead to it. A
//! place of a block is **sure** where no way of its block is open that leads past it: each run through the block that got this far
//! is at it.
//!
//! All takes time in proportion to the graph, but for what is read where: that is found in passes over all edges until nothing
//! changes, and for a graph whose nodes and objects are too many everything counts as read.
//!
//! Contracts say which plan a graph has: that of the definitions in `specs/`, which take the same steps over lists. That a plan is any
//! good, none says: what is built on one is tested.
#![tactic(auto)]

mod alive;
mod blocks;
mod live;
mod regular;

pub use blocks::{Blocks, begins, blocks_of, listed_nodes, ways_at};
pub use live::live_units;
pub use plan_tables::{Counts, Flags, Links, Live, Reads, Units, number_of};
pub use regular::{Way, Ways, draws};
