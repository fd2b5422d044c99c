//! Graphs of programs: nodes, edges with operations over a store of cells, graph runs, and inductive maps.
#![tactic(auto)]

mod check;
mod flow;
mod functions;
mod graph;
pub mod laws;
mod map;
mod parts;
mod store;

pub use check::is_graph;
pub use flow::{Graph, edge_count};
pub use functions::{FnGraph, FnGraphs};
pub use graph::{Cell, Edge, EdgeId, LoopAt, Node, NodeId, Operation, Operations, Origin};
pub use map::Map;
pub use parts::{function_graphs_from, graph_from};
pub use store::{Named, Store};

/// The number of the layout of nodes, edges and cells. A change of the layout raises it.
pub const LAYOUT: u32 = 1;
