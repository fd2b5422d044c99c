//! A path of a graph as clauses, one step an edge.
//!
//! Going back over a path, [`needed_before`] finds which cells are read behind each edge before they are set, and which of
//! the edge's operations give something that is needed. Going forward, [`add_edge`] adds the clauses of these operations
//! alone: what an edge sets and nothing reads costs nothing. Each step has a constant literal of its own, so that its
//! clauses follow its edge alone.
#![tactic(auto)]

mod needs;
mod operations;
mod path;
mod reads;

pub use needs::needed_before;
pub use operations::add_edge;
pub use path::path_clauses;
pub use reads::{Span, need_cells};
