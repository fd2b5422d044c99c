//! Trees of paths through a graph, with a label of conjuncts at each vertex.
#![tactic(auto)]

mod tree;
mod vertex;

pub use tree::Tree;
pub use vertex::{Children, Label, NewLabel, Vertex, VertexId};
