//! How the nodes of copies are numbered, and what a copy's function has.
ghost use Rattle.std.specs.Prelude.{◌≡◌, ◌≤◌, length, slice_get};
ghost use Rattle.call_inline.specs.Inlining.{edges_in, entry_in, loops_of, nodes_in, or_zero};
ghost use Rattle.call_inline.specs.Copying.{lists_of, main_copy, number_of, offset_in};

use c_graph::{Edge, FnGraphs, LoopAt, Node, NodeId};

/// A copy of a function's graph. What is said of inlining speaks of these.
#[derive(Clone, Copy)]
pub struct Copied {
    /// The number of the function.
    pub function: u32,
    /// The number of the copy's first node.
    pub base: u32,
    /// The node at which it goes on where it returns; `main` has none.
    pub back: Option<NodeId>,
}

/// The copy of `main`, which is the first.
pub(crate) fn main_of(graphs: &FnGraphs) -> Copied
    ensures { result ≡ main_copy graphs.now }
{
    Copied {
        function: graphs.main(),
        base: 0,
        back: None,
    }
}

/// The nodes of a function.
pub(crate) fn nodes_of(graphs: &FnGraphs, function: u32) -> &[Node]
    ensures value { result.now ≡ nodes_in graphs.now function }
    ensures few { length result.now ≤ 2147483647 }
{
    match graphs.graphs().get(function as usize) {
        None => &[],
        Some(graph) => graph.nodes(),
    }
}

/// The edges of a function.
pub(crate) fn edges_of(graphs: &FnGraphs, function: u32) -> &[Edge]
    ensures { result.now ≡ edges_in graphs.now function }
{
    match graphs.graphs().get(function as usize) {
        None => &[],
        Some(graph) => graph.edges(),
    }
}

/// The node at which a function begins.
pub(crate) fn entry_of(graphs: &FnGraphs, function: u32) -> NodeId
    ensures { result ≡ entry_in graphs.now function }
{
    match graphs.graphs().get(function as usize) {
        None => NodeId(0),
        Some(graph) => graph.entry(),
    }
}

/// The loops of a function.
pub(crate) fn loops_of(graphs: &FnGraphs, function: u32) -> &[LoopAt]
    ensures { result.now ≡ loops_of (slice_get graphs.now.graphs function) }
{
    match graphs.graphs().get(function as usize) {
        None => &[],
        Some(graph) => graph.loops(),
    }
}

/// The number of a node in a copy.
pub(crate) fn number(offsets: &[Vec<u32>], copied: Copied, node: NodeId) -> NodeId
    ensures { result ≡ number_of (lists_of offsets.now) copied node }
{
    let offset = offset_in(offsets, copied.function, node);
    NodeId(copied.base.saturating_add(offset))
}

// How far a node of a function stands behind the first of a copy.
fn offset_in(offsets: &[Vec<u32>], function: u32, node: NodeId) -> u32
    ensures { result ≡ offset_in (slice_get (lists_of offsets.now) function) node.0 }
{
    match offsets.get(function as usize) {
        None => 0,
        Some(offsets) => offset_at(offsets, node),
    }
}

fn offset_at(offsets: &[u32], node: NodeId) -> u32
    ensures { result ≡ or_zero (slice_get offsets.now node.0) }
{
    match offsets.get(node.0 as usize) {
        None => 0,
        Some(offset) => *offset,
    }
}
