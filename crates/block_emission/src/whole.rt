//! The graph of parts, or the one that stands where parts make none.
ghost use Rattle.std.specs.Prelude.{◌≡◌, IfOk};
ghost use Rattle.c_graph.specs.Parts.{flow_of};
ghost use Rattle.block_emission.specs.Whole as made;

use bv_term::Terms;
use c_graph::{Cell, Edge, Graph, LoopAt, Node, NodeId, graph_from};
use lv_base::Memory;
use std::alloc::Global;

/// The graph of these parts; where they make none, the graph that is an error at its entry.
pub fn graph_of(
    alloc: Global,
    nodes: Vec<Node>,
    edges: Vec<Edge>,
    cells: Vec<Cell>,
    terms: Terms,
    entry: NodeId,
    loops: Vec<LoopAt>,
) -> Result<Graph, Memory>
    ensures made { IfOk result (λ g. g ≡ made.whole (flow_of nodes.items edges.items cells.items terms entry loops.items)) }
{
    let _count = terms.count();
    let graph = graph_from(alloc, nodes, edges, cells, terms, entry, loops)?;
    let _entry = graph.entry();
    Ok(graph)
}
