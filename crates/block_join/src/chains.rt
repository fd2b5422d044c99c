//! A graph with joined chains of edges.
ghost use Rattle.std.specs.Prelude.{◌≡◌, ◌⊎◌, IfOk, IsTrue};
ghost use Rattle.c_graph.specs.Parts.{error_flow};
ghost use Rattle.join_laws.specs.Keeping.{KeepsErrors};
ghost use Rattle.join_laws.specs.Visits.{KeepsStores};
ghost use Rattle.block_join.specs.Joined.{ChainsReturn, HasMore, IsChained, Stays};
ghost use Rattle.block_join.specs.Made as made;

use block_emission::{copied_edges, graph_of};
use c_graph::Graph;
use edge_chains::join_chains;
use lv_base::Memory;
use std::alloc::Global;

/// The graph in which chains of edges are one edge each, or the graph itself where these make none.
pub(crate) fn with_chains(alloc: Global, graph: Graph) -> Result<Graph, Memory>
    ensures stays { IfOk result (λ h. Stays graph h) }
    ensures keeps { IfOk result (λ h. KeepsErrors graph h) }
    ensures visits { IfOk result (λ h. KeepsStores graph h) }
    ensures back { IfOk result (λ h. ChainsReturn graph h) }
    ensures made { IfOk result (λ h. h ≡ made.with_chains graph) }
{
    let _entry = graph.entry();
    let joined = joined(alloc, &graph)?;
    if has_more(&joined) {
        Ok(joined)
    } else {
        Ok(graph)
    }
}

/// The graph of a graph's parts with joined chains of edges, or the one that stands where parts make none.
fn joined(alloc: Global, graph: &Graph) -> Result<Graph, Memory>
    ensures joined { IfOk result (λ h. IsChained graph.now h ⊎ (h ≡ error_flow)) }
    ensures made { IfOk result (λ h. h ≡ made.chained graph.now) }
{
    let nodes = graph.nodes().to_vec(alloc)?;
    let edges = copied_edges(alloc, graph.edges())?;
    let entry = graph.entry();
    let loops = graph.loops().to_vec(alloc)?;
    let cells = graph.cells().to_vec(alloc)?;
    let terms = graph.terms().copy()?;
    let joined = join_chains(alloc, &nodes, edges, entry, &loops)?;
    graph_of(alloc, nodes, joined, cells, terms, entry, loops)
}

/// Whether a graph has more than the one that stands where parts make none, which is a node alone.
fn has_more(graph: &Graph) -> bool
    ensures more { IsTrue result → HasMore graph.now }
    ensures made { result ≡ made.has_more graph.now }
{
    if graph.nodes().len() > 1 {
        return true;
    }
    if graph.edges().len() > 0 {
        return true;
    }
    graph.cells().len() > 0
}
