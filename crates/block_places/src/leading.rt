//! Ways out of a node that are edges of the graph.
ghost use Rattle.std.specs.Prelude.{◌≡◌, [], ◌∷◌, IsTrue};
ghost use Rattle.c_graph.specs.declared.graph.Operation.TheVariants.{Assume};
ghost use Rattle.block_edges.specs.Exact.{Leaves};
ghost use Rattle.walk_states.specs.Walks.{moves_of};
ghost use Rattle.block_places.specs.Covering.{AreLeading};
ghost use Rattle.block_places.specs.Made as made;

use crate::edges::{is_bare, is_behind, is_whole};
use block_steps::leads_from;
use bv_term::TermId;
use c_graph::{EdgeId, Graph};
use walk_states::{Way, Ways};

/// Whether an edge leads from the node that is the way.
fn has_whole(graph: &Graph, node: u32, way: Way) -> bool
    ensures tells { IsTrue result → Leaves graph.now node (moves_of graph.now way) way.to }
    ensures made { result ≡ made.has_whole graph.now node way }
{
    leads_from(graph, way.edge_at, node) && is_whole(graph, way.edge_at, way)
}

/// Whether an edge leads from the node that tests the term, and behind that is the way.
fn has_behind(graph: &Graph, node: u32, test: TermId, way: Way) -> bool
    ensures tells { IsTrue result → Leaves graph.now node (Assume test ∷ moves_of graph.now way) way.to }
    ensures made { result ≡ made.has_behind graph.now node test way }
{
    leads_from(graph, way.edge_at, node) && is_behind(graph, way.edge_at, test, way)
}

/// Whether the edge of a number leads from the node, tests the term, does nothing more, and leads there.
fn is_bare_from(graph: &Graph, node: u32, number: usize, test: TermId, to: u32) -> bool
    ensures tells { IsTrue result → Leaves graph.now node (Assume test ∷ []) to }
    ensures made { result ≡ made.is_bare_from graph.now node number test to }
{
    leads_from(graph, number, node) && is_bare(graph, number, test, to)
}

/// Whether one of these edges leads from the node, tests the term, does nothing more, and leads there.
fn has_bare(graph: &Graph, node: u32, outs: &[EdgeId], test: TermId, to: u32) -> bool
    ensures tells { IsTrue result → Leaves graph.now node (Assume test ∷ []) to }
    ensures made { result ≡ made.has_bare graph.now node outs.now test to }
{
    for number in 0..outs.len() {
        if is_bare_from(graph, node, outs[number].0 as usize, test, to) {
            return true;
        }
    }
    false
}

/// Whether each of the ways is one of these edges, and leads from the node.
pub(crate) fn are_leading(graph: &Graph, node: u32, ways: Ways, outs: &[EdgeId]) -> bool
    ensures tells { IsTrue result → AreLeading graph.now node ways }
    ensures made { result ≡ made.are_leading graph.now node ways outs.now }
{
    match ways {
        Ways::Goes(way) => has_whole(graph, node, way),
        Ways::Tested(test, way) => has_behind(graph, node, test, way),
        Ways::Checked(fails, error, passes, way) => {
            has_bare(graph, node, outs, fails, error) && has_behind(graph, node, passes, way)
        }
        Ways::Fails(test, one, others, other) | Ways::Forks(test, one, others, other) => {
            has_bare(graph, node, outs, test, one) && has_bare(graph, node, outs, others, other)
        }
    }
}
