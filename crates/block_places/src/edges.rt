//! Edges compared with ways out of a node.
ghost use Rattle.std.specs.Prelude.{◌≡◌, [], ◌∷◌, IsTrue, Some, drop, slice_get};
ghost use Rattle.c_graph.specs.declared.graph.Operation.TheVariants.{Assume};
ghost use Rattle.block_rule.specs.Plans.{IsWay};
ghost use Rattle.walk_states.specs.Walks.{moves_of};
ghost use Rattle.block_places.specs.Covering.{AreCovered, IsCovered, Leads};
ghost use Rattle.block_places.specs.Made as made;

use bv_term::TermId;
use c_graph::{Edge, EdgeId, Graph, Operation};
use walk_states::{Way, Ways};

fn is_test(operation: Operation, test: TermId) -> bool
    ensures tells { IsTrue result → operation ≡ Assume test }
    ensures made { result ≡ made.is_test operation test }
{
    match operation {
        Operation::Assume(term) => term.0 == test.0,
        Operation::Set(_, _) | Operation::SetAt(_, _, _, _) | Operation::Draw(_, _) => false,
    }
}

fn tests_first(ops: &[Operation], test: TermId) -> bool
    ensures tells { IsTrue result → slice_get ops.now 0 ≡ Some (Assume test) }
    ensures made { result ≡ made.tests_first ops.now test }
{
    if ops.is_empty() {
        return false;
    }
    is_test(ops[0], test)
}

fn are_test(ops: &[Operation], test: TermId) -> bool
    ensures tells { IsTrue result → ops.now ≡ Assume test ∷ [] }
    ensures made { result ≡ made.are_test ops.now test }
{
    ops.len() == 1 && tests_first(ops, test)
}

/// Whether the edge tests the term, does nothing more, and leads there.
fn only_tests(edge: &Edge, test: TermId, to: u32) -> bool
    ensures tells { IsTrue result → IsWay edge.now (Assume test ∷ []) to }
    ensures made { result ≡ made.only_tests test to edge.now }
{
    edge.to.0 == to && are_test(edge.ops.as_slice(), test)
}

/// Whether the edge tests the term first, and leads there.
fn begins(edge: &Edge, test: TermId, to: u32) -> bool
    ensures tells { IsTrue result → IsWay edge.now (Assume test ∷ drop 1 edge.now.ops) to }
    ensures made { result ≡ made.begins test to edge.now }
{
    edge.to.0 == to && tests_first(edge.ops.as_slice(), test)
}

/// Whether the edge of a number tests the term, does nothing more, and leads there.
pub(crate) fn is_bare(graph: &Graph, number: usize, test: TermId, to: u32) -> bool
    ensures tells { IsTrue result → Leads graph.now number (Assume test ∷ []) to }
    ensures made { result ≡ made.is_bare graph.now number test to }
{
    let edges = graph.edges();
    if number >= edges.len() {
        return false;
    }
    only_tests(&edges[number], test, to)
}

/// Whether the edge of a number tests the term, and behind that is the way.
pub(crate) fn is_behind(graph: &Graph, number: usize, test: TermId, way: Way) -> bool
    ensures tells { IsTrue result → Leads graph.now number (Assume test ∷ moves_of graph.now way) way.to }
    ensures made { result ≡ made.is_behind graph.now number test way }
{
    let edges = graph.edges();
    if number >= edges.len() || way.edge_at != number || way.skip != 1 {
        return false;
    }
    begins(&edges[number], test, way.to)
}

/// Whether the edge of a number is the way.
pub(crate) fn is_whole(graph: &Graph, number: usize, way: Way) -> bool
    ensures tells { IsTrue result → Leads graph.now number (moves_of graph.now way) way.to }
    ensures made { result ≡ made.is_whole graph.now number way }
{
    let edges = graph.edges();
    if number >= edges.len() || way.edge_at != number || way.skip != 0 {
        return false;
    }
    edges[number].to.0 == way.to
}

/// Whether the edge of a number is one of the ways.
fn is_covered(graph: &Graph, ways: Ways, number: usize) -> bool
    ensures tells { IsTrue result → IsCovered graph.now ways number }
    ensures made { result ≡ made.is_covered graph.now ways number }
{
    match ways {
        Ways::Goes(way) => is_whole(graph, number, way),
        Ways::Tested(test, way) => is_behind(graph, number, test, way),
        Ways::Checked(fails, error, passes, way) => {
            is_bare(graph, number, fails, error) || is_behind(graph, number, passes, way)
        }
        Ways::Fails(test, one, others, other) | Ways::Forks(test, one, others, other) => {
            is_bare(graph, number, test, one) || is_bare(graph, number, others, other)
        }
    }
}

/// Whether each of these edges is one of the ways.
pub(crate) fn are_covered(graph: &Graph, ways: Ways, outs: &[EdgeId]) -> bool
    ensures tells { IsTrue result → AreCovered graph.now ways outs.now }
    ensures made { result ≡ made.are_covered graph.now ways outs.now }
{
    for number in 0..outs.len() {
        if !is_covered(graph, ways, outs[number].0 as usize) {
            return false;
        }
    }
    true
}
