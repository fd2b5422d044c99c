//! Ways out of a node, guessed by the first operations of its edges and the nodes to which they lead.

ghost use Rattle.std.specs.Prelude.{◌≡◌};
ghost use Rattle.block_places.specs.Made as made;

use bv_term::TermId;
use c_graph::{Edge, EdgeId, Graph, Node, NodeId, Operation};
use walk_states::{Way, Ways};

/// An edge as a way out: the term that it tests first, if it does, the way behind that, and whether it leads to an error.
#[derive(Clone, Copy)]
struct Exit {
    test: Option<TermId>,
    way: Way,
    is_failure: bool,
}

fn leads_to_error(graph: &Graph, node: NodeId) -> bool
    ensures made { result ≡ made.leads_to_error graph.now node }
{
    match graph.nodes().get(node.0 as usize) {
        Some(Node::Error(_, _)) => true,
        _ => false,
    }
}

fn first_test(ops: &[Operation]) -> Option<TermId>
    ensures made { result ≡ made.first_test ops.now }
{
    match ops.first() {
        Some(Operation::Assume(term)) => Some(*term),
        _ => None,
    }
}

// How many operations an edge has before those of its way.
fn skip_of(test: Option<TermId>) -> usize
    ensures made { result ≡ made.skip_of test }
{
    match test {
        None => 0,
        Some(_) => 1,
    }
}

fn exit_on(graph: &Graph, edge_at: usize, edge: &Edge) -> Exit
    ensures made { result ≡ made.exit_on graph.now edge_at edge.now }
{
    let test = first_test(edge.ops.as_slice());
    Exit {
        test,
        way: Way {
            to: edge.to.0,
            edge_at,
            skip: skip_of(test),
        },
        is_failure: leads_to_error(graph, edge.to),
    }
}

fn exit_of(graph: &Graph, number: EdgeId) -> Option<Exit>
    ensures made { result ≡ made.exit_of graph.now number }
{
    let edge_at = number.0 as usize;
    match graph.edges().get(edge_at) {
        None => None,
        Some(edge) => Some(exit_on(graph, edge_at, edge)),
    }
}

fn one_way(exit: Exit) -> Ways
    ensures made { result ≡ made.one_way exit }
{
    match exit.test {
        None => Ways::Goes(exit.way),
        Some(test) => Ways::Tested(test, exit.way),
    }
}

// The order of the edges stays, but an error that only one of them leads to comes first.
fn two_ways(first: Exit, second: Exit) -> Option<Ways>
    ensures made { result ≡ made.two_ways first second }
{
    let (Some(test), Some(other)) = (first.test, second.test) else {
        return None;
    };
    let ways = match (first.is_failure, second.is_failure) {
        (true, true) => Ways::Fails(test, first.way.to, other, second.way.to),
        (true, false) => Ways::Checked(test, first.way.to, other, second.way),
        (false, true) => Ways::Checked(other, second.way.to, test, first.way),
        (false, false) => Ways::Forks(test, first.way.to, other, second.way.to),
    };
    Some(ways)
}

/// The ways that these edges, all that lead from a node, may be.
pub(crate) fn guess(graph: &Graph, outs: &[EdgeId]) -> Option<Ways>
    ensures made { result ≡ made.guess graph.now outs.now }
{
    match outs {
        [only] => {
            let exit = exit_of(graph, *only)?;
            Some(one_way(exit))
        }
        [first, second] => {
            let one = exit_of(graph, *first)?;
            let other = exit_of(graph, *second)?;
            two_ways(one, other)
        }
        _ => None,
    }
}
