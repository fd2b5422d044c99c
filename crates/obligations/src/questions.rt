//! The obligations of a graph, by number.
ghost use Rattle.std.specs.Prelude.{◌≡◌, ◌<◌, ◌≤◌, ◌+◌, length};
ghost use Rattle.obligations.specs.Questions.{IsThere, count_of, error_at, errors_from, is_error, question_of};

use c_graph::{EdgeId, Graph, Node, NodeId, edge_count};

/// What an obligation says.
#[derive(Clone, Copy, PartialEq, Eq, Debug)]
pub enum Question {
    /// The entry's formula holds in every store.
    Entry,
    /// The edge leads from a store that meets the formula at its start only to stores that meet the formula at its end.
    Edge(EdgeId),
    /// No store meets the formula of the error node.
    Error(NodeId),
}

fn is_error(node: Node) -> bool
    ensures { result ≡ is_error node }
{
    match node {
        Node::Error(_, _) => true,
        Node::Plain | Node::End | Node::Call(_, _) => false,
    }
}

// How many error nodes there are.
fn error_count(nodes: &[Node]) -> u32
    requires { length nodes.now < 4294967296 }
    ensures count { result ≡ length (errors_from 0 nodes.now) }
    ensures few { result ≤ length nodes.now }
{
    let mut count = 0;
    for node in nodes {
        if is_error(*node) {
            count += 1;
        }
    }
    count
}

// The error node with so many before it.
fn find_error(nodes: &[Node], before: u32) -> NodeId
    requires few { length nodes.now < 4294967296 }
    requires there { before < length (errors_from 0 nodes.now) }
    ensures error { result ≡ error_at nodes.now before }
    ensures there { result.0 < length nodes.now }
{
    let mut left = before;
    for (number, node) in nodes.iter().enumerate() {
        if is_error(*node) {
            if left == 0 {
                return NodeId(number as u32);
            }
            left -= 1;
        }
    }
    unreachable!()
}

/// How many obligations a map of the graph has: one for the entry, one for each edge, and one for each error node. It takes no
/// memory.
pub fn obligation_count(graph: &Graph) -> u32
    ensures count { result ≡ count_of graph.now }
    ensures few { result ≤ 2147483648 }
{
    let errors = error_count(graph.nodes());
    1 + edge_count(graph) + errors
}

/// The obligation of a number. It takes no memory.
pub fn question_at(graph: &Graph, number: u32) -> Question
    requires { number < count_of graph.now }
    ensures question { result ≡ question_of graph.now number }
    ensures there { IsThere graph.now result }
{
    if number == 0 {
        return Question::Entry;
    }
    let edges = edge_count(graph);
    let place = number - 1;
    if place < edges {
        Question::Edge(EdgeId(place))
    } else {
        Question::Error(find_error(graph.nodes(), place - edges))
    }
}
