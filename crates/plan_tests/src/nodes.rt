//! Nodes that are reached, and nodes that are alive, along the edges; and nodes of loops.
ghost use Rattle.std.specs.Prelude.{◌≡◌, IsTrue, true};
ghost use Rattle.plan_tables.specs.Tables.{flag_at};
ghost use Rattle.walk_states.specs.Known.{plan_of};
ghost use Rattle.plan_tests.specs.Made as made;
ghost use Rattle.plan_tests.specs.Nodes.{AreListed, AreSteps, AreWatched, IsListed, IsStep, IsWatched};

use c_graph::{Edge, Graph, LoopAt, Node, NodeId};
use plan_tables::Flags;
use walk_states::Known;

/// Whether along each edge what is reached leads to what is reached, and what is alive is led to by what is.
pub(crate) fn are_steps(known: &Known, edges: &[Edge]) -> bool
    ensures tells { IsTrue result → AreSteps known.now edges.now }
    ensures made { result ≡ made.are_steps known.now edges.now }
{
    for number in 0..edges.len() {
        if !is_step(known, &edges[number]) {
            return false;
        }
    }
    true
}

fn is_step(known: &Known, edge: &Edge) -> bool
    ensures tells { IsTrue result → IsStep known.now edge.now.from.0 edge.now.to.0 }
    ensures made { result ≡ made.is_step known.now edge.now }
{
    leads(&known.reached, edge.from.0, edge.to.0) && leads(&known.alive, edge.to.0, edge.from.0)
}

/// Whether the second number's truth is true where the first one's is.
fn leads(flags: &Flags, from: u32, to: u32) -> bool
    ensures tells { IsTrue result → flag_at flags.now from ≡ true → flag_at flags.now to ≡ true }
    ensures made { result ≡ made.leads flags.now from to }
{
    !flags.get(from) || flags.get(to)
}

/// Whether each error node is alive.
pub(crate) fn are_watched(known: &Known, graph: &Graph) -> bool
    ensures tells { IsTrue result → AreWatched known.now graph.now.nodes }
    ensures made { result ≡ made.are_watched known.now graph.now }
{
    let nodes = graph.nodes();
    for number in 0..nodes.len() {
        if !is_watched(known, nodes[number], number as u32) {
            return false;
        }
    }
    true
}

fn is_watched(known: &Known, node: Node, number: u32) -> bool
    ensures tells { IsTrue result → IsWatched node (flag_at known.now.alive number) }
    ensures made { result ≡ made.is_watched known.now number node }
{
    match node {
        Node::Error(_, _) => known.alive.get(number),
        Node::Plain | Node::End | Node::Call(_, _) => true,
    }
}

/// Whether each loop's node is a cut point, and alive.
pub(crate) fn are_listed(known: &Known, loops: &[LoopAt]) -> bool
    ensures tells { IsTrue result → AreListed (plan_of known.now) loops.now }
    ensures made { result ≡ made.are_listed known.now loops.now }
{
    for number in 0..loops.len() {
        if !is_listed(known, loops[number].node) {
            return false;
        }
    }
    true
}

fn is_listed(known: &Known, node: NodeId) -> bool
    ensures tells { IsTrue result → IsListed (plan_of known.now) node }
    ensures made { result ≡ made.is_listed known.now node }
{
    known.cuts.get(node.0) && known.alive.get(node.0)
}
