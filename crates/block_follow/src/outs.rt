//! All edges that lead from a node.
ghost use Rattle.std.specs.Prelude.{ℕ, ◌≡◌, ◌<◌, ◌≤◌, ◌⊎◌, IfOk, IsTrue, Some, slice_get};
ghost use Rattle.c_graph.specs.declared.graph.EdgeId.{EdgeId};
ghost use Rattle.c_graph.specs.declared.graph.Node.TheVariants.{End};
ghost use Rattle.block_follow.specs.Following.{AreOver, AreWithin, IsOver};
ghost use Rattle.block_follow.specs.Made as made;

use c_graph::{EdgeId, Graph, Node, NodeId};
use lv_base::Memory;
use std::alloc::Global;

/// Whether the edges that lead from a node have numbers from the first on, up to the end.
pub(crate) fn are_within(
    alloc: Global,
    graph: &Graph,
    node: u32,
    first: usize,
    end: usize,
) -> Result<bool, Memory>
    ensures tells { IfOk result (λ b. IsTrue b → AreWithin graph.now node first end) }
    ensures made { IfOk result (λ b. b ≡ made.are_within graph.now node first end) }
{
    let numbers = graph.outs(alloc, NodeId(node))?;
    Ok(all_within(&numbers, first, end))
}

fn all_within(numbers: &[EdgeId], first: usize, end: usize) -> bool
    ensures tells { IsTrue result → (j : ℕ) (id : EdgeId) → slice_get numbers.now j ≡ Some id → (first ≤ id.0) × (id.0 < end) }
    ensures made { result ≡ made.all_within numbers.now first end }
{
    for number in 0..numbers.len() {
        if !is_within(numbers[number].0 as usize, first, end) {
            return false;
        }
    }
    true
}

fn is_within(number: usize, first: usize, end: usize) -> bool
    ensures tells { IsTrue result → (first ≤ number) × (number < end) }
    ensures made { result ≡ made.is_within number first end }
{
    first <= number && number < end
}

/// Whether each edge that leads from a node leads to an end, or back to the node.
pub(crate) fn are_over(alloc: Global, graph: &Graph, node: u32) -> Result<bool, Memory>
    ensures tells { IfOk result (λ b. IsTrue b → AreOver graph.now node) }
    ensures made { IfOk result (λ b. b ≡ made.are_over graph.now node) }
{
    let numbers = graph.outs(alloc, NodeId(node))?;
    Ok(all_over(graph, node, &numbers))
}

fn all_over(graph: &Graph, node: u32, numbers: &[EdgeId]) -> bool
    ensures tells { IsTrue result → (j : ℕ) (id : EdgeId) → slice_get numbers.now j ≡ Some id → IsOver graph.now node id.0 }
    ensures made { result ≡ made.all_over graph.now node numbers.now }
{
    for number in 0..numbers.len() {
        if !is_over(graph, node, numbers[number].0 as usize) {
            return false;
        }
    }
    true
}

fn is_over(graph: &Graph, node: u32, number: usize) -> bool
    ensures tells { IsTrue result → IsOver graph.now node number }
    ensures made { result ≡ made.is_over graph.now node number }
{
    let edges = graph.edges();
    if number >= edges.len() {
        return true;
    }
    is_end(graph, edges[number].to.0, node)
}

/// Whether a node is an end, or this node.
fn is_end(graph: &Graph, found: u32, node: u32) -> bool
    ensures tells { IsTrue result → (slice_get graph.now.nodes found ≡ Some End) ⊎ (found ≡ node) }
    ensures made { result ≡ made.is_end graph.now found node }
{
    match graph.nodes().get(found as usize) {
        Some(Node::End) => true,
        _ => found == node,
    }
}
