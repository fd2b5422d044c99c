//! All edges that lead from a node.
ghost use Rattle.block_steps.specs.Made as made;
ghost use Rattle.std.specs.Prelude.{ℕ, ◌≡◌, ◌⊎◌, IfOk, IsTrue, Some, slice_get};
ghost use Rattle.c_graph.specs.declared.graph.EdgeId.{EdgeId};
ghost use Rattle.c_graph.specs.declared.graph.Node.TheVariants.{Plain};
ghost use Rattle.block_steps.specs.Cursors.{AreSides};

use c_graph::{EdgeId, Graph, Node, NodeId};
use lv_base::Memory;
use std::alloc::Global;

/// Whether a node is there, and plain.
pub fn is_plain(graph: &Graph, node: u32) -> bool
    ensures means { IsTrue result → slice_get graph.now.nodes node ≡ Some Plain }
    ensures made { result ≡ made.is_plain graph.now node }
{
    match graph.nodes().get(node as usize) {
        Some(Node::Plain) => true,
        _ => false,
    }
}

/// Whether a node is plain, and the edges of these two numbers are all that lead from it, if they do.
pub fn are_sides(
    alloc: Global,
    graph: &Graph,
    node: u32,
    one: usize,
    other: usize,
) -> Result<bool, Memory>
    ensures means { IfOk result (λ b. IsTrue b → AreSides graph.now node one other) }
    ensures made { IfOk result (λ b. b ≡ made.are_sides graph.now node one other) }
{
    if !is_plain(graph, node) {
        return Ok(false);
    }
    let numbers = graph.outs(alloc, NodeId(node))?;
    Ok(are_among(&numbers, one, other))
}

fn are_among(numbers: &[EdgeId], one: usize, other: usize) -> bool
    ensures means { IsTrue result → (j : ℕ) (id : EdgeId) → slice_get numbers.now j ≡ Some id → (id.0 ≡ one) ⊎ (id.0 ≡ other) }
    ensures made { result ≡ made.are_among numbers.now one other }
{
    for number in 0..numbers.len() {
        if !is_either(numbers[number].0 as usize, one, other) {
            return false;
        }
    }
    true
}

fn is_either(number: usize, one: usize, other: usize) -> bool
    ensures means { IsTrue result → (number ≡ one) ⊎ (number ≡ other) }
    ensures made { result ≡ made.is_either number one other }
{
    number == one || number == other
}
