//! The nodes of all copies.
ghost use Rattle.std.specs.Prelude.{◌≡◌, IfOk, slice_set};
ghost use Rattle.call_inline.specs.Copying.{copied_nodes, copy_lays, lists_of, plain_if, written};

use crate::edges::goal_at;
use crate::numbers::{Copied, nodes_of, number};
use c_graph::{FnGraphs, Node, NodeId};
use lv_base::Memory;
use std::alloc::Global;

/// The nodes of the copies, each at its number.
pub(crate) fn nodes_of_all(
    alloc: Global,
    graphs: &FnGraphs,
    offsets: &[Vec<u32>],
    copies: &[Copied],
    size: usize,
) -> Result<Vec<Node>, Memory>
    ensures { IfOk result (λ r. r.items ≡ copied_nodes graphs.now (lists_of offsets.now) copies.now size) }
{
    let mut nodes = vec![in alloc; Node::End; size]?;
    for number in 0..copies.len() {
        set_nodes(graphs, offsets, copies[number], &mut nodes);
    }
    Ok(nodes)
}

/// The nodes of one copy.
fn set_nodes(graphs: &FnGraphs, offsets: &[Vec<u32>], copied: Copied, nodes: &mut Vec<Node>)
    ensures { nodes.new.items ≡ written nodes.old.items (copy_lays graphs.now (lists_of offsets.now) copied) }
{
    let own = nodes_of(graphs, copied.function);
    for at in 0..own.len() {
        let here = number(offsets, copied, NodeId(at as u32));
        let goal = goal_at(graphs, offsets, copied, at as u32, own[at]);
        set(here, plain_where(goal, own[at]), nodes);
    }
}

/// A node that leads on without doing anything is plain.
fn plain_where(goal: Option<NodeId>, node: Node) -> Node
    ensures { result ≡ plain_if goal node }
{
    match goal {
        None => node,
        Some(_) => Node::Plain,
    }
}

fn set(at: NodeId, node: Node, nodes: &mut Vec<Node>)
    ensures { nodes.new.items ≡ slice_set nodes.old.items at.0 node }
{
    if (at.0 as usize) < nodes.len() {
        nodes[at.0 as usize] = node;
    }
}
