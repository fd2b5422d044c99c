//! The edges of all copies.
ghost use Rattle.std.specs.Prelude.{◌≡◌, ◌++◌, IfOk, OnOk, map, slice_get};
ghost use Rattle.call_inline.specs.Inlining.{edges_in, nodes_in};
ghost use Rattle.call_inline.specs.Copying.{all_edges, copy_edges, each_from, goal_of, is_at, leads_of, led, lists_of, moved};

use crate::copies::call_copy;
use crate::numbers::{Copied, edges_of, entry_of, nodes_of, number};
use c_graph::{Edge, FnGraphs, Node, NodeId, Operations};
use lv_base::Memory;
use std::alloc::Global;

/// The edges of the copies, in their order.
pub(crate) fn edges_of_all(
    alloc: Global,
    graphs: &FnGraphs,
    offsets: &[Vec<u32>],
    copies: &[Copied],
) -> Result<Vec<Edge>, Memory>
    ensures { IfOk result (λ r. r.items ≡ all_edges graphs.now (lists_of offsets.now) copies.now) }
{
    let mut edges = Vec::new(alloc);
    for number in 0..copies.len() {
        push_copy(alloc, graphs, offsets, copies[number], &mut edges)?;
    }
    Ok(edges)
}

/// Adds the edges of a copy: those that lead into and out of copies first.
fn push_copy(
    alloc: Global,
    graphs: &FnGraphs,
    offsets: &[Vec<u32>],
    copied: Copied,
    edges: &mut Vec<Edge>,
) -> Result<(), Memory>
    ensures { OnOk result (edges.new.items ≡ edges.old.items ++ copy_edges graphs.now (lists_of offsets.now) copied) }
{
    push_leads(alloc, graphs, offsets, copied, edges)?;
    push_moved(alloc, graphs, offsets, copied, edges)
}

fn push_leads(
    alloc: Global,
    graphs: &FnGraphs,
    offsets: &[Vec<u32>],
    copied: Copied,
    edges: &mut Vec<Edge>,
) -> Result<(), Memory>
    ensures { OnOk result (edges.new.items ≡ edges.old.items ++ each_from (leads_of graphs.now (lists_of offsets.now) copied) 0 (nodes_in graphs.now copied.function)) }
{
    let nodes = nodes_of(graphs, copied.function);
    for at in 0..nodes.len() {
        let here = number(offsets, copied, NodeId(at as u32));
        let goal = goal_at(graphs, offsets, copied, at as u32, nodes[at]);
        push_lead(alloc, here, goal, edges)?;
    }
    Ok(())
}

/// Where a node of a copy leads without doing anything: a call to the first node of its own copy, an exit to where the copy goes on.
pub(crate) fn goal_at(
    graphs: &FnGraphs,
    offsets: &[Vec<u32>],
    copied: Copied,
    at: u32,
    node: Node,
) -> Option<NodeId>
    ensures { result ≡ goal_of graphs.now (lists_of offsets.now) copied at node }
{
    match node {
        Node::Call(callee, next) => {
            let inner = call_copy(offsets, copied, at, callee, next);
            Some(number(offsets, inner, entry_of(graphs, callee)))
        }
        Node::End => {
            if is_exit(graphs, copied.function, at) {
                copied.back
            } else {
                None
            }
        }
        Node::Plain | Node::Error(_, _) => None,
    }
}

/// Whether a function returns at a node.
fn is_exit(graphs: &FnGraphs, function: u32, at: u32) -> bool
    ensures { result ≡ is_at (slice_get graphs.now.exits function) at }
{
    match graphs.exits().get(function as usize) {
        None => false,
        Some(exit) => exit.0 == at,
    }
}

/// Adds an edge that does nothing, if there is a goal.
fn push_lead(
    alloc: Global,
    from: NodeId,
    goal: Option<NodeId>,
    edges: &mut Vec<Edge>,
) -> Result<(), Memory>
    ensures { OnOk result (edges.new.items ≡ edges.old.items ++ led from goal) }
{
    match goal {
        None => Ok(()),
        Some(to) => {
            edges.push(Edge {
                from,
                to,
                ops: Operations::new(Vec::new(alloc)),
            })?;
            Ok(())
        }
    }
}

/// Adds the edges of a copy's function.
fn push_moved(
    alloc: Global,
    graphs: &FnGraphs,
    offsets: &[Vec<u32>],
    copied: Copied,
    edges: &mut Vec<Edge>,
) -> Result<(), Memory>
    ensures { OnOk result (edges.new.items ≡ edges.old.items ++ map (moved (lists_of offsets.now) copied) (edges_in graphs.now copied.function)) }
{
    let own = edges_of(graphs, copied.function);
    for number in 0..own.len() {
        let edge = moved_edge(alloc, offsets, copied, &own[number])?;
        edges.push(edge)?;
    }
    Ok(())
}

/// An edge of a copy's function in the copy.
fn moved_edge(
    alloc: Global,
    offsets: &[Vec<u32>],
    copied: Copied,
    edge: &Edge,
) -> Result<Edge, Memory>
    ensures { IfOk result (λ r. r ≡ moved (lists_of offsets.now) copied edge.now) }
{
    Ok(Edge {
        from: number(offsets, copied, edge.from),
        to: number(offsets, copied, edge.to),
        ops: Operations::new(edge.ops.as_slice().to_vec(alloc)?),
    })
}
