//! The list of all copies: each call in one of them has its own.
ghost use Rattle.std.specs.Prelude.{◌≡◌, ◌++◌, IfOk, OnOk, slice_get};
ghost use Rattle.call_inline.specs.Copying.{called, calls_in, calls_in_any, calls_of, copies_after, lists_of};

use crate::numbers::{Copied, main_of, nodes_of, number};
use c_graph::{FnGraphs, Node, NodeId};
use lv_base::Memory;
use std::alloc::Global;

/// The copies, that of `main` first; the calls of so many of them are followed.
pub(crate) fn copies_of(
    alloc: Global,
    graphs: &FnGraphs,
    offsets: &[Vec<u32>],
    most: usize,
) -> Result<Vec<Copied>, Memory>
    ensures { IfOk result (λ r. r.items ≡ copies_after graphs.now (lists_of offsets.now) most) }
{
    let mut copies = Vec::new(alloc);
    copies.push(main_of(graphs))?;
    for number in 0..most {
        follow(graphs, offsets, number, &mut copies)?;
    }
    Ok(copies)
}

/// Adds the copies for the calls of one copy, if it is there.
fn follow(
    graphs: &FnGraphs,
    offsets: &[Vec<u32>],
    number: usize,
    copies: &mut Vec<Copied>,
) -> Result<(), Memory>
    ensures { OnOk result (copies.new.items ≡ copies.old.items ++ calls_in_any graphs.now (lists_of offsets.now) (slice_get copies.old.items number)) }
{
    if number >= copies.len() {
        return Ok(());
    }
    let copied = copies[number];
    push_calls(graphs, offsets, copied, copies)
}

/// Adds the copies for the calls in a copy.
fn push_calls(
    graphs: &FnGraphs,
    offsets: &[Vec<u32>],
    copied: Copied,
    copies: &mut Vec<Copied>,
) -> Result<(), Memory>
    ensures { OnOk result (copies.new.items ≡ copies.old.items ++ calls_in graphs.now (lists_of offsets.now) copied) }
{
    let nodes = nodes_of(graphs, copied.function);
    for at in 0..nodes.len() {
        push_call(offsets, copied, at as u32, nodes[at], copies)?;
    }
    Ok(())
}

/// Adds the copy for a node that is a call.
fn push_call(
    offsets: &[Vec<u32>],
    copied: Copied,
    at: u32,
    node: Node,
    copies: &mut Vec<Copied>,
) -> Result<(), Memory>
    ensures { OnOk result (copies.new.items ≡ copies.old.items ++ calls_of (lists_of offsets.now) copied at node) }
{
    match node {
        Node::Call(callee, next) => {
            copies.push(call_copy(offsets, copied, at, callee, next))?;
            Ok(())
        }
        Node::Plain | Node::Error(_, _) | Node::End => Ok(()),
    }
}

/// The copy for a call that stands at this number in a copy.
pub(crate) fn call_copy(
    offsets: &[Vec<u32>],
    copied: Copied,
    at: u32,
    callee: u32,
    next: NodeId,
) -> Copied
    ensures { result ≡ called (lists_of offsets.now) copied at callee next }
{
    let here = number(offsets, copied, NodeId(at));
    Copied {
        function: callee,
        base: here.0.saturating_add(1),
        back: Some(number(offsets, copied, next)),
    }
}
