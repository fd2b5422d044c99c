//! Whether a node has the edges that it had.
ghost use Rattle.std.specs.Prelude.{◌≡◌, IfOk, IfSome, IsTrue, None};
ghost use Rattle.truth_terms.specs.Truths.{Grew};
ghost use Rattle.block_rule.specs.Blocked.{plain_deeds};
ghost use Rattle.block_edges.specs.Exact.{HasKept};
ghost use Rattle.block_rule.specs.Deeds.{Code, Does, Leading};
ghost use Rattle.block_rule.specs.Rule.{guarded};
ghost use Rattle.block_steps.specs.Cursors.{Meets};
ghost use Rattle.walk_states.specs.Known.{plan_of};
ghost use Rattle.block_follow.specs.Following.{AreCopies, AreKept, AreMade, IsKept, IsKeptEdge, IsSame, straight};
ghost use Rattle.block_follow.specs.Made as made;

use crate::outs::are_within;
use block_steps::{Cursor, Test, assumes, ends, leads_from, stores};
use bv_term::Terms;
use c_graph::{Edge, EdgeId, Graph, NodeId, Operation};
use lv_base::Memory;
use std::alloc::Global;
use walk_states::{Known, matters};

/// Whether the edges of a node that lead to nodes that matter lead to cut points, and stand in the other graph one behind the other,
/// the first having this number, and no other edges lead from the node there.
pub(crate) fn keeps(
    alloc: Global,
    old: &Graph,
    new: &Graph,
    known: &Known,
    node: u32,
    first: usize,
) -> Result<bool, Memory>
    requires { Grew old.now.terms new.now.terms }
    ensures tells { IfOk result (λ b. IsTrue b → HasKept old.now new.now (plan_of known.now) node) }
    ensures made { IfOk result (λ b. b ≡ made.keeps old.now new.now known.now node first) }
{
    let outs = old.outs(alloc, NodeId(node))?;
    match kept_until(old, new, known, node, first, &outs) {
        None => Ok(false),
        Some(end) => are_within(alloc, new, node, first, end),
    }
}

/// The number behind those of a node's edges that are kept, the first having this number.
fn kept_until(
    old: &Graph,
    new: &Graph,
    known: &Known,
    node: u32,
    first: usize,
    outs: &[EdgeId],
) -> Option<usize>
    requires { Grew old.now.terms new.now.terms }
    ensures kept { IfSome result (λ n. AreKept old.now new.now (plan_of known.now) node outs.now) }
    ensures made { IfSome result (λ n. AreMade old.now new.now (plan_of known.now) node first n) }
    ensures one { result ≡ made.kept_until old.now new.now known.now node first outs.now }
{
    let mut at = first;
    for number in 0..outs.len() {
        let Some(next) = kept_at(old, new, known, node, outs[number], at) else {
            return None;
        };
        at = next;
    }
    Some(at)
}

/// The number behind that of an edge that is kept, or the same number where the edge leads to a node that does not matter.
fn kept_at(
    old: &Graph,
    new: &Graph,
    known: &Known,
    node: u32,
    edge: EdgeId,
    at: usize,
) -> Option<usize>
    requires { Grew old.now.terms new.now.terms }
    ensures kept { IfSome result (λ n. IsKept old.now new.now (plan_of known.now) node edge.0) }
    ensures made { IfSome result (λ n. AreMade old.now new.now (plan_of known.now) node at n) }
    ensures one { result ≡ made.kept_at old.now new.now known.now node edge at }
{
    let edges = old.edges();
    let number = edge.0 as usize;
    if number >= edges.len() {
        return None;
    }
    kept_edge(old, new, known, node, &edges[number], at)
}

fn kept_edge(
    old: &Graph,
    new: &Graph,
    known: &Known,
    node: u32,
    edge: &Edge,
    at: usize,
) -> Option<usize>
    requires { Grew old.now.terms new.now.terms }
    ensures kept { IfSome result (λ n. IsKeptEdge old.now new.now (plan_of known.now) node edge.now) }
    ensures copies { IfSome result (λ n. AreCopies old.now new.now (plan_of known.now) node edge.now at n) }
    ensures one { result ≡ made.kept_edge old.now new.now known.now node edge.now at }
{
    if !matters(known, edge.to.0) {
        return Some(at);
    }
    if !known.cuts.get(edge.to.0) || edge.from.0 != node {
        return None;
    }
    if !is_same_edge(old, new, node, edge, at) {
        return None;
    }
    if at == usize::MAX {
        return None;
    }
    Some(at + 1)
}

/// Whether the edge of this number leads from the node, does the same and leads to the same node.
fn is_same_edge(old: &Graph, new: &Graph, node: u32, edge: &Edge, at: usize) -> bool
    requires { Grew old.now.terms new.now.terms }
    ensures leads { IsTrue result → Leading new.now node (plain_deeds old.now.terms edge.now.ops) edge.now.to.0 }
    ensures same { IsTrue result → IsSame old.now new.now at edge.now }
    ensures made { result ≡ made.is_same_edge old.now new.now node edge.now at }
{
    if !leads_from(new, at, node) {
        return false;
    }
    let cursor = Cursor {
        edge_at: at,
        op_at: 0,
    };
    let Some(done) = passed(old.terms(), new, cursor, edge.ops.as_slice()) else {
        return false;
    };
    match ends(new, done, edge.to.0) {
        None => false,
        Some(_) => true,
    }
}

/// The place behind operations as they are.
fn passed(old: &Terms, new: &Graph, cursor: Cursor, ops: &[Operation]) -> Option<Cursor>
    requires { Grew old.now new.now.terms }
    ensures tells { IfSome result (λ n. (code : Code) → Meets new.now n code → Meets new.now cursor (straight old.now ops.now code)) }
    ensures made { result ≡ made.passed old.now new.now cursor ops.now }
{
    let mut at = cursor;
    for number in 0..ops.len() {
        let Some(next) = step(old, new, at, ops[number]) else {
            return None;
        };
        at = next;
    }
    Some(at)
}

/// The place behind an operation as it is.
fn step(old: &Terms, new: &Graph, cursor: Cursor, operation: Operation) -> Option<Cursor>
    requires { Grew old.now new.now.terms }
    ensures tells { IfSome result (λ n. (code : Code) → Meets new.now n code → Meets new.now cursor (Does (guarded old.now None operation) code)) }
    ensures made { result ≡ made.step old.now new.now cursor operation }
{
    match operation {
        Operation::Assume(term) => assumes(old, new, cursor, Test::Under(None, term)),
        Operation::Set(_, _) | Operation::SetAt(_, _, _, _) | Operation::Draw(_, _) => {
            stores(old, new, cursor, None, operation)
        }
    }
}
