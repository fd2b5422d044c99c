//! Places in the edges of a graph.
ghost use Rattle.block_steps.specs.Made as made;
ghost use Rattle.std.specs.Prelude.{◌≡◌, IfSome, IsTrue, Some, slice_get};
ghost use Rattle.c_graph.specs.declared.graph.Edge.{Edge};
ghost use Rattle.c_graph.specs.declared.graph.Operation.TheVariants.{Assume};
ghost use Rattle.block_rule.specs.Deeds.{Ends};
ghost use Rattle.block_steps.specs.Cursors.{EndAt, IsBehind, Meets, OpAt, SideAt};

use bv_term::TermId;
use c_graph::{Graph, Operation};

/// A place in the edges: behind so many operations of the edge of a number.
#[derive(Clone, Copy)]
pub struct Cursor {
    pub edge_at: usize,
    pub op_at: usize,
}

/// An operation, and the place behind it.
#[derive(Clone, Copy)]
pub(crate) struct Step {
    pub(crate) operation: Operation,
    pub(crate) next: Cursor,
}

/// A node, and the place of the edge that is looked at next.
#[derive(Clone, Copy)]
pub struct Fork {
    pub node: u32,
    pub next: Cursor,
}

/// The term of an Assume, and the place behind it.
#[derive(Clone, Copy)]
pub struct Side {
    pub term: TermId,
    pub next: Cursor,
}

fn operation_at(graph: &Graph, cursor: Cursor) -> Option<Operation>
    ensures means { IfSome result (λ op. OpAt graph.now cursor op) }
    ensures made { result ≡ made.operation_at graph.now cursor }
{
    let edges = graph.edges();
    if cursor.edge_at >= edges.len() {
        return None;
    }
    let ops = edges[cursor.edge_at].ops.as_slice();
    if cursor.op_at >= ops.len() {
        return None;
    }
    Some(ops[cursor.op_at])
}

fn behind(cursor: Cursor) -> Option<Cursor>
    ensures means { IfSome result (IsBehind cursor) }
    ensures made { result ≡ made.behind cursor }
{
    if cursor.op_at == usize::MAX {
        return None;
    }
    Some(Cursor {
        edge_at: cursor.edge_at,
        op_at: cursor.op_at + 1,
    })
}

pub(crate) fn next_step(graph: &Graph, cursor: Cursor) -> Option<Step>
    ensures means { IfSome result (λ s. OpAt graph.now cursor s.operation × IsBehind cursor s.next) }
    ensures made { result ≡ made.next_step graph.now cursor }
{
    let Some(operation) = operation_at(graph, cursor) else {
        return None;
    };
    match behind(cursor) {
        None => None,
        Some(next) => Some(Step { operation, next }),
    }
}

/// The node to which an edge leads whose operations are all done.
fn end_of(graph: &Graph, cursor: Cursor) -> Option<u32>
    ensures means { IfSome result (EndAt graph.now cursor) }
    ensures made { result ≡ made.end_of graph.now cursor }
{
    let edges = graph.edges();
    if cursor.edge_at >= edges.len() {
        return None;
    }
    if cursor.op_at != edges[cursor.edge_at].ops.as_slice().len() {
        return None;
    }
    Some(edges[cursor.edge_at].to.0)
}

fn first_of_next(cursor: Cursor) -> Option<Cursor>
    ensures means { IfSome result (λ n. n.op_at ≡ 0) }
    ensures made { result ≡ made.first_of_next cursor }
{
    if cursor.edge_at == usize::MAX {
        return None;
    }
    Some(Cursor {
        edge_at: cursor.edge_at + 1,
        op_at: 0,
    })
}

/// The place behind an edge that ends at a node, its operations being done.
pub fn ends(graph: &Graph, cursor: Cursor, to: u32) -> Option<Cursor>
    ensures means { IfSome result (λ n. Meets graph.now cursor (Ends to)) }
    ensures made { result ≡ made.ends graph.now cursor to }
{
    let Some(found) = end_of(graph, cursor) else {
        return None;
    };
    if found != to {
        return None;
    }
    first_of_next(cursor)
}

/// The node of a branch, to which an edge leads whose operations are all done.
pub fn find_branch(graph: &Graph, cursor: Cursor) -> Option<Fork>
    ensures means { IfSome result (λ f. EndAt graph.now cursor f.node) }
    ensures made { result ≡ made.find_branch graph.now cursor }
{
    let Some(node) = end_of(graph, cursor) else {
        return None;
    };
    match first_of_next(cursor) {
        None => None,
        Some(next) => Some(Fork { node, next }),
    }
}

/// The term on which an edge of a node goes on, if it begins with an Assume.
pub fn find_side(graph: &Graph, cursor: Cursor, node: u32) -> Option<Side>
    ensures means { IfSome result (λ s. SideAt graph.now s.next node s.term) }
    ensures made { result ≡ made.find_side graph.now cursor node }
{
    if cursor.op_at != 0 {
        return None;
    }
    if !leads_from(graph, cursor.edge_at, node) {
        return None;
    }
    let Some(term) = assumed(graph, cursor.edge_at) else {
        return None;
    };
    Some(Side {
        term,
        next: Cursor {
            edge_at: cursor.edge_at,
            op_at: 1,
        },
    })
}

/// Whether the edge of a number is there, and leads from the node.
pub fn leads_from(graph: &Graph, number: usize, node: u32) -> bool
    ensures means { IsTrue result → (e : Edge) × ((slice_get graph.now.edges number ≡ Some e) × (e.from.0 ≡ node)) }
    ensures made { result ≡ made.leads_from graph.now number node }
{
    let edges = graph.edges();
    if number >= edges.len() {
        return false;
    }
    edges[number].from.0 == node
}

fn assumed(graph: &Graph, number: usize) -> Option<TermId>
    ensures means { IfSome result (λ t. OpAt graph.now (record { edge_at = number; op_at = 0 }) (Assume t)) }
    ensures made { result ≡ made.first_assumed graph.now number }
{
    match operation_at(
        graph,
        Cursor {
            edge_at: number,
            op_at: 0,
        },
    ) {
        Some(Operation::Assume(term)) => Some(term),
        _ => None,
    }
}
