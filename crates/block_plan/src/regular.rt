//! The ways out of nodes. A node is regular where it has one way out, which may begin with an Assume, or two that begin with an
//! Assume of a term and one of its complement; where nothing else on them may stop a run; and where of two ways only one beside
//! an error's, which leads to no error itself, does anything more. Other nodes keep their edges.

ghost use Rattle.std.specs.Prelude.{◌≡◌, IfOk};
ghost use Rattle.block_plan.specs.Made.{are_complements, both_ways, draws, first_test, is_assume, is_bare, is_draw, is_error, is_not_of, is_regular, only_way, pair, some_draw, stops, stops_at, way_of, way_on, ways_among, ways_of};

use bv_term::{Term, TermId, Terms};
use c_graph::{Edge, EdgeId, Graph, Node, NodeId, Operation};
use lv_base::Memory;
use std::alloc::Global;

/// A way out of a regular node.
#[derive(Clone, Copy)]
pub struct Way {
    /// The number of its edge.
    pub edge: EdgeId,
    /// Where it leads.
    pub to: NodeId,
    /// The term on which it goes on, if it tests one.
    pub test: Option<TermId>,
}

/// The ways out of a node.
#[derive(Clone, Copy)]
pub enum Ways {
    /// None, or ways that are kept as they are.
    Kept,
    /// One way.
    One(Way),
    /// Two ways, under a term and under its complement.
    Two(Way, Way),
}

/// Whether a run ends with an error at a node.
pub(crate) fn is_error(graph: &Graph, node: NodeId) -> bool
    ensures made { result ≡ is_error graph.now node }
{
    match graph.nodes().get(node.0 as usize) {
        None => false,
        Some(node) => match *node {
            Node::Error(_, _) => true,
            Node::Plain | Node::End | Node::Call(_, _) => false,
        },
    }
}

// The way of an edge, unless an operation behind its first may stop a run.
fn way_of(graph: &Graph, number: EdgeId) -> Option<Way>
    ensures made { result ≡ way_of graph.now number }
{
    match graph.edges().get(number.0 as usize) {
        None => None,
        Some(edge) => way_on(number, edge),
    }
}

fn way_on(number: EdgeId, edge: &Edge) -> Option<Way>
    ensures made { result ≡ way_on number edge.now }
{
    let test = first_test(edge.ops.as_slice());
    if stops(edge.ops.as_slice(), test.is_some()) {
        return None;
    }
    Some(Way {
        edge: number,
        to: edge.to,
        test,
    })
}

// The term that the first operation tests, if it is a test.
fn first_test(ops: &[Operation]) -> Option<TermId>
    ensures made { result ≡ first_test ops.now }
{
    if ops.len() == 0 {
        return None;
    }
    match ops[0] {
        Operation::Assume(term) => Some(term),
        Operation::Set(_, _) | Operation::SetAt(_, _, _, _) | Operation::Draw(_, _) => None,
    }
}

fn is_assume(operation: Operation) -> bool
    ensures made { result ≡ is_assume operation }
{
    match operation {
        Operation::Assume(_) => true,
        Operation::Set(_, _) | Operation::SetAt(_, _, _, _) | Operation::Draw(_, _) => false,
    }
}

fn stops_at(number: usize, operation: Operation, is_tested: bool) -> bool
    ensures made { result ≡ stops_at number operation is_tested }
{
    if is_assume(operation) {
        number > 0 || !is_tested
    } else {
        false
    }
}

// Whether an operation behind the first may stop a run, or the first one where it is no test.
fn stops(ops: &[Operation], is_tested: bool) -> bool
    ensures made { result ≡ stops ops.now is_tested }
{
    for number in 0..ops.len() {
        if stops_at(number, ops[number], is_tested) {
            return true;
        }
    }
    false
}

fn is_not_of(term: Term, operand: TermId) -> bool
    ensures made { result ≡ is_not_of term operand }
{
    match term {
        Term::Not(of) => of.0 == operand.0,
        _ => false,
    }
}

fn are_complements(terms: &Terms, first: TermId, second: TermId) -> bool
    ensures made { result ≡ are_complements terms.now first second }
{
    if first.0 >= terms.count() {
        return false;
    }
    if second.0 >= terms.count() {
        return false;
    }
    is_not_of(terms.get(second), first) || is_not_of(terms.get(first), second)
}

// Whether a way does nothing behind its test.
fn is_bare(graph: &Graph, way: Way) -> bool
    ensures made { result ≡ is_bare graph.now way }
{
    match graph.edges().get(way.edge.0 as usize) {
        None => false,
        Some(edge) => edge.ops.as_slice().len() <= 1,
    }
}

// Of two ways only one beside an error's does anything behind its test.
fn is_regular(graph: &Graph, first: Way, second: Way) -> bool
    ensures made { result ≡ is_regular graph.now first second }
{
    match (is_error(graph, first.to), is_error(graph, second.to)) {
        (true, false) => is_bare(graph, first),
        (false, true) => is_bare(graph, second),
        (true, true) | (false, false) => is_bare(graph, first) && is_bare(graph, second),
    }
}

fn pair(graph: &Graph, first: Way, second: Way) -> Ways
    ensures made { result ≡ pair graph.now first second }
{
    let Some(test) = first.test else {
        return Ways::Kept;
    };
    let Some(other) = second.test else {
        return Ways::Kept;
    };
    if are_complements(graph.terms(), test, other) && is_regular(graph, first, second) {
        Ways::Two(first, second)
    } else {
        Ways::Kept
    }
}

fn only_way(way: Option<Way>) -> Ways
    ensures made { result ≡ only_way way }
{
    match way {
        None => Ways::Kept,
        Some(way) => Ways::One(way),
    }
}

fn both_ways(graph: &Graph, first: Option<Way>, second: Option<Way>) -> Ways
    ensures made { result ≡ both_ways graph.now first second }
{
    let Some(first) = first else {
        return Ways::Kept;
    };
    let Some(second) = second else {
        return Ways::Kept;
    };
    pair(graph, first, second)
}

fn ways_among(graph: &Graph, outs: &[EdgeId]) -> Ways
    ensures made { result ≡ ways_among graph.now outs.now }
{
    if outs.len() == 1 {
        return only_way(way_of(graph, outs[0]));
    }
    if outs.len() == 2 {
        return both_ways(graph, way_of(graph, outs[0]), way_of(graph, outs[1]));
    }
    Ways::Kept
}

/// The ways out of a node.
pub fn ways_of(alloc: Global, graph: &Graph, node: NodeId) -> Result<Ways, Memory>
    ensures made { IfOk result (λ w. w ≡ ways_of graph.now node) }
{
    let outs = graph.outs(alloc, node)?;
    Ok(ways_among(graph, outs.as_slice()))
}

fn is_draw(operation: Operation) -> bool
    ensures made { result ≡ is_draw operation }
{
    match operation {
        Operation::Draw(_, _) => true,
        Operation::Assume(_) | Operation::Set(_, _) | Operation::SetAt(_, _, _, _) => false,
    }
}

/// Whether an edge draws a value.
pub fn draws(edge: &Edge) -> bool
    ensures made { result ≡ draws edge.now }
{
    some_draw(edge.ops.as_slice())
}

fn some_draw(ops: &[Operation]) -> bool
    ensures made { result ≡ some_draw ops.now }
{
    for number in 0..ops.len() {
        if is_draw(ops[number]) {
            return true;
        }
    }
    false
}
