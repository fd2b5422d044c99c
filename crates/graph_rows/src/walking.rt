//! Walks through a graph that draw given values: each step takes the edge whose first operation lets it on.

use bv_term::TermId;
use c_graph::{Edge, EdgeId, Graph, Node, NodeId, Operation};
use lv_base::ErrorKind;
use row_text::RowFail;
use std::alloc::Global;
use term_values::ConeTerms;

// The most steps of a walk.
const MOST_STEPS: u32 = 2000;

/// The values that a walk draws.
pub trait Inputs {
    /// The bits of the next value, for a cell of a width and for the signed range or the unsigned one; none where all were drawn.
    ///
    /// Fails with `Bad` where the next value is none of that range, and with `Memory`.
    fn next(&mut self, width: u32, signed: bool) -> Result<Option<u128>, RowFail>;
}

/// Where a walk stopped.
#[derive(Clone, Copy, Debug, Drop, PartialEq)]
pub enum Stop {
    /// At an error's node.
    Error(ErrorKind, u32),
    /// At an end.
    End,
    /// No edge leads on, or an operation of the edge does not.
    Stuck,
    /// There were too many steps.
    Loop,
    /// Before a draw, when all values were drawn.
    Dry,
    /// More than one edge leads on.
    Forked,
}

// What a step of a walk comes to.
#[derive(Clone, Copy)]
enum Step {
    To(NodeId),
    Stop(Stop),
}

// Where the edges from a node lead a walk.
#[derive(Clone, Copy)]
enum Onward {
    None,
    Edge(EdgeId),
    Many,
}

/// Where the walk from the entry stops that begins in this store and draws these values.
///
/// Fails with `Bad` where the store is none of the graph's cells or a drawn value is none of its cell, and with `Memory`.
pub fn walk_on<I: Inputs>(
    alloc: Global,
    graph: &Graph,
    first: Vec<u128>,
    inputs: &mut I,
) -> Result<Stop, RowFail> {
    let mut store = first;
    let mut node = graph.entry();
    for _ in 0..MOST_STEPS {
        match step_from(alloc, graph, node, &mut store, inputs)? {
            Step::To(to) => node = to,
            Step::Stop(stop) => return Ok(stop),
        }
    }
    Ok(Stop::Loop)
}

fn step_from<I: Inputs>(
    alloc: Global,
    graph: &Graph,
    node: NodeId,
    store: &mut Vec<u128>,
    inputs: &mut I,
) -> Result<Step, RowFail> {
    if let Some(stop) = stop_at(graph, node) {
        return Ok(Step::Stop(stop));
    }
    let number = match ways_on(alloc, graph, node, store)? {
        Onward::None => return Ok(Step::Stop(Stop::Stuck)),
        Onward::Many => return Ok(Step::Stop(Stop::Forked)),
        Onward::Edge(number) => number,
    };
    let Some(edge) = graph.edges().get(number.0 as usize) else {
        return Ok(Step::Stop(Stop::Stuck));
    };
    for operation in edge.ops.as_slice() {
        if let Some(stop) = act(alloc, graph, *operation, store, inputs)? {
            return Ok(Step::Stop(stop));
        }
    }
    Ok(Step::To(edge.to))
}

// How a walk that comes to a node stops there, if it does.
fn stop_at(graph: &Graph, node: NodeId) -> Option<Stop> {
    match graph.nodes().get(node.0 as usize) {
        None => Some(Stop::Stuck),
        Some(Node::Plain) => None,
        Some(Node::Error(kind, at)) => Some(Stop::Error(*kind, *at)),
        Some(Node::End | Node::Call(_, _)) => Some(Stop::End),
    }
}

// The edges from a node whose first operation lets a walk on.
fn ways_on(alloc: Global, graph: &Graph, node: NodeId, store: &[u128]) -> Result<Onward, RowFail> {
    let mut found = Onward::None;
    for number in graph.outs(alloc, node)?.as_slice() {
        let Some(edge) = graph.edges().get(number.0 as usize) else {
            continue;
        };
        if leads_on(alloc, graph, edge, store)? {
            found = match found {
                Onward::None => Onward::Edge(*number),
                Onward::Edge(_) | Onward::Many => Onward::Many,
            };
        }
    }
    Ok(found)
}

fn leads_on(alloc: Global, graph: &Graph, edge: &Edge, store: &[u128]) -> Result<bool, RowFail> {
    match edge.ops.as_slice().first().copied() {
        Some(Operation::Assume(term)) => Ok(value(alloc, graph, term, store)? == 1),
        _ => Ok(true),
    }
}

// The value of a term in a store, whose values the cells have to hold.
fn value(alloc: Global, graph: &Graph, term: TermId, store: &[u128]) -> Result<u128, RowFail> {
    let terms = graph.terms();
    if !terms.is_store(store) || term.0 >= terms.count() {
        return Err(RowFail::Bad);
    }
    let cone = ConeTerms::new(alloc, terms, term)?;
    let value = cone.value(alloc, store)?;
    Ok(value)
}

fn set(store: &mut Vec<u128>, cell: usize, value: u128) {
    if cell < store.len() {
        store[cell] = value;
    }
}

// Does an operation; where the walk stops, if it does.
fn act<I: Inputs>(
    alloc: Global,
    graph: &Graph,
    operation: Operation,
    store: &mut Vec<u128>,
    inputs: &mut I,
) -> Result<Option<Stop>, RowFail> {
    match operation {
        Operation::Assume(term) => {
            if value(alloc, graph, term, store)? != 1 {
                return Ok(Some(Stop::Stuck));
            }
        }
        Operation::Set(cell, term) => {
            let new = value(alloc, graph, term, store)?;
            set(store, cell as usize, new);
        }
        Operation::SetAt(first, length, index, term) => {
            let index = value(alloc, graph, index, store)?;
            let new = value(alloc, graph, term, store)?;
            if index < u128::from(length) {
                set(store, (first as usize).saturating_add(index as usize), new);
            }
        }
        Operation::Draw(cell, signed) => return draw(graph, cell, signed, store, inputs),
    }
    Ok(None)
}

// Draws the next value into a cell.
fn draw<I: Inputs>(
    graph: &Graph,
    cell: u32,
    signed: bool,
    store: &mut Vec<u128>,
    inputs: &mut I,
) -> Result<Option<Stop>, RowFail> {
    let Some(at) = graph.cells().get(cell as usize) else {
        return Ok(Some(Stop::Stuck));
    };
    match inputs.next(at.width, signed)? {
        None => Ok(Some(Stop::Dry)),
        Some(new) => {
            set(store, cell as usize, new);
            Ok(None)
        }
    }
}
