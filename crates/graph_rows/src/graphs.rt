//! Graphs of their parts: cells and nodes by their words, edges with their operations, and loops.

ghost use Rattle.std.specs.Prelude.{◌≡◌, IfOk};
ghost use Rattle.lv_base.specs.Names.{error_name};

use bv_term::{TermId, Terms, are_widths};
use c_graph::{Cell, Edge, Graph, LoopAt, Node, NodeId, Operation, Operations, Origin, is_graph};
use lv_base::ErrorKind;
use row_text::{RowFail, fields, half, number, one_term, terms_in};
use std::alloc::Global;

// The offset of an error whose node has none in its word.
const ERROR_OFFSET: u32 = 71;

/// The error of this name.
pub fn kind_in(word: &str) -> Result<ErrorKind, RowFail>
    ensures { IfOk result (λ kind. word.now ≡ error_name kind) }
{
    match word {
        "reach" => Ok(ErrorKind::Reach),
        "overflow" => Ok(ErrorKind::Overflow),
        "zero" => Ok(ErrorKind::Zero),
        "shift" => Ok(ErrorKind::Shift),
        "index" => Ok(ErrorKind::Index),
        "missing" => Ok(ErrorKind::Missing),
        _ => Err(RowFail::Bad),
    }
}

// Adds the cells of an object, whose number is that of its first cell.
fn add_object(cells: &mut Vec<Cell>, width: u32, count: u32) -> Result<(), RowFail> {
    let Ok(object) = u32::try_from(cells.len()) else {
        return Err(RowFail::Bad);
    };
    for element in 0..count {
        cells.push(Cell {
            width,
            origin: Origin::Element(object, element),
        })?;
    }
    Ok(())
}

// The cells of these widths, each an object of its own, or an array behind whose width the number of elements stands.
fn cells_in(alloc: Global, words: &str) -> Result<Vec<Cell>, RowFail> {
    let mut cells = Vec::new(alloc);
    for word in words.split_ascii_whitespace() {
        let (width, count) = match word.split_once('x') {
            Some((width, count)) => (width, number(Some(count))?),
            None => (word, 1),
        };
        add_object(&mut cells, number(Some(width))?, count)?;
    }
    Ok(cells)
}

// The widths of cells, which the terms are to have.
fn widths_of(alloc: Global, cells: &[Cell]) -> Result<Vec<u32>, RowFail> {
    let mut widths = Vec::new(alloc);
    for cell in cells {
        widths.push(cell.width)?;
    }
    Ok(widths)
}

fn node_in(word: &str) -> Result<Node, RowFail> {
    match word.split_once(':') {
        Some((kind, at)) => Ok(Node::Error(kind_in(kind)?, number(Some(at))?)),
        None if word == "plain" => Ok(Node::Plain),
        None if word == "error" => Ok(Node::Error(ErrorKind::Reach, ERROR_OFFSET)),
        None if word == "end" => Ok(Node::End),
        None => Err(RowFail::Bad),
    }
}

// The nodes that are the words of a text.
fn nodes_in(alloc: Global, words: &str) -> Result<Vec<Node>, RowFail> {
    let mut nodes = Vec::new(alloc);
    for word in words.split_ascii_whitespace() {
        nodes.push(node_in(word)?)?;
    }
    Ok(nodes)
}

fn term_in(alloc: Global, terms: &mut Terms, text: &str) -> Result<TermId, RowFail> {
    match one_term(alloc, terms, TermId(0), text)? {
        Some(id) => Ok(id),
        None => Err(RowFail::Bad),
    }
}

fn set_in(alloc: Global, terms: &mut Terms, text: &str) -> Result<Operation, RowFail> {
    let (cell, term) = fields(text);
    let cell = number(Some(cell))?;
    Ok(Operation::Set(cell, term_in(alloc, terms, term)?))
}

fn set_at_in(alloc: Global, terms: &mut Terms, text: &str) -> Result<Operation, RowFail> {
    let (first, rest) = fields(text);
    let (count, both) = fields(rest);
    let (first, count) = (number(Some(first))?, number(Some(count))?);
    let Some(found) = terms_in(alloc, terms, TermId(0), both)? else {
        return Err(RowFail::Bad);
    };
    if found.len() != 2 {
        return Err(RowFail::Bad);
    }
    Ok(Operation::SetAt(first, count, found[0], found[1]))
}

fn operation_in(alloc: Global, terms: &mut Terms, text: &str) -> Result<Operation, RowFail> {
    let (word, rest) = fields(text);
    match word {
        "assume" => Ok(Operation::Assume(term_in(alloc, terms, rest)?)),
        "set" => set_in(alloc, terms, rest),
        "set_at" => set_at_in(alloc, terms, rest),
        "draw" => Ok(Operation::Draw(number(Some(rest))?, false)),
        "draw_signed" => Ok(Operation::Draw(number(Some(rest))?, true)),
        _ => Err(RowFail::Bad),
    }
}

fn operations_in(alloc: Global, terms: &mut Terms, text: &str) -> Result<Operations, RowFail> {
    let mut items = Vec::new(alloc);
    if !text.is_empty() {
        for part in text.split(',') {
            items.push(operation_in(alloc, terms, part)?)?;
        }
    }
    Ok(Operations::new(items))
}

// The edge of a text, whose terms are put into the table.
fn edge_in(alloc: Global, terms: &mut Terms, text: &str) -> Result<Edge, RowFail> {
    let (from, rest) = fields(text);
    let (to, ops) = fields(rest);
    Ok(Edge {
        from: NodeId(number(Some(from))?),
        to: NodeId(number(Some(to))?),
        ops: operations_in(alloc, terms, ops)?,
    })
}

// The loop of an offset and a node.
fn loop_in(text: &str) -> Result<LoopAt, RowFail> {
    let (at, node) = fields(text);
    Ok(LoopAt {
        at: number(Some(at))?,
        node: NodeId(number(Some(node))?),
    })
}

// The parts of a graph.
#[derive(Drop)]
struct Parts {
    nodes: Vec<Node>,
    edges: Vec<Edge>,
    cells: Vec<Cell>,
    terms: Terms,
    entry: NodeId,
    loops: Vec<LoopAt>,
}

impl Parts {
    // No parts but the table of terms and cells.
    fn begun(alloc: Global, part: Option<&str>) -> Result<Parts, RowFail> {
        let (word, rest) = fields(half(part)?);
        let cells = cells_in(alloc, rest)?;
        let widths = widths_of(alloc, &cells)?;
        if word != "widths" || !are_widths(&widths) {
            return Err(RowFail::Bad);
        }
        Ok(Parts {
            nodes: Vec::new(alloc),
            edges: Vec::new(alloc),
            cells,
            terms: Terms::new(alloc, widths),
            entry: NodeId(0),
            loops: Vec::new(alloc),
        })
    }

    // Reads one more part, which may be empty.
    fn read(&mut self, alloc: Global, part: &str) -> Result<(), RowFail> {
        let (word, rest) = fields(part);
        match word {
            "" => {}
            "nodes" => self.nodes = nodes_in(alloc, rest)?,
            "cells" => self.cells = cells_in(alloc, rest)?,
            "entry" => self.entry = NodeId(number(Some(rest))?),
            "edge" => {
                let edge = edge_in(alloc, &mut self.terms, rest)?;
                self.edges.push(edge)?;
            }
            "loop" => self.loops.push(loop_in(rest)?)?,
            _ => return Err(RowFail::Bad),
        }
        Ok(())
    }

    // The parts of a text, and behind them those of another one.
    fn of(alloc: Global, text: &str, more: &str) -> Result<Parts, RowFail> {
        let mut first = text.split(';');
        let mut parts = Parts::begun(alloc, first.next())?;
        for part in first.chain(more.split(';')) {
            parts.read(alloc, part)?;
        }
        Ok(parts)
    }
}

/// The graph of the parts of a text and of those of another one behind them, none where they make none.
///
/// Fails with `Bad` where they are no parts, and with `Memory`.
pub fn graph_of(alloc: Global, text: &str, more: &str) -> Result<Option<Graph>, RowFail> {
    let Parts {
        nodes,
        edges,
        cells,
        terms,
        entry,
        loops,
    } = Parts::of(alloc, text, more)?;
    if !is_graph(&nodes, &edges, &cells, &terms, entry, &loops) {
        return Ok(None);
    }
    Ok(Some(Graph::new(alloc, nodes, edges, cells, terms, entry, loops)?))
}

/// The graph of these parts.
///
/// Fails with `Bad` where they make none, and with `Memory`.
pub fn whole_graph(alloc: Global, text: &str) -> Result<Graph, RowFail> {
    match graph_of(alloc, text, "")? {
        Some(graph) => Ok(graph),
        None => Err(RowFail::Bad),
    }
}
