//! `graph PARTS` gives parts of a graph. `whole PARTS` and `broken PARTS`: with these behind them they are a graph, or are none.
//! `outs NODE = EDGES`: the edges that leave a node, by their numbers. `counts NODES EDGES CELLS TERMS`, and `ENTRY LOOPS`.

use c_graph::{LAYOUT, NodeId, edge_count};
use graph_rows::{graph_of, whole_graph};
use row_text::{RowFail, Table, fields, halves, number, numbers};
use std::alloc::Global;

// Tries the row of the edges that leave a node.
fn has_outs(alloc: Global, text: &str, rest: &str) -> Result<bool, RowFail> {
    let (node, wanted) = halves(rest)?;
    let graph = whole_graph(alloc, text)?;
    let outs = graph.outs(alloc, NodeId(number(Some(node))?))?;
    let wanted = numbers(alloc, wanted)?;
    Ok(outs.len() == wanted.len() && outs.iter().zip(&wanted).all(|(out, n)| out.0 == *n))
}

// Tries the row of counts.
fn has_counts(alloc: Global, text: &str, rest: &str) -> Result<bool, RowFail> {
    let graph = whole_graph(alloc, text)?;
    let wanted = numbers(alloc, rest)?;
    if wanted.len() != 6 || edge_count(&graph) as usize != graph.edges().len() {
        return Ok(false);
    }
    Ok(
        graph.nodes().len() == wanted[0] as usize
            && edge_count(&graph) == wanted[1]
            && graph.cells().len() == wanted[2] as usize
            && graph.terms().count() == wanted[3]
            && graph.entry() == NodeId(wanted[4])
            && graph.loops().len() == wanted[5] as usize,
    )
}

// Tries the row of the number of the layout.
fn is_layout(rest: &str) -> Result<bool, RowFail> {
    Ok(LAYOUT == number(Some(rest))?)
}

/// Rows of a graph of these parts.
#[derive(Drop)]
pub(crate) struct GraphRows<'a> {
    pub(crate) parts: &'a str,
}

impl Table for GraphRows<'_> {
    fn is_so(&mut self, alloc: Global, row: &str) -> Result<bool, RowFail> {
        let (kind, rest) = fields(row);
        match kind {
            "whole" => Ok(graph_of(alloc, self.parts, rest)?.is_some()),
            "broken" => Ok(graph_of(alloc, self.parts, rest)?.is_none()),
            "outs" => has_outs(alloc, self.parts, rest),
            "counts" => has_counts(alloc, self.parts, rest),
            "layout" => is_layout(rest),
            _ => Err(RowFail::Bad),
        }
    }
}
