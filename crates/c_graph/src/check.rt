//! Whether parts make a graph. For graphs that are made by hand: it looks at every edge for each node that it meets.
ghost use Rattle.std.specs.Prelude.{◌≡◌, ◌<◌, ◌↔◌, length, slice_get, slice_index, IsTrue, All, Some};
ghost use Rattle.c_graph.specs.declared.graph.Node.TheVariants.{Plain};
ghost use Rattle.c_graph.specs.Shape.{EdgeFits, FitsCell, GoesOn, HasWidth, IsFlow, IsIndexed, IsNoCall, IsNodeOf, OperationFits, has_out, widths_of};

use crate::graph::{Cell, Edge, LoopAt, Node, NodeId, Operation};
use bv_term::{Term, TermId, Terms, laws};

/// The most nodes and edges of a graph together.
pub(crate) const MOST_PARTS: usize = 2147483647;

/// The most cells of a graph: each has a number of 32 bits, and so has their count.
pub(crate) const MOST_CELLS: usize = 4294967295;

/// Whether these parts make a graph.
pub fn is_graph(
    nodes: &[Node],
    edges: &[Edge],
    cells: &[Cell],
    terms: &Terms,
    entry: NodeId,
    loops: &[LoopAt],
) -> bool
    ensures { IsTrue result → IsFlow (record {
      nodes = nodes.now;
      edges = edges.now;
      cells = cells.now;
      terms = terms.now;
      entry = entry;
      loops = loops.now;
    }) }
{
    let few = nodes.len() <= MOST_PARTS && edges.len() <= MOST_PARTS - nodes.len();
    if !few || cells.len() > MOST_CELLS {
        return false;
    }
    if !no_calls(nodes) || !are_widths_of(cells, terms.cells()) {
        return false;
    }
    if !is_node(nodes, entry) || !goes_on(nodes, edges, entry) || !are_loops(nodes, loops) {
        return false;
    }
    fit_edges(nodes, terms, edges) && targets_go_on(nodes, edges)
}

pub(crate) fn no_calls(nodes: &[Node]) -> bool
    ensures { IsTrue result ↔ All IsNoCall nodes.now }
{
    for node in nodes {
        if let Node::Call(_, _) = *node {
            return false;
        }
    }
    true
}

pub(crate) fn are_widths_of(cells: &[Cell], widths: &[u32]) -> bool
    ensures { IsTrue result ↔ (widths.now ≡ widths_of cells.now) }
{
    if cells.len() != widths.len() {
        return false;
    }
    for (number, cell) in cells.iter().enumerate() {
        if widths[number] != cell.width {
            return false;
        }
    }
    true
}

pub(crate) fn is_node(nodes: &[Node], node: NodeId) -> bool
    ensures { IsTrue result ↔ IsNodeOf nodes.now node }
{
    (node.0 as usize) < nodes.len()
}

pub(crate) fn are_loops(nodes: &[Node], loops: &[LoopAt]) -> bool
    ensures { IsTrue result ↔ All (λ l. IsNodeOf nodes.now l.node) loops.now }
{
    for a_loop in loops {
        if !is_node(nodes, a_loop.node) {
            return false;
        }
    }
    true
}

pub(crate) fn is_plain(nodes: &[Node], node: NodeId) -> bool
    ensures { IsTrue result ↔ (slice_get nodes.now node.0 ≡ Some Plain) }
{
    let number = node.0 as usize;
    if number >= nodes.len() {
        return false;
    }
    match nodes[number] {
        Node::Plain => true,
        Node::Error(_, _) | Node::End | Node::Call(_, _) => false,
    }
}

fn leads_on(edges: &[Edge], node: NodeId) -> bool
    ensures { result ≡ has_out edges.now node }
{
    for edge in edges {
        if edge.from.0 == node.0 {
            return true;
        }
    }
    false
}

fn goes_on(nodes: &[Node], edges: &[Edge], node: NodeId) -> bool
    ensures { IsTrue result → GoesOn nodes.now edges.now node }
{
    !is_plain(nodes, node) || leads_on(edges, node)
}

fn targets_go_on(nodes: &[Node], edges: &[Edge]) -> bool
    ensures { IsTrue result → All (λ e. GoesOn nodes.now edges.now e.to) edges.now }
{
    for edge in edges {
        if !goes_on(nodes, edges, edge.to) {
            return false;
        }
    }
    true
}

pub(crate) fn fit_edges(nodes: &[Node], terms: &Terms, edges: &[Edge]) -> bool
    ensures { IsTrue result ↔ All (EdgeFits nodes.now terms.now) edges.now }
{
    for edge in edges {
        if !fits_edge(nodes, terms, edge) {
            return false;
        }
    }
    true
}

fn fits_edge(nodes: &[Node], terms: &Terms, edge: &Edge) -> bool
    ensures { IsTrue result ↔ EdgeFits nodes.now terms.now edge.now }
{
    is_plain(nodes, edge.from)
        && is_node(nodes, edge.to)
        && fit_operations(terms, edge.ops.as_slice())
}

fn fit_operations(terms: &Terms, operations: &[Operation]) -> bool
    ensures { IsTrue result ↔ All (OperationFits terms.now) operations.now }
{
    for operation in operations {
        if !fits_operation(terms, *operation) {
            return false;
        }
    }
    true
}

fn fits_operation(terms: &Terms, operation: Operation) -> bool
    ensures { IsTrue result ↔ OperationFits terms.now operation }
{
    match operation {
        Operation::Assume(term) => has_width(terms, term, 1),
        Operation::Set(cell, term) => fits_cell(terms, cell, term),
        Operation::SetAt(first, length, index, term) => {
            is_array(terms, first, length, index) && fits_cell(terms, first, term)
        }
        Operation::Draw(cell, _) => {
            let cells = terms.cells();
            (cell as usize) < cells.len() && cells[cell as usize] <= 64
        }
    }
}

fn has_width(terms: &Terms, term: TermId, width: u32) -> bool
    ensures { IsTrue result ↔ HasWidth terms.now term width }
{
    term.0 < terms.count() && terms.width_of(term) == width
}

fn fits_cell(terms: &Terms, cell: u32, term: TermId) -> bool
    ensures { IsTrue result ↔ FitsCell terms.now cell term }
{
    let cells = terms.cells();
    (cell as usize) < cells.len() && has_width(terms, term, cells[cell as usize])
}

fn is_array(terms: &Terms, first: u32, length: u32, index: TermId) -> bool
    ensures { IsTrue result ↔ IsIndexed terms.now first length index }
{
    laws::one_for_each();
    terms.fits(Term::Element(first, length, index))
}
