//! The graph of a loop: a cell x is set to 0; at node 1 there is an error where x is not 0; else a second cell is drawn, and
//! the loop goes back to node 1 where it is not 0, and to a last node where it is.
ghost use Rattle.std.specs.Prelude.{◌≡◌, ◌∷◌, [], IfOk, IfSome};
ghost use Rattle.bv_term.specs.WellFormed.{Table};
ghost use Rattle.loop_journey.specs.Loop.{edge, loop_cells, loop_edges, loop_flow, loop_nodes, loop_terms};

use bv_term::{Term, TermId, Terms, are_widths};
use c_graph::{Cell, Edge, Graph, Node, NodeId, Operation, Operations, Origin, is_graph};
use lv_base::{ErrorKind, Memory};
use std::alloc::Global;

/// The graph of the loop, which goes on at node `last` where the drawn value is 0: at node 5, an end, or again at node 1,
/// so that the loop goes back two ways. There is none where `last` is no node of it.
pub fn loop_graph(alloc: Global, last: u32) -> Result<Option<Graph>, Memory>
    ensures { IfOk result (λ g. IfSome g (λ x. x ≡ loop_flow last)) }
{
    let terms = terms_of_loop(alloc)?;
    let nodes = nodes_of_loop(alloc)?;
    let edges = edges_of_loop(alloc, last)?;
    let cells = cells_of_loop(alloc)?;
    let loops = Vec::new(alloc);
    if !is_graph(&nodes, &edges, &cells, &terms, NodeId(0), &loops) {
        return Ok(None);
    }
    let graph = Graph::new(alloc, nodes, edges, cells, terms, NodeId(0), loops)?;
    Ok(Some(graph))
}

fn terms_of_loop(alloc: Global) -> Result<Terms, Memory>
    ensures cells { IfOk result (λ t. t.cells ≡ 32 ∷ 32 ∷ []) }
    ensures terms { IfOk result (λ t. t.terms ≡ loop_terms) }
{
    let widths = [32, 32].to_vec(alloc)?;
    let mut terms = Terms::new(alloc, widths);
    terms.append(Term::Constant(32, 0))?;
    terms.append(Term::Cell(0))?;
    terms.append(Term::Equal(TermId(1), TermId(0)))?;
    terms.append(Term::Not(TermId(2)))?;
    terms.append(Term::Cell(1))?;
    terms.append(Term::Equal(TermId(4), TermId(0)))?;
    terms.append(Term::Not(TermId(5)))?;
    Ok(terms)
}

fn nodes_of_loop(alloc: Global) -> Result<Vec<Node>, Memory>
    ensures { IfOk result (λ v. v.items ≡ loop_nodes) }
{
    let mut nodes = Vec::new(alloc);
    nodes.push(Node::Plain)?;
    nodes.push(Node::Plain)?;
    nodes.push(Node::Error(ErrorKind::Reach, 71))?;
    nodes.push(Node::Plain)?;
    nodes.push(Node::Plain)?;
    nodes.push(Node::End)?;
    Ok(nodes)
}

/// An edge of one operation.
fn edge_by(alloc: Global, from: u32, to: u32, operation: Operation) -> Result<Edge, Memory>
    ensures { IfOk result (λ e. e ≡ edge from to operation) }
{
    let mut operations = Vec::new(alloc);
    operations.push(operation)?;
    Ok(Edge {
        from: NodeId(from),
        to: NodeId(to),
        ops: Operations::new(operations),
    })
}

fn edges_of_loop(alloc: Global, last: u32) -> Result<Vec<Edge>, Memory>
    ensures { IfOk result (λ v. v.items ≡ loop_edges last) }
{
    let mut edges = Vec::new(alloc);
    edges.push(edge_by(alloc, 0, 1, Operation::Set(0, TermId(0)))?)?;
    edges.push(edge_by(alloc, 1, 2, Operation::Assume(TermId(3)))?)?;
    edges.push(edge_by(alloc, 1, 3, Operation::Assume(TermId(2)))?)?;
    edges.push(edge_by(alloc, 3, 4, Operation::Draw(1, true))?)?;
    edges.push(edge_by(alloc, 4, 1, Operation::Assume(TermId(6)))?)?;
    edges.push(edge_by(alloc, 4, last, Operation::Assume(TermId(5)))?)?;
    Ok(edges)
}

fn cells_of_loop(alloc: Global) -> Result<Vec<Cell>, Memory>
    ensures { IfOk result (λ v. v.items ≡ loop_cells) }
{
    let mut cells = Vec::new(alloc);
    cells.push(Cell {
        width: 32,
        origin: Origin::Element(0, 0),
    })?;
    cells.push(Cell {
        width: 32,
        origin: Origin::Saved,
    })?;
    Ok(cells)
}
