//! Terms over other cells, and copies of cells and edges.
ghost use Rattle.std.specs.Prelude.{◌≡◌, ◌++◌, IfOk, replicate};
ghost use Rattle.c_graph.specs.Shape.{widths_of};
ghost use Rattle.block_emission.specs.Blocking as made;

use crate::terms::Truths;
use bv_term::{Term, TermId, Terms, are_widths};
use c_graph::{Cell, Edge, Graph, Operations, Origin};
use lv_base::Memory;
use std::alloc::Global;

/// The graph's terms over its cells and so many saved cells of one bit.
pub(crate) fn with_cells(alloc: Global, graph: &Graph, more: u32) -> Result<Truths, Memory>
    ensures made { IfOk result (λ w. w ≡ made.with_cells graph.now more) }
{
    let mut widths = graph.terms().cells().to_vec(alloc)?;
    more_bits(&mut widths, more)?;
    copied(alloc, graph.terms(), widths)
}

fn more_bits(widths: &mut Vec<u32>, more: u32) -> Result<(), Memory>
    ensures made { IfOk result (λ u. widths.new.items ≡ widths.old.items ++ replicate more 1) }
{
    for _number in 0..more {
        widths.push(1)?;
    }
    Ok(())
}

/// A table of the same terms over other cells, over which they are well formed where these begin with the old ones.
pub(crate) fn copied(alloc: Global, terms: &Terms, widths: Vec<u32>) -> Result<Truths, Memory>
    ensures made { IfOk result (λ w. w ≡ made.copied terms.now widths.items) }
{
    if !are_widths(&widths) {
        return Ok(no_truths(alloc));
    }
    let mut truths = Truths {
        terms: Terms::new(alloc, widths),
        is_sound: true,
    };
    for number in 0..terms.count() {
        append(&mut truths, terms.get(TermId(number)))?;
    }
    Ok(truths)
}

fn no_truths(alloc: Global) -> Truths
    ensures made { result ≡ made.no_truths }
{
    Truths {
        terms: Terms::new(alloc, Vec::new(alloc)),
        is_sound: false,
    }
}

/// A term behind the others, if it is well formed over the table.
fn append(truths: &mut Truths, term: Term) -> Result<(), Memory>
    ensures made { IfOk result (λ u. truths.new ≡ made.append truths.old term) }
{
    if !truths.terms.fits(term) {
        truths.is_sound = false;
        return Ok(());
    }
    truths.terms.append(term)?;
    Ok(())
}

/// The graph's cells, and so many saved cells of one bit.
pub(crate) fn all_cells(alloc: Global, graph: &Graph, used: u32) -> Result<Vec<Cell>, Memory>
    ensures made { IfOk result (λ r. r.items ≡ made.all_cells graph.now used) }
{
    let mut cells = graph.cells().to_vec(alloc)?;
    more_saved(&mut cells, used)?;
    Ok(cells)
}

fn more_saved(cells: &mut Vec<Cell>, used: u32) -> Result<(), Memory>
    ensures made { IfOk result (λ u. cells.new.items ≡ cells.old.items ++ replicate used made.saved_cell) }
{
    for _number in 0..used {
        cells.push(Cell {
            width: 1,
            origin: Origin::Saved,
        })?;
    }
    Ok(())
}

pub(crate) fn widths_of(alloc: Global, cells: &[Cell]) -> Result<Vec<u32>, Memory>
    ensures made { IfOk result (λ r. r.items ≡ widths_of cells.now) }
{
    let mut widths = Vec::new(alloc);
    for number in 0..cells.len() {
        widths.push(cells[number].width)?;
    }
    Ok(widths)
}

/// Equal edges.
pub fn copied_edges(alloc: Global, edges: &[Edge]) -> Result<Vec<Edge>, Memory>
    ensures { IfOk result (λ v. v.items ≡ edges.now) }
{
    let mut copy = Vec::new(alloc);
    for edge in edges {
        copy.push(copied_edge(alloc, edge)?)?;
    }
    Ok(copy)
}

/// An equal edge.
pub(crate) fn copied_edge(alloc: Global, edge: &Edge) -> Result<Edge, Memory>
    ensures { IfOk result (λ e. e ≡ edge.now) }
{
    let ops = edge.ops.as_slice().to_vec(alloc)?;
    Ok(Edge {
        from: edge.from,
        to: edge.to,
        ops: Operations::new(ops),
    })
}
