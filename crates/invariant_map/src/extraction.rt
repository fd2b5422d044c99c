ghost use Rattle.std.specs.Prelude.{◌≡◌, IfOk};
ghost use Rattle.c_graph.specs.Runs.{IsMapOf};
ghost use Rattle.c_graph.specs.Shape.{widths_of};
ghost use Rattle.invariant_map.specs.Labels.{SaysLabels};

use crate::copying::copied;
use crate::joining::{filled, joined};
use crate::marking::needed;
use bv_term::Terms;
use c_graph::{Graph, Map};
use cover_engine::Unwinding;
use lv_base::Memory;
use std::alloc::Global;

/// The map of an unwinding. A node's formula joins the labels of its uncovered vertices by `o` in the order of the vertices, two at a
/// time from the left, and is false where there are none; a label joins its conjuncts by `&` in their order, two at a time from the
/// left, and is true where there are none. It takes time in proportion to the unwinding's table and labels.
pub fn extract(alloc: Global, graph: &Graph, unwinding: &Unwinding) -> Result<Map, Memory>
    requires cells { unwinding.now.terms.cells ≡ widths_of graph.now.cells }
    ensures map { IfOk result (λ m. IsMapOf graph.now m) }
    ensures says { IfOk result (λ m. SaysLabels graph.now unwinding.now m) }
{
    let nodes = graph.nodes().len();
    let _vertices = unwinding.vertices();
    let marks = needed(alloc, unwinding, nodes)?;
    let cells = unwinding.terms().cells().to_vec(alloc)?;
    let mut terms = Terms::new(alloc, cells);
    let places = copied(alloc, unwinding.terms(), &marks, &mut terms)?;
    let parts = joined(alloc, unwinding, nodes, &places, &mut terms)?;
    let formulas = filled(alloc, &parts, &mut terms)?;
    Ok(Map::new(terms, formulas))
}
