//! Operations that test nothing, and whose cells are there.
ghost use Rattle.std.specs.Prelude.{ℕ, ◌≡◌, ◌<◌, ◌≤◌, IsTrue, Some, drop, length};
ghost use Rattle.bv_term.specs.declared.term.TermId.{TermId};
ghost use Rattle.c_graph.specs.declared.graph.Operation.TheVariants.{SetAt};
ghost use Rattle.plan_tables.specs.Tables.{unit_at};
ghost use Rattle.block_rule.specs.Plans.{AreMoves, IsMove};
ghost use Rattle.walk_states.specs.Known.{plan_of};
ghost use Rattle.walk_states.specs.Walks.{moves_of};
ghost use Rattle.block_places.specs.Made as made;

use c_graph::{Graph, Operation};
use walk_states::{Known, Way};

fn has_unit(known: &Known, cell: u32, unit: u32) -> bool
    ensures tells { IsTrue result → unit_at known.now.units cell ≡ Some unit }
    ensures made { result ≡ made.has_unit known.now cell unit }
{
    match known.units.get(cell) {
        None => false,
        Some(found) => found == unit,
    }
}

/// Whether the cells from the first on, up to the end, have this unit.
fn have_unit(known: &Known, first: u32, end: u32, unit: u32) -> bool
    ensures tells { IsTrue result → (c : ℕ) → first ≤ c → c < end → unit_at known.now.units c ≡ Some unit }
    ensures made { result ≡ made.have_unit known.now first end unit }
{
    for cell in first..end {
        if !has_unit(known, cell, unit) {
            return false;
        }
    }
    true
}

/// Whether the cells from the first on, up to the end, have one unit: what is read of one is then read of each.
fn are_one(known: &Known, first: u32, end: u32) -> bool
    ensures tells { IsTrue result → (c : ℕ) → first ≤ c → c < end → unit_at known.now.units c ≡ unit_at known.now.units first }
    ensures made { result ≡ made.are_one known.now first end }
{
    match known.units.get(first) {
        None => false,
        Some(unit) => have_unit(known, first, end, unit),
    }
}

/// Whether so many cells from the first on are there, and of one unit.
fn is_array(known: &Known, cells: usize, first: u32, count: u32) -> bool
    ensures tells { IsTrue result → (i t : TermId) → IsMove (plan_of known.now) cells (SetAt first count i t) }
    ensures made { result ≡ made.is_array known.now cells first count }
{
    match first.checked_add(count) {
        None => false,
        Some(end) => end as usize <= cells && are_one(known, first, end),
    }
}

fn is_move(known: &Known, cells: usize, operation: Operation) -> bool
    ensures tells { IsTrue result → IsMove (plan_of known.now) cells operation }
    ensures made { result ≡ made.is_move known.now cells operation }
{
    match operation {
        Operation::Assume(_) => false,
        Operation::Set(cell, _) | Operation::Draw(cell, _) => (cell as usize) < cells,
        Operation::SetAt(first, count, _, _) => is_array(known, cells, first, count),
    }
}

fn are_moves(known: &Known, cells: usize, ops: &[Operation], skip: usize) -> bool
    ensures tells { IsTrue result → AreMoves (plan_of known.now) cells (drop skip ops.now) }
    ensures made { result ≡ made.are_moves known.now cells ops.now skip }
{
    for number in skip..ops.len() {
        if !is_move(known, cells, ops[number]) {
            return false;
        }
    }
    true
}

/// Whether the operations of a way test nothing, and their cells are there.
pub(crate) fn has_moves(graph: &Graph, known: &Known, way: Way) -> bool
    ensures tells { IsTrue result → AreMoves (plan_of known.now) (length graph.now.cells) (moves_of graph.now way) }
    ensures made { result ≡ made.has_moves graph.now known.now way }
{
    let edges = graph.edges();
    if way.edge_at >= edges.len() {
        return false;
    }
    let cells = graph.cells().len();
    are_moves(known, cells, edges[way.edge_at].ops.as_slice(), way.skip)
}
