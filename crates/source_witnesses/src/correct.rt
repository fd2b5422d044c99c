//! The witness of a source that is safe.

ghost use Rattle.std.specs.Prelude.{◌≡◌, ◌<◌, ◌≤◌, ◌^◌, length, slice_get, IfOk};
ghost use Rattle.lv_base.specs.Place.{place_at};
ghost use Rattle.moment_text.specs.Moments.{IsMoment};
ghost use Rattle.c_tree.specs.Denotes.{tree_of};
ghost use Rattle.type_scopes.specs.Seen as seen;
ghost use Rattle.witness_expressions.specs.Names.{named};
ghost use Rattle.block_join.specs.Living.{live_at};
ghost use Rattle.source_witnesses.specs.Witnesses.{condition_of, expression_at, invariant_at, invariants_of, invariants_in, safe_text, shown_cell, shown_cells};

use crate::stamp::{Stamp, metadata};
use block_join::LiveCells;
use c_graph::{Cell, Graph, LoopAt, Map, NodeId, Origin};
use c_tree::Unit;
use loop_names::spellings;
use lv_base::{Memory, Model, Place, Text, place_of};
use source_bindings::bind_all;
use std::alloc::Global;
use type_scopes::Env;
use witness_expressions::{Spelling, expression};
use witness_places::{LoopPlace, main_loops};
use witness_yaml::{Invariant, correctness};

// Where the condition of the loop with this keyword begins.
fn condition_at(places: &[LoopPlace], keyword: u32) -> u32
    ensures { result ≡ condition_of places.now keyword }
{
    for place in places {
        if place.keyword == keyword {
            return place.condition;
        }
    }
    keyword
}

fn place_in(source: &[u8], at: u32) -> Place
    requires { length source.now ≤ 2 ^ 20 }
    ensures { result ≡ place_at source.now at }
{
    place_of(source, (at as usize).min(source.len()))
}

// The expression of the formula of a node.
fn formula(
    alloc: Global,
    map: &Map,
    cells: &[Cell],
    spellings: &[Spelling],
    node: u32,
) -> Result<Text, Memory>
    ensures { IfOk result (λ t. t ≡ expression_at (named spellings.now cells.now) map.now (slice_get map.now.at node)) }
{
    match map.at().get(node as usize) {
        Some(term) => expression(alloc, map.terms(), cells, spellings, *term),
        None => Text::copy_of(alloc, b"1"),
    }
}

// The cell where it is shown, and else one that no object has.
fn shown(cell: Cell, is_live: bool) -> Cell
    ensures { result ≡ shown_cell is_live cell }
{
    if is_live {
        cell
    } else {
        Cell {
            width: cell.width,
            origin: Origin::Saved,
        }
    }
}

// The cells as they are shown at a node: only those that are live there have the elements of objects.
fn cells_at(
    alloc: Global,
    cells: &[Cell],
    live: &LiveCells,
    node: NodeId,
) -> Result<Vec<Cell>, Memory>
    requires few { length cells.now < 4294967296 }
    ensures { IfOk result (λ v. v.items ≡ shown_cells (live_at live.now node.0) cells.now) }
{
    let mut found = Vec::new(alloc);
    for (number, cell) in cells.iter().enumerate() {
        found.push(shown(*cell, live.is_live(node, number as u32)))?;
    }
    Ok(found)
}

fn invariant(
    alloc: Global,
    source: &[u8],
    env: &Env<'_>,
    places: &[LoopPlace],
    graph: &Graph,
    live: &LiveCells,
    map: &Map,
    a_loop: LoopAt,
) -> Result<Invariant, Memory>
    requires small { length source.now ≤ 2 ^ 20 }
    ensures { IfOk result (λ i. i ≡ invariant_at source.now (seen.env_of env.now) places.now (live_at live.now) graph.now.cells map.now a_loop) }
{
    let _entry = graph.entry();
    let spellings = spellings(alloc, env, a_loop.at, condition_at(places, a_loop.at))?;
    let cells = cells_at(alloc, graph.cells(), live, a_loop.node)?;
    let expression = formula(alloc, map, &cells, &spellings, a_loop.node.0)?;
    Ok(Invariant {
        place: place_in(source, a_loop.at),
        expression,
    })
}

// The invariants of all loops.
fn invariants(
    alloc: Global,
    source: &[u8],
    env: &Env<'_>,
    places: &[LoopPlace],
    graph: &Graph,
    live: &LiveCells,
    map: &Map,
) -> Result<Vec<Invariant>, Memory>
    requires small { length source.now ≤ 2 ^ 20 }
    ensures { IfOk result (λ v. v.items ≡ invariants_of source.now (seen.env_of env.now) places.now (live_at live.now) graph.now.cells map.now graph.now.loops) }
{
    let mut found = Vec::new(alloc);
    for a_loop in graph.loops() {
        found.push(invariant(alloc, source, env, places, graph, live, map, *a_loop)?)?;
    }
    Ok(found)
}

fn of_unit(
    alloc: Global,
    unit: &Unit,
    source: &[u8],
    model: Model,
    graph: &Graph,
    live: &LiveCells,
    map: &Map,
) -> Result<Vec<Invariant>, Memory>
    requires small { length source.now ≤ 2 ^ 20 }
    ensures { IfOk result (λ v. v.items ≡ invariants_in source.now (tree_of unit.now) model graph.now (live_at live.now) map.now) }
{
    let env = bind_all(alloc, unit, model)?;
    let places = main_loops(alloc, unit)?;
    invariants(alloc, source, &env, &places, graph, live, map)
}

/// The witness of a source that is safe, by its tree: an invariant for each loop of the graph, which is the formula of the loop's node in the
/// map as an expression over the names that are visible in the loop's condition, as far as it reads cells that are live at that node.
///
/// Fails with `Memory` where memory runs out.
#[tactic(auto, unfolding(crate::specs::Witnesses::safe_text))]
pub fn safe_witness(
    alloc: Global,
    name: &str,
    source: &[u8],
    unit: &Unit,
    model: Model,
    graph: &Graph,
    live: &LiveCells,
    map: &Map,
    stamp: Stamp,
) -> Result<Text, Memory>
    requires small { length source.now ≤ 2 ^ 20 }
    requires moment { IsMoment stamp.moment }
    ensures { IfOk result (λ t. t ≡ safe_text name.now source.now (tree_of unit.now) model graph.now (live_at live.now) map.now stamp) }
{
    let invariants = of_unit(alloc, unit, source, model, graph, live, map)?;
    let metadata = metadata(alloc, name, source, model, stamp)?;
    correctness(alloc, &metadata, &invariants)
}
