//! A walk along the places of one block.
ghost use Rattle.walk_states.specs.Told.{Told};
ghost use Rattle.walk_states.specs.Made.{walk_of};
ghost use Rattle.block_walk.specs.Made as made;
ghost use Rattle.std.specs.Prelude.{◌≡◌, ◌||◌, not, true, false, IfOk, Some, drop};
ghost use Rattle.truth_terms.specs.Truths.{Grew};
ghost use Rattle.block_rule.specs.Deeds.{Code};
ghost use Rattle.block_rule.specs.Rule.{at_place, goes, is_clear, is_none, is_sure, moved, outwards, placed, some_draw};
ghost use Rattle.block_rule.specs.Rule as rule;
ghost use Rattle.block_steps.specs.Cursors.{Meets};
ghost use Rattle.walk_states.specs.Known.{plan_of};
ghost use Rattle.walk_states.specs.declared.state.Ways.TheVariants.{Tested, Checked, Fails, Forks};
ghost use Rattle.walk_states.specs.Walks.{Finds, all_of, bads_of, moves_of, place_of, places_of, state_of, waits_of, way_of, ways_of};

use crate::branches::{certain, close, flush};
use block_steps::{Cursor, Test, stores};
use bv_term::TermId;
use c_graph::{Graph, Operation};
use std::alloc::Global;
use walk_states::{
    Known, Place, Stop, Waiting, Walk, Way, Ways, checked, found, guard_for, leads, no_bads,
    no_waits, saved, without,
};

/// The place behind operations from a number on, each through its guard.
fn moved(
    old: &Graph,
    new: &Graph,
    known: &Known,
    waiting: &[Waiting],
    cursor: Cursor,
    guard: Option<u32>,
    ops: &[Operation],
    skip: usize,
) -> Result<Cursor, Stop>
    requires { Grew old.now.terms new.now.terms }
    ensures means { IfOk result (λ n. (code : Code) → Meets new.now n code
        → Meets new.now cursor (moved old.now.terms (plan_of known.now) (waits_of waiting.now) guard (drop skip ops.now) code)) }
    ensures made { Told (λ n. n) result (made.moved old.now.terms new.now (plan_of known.now) (waits_of waiting.now) cursor guard ops.now skip) }
{
    if skip > ops.len() {
        return Err(Stop::Differs);
    }
    let mut at = cursor;
    for number in skip..ops.len() {
        let operation = ops[number];
        let through = guard_for(known, waiting, guard, operation);
        let Some(next) = stores(old.terms(), new, at, through, operation) else {
            return Err(Stop::Differs);
        };
        at = next;
    }
    Ok(at)
}

/// The place behind the operations of a way.
fn moves(
    old: &Graph,
    new: &Graph,
    known: &Known,
    waiting: &[Waiting],
    cursor: Cursor,
    guard: Option<u32>,
    way: Way,
) -> Result<Cursor, Stop>
    requires { Grew old.now.terms new.now.terms }
    ensures means { IfOk result (λ n. (code : Code) → Meets new.now n code
        → Meets new.now cursor (moved old.now.terms (plan_of known.now) (waits_of waiting.now) guard (moves_of old.now way) code)) }
    ensures made { Told (λ n. n) result (made.moves old.now new.now (plan_of known.now) (waits_of waiting.now) cursor guard way) }
{
    let edges = old.edges();
    if way.edge_at >= edges.len() {
        return Err(Stop::Differs);
    }
    let ops = edges[way.edge_at].ops.as_slice();
    moved(old, new, known, waiting, cursor, guard, ops, way.skip)
}

fn is_draw(operation: Operation) -> bool
    ensures { result ≡ rule.is_draw operation }
{
    match operation {
        Operation::Assume(_) | Operation::Set(_, _) | Operation::SetAt(_, _, _, _) => false,
        Operation::Draw(_, _) => true,
    }
}

fn draw_among(ops: &[Operation], skip: usize) -> bool
    ensures { result ≡ some_draw (drop skip ops.now) }
{
    for number in skip..ops.len() {
        if is_draw(ops[number]) {
            return true;
        }
    }
    false
}

/// Whether a way draws a value.
fn draws(old: &Graph, way: Way) -> bool
    ensures { result ≡ some_draw (moves_of old.now way) }
{
    match old.edges().get(way.edge_at) {
        None => false,
        Some(edge) => draw_among(edge.ops.as_slice(), way.skip),
    }
}

fn is_sure(guard: Option<u32>) -> bool
    ensures { result ≡ is_sure guard }
{
    match guard {
        None => true,
        Some(_) => false,
    }
}

/// A way without a draw.
fn goes_on(
    alloc: Global,
    old: &Graph,
    new: &Graph,
    known: &Known,
    walk: Walk,
    guard: Option<u32>,
    way: Way,
) -> Result<Walk, Stop>
    requires grew { Grew old.now.terms new.now.terms }
    requires plain { some_draw (moves_of old.now way) ≡ false }
    ensures means { IfOk result (Finds new.now walk (goes old.now.terms (plan_of known.now) (state_of walk) guard (way_of old.now way))) }
    ensures made { Told walk_of result (made.goes_on old.now new.now (plan_of known.now) (walk_of walk) guard way) }
{
    let cursor = moves(old, new, known, &walk.waiting, walk.cursor, guard, way)?;
    let there = Walk {
        waiting: walk.waiting,
        bads: walk.bads,
        lost: walk.lost,
        next: walk.next,
        cursor,
    };
    leads(
        alloc,
        old,
        new,
        known,
        there,
        way.to,
        is_sure(guard),
        Test::On(guard),
    )
}

/// A way that draws a value.
fn drawn(
    alloc: Global,
    old: &Graph,
    new: &Graph,
    known: &Known,
    walk: Walk,
    guard: Option<u32>,
    way: Way,
) -> Result<Walk, Stop>
    requires grew { Grew old.now.terms new.now.terms }
    requires draws { some_draw (moves_of old.now way) ≡ true }
    ensures means { IfOk result (Finds new.now walk (goes old.now.terms (plan_of known.now) (state_of walk) guard (way_of old.now way))) }
    ensures made { Told walk_of result (made.drawn old.now new.now (plan_of known.now) (walk_of walk) guard way) }
{
    if !no_waits(&walk.waiting) {
        return Err(Stop::Differs);
    }
    let flushed = flush(alloc, old, new, &walk.bads, walk.cursor)?;
    let sure = certain(old, new, flushed, walk.lost, guard)?;
    let cursor = moves(old, new, known, &walk.waiting, sure, None, way)?;
    let there = Walk {
        waiting: walk.waiting,
        bads: Vec::new(alloc),
        lost: false,
        next: walk.next,
        cursor,
    };
    leads(alloc, old, new, known, there, way.to, true, Test::On(None))
}

/// A way behind its test.
fn goes(
    alloc: Global,
    old: &Graph,
    new: &Graph,
    known: &Known,
    walk: Walk,
    guard: Option<u32>,
    way: Way,
) -> Result<Walk, Stop>
    requires { Grew old.now.terms new.now.terms }
    ensures means { IfOk result (Finds new.now walk (goes old.now.terms (plan_of known.now) (state_of walk) guard (way_of old.now way))) }
    ensures made { Told walk_of result (made.goes old.now new.now (plan_of known.now) (walk_of walk) guard way) }
{
    if draws(old, way) {
        drawn(alloc, old, new, known, walk, guard, way)
    } else {
        goes_on(alloc, old, new, known, walk, guard, way)
    }
}

/// A way behind a test.
fn tested(
    alloc: Global,
    old: &Graph,
    new: &Graph,
    known: &Known,
    walk: Walk,
    guard: Option<u32>,
    test: TermId,
    way: Way,
) -> Result<Walk, Stop>
    requires { Grew old.now.terms new.now.terms }
    ensures means { IfOk result (Finds new.now walk (outwards old.now.terms (plan_of known.now) (state_of walk) guard (ways_of old.now (Tested test way)))) }
    ensures made { Told walk_of result (made.tested old.now new.now (plan_of known.now) (walk_of walk) guard test way) }
{
    let cell = walk.next;
    let there = saved(old, new, walk, Test::Under(guard, test))?;
    goes(alloc, old, new, known, there, Some(cell), way)
}

/// An error behind a test, and a way.
fn checks(
    alloc: Global,
    old: &Graph,
    new: &Graph,
    known: &Known,
    walk: Walk,
    guard: Option<u32>,
    fails: TermId,
    error: u32,
    passes: TermId,
    way: Way,
) -> Result<Walk, Stop>
    requires { Grew old.now.terms new.now.terms }
    ensures means { IfOk result (Finds new.now walk (outwards old.now.terms (plan_of known.now) (state_of walk) guard (ways_of old.now (Checked fails error passes way)))) }
    ensures made { Told walk_of result (made.checks old.now new.now (plan_of known.now) (walk_of walk) guard fails error way) }
{
    let there = checked(old, new, walk, error, Test::Under(guard, fails))?;
    goes(alloc, old, new, known, there, guard, way)
}

/// Two errors behind tests.
fn both_fail(
    old: &Graph,
    new: &Graph,
    known: &Known,
    walk: Walk,
    guard: Option<u32>,
    fails: TermId,
    error: u32,
    others: TermId,
    other: u32,
) -> Result<Walk, Stop>
    requires { Grew old.now.terms new.now.terms }
    ensures means { IfOk result (Finds new.now walk (outwards old.now.terms (plan_of known.now) (state_of walk) guard (ways_of old.now (Fails fails error others other)))) }
    ensures made { Told walk_of result (made.both_fail old.now new.now (walk_of walk) guard fails error others other) }
{
    let there = checked(old, new, walk, error, Test::Under(guard, fails))?;
    checked(old, new, there, other, Test::Under(guard, others))
}

/// Two ways that do nothing behind their tests.
fn forks(
    alloc: Global,
    old: &Graph,
    new: &Graph,
    known: &Known,
    walk: Walk,
    guard: Option<u32>,
    test: TermId,
    one: u32,
    others: TermId,
    other: u32,
) -> Result<Walk, Stop>
    requires { Grew old.now.terms new.now.terms }
    ensures means { IfOk result (Finds new.now walk (outwards old.now.terms (plan_of known.now) (state_of walk) guard (ways_of old.now (Forks test one others other)))) }
    ensures made { Told walk_of result (made.forks old.now new.now (plan_of known.now) (walk_of walk) guard test one others other) }
{
    let under = Test::Under(guard, test);
    let there = leads(alloc, old, new, known, walk, one, false, under)?;
    let under = Test::Under(guard, others);
    leads(alloc, old, new, known, there, other, false, under)
}

/// The ways out of a place under its guard.
fn outwards(
    alloc: Global,
    old: &Graph,
    new: &Graph,
    known: &Known,
    walk: Walk,
    guard: Option<u32>,
    ways: Ways,
) -> Result<Walk, Stop>
    requires { Grew old.now.terms new.now.terms }
    ensures means { IfOk result (Finds new.now walk (outwards old.now.terms (plan_of known.now) (state_of walk) guard (ways_of old.now ways))) }
    ensures made { Told walk_of result (made.outwards old.now new.now (plan_of known.now) (walk_of walk) guard ways) }
{
    match ways {
        Ways::Goes(way) => goes(alloc, old, new, known, walk, guard, way),
        Ways::Tested(test, way) => tested(alloc, old, new, known, walk, guard, test, way),
        Ways::Checked(fail, error, passes, way) => {
            checks(
                alloc, old, new, known, walk, guard, fail, error, passes, way,
            )
        }
        Ways::Fails(fail, error, others, other) => {
            both_fail(old, new, known, walk, guard, fail, error, others, other)
        }
        Ways::Forks(test, one, others, other) => {
            forks(
                alloc, old, new, known, walk, guard, test, one, others, other,
            )
        }
    }
}

fn is_certain(walk: &Walk) -> bool
    ensures { result ≡ (not walk.now.lost || is_none (bads_of walk.now.bads.items)) }
{
    !walk.lost || no_bads(&walk.bads)
}

/// Whether the run is surely at a place.
fn is_clear(walk: &Walk) -> bool
    ensures { result ≡ is_clear (state_of walk.now) }
{
    no_waits(&walk.waiting) && is_certain(walk)
}

/// A place that no longer waits.
fn arrived(alloc: Global, walk: Walk, node: u32) -> Result<Walk, Stop>
    ensures means { IfOk result (λ w. (state_of w ≡ rule.left (state_of walk) node) × (w.cursor ≡ walk.cursor)) }
    ensures made { Told walk_of result (Some (made.arrived (walk_of walk) node)) }
{
    let waiting = without(alloc, &walk.waiting, node)?;
    Ok(Walk {
        waiting,
        bads: walk.bads,
        lost: walk.lost,
        next: walk.next,
        cursor: walk.cursor,
    })
}

/// A place at which the run surely is.
fn at_sure_place(
    alloc: Global,
    old: &Graph,
    new: &Graph,
    known: &Known,
    walk: Walk,
    guard: Option<u32>,
    ways: Ways,
) -> Result<Walk, Stop>
    requires grew { Grew old.now.terms new.now.terms }
    requires clear { is_clear (state_of walk) ≡ true }
    ensures means { IfOk result (Finds new.now walk (λ rest. at_place old.now.terms (plan_of known.now) (state_of walk) (ways_of old.now ways) rest (Some guard))) }
    ensures made { Told walk_of result (made.at_sure_place old.now new.now (plan_of known.now) (walk_of walk) guard ways) }
{
    let cursor = certain(old, new, walk.cursor, walk.lost, guard)?;
    let there = Walk {
        waiting: walk.waiting,
        bads: walk.bads,
        lost: false,
        next: walk.next,
        cursor,
    };
    outwards(alloc, old, new, known, there, None, ways)
}

/// A place under its guard.
fn at_place(
    alloc: Global,
    old: &Graph,
    new: &Graph,
    known: &Known,
    walk: Walk,
    guard: Option<u32>,
    ways: Ways,
) -> Result<Walk, Stop>
    requires { Grew old.now.terms new.now.terms }
    ensures means { IfOk result (Finds new.now walk (λ rest. at_place old.now.terms (plan_of known.now) (state_of walk) (ways_of old.now ways) rest (Some guard))) }
    ensures made { Told walk_of result (made.at_place old.now new.now (plan_of known.now) (walk_of walk) guard ways) }
{
    if is_clear(&walk) {
        at_sure_place(alloc, old, new, known, walk, guard, ways)
    } else {
        outwards(alloc, old, new, known, walk, guard, ways)
    }
}

/// A place.
fn placed(
    alloc: Global,
    old: &Graph,
    new: &Graph,
    known: &Known,
    walk: Walk,
    place: Place,
) -> Result<Walk, Stop>
    requires { Grew old.now.terms new.now.terms }
    ensures means { IfOk result (Finds new.now walk (placed old.now.terms (plan_of known.now) (state_of walk) (place_of old.now place))) }
    ensures made { Told walk_of result (made.placed old.now new.now (plan_of known.now) (walk_of walk) place) }
{
    let Some(guard) = found(&walk.waiting, place.node) else {
        return Err(Stop::Differs);
    };
    let there = arrived(alloc, walk, place.node)?;
    at_place(alloc, old, new, known, there, guard, place.ways)
}

/// At its first place a run surely is.
fn started(alloc: Global, node: u32, next: u32, cursor: Cursor) -> Result<Walk, Stop>
    ensures means { IfOk result (λ w. (state_of w ≡ rule.start node next) × (w.cursor ≡ cursor)) }
    ensures made { Told walk_of result (Some (made.started node next cursor)) }
{
    let mut waiting = Vec::new(alloc);
    waiting.push(Waiting { node, guard: None })?;
    Ok(Walk {
        waiting,
        bads: Vec::new(alloc),
        lost: false,
        next,
        cursor,
    })
}

/// All places, and the end of the block.
fn all_placed(
    alloc: Global,
    old: &Graph,
    new: &Graph,
    known: &Known,
    walk: Walk,
    places: &[Place],
) -> Result<Cursor, Stop>
    requires { Grew old.now.terms new.now.terms }
    ensures means { IfOk result (λ n. Meets new.now walk.cursor (rule.all_placed old.now.terms (plan_of known.now) (places_of old.now places.now) (state_of walk))) }
    ensures made { Told (λ n. n) result (made.all_placed old.now new.now (plan_of known.now) (walk_of walk) places.now) }
{
    let mut at = walk;
    for number in 0..places.len() {
        at = placed(alloc, old, new, known, at, places[number])?;
    }
    close(
        alloc,
        old,
        new,
        known,
        at.lost,
        &at.bads,
        &at.waiting,
        at.cursor,
    )
}

/// The code of a block from a place in the edges on, the first saved cell having this number.
pub fn block(
    alloc: Global,
    old: &Graph,
    new: &Graph,
    known: &Known,
    places: &[Place],
    next: u32,
    cursor: Cursor,
) -> Result<Cursor, Stop>
    requires { Grew old.now.terms new.now.terms }
    ensures means { IfOk result (λ n. Meets new.now cursor (all_of old.now.terms (plan_of known.now) (places_of old.now places.now) next)) }
    ensures made { Told (λ n. n) result (made.block old.now new.now (plan_of known.now) places.now next cursor) }
{
    if places.is_empty() {
        return Err(Stop::Differs);
    }
    let walk = started(alloc, places[0].node, next, cursor)?;
    all_placed(alloc, old, new, known, walk, places)
}
