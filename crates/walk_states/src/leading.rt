//! Where a place leads to on a walk.
ghost use Rattle.walk_states.specs.Made as made;
ghost use Rattle.walk_states.specs.Made.{walk_of};
ghost use Rattle.walk_states.specs.Told.{Told};
ghost use Rattle.std.specs.Prelude.{◌≡◌, ◌+◌, ◌||◌, IfOk, None, Some};
ghost use Rattle.bv_term.specs.Numbers.{truth};
ghost use Rattle.truth_terms.specs.Truths.{Grew};
ghost use Rattle.block_rule.specs.Deeds.{Does, Sets};
ghost use Rattle.block_rule.specs.Rule.{checked, found, is_set, leads, waits, with_place, with_saved, with_sure};
ghost use Rattle.block_rule.specs.Rule as rule;
ghost use Rattle.block_steps.specs.Tests.{holds};
ghost use Rattle.walk_states.specs.Known.{plan_of};
ghost use Rattle.walk_states.specs.Walks.{Finds, state_of, waits_of};

use crate::known::{Known, is_cut, matters};
use crate::lists::{found, with_bad, with_wait};
use crate::state::{Stop, Walk};
use block_steps::{Test, adds, sets};
use c_graph::Graph;
use std::alloc::Global;

/// One more.
fn next_of(number: u32) -> Result<u32, Stop>
    ensures means { IfOk result (λ n. n ≡ number + 1) }
    ensures made { Told (λ n. n) result (made.next_of number) }
{
    if number == u32::MAX {
        return Err(Stop::Differs);
    }
    Ok(number + 1)
}

/// A place that waits under a guard gets one more way.
fn added(old: &Graph, new: &Graph, walk: Walk, cell: u32, test: Test) -> Result<Walk, Stop>
    requires { Grew old.now.terms new.now.terms }
    ensures means { IfOk result (Finds new.now walk (λ rest. Does (Sets cell (λ s. truth (is_set cell s || holds old.now.terms test s))) (rest (state_of walk)))) }
    ensures made { Told walk_of result (made.added old.now.terms new.now (walk_of walk) cell test) }
{
    let Some(cursor) = adds(old.terms(), new, walk.cursor, cell, test) else {
        return Err(Stop::Differs);
    };
    Ok(Walk {
        waiting: walk.waiting,
        bads: walk.bads,
        lost: walk.lost,
        next: walk.next,
        cursor,
    })
}

/// A place waits under a guard of its own.
fn entered(
    alloc: Global,
    old: &Graph,
    new: &Graph,
    walk: Walk,
    to: u32,
    test: Test,
) -> Result<Walk, Stop>
    requires { Grew old.now.terms new.now.terms }
    ensures means { IfOk result (Finds new.now walk (λ rest. Does (Sets walk.next (λ s. truth (holds old.now.terms test s))) (rest (with_place (state_of walk) to)))) }
    ensures made { Told walk_of result (made.entered old.now.terms new.now (walk_of walk) to test) }
{
    let Some(cursor) = sets(old.terms(), new, walk.cursor, walk.next, test) else {
        return Err(Stop::Differs);
    };
    let next = next_of(walk.next)?;
    let waiting = with_wait(alloc, &walk.waiting, to, Some(walk.next))?;
    Ok(Walk {
        waiting,
        bads: walk.bads,
        lost: walk.lost,
        next,
        cursor,
    })
}

/// A place waits surely.
fn surely(alloc: Global, walk: Walk, to: u32) -> Result<Walk, Stop>
    ensures means { IfOk result (λ w. (state_of w ≡ with_sure (state_of walk) to) × (w.cursor ≡ walk.cursor)) }
    ensures made { Told walk_of result (Some (made.surely (walk_of walk) to)) }
{
    let waiting = with_wait(alloc, &walk.waiting, to, None)?;
    Ok(Walk {
        waiting,
        bads: walk.bads,
        lost: walk.lost,
        next: walk.next,
        cursor: walk.cursor,
    })
}

/// A place that did not wait does now.
fn begun(
    alloc: Global,
    old: &Graph,
    new: &Graph,
    known: &Known,
    walk: Walk,
    to: u32,
    sure: bool,
    test: Test,
) -> Result<Walk, Stop>
    requires { Grew old.now.terms new.now.terms }
    ensures means { IfOk result (Finds new.now walk (λ rest. waits (plan_of known.now) (state_of walk) to sure (holds old.now.terms test) rest None)) }
    ensures made { Told walk_of result (made.begun old.now.terms new.now (plan_of known.now) (walk_of walk) to sure test) }
{
    if sure && !is_cut(known, to) {
        surely(alloc, walk, to)
    } else {
        entered(alloc, old, new, walk, to, test)
    }
}

/// A run goes on at a place that waits already.
fn waits_more(
    old: &Graph,
    new: &Graph,
    known: &Known,
    walk: Walk,
    to: u32,
    sure: bool,
    test: Test,
    guard: Option<u32>,
) -> Result<Walk, Stop>
    requires { Grew old.now.terms new.now.terms }
    ensures means { IfOk result (Finds new.now walk (λ rest. waits (plan_of known.now) (state_of walk) to sure (holds old.now.terms test) rest (Some guard))) }
    ensures made { Told walk_of result (made.waits_more old.now.terms new.now (walk_of walk) test guard) }
{
    match guard {
        None => Ok(walk),
        Some(cell) => added(old, new, walk, cell, test),
    }
}

/// A run goes on at a place that matters, which waits already or does not.
fn waits_at(
    alloc: Global,
    old: &Graph,
    new: &Graph,
    known: &Known,
    walk: Walk,
    to: u32,
    sure: bool,
    test: Test,
    place: Option<Option<u32>>,
) -> Result<Walk, Stop>
    requires { Grew old.now.terms new.now.terms }
    ensures means { IfOk result (Finds new.now walk (λ rest. waits (plan_of known.now) (state_of walk) to sure (holds old.now.terms test) rest place)) }
    ensures made { Told walk_of result (made.waits_at old.now.terms new.now (plan_of known.now) (walk_of walk) to sure test place) }
{
    match place {
        Some(guard) => waits_more(old, new, known, walk, to, sure, test, guard),
        None => begun(alloc, old, new, known, walk, to, sure, test),
    }
}

/// A run goes on at a place that matters.
fn waits(
    alloc: Global,
    old: &Graph,
    new: &Graph,
    known: &Known,
    walk: Walk,
    to: u32,
    sure: bool,
    test: Test,
) -> Result<Walk, Stop>
    requires { Grew old.now.terms new.now.terms }
    ensures means { IfOk result (Finds new.now walk (λ rest. waits (plan_of known.now) (state_of walk) to sure (holds old.now.terms test) rest (found (waits_of walk.waiting.items) to))) }
    ensures made { Told walk_of result (made.waits old.now.terms new.now (plan_of known.now) (walk_of walk) to sure test) }
{
    let place = found(&walk.waiting, to);
    waits_at(alloc, old, new, known, walk, to, sure, test, place)
}

/// A run may be lost.
fn losing(walk: Walk) -> Walk
    ensures means { (state_of result ≡ rule.losing (state_of walk)) × (result.cursor ≡ walk.cursor) }
    ensures made { walk_of result ≡ made.losing (walk_of walk) }
{
    Walk {
        waiting: walk.waiting,
        bads: walk.bads,
        lost: true,
        next: walk.next,
        cursor: walk.cursor,
    }
}

/// A run goes on at a node.
pub fn leads(
    alloc: Global,
    old: &Graph,
    new: &Graph,
    known: &Known,
    walk: Walk,
    to: u32,
    sure: bool,
    test: Test,
) -> Result<Walk, Stop>
    requires { Grew old.now.terms new.now.terms }
    ensures means { IfOk result (Finds new.now walk (leads (plan_of known.now) (state_of walk) to sure (holds old.now.terms test))) }
    ensures made { Told walk_of result (made.leads old.now.terms new.now (plan_of known.now) (walk_of walk) to sure test) }
{
    if matters(known, to) {
        waits(alloc, old, new, known, walk, to, sure, test)
    } else {
        Ok(losing(walk))
    }
}

/// A check under a test: its cell says whether it failed.
pub fn checked(old: &Graph, new: &Graph, walk: Walk, error: u32, test: Test) -> Result<Walk, Stop>
    requires { Grew old.now.terms new.now.terms }
    ensures means { IfOk result (Finds new.now walk (checked (state_of walk) error (holds old.now.terms test))) }
    ensures made { Told walk_of result (made.checked old.now.terms new.now (walk_of walk) error test) }
{
    let Some(cursor) = sets(old.terms(), new, walk.cursor, walk.next, test) else {
        return Err(Stop::Differs);
    };
    let next = next_of(walk.next)?;
    let bads = with_bad(walk.bads, walk.next, error)?;
    Ok(Walk {
        waiting: walk.waiting,
        bads,
        lost: walk.lost,
        next,
        cursor,
    })
}

/// The guard of a place and a test go into a cell of their own.
pub fn saved(old: &Graph, new: &Graph, walk: Walk, test: Test) -> Result<Walk, Stop>
    requires { Grew old.now.terms new.now.terms }
    ensures means { IfOk result (Finds new.now walk (λ rest. Does (Sets walk.next (λ s. truth (holds old.now.terms test s))) (rest (with_saved (state_of walk))))) }
    ensures made { Told walk_of result (made.saved old.now.terms new.now (walk_of walk) test) }
{
    let Some(cursor) = sets(old.terms(), new, walk.cursor, walk.next, test) else {
        return Err(Stop::Differs);
    };
    let next = next_of(walk.next)?;
    Ok(Walk {
        waiting: walk.waiting,
        bads: walk.bads,
        lost: true,
        next,
        cursor,
    })
}
