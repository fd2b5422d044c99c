//! Branches on a walk: on checks that may have failed, and on the places that wait at the end.
ghost use Rattle.walk_states.specs.Told.{Told};
ghost use Rattle.block_walk.specs.Made as made;
ghost use Rattle.std.specs.Prelude.{ℕ, ◌≡◌, [], ◌∷◌, not, Bool, List, IfOk, IsTrue};
ghost use Rattle.truth_terms.specs.Truths.{Grew, IsBit};
ghost use Rattle.block_rule.specs.Deeds.{Branches, Code, Does, Ends, Stops, Tests};
ghost use Rattle.block_rule.specs.Rule.{certain, exits, flushed, some_bad};
ghost use Rattle.block_steps.specs.Cursors.{AreSides, EndAt, Meets, SideAt};
ghost use Rattle.block_steps.specs.Tests.{holds};
ghost use Rattle.walk_states.specs.Known.{plan_of};
ghost use Rattle.walk_states.specs.Walks.{bads_of, first_of, waits_of};
ghost use Rattle.block_walk.specs.Branches.{IsSecond};

use block_steps::{Cursor, Test, are_sides, assumes, ends, find_branch, find_side, is_test};
use bv_term::{TermId, Terms};
use c_graph::Graph;
use std::alloc::Global;
use truth_terms::{is_added, is_cell_bit, is_not};
use walk_states::{Failing, Known, Stop, Waiting, is_cut};

/// The place behind the end of an edge at a node.
fn ended(new: &Graph, cursor: Cursor, to: u32) -> Result<Cursor, Stop>
    ensures means { IfOk result (λ n. Meets new.now cursor (Ends to)) }
    ensures made { Told (λ n. n) result (made.ended new.now cursor to) }
{
    match ends(new, cursor, to) {
        None => Err(Stop::Differs),
        Some(next) => Ok(next),
    }
}

/// Whether a term is the bit of a test.
fn is_bit(old: &Graph, new: &Graph, term: TermId, test: Test) -> bool
    requires { Grew old.now.terms new.now.terms }
    ensures means { IsTrue result → IsBit new.now.terms term (holds old.now.terms test) }
    ensures made { result ≡ made.is_bit old.now.terms new.now term test }
{
    is_test(old.terms(), new.terms(), term, test)
}

/// Whether the second term is the complement of the first.
fn is_other(new: &Graph, term: TermId, other: TermId) -> bool
    ensures means { IsTrue result → (p : List ℕ → Bool) → IsBit new.now.terms term p → IsBit new.now.terms other (λ s. not (p s)) }
    ensures made { result ≡ made.is_other new.now term other }
{
    is_not(new.terms(), other, term)
}

/// Goes on only where the edges of these two places are all that lead from the node.
fn only_these(alloc: Global, new: &Graph, node: u32, one: Cursor, other: Cursor) -> Result<(), Stop>
    ensures means { IfOk result (λ u. AreSides new.now node one.edge_at other.edge_at) }
    ensures made { Told (λ u. tt) result (made.if_so (made.only_these new.now node one other)) }
{
    if are_sides(alloc, new, node, one.edge_at, other.edge_at)? {
        Ok(())
    } else {
        Err(Stop::Differs)
    }
}

/// The place behind the test of a branch's second side, whose edge begins where its first side ends: the test is the complement of the
/// first side's, and no other edge leads from the node.
fn second_side(
    alloc: Global,
    new: &Graph,
    node: u32,
    term: TermId,
    one: Cursor,
    end: Cursor,
) -> Result<Cursor, Stop>
    ensures means { IfOk result (λ n. IsSecond new.now node term one n) }
    ensures made { Told (λ n. n) result (made.second_side new.now node term one end) }
{
    let Some(other) = find_side(new, end, node) else {
        return Err(Stop::Differs);
    };
    if !is_other(new, term, other.term) {
        return Err(Stop::Differs);
    }
    only_these(alloc, new, node, one, other.next)?;
    Ok(other.next)
}

/// A branch whose first side ends at a node: the place behind the test of its second side.
fn passed(
    alloc: Global,
    old: &Graph,
    new: &Graph,
    cursor: Cursor,
    test: Test,
    to: u32,
) -> Result<Cursor, Stop>
    requires { Grew old.now.terms new.now.terms }
    ensures means { IfOk result (λ n. (code : Code) → Meets new.now n code → Meets new.now cursor (Branches (holds old.now.terms test) (Ends to) code)) }
    ensures made { Told (λ n. n) result (made.passed old.now.terms new.now cursor test to) }
{
    let Some(fork) = find_branch(new, cursor) else {
        return Err(Stop::Differs);
    };
    let Some(one) = find_side(new, fork.next, fork.node) else {
        return Err(Stop::Differs);
    };
    if !is_bit(old, new, one.term, test) {
        return Err(Stop::Differs);
    }
    let end = ended(new, one.next, to)?;
    second_side(alloc, new, fork.node, one.term, one.next, end)
}

/// Whether a term is 1 where one of the checks failed.
fn is_some_failing(terms: &Terms, term: TermId, bads: &[Failing]) -> bool
    ensures means { IsTrue result → IsBit terms.now term (some_bad (bads_of bads.now)) }
    ensures made { result ≡ made.is_some_failing terms.now term (bads_of bads.now) }
{
    let mut at = term;
    for number in 0..bads.len() {
        if number + 1 == bads.len() {
            return is_cell_bit(terms, at, bads[number].cell);
        }
        let Some(next) = is_added(terms, at, bads[number].cell) else {
            return false;
        };
        at = next;
    }
    false
}

/// Branches on checks in their order, the last without a test.
fn first_failing(
    alloc: Global,
    old: &Graph,
    new: &Graph,
    bads: &[Failing],
    cursor: Cursor,
) -> Result<Cursor, Stop>
    requires { Grew old.now.terms new.now.terms }
    ensures means { IfOk result (λ n. Meets new.now cursor (first_of (bads_of bads.now))) }
    ensures made { Told (λ n. n) result (made.first_failing old.now.terms new.now (bads_of bads.now) cursor) }
{
    let mut at = cursor;
    for number in 0..bads.len() {
        if number + 1 == bads.len() {
            return ended(new, at, bads[number].error);
        }
        let test = Test::On(Some(bads[number].cell));
        at = passed(alloc, old, new, at, test, bads[number].error)?;
    }
    Err(Stop::Differs)
}

/// The branch for checks: its node, its term, and the place behind the test of its first side.
#[derive(Clone, Copy)]
struct Opened {
    node: u32,
    term: TermId,
    next: Cursor,
}

fn open_branch(new: &Graph, bads: &[Failing], cursor: Cursor) -> Result<Opened, Stop>
    ensures means { IfOk result (λ o. EndAt new.now cursor o.node × SideAt new.now o.next o.node o.term × IsBit new.now.terms o.term (some_bad (bads_of bads.now))) }
    ensures made { Told made.branch_of result (made.open_branch new.now (bads_of bads.now) cursor) }
{
    let Some(fork) = find_branch(new, cursor) else {
        return Err(Stop::Differs);
    };
    let Some(one) = find_side(new, fork.next, fork.node) else {
        return Err(Stop::Differs);
    };
    if !is_some_failing(new.terms(), one.term, bads) {
        return Err(Stop::Differs);
    }
    Ok(Opened {
        node: fork.node,
        term: one.term,
        next: one.next,
    })
}

/// One branch for all checks that may have failed.
pub(crate) fn flush(
    alloc: Global,
    old: &Graph,
    new: &Graph,
    bads: &[Failing],
    cursor: Cursor,
) -> Result<Cursor, Stop>
    requires { Grew old.now.terms new.now.terms }
    ensures means { IfOk result (λ n. (code : Code) → Meets new.now n code → Meets new.now cursor (flushed (bads_of bads.now) code)) }
    ensures made { Told (λ n. n) result (made.flush old.now.terms new.now (bads_of bads.now) cursor) }
{
    if bads.is_empty() {
        return Ok(cursor);
    }
    let opened = open_branch(new, bads, cursor)?;
    let end = first_failing(alloc, old, new, bads, opened.next)?;
    second_side(alloc, new, opened.node, opened.term, opened.next, end)
}

/// The branch for all checks that may have failed, behind which nothing waits. Where there is no check either, no edge leads on, and so
/// none is one of the code's.
fn flush_last(
    alloc: Global,
    old: &Graph,
    new: &Graph,
    bads: &[Failing],
    cursor: Cursor,
) -> Result<Cursor, Stop>
    requires { Grew old.now.terms new.now.terms }
    ensures means { IfOk result (λ n. Meets new.now cursor (flushed (bads_of bads.now) Stops)) }
    ensures made { Told (λ n. n) result (made.flush_last old.now.terms new.now (bads_of bads.now) cursor) }
{
    if bads.is_empty() {
        return Err(Stop::Differs);
    }
    let opened = open_branch(new, bads, cursor)?;
    only_these(alloc, new, opened.node, opened.next, opened.next)?;
    first_failing(alloc, old, new, bads, opened.next)
}

/// Where a run may have been lost, it goes on only where the guard is 1.
pub(crate) fn certain(
    old: &Graph,
    new: &Graph,
    cursor: Cursor,
    lost: bool,
    guard: Option<u32>,
) -> Result<Cursor, Stop>
    requires { Grew old.now.terms new.now.terms }
    ensures means { IfOk result (λ n. (code : Code) → Meets new.now n code → Meets new.now cursor (certain lost guard code)) }
    ensures made { Told (λ n. n) result (made.certain old.now.terms new.now cursor lost guard) }
{
    if !lost {
        return Ok(cursor);
    }
    match guard {
        None => Ok(cursor),
        Some(cell) => assumed(old, new, cursor, Test::On(Some(cell))),
    }
}

fn assumed(old: &Graph, new: &Graph, cursor: Cursor, test: Test) -> Result<Cursor, Stop>
    requires { Grew old.now.terms new.now.terms }
    ensures means { IfOk result (λ n. (code : Code) → Meets new.now n code → Meets new.now cursor (Does (Tests (holds old.now.terms test)) code)) }
    ensures made { Told (λ n. n) result (made.assumed old.now.terms new.now cursor test) }
{
    match assumes(old.terms(), new, cursor, test) {
        None => Err(Stop::Differs),
        Some(next) => Ok(next),
    }
}

/// The last way out.
fn last_exit(
    old: &Graph,
    new: &Graph,
    known: &Known,
    lost: bool,
    exit: Waiting,
    cursor: Cursor,
) -> Result<Cursor, Stop>
    requires { Grew old.now.terms new.now.terms }
    ensures means { IfOk result (λ n. Meets new.now cursor (exits (plan_of known.now) lost (waits_of (exit ∷ [])))) }
    ensures made { Told (λ n. n) result (made.last_exit old.now.terms new.now (plan_of known.now) lost (record { node = exit.node; guard = exit.guard }) cursor) }
{
    if !is_cut(known, exit.node) {
        return Err(Stop::Differs);
    }
    if !lost {
        return ended(new, cursor, exit.node);
    }
    let next = assumed(old, new, cursor, Test::On(exit.guard))?;
    ended(new, next, exit.node)
}

/// The places that wait at the end.
fn leave(
    alloc: Global,
    old: &Graph,
    new: &Graph,
    known: &Known,
    lost: bool,
    waiting: &[Waiting],
    cursor: Cursor,
) -> Result<Cursor, Stop>
    requires { Grew old.now.terms new.now.terms }
    ensures means { IfOk result (λ n. Meets new.now cursor (exits (plan_of known.now) lost (waits_of waiting.now))) }
    ensures made { Told (λ n. n) result (made.leave old.now.terms new.now (plan_of known.now) lost (waits_of waiting.now) cursor) }
{
    let mut at = cursor;
    for number in 0..waiting.len() {
        let exit = waiting[number];
        if number + 1 == waiting.len() {
            return last_exit(old, new, known, lost, exit, at);
        }
        if !is_cut(known, exit.node) {
            return Err(Stop::Differs);
        }
        at = passed(alloc, old, new, at, Test::On(exit.guard), exit.node)?;
    }
    Err(Stop::Differs)
}

/// The end of a block: the checks that may have failed, and the places that wait.
pub(crate) fn close(
    alloc: Global,
    old: &Graph,
    new: &Graph,
    known: &Known,
    lost: bool,
    bads: &[Failing],
    waiting: &[Waiting],
    cursor: Cursor,
) -> Result<Cursor, Stop>
    requires { Grew old.now.terms new.now.terms }
    ensures means { IfOk result (λ n. Meets new.now cursor (flushed (bads_of bads.now) (exits (plan_of known.now) lost (waits_of waiting.now)))) }
    ensures made { Told (λ n. n) result (made.close old.now.terms new.now (plan_of known.now) lost (bads_of bads.now) (waits_of waiting.now) cursor) }
{
    if waiting.is_empty() {
        return flush_last(alloc, old, new, bads, cursor);
    }
    let next = flush(alloc, old, new, bads, cursor)?;
    leave(alloc, old, new, known, lost, waiting, next)
}
