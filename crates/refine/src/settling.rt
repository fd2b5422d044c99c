//! A pair: its first vertex is covered by the second, or a store keeps them apart.

ghost use Rattle.std.specs.Prelude.{◌≡◌, ◌<◌, IfErr, IfOk, IsTrue, OnErr, length, true};
ghost use Rattle.pair_query.specs.Laws.{AreBits, pair_of};
ghost use Rattle.reach_tree.specs.Trees.{vertex_at};
ghost use Rattle.cover_engine.specs.Unwindings.{may_settle};
ghost use Rattle.cover_engine.specs.Units.{Legal};
ghost use Rattle.refine.specs.Decisions.{IsClosedLabel, IsDecision, IsPairSettled, IsSubset, IsConjunct};
ghost use Rattle.refine.specs.Refusals.{IsRefused};
ghost use Rattle.refine.specs.Witnesses.{AreKnown};

use crate::answers::{Settled, answer_to, no_clauses, no_memory};
use crate::reading::store_of;
use crate::witnesses::Witnesses;
use bv_term::{Term, TermId, Terms};
use c_graph::{Graph, Store};
use cdcl_solver::{Answer, QueryFail};
use cover_engine::Unwinding;
use pair_query::pair_clauses;
use reach_tree::VertexId;
use resolution_log::Log;
use std::alloc::Global;

/// What is known of a pair.
#[derive(Drop)]
pub enum Decision {
    Covered,
    // By this store.
    Apart(Store),
    Spent(Log),
}

// Whether some conjunct is false.
fn is_closed(terms: &Terms, label: &[TermId]) -> bool
    requires { AreBits terms.now label.now }
    ensures { IsTrue result → IsClosedLabel terms.now label.now }
{
    for conjunct in label {
        if terms.get(*conjunct) == Term::Constant(1, 0) {
            return true;
        }
    }
    false
}

fn has(label: &[TermId], term: TermId) -> bool
    ensures { IsTrue result → IsConjunct label.now term }
{
    for conjunct in label {
        if *conjunct == term {
            return true;
        }
    }
    false
}

// Whether each conjunct of the second label is one of the first.
fn is_among(left: &[TermId], right: &[TermId]) -> bool
    ensures { IsTrue result → IsSubset left.now right.now }
{
    for conjunct in right {
        if !has(left, *conjunct) {
            return false;
        }
    }
    true
}

// Asks the solver for a store that keeps the pair apart.
fn asked(
    alloc: Global,
    terms: &Terms,
    left: &[TermId],
    right: &[TermId],
    learn: u64,
) -> Result<Decision, QueryFail>
    requires learn { 0 < learn }
    requires left { AreBits terms.now left.now }
    requires right { AreBits terms.now right.now }
    ensures decided { IfOk result (IsDecision terms.now left.now right.now learn) }
    ensures refused { IfErr result (IsRefused (pair_of terms.now left.now right.now) learn) }
{
    let _cells = terms.cells();
    let (clauses, bits) = match pair_clauses(alloc, terms, left, right) {
        Ok(made) => made,
        Err(end) => return Err(no_clauses(end)),
    };
    match answer_to(alloc, &clauses, learn) {
        Ok(Answer::Sat(found)) => match store_of(alloc, terms, &bits, &found) {
            Ok(store) => Ok(Decision::Apart(store)),
            Err(end) => Err(no_memory(end)),
        },
        Ok(Answer::Unsat(_)) => Ok(Decision::Covered),
        Ok(Answer::Spent(log)) => Ok(Decision::Spent(log)),
        Err(end) => Err(end),
    }
}

// Asks the solver, and keeps the store that it answers.
fn asked_and_kept(
    alloc: Global,
    terms: &Terms,
    left: &[TermId],
    right: &[TermId],
    witnesses: &mut Witnesses,
    learn: u64,
) -> Result<Decision, QueryFail>
    requires learn { 0 < learn }
    requires left { AreBits terms.now left.now }
    requires right { AreBits terms.now right.now }
    requires known { AreKnown terms.now witnesses.old }
    ensures known { AreKnown terms.now witnesses.new }
    ensures decided { IfOk result (IsDecision terms.now left.now right.now learn) }
    ensures refused { IfErr result (IsRefused (pair_of terms.now left.now right.now) learn) }
{
    let decision = asked(alloc, terms, left, right, learn)?;
    let Decision::Apart(store) = &decision else {
        return Ok(decision);
    };
    let Ok(copy) = store.copy() else {
        return Err(QueryFail::Memory);
    };
    match witnesses.keep(alloc, terms, copy) {
        Ok(()) => Ok(decision),
        Err(end) => Err(no_memory(end)),
    }
}

// Decides a pair by what is cheapest.
fn decide(
    alloc: Global,
    terms: &Terms,
    left: &[TermId],
    right: &[TermId],
    witnesses: &mut Witnesses,
    learn: u64,
) -> Result<Decision, QueryFail>
    requires learn { 0 < learn }
    requires left { AreBits terms.now left.now }
    requires right { AreBits terms.now right.now }
    requires known { AreKnown terms.now witnesses.old }
    ensures known { AreKnown terms.now witnesses.new }
    ensures decided { IfOk result (IsDecision terms.now left.now right.now learn) }
    ensures refused { IfErr result (IsRefused (pair_of terms.now left.now right.now) learn) }
{
    let _cells = terms.cells();
    if is_among(left, right) || is_closed(terms, left) {
        return Ok(Decision::Covered);
    }
    match witnesses.find(terms, left, right) {
        Ok(Some(store)) => Ok(Decision::Apart(store)),
        Ok(None) => asked_and_kept(alloc, terms, left, right, witnesses, learn),
        Err(end) => Err(no_memory(end)),
    }
}

/// Settles a pair that may be settled by one unit: the first vertex is covered by the second, or a store keeps them apart.
/// Before the solver is asked the stores that kept earlier pairs of this unwinding apart are tried.
///
/// `Over` says that the pair's clauses would have too many literals, `OverLog` that a refutation would have too many steps.
pub fn settle_with(
    alloc: Global,
    graph: &Graph,
    unwinding: &mut Unwinding,
    v: VertexId,
    w: VertexId,
    witnesses: &mut Witnesses,
    learn: u64,
) -> Result<Settled, QueryFail>
    requires learn { 0 < learn }
    requires left { v.0 < length unwinding.old.vertices }
    requires right { w.0 < length unwinding.old.vertices }
    requires may { may_settle unwinding.old v w ≡ true }
    requires known { AreKnown unwinding.old.terms witnesses.old }
    ensures known { AreKnown unwinding.new.terms witnesses.new }
    ensures terms { unwinding.new.terms ≡ unwinding.old.terms }
    ensures settled { IfOk result (IsPairSettled unwinding.old unwinding.new v w learn) }
    ensures legal { Legal graph.now unwinding.old → Legal graph.now unwinding.new }
    ensures unchanged { OnErr result (unwinding.new ≡ unwinding.old) }
    ensures refused { IfErr result (IsRefused
        (pair_of unwinding.old.terms (vertex_at unwinding.old.vertices v.0).label (vertex_at unwinding.old.vertices w.0).label) learn) }
{
    let decision = decide(
        alloc,
        unwinding.terms(),
        unwinding.label(v),
        unwinding.label(w),
        witnesses,
        learn,
    )?;
    match decision {
        Decision::Covered => match unwinding.cover_yes(alloc, graph, v, w) {
            Ok(()) => Ok(Settled::Covered),
            Err(end) => Err(no_memory(end)),
        },
        Decision::Apart(store) => match unwinding.cover_no(graph, v, w, store) {
            Ok(()) => Ok(Settled::Apart),
            Err(end) => Err(no_memory(end)),
        },
        Decision::Spent(log) => Ok(Settled::Spent(log)),
    }
}

/// Settles a pair, without stores of earlier pairs.
pub fn settle(
    alloc: Global,
    graph: &Graph,
    unwinding: &mut Unwinding,
    v: VertexId,
    w: VertexId,
    learn: u64,
) -> Result<Settled, QueryFail>
    requires learn { 0 < learn }
    requires left { v.0 < length unwinding.old.vertices }
    requires right { w.0 < length unwinding.old.vertices }
    requires may { may_settle unwinding.old v w ≡ true }
    ensures terms { unwinding.new.terms ≡ unwinding.old.terms }
    ensures settled { IfOk result (IsPairSettled unwinding.old unwinding.new v w learn) }
    ensures legal { Legal graph.now unwinding.old → Legal graph.now unwinding.new }
    ensures unchanged { OnErr result (unwinding.new ≡ unwinding.old) }
    ensures refused { IfErr result (IsRefused
        (pair_of unwinding.old.terms (vertex_at unwinding.old.vertices v.0).label (vertex_at unwinding.old.vertices w.0).label) learn) }
{
    settle_with(
        alloc,
        graph,
        unwinding,
        v,
        w,
        &mut Witnesses::new(alloc),
        learn,
    )
}
