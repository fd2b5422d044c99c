//! Literals of the learned clause that the others imply are resolved away: local minimization (N. Sörensson and A. Biere,
//! Minimizing Learned Clauses, SAT 2009).

ghost use Rattle.std.specs.Prelude.{◌≡◌, ℕ, ◌*◌, ◌/◌, ◌<◌, ◌≤◌, length, IfOk, List, Some, None, [], slice_get, slice_index_or, true};
ghost use Rattle.prop.specs.Trues.{listed};
ghost use Rattle.std.specs.List.Sorted.{IsStrictlyIncreasing};
ghost use Rattle.resolution_log.specs.Codes.{AllBelow};
ghost use Rattle.dense_trail.specs.Dense.{negation};
ghost use Rattle.conflict_analysis.specs.Notes.{counted};
ghost use Rattle.conflict_analysis.specs.Walk.{RowsFit};
ghost use Rattle.conflict_analysis.specs.Minimizing.{all_noted, reason_within, is_implied, kept, IsMinimal, Minimizing, StaysTaught};

use crate::Notes;
use crate::noting::stays_out;
use dense_trail::{Trail, negation};
use resolution_log::{Pairs, Rows};
use std::alloc::{AllocError, Global};

// Whether all literals of a row but one have marks.
fn are_noted(row: &[u32], stamps: &[u32], epoch: u32, but: u32) -> bool
    requires { AllBelow (2 * length stamps.now) row.now }
    ensures { result ≡ all_noted epoch stamps.now but row.now }
{
    for code in row {
        if !stays_out(stamps, epoch, but, *code) {
            return false;
        }
    }
    true
}

// The reason of a true literal, where all its other literals have marks.
fn implied_by(
    rows: &Rows,
    stamps: &[u32],
    epoch: u32,
    reason: Option<u32>,
    code: u32,
) -> Option<u32>
    requires known { (r : ℕ) → reason ≡ Some r → r < length rows.now }
    requires fit { (k : ℕ) (r : List ℕ) → slice_get rows.now k ≡ Some r → AllBelow (2 * length stamps.now) r }
    ensures { result ≡ reason_within epoch stamps.now rows.now code reason }
{
    match reason {
        None => None,
        Some(number) => {
            if are_noted(rows.row(number as usize), stamps, epoch, code) {
                Some(number)
            } else {
                None
            }
        }
    }
}

// How many literals of the clause are implied by others.
fn implied_count(
    rows: &Rows,
    reasons: &[Option<u32>],
    stamps: &[u32],
    epoch: u32,
    clause: &[u32],
    uip: u32,
) -> usize
    requires stamps { length stamps.now ≡ length reasons.now }
    requires small { AllBelow (2 * length stamps.now) clause.now }
    requires known { (z r : ℕ) → listed clause.now z ≡ true → (z ≡ uip → ⊥) → slice_index_or reasons.now (z / 2) None ≡ Some r → r < length rows.now }
    requires fit { (k : ℕ) (r : List ℕ) → slice_get rows.now k ≡ Some r → AllBelow (2 * length stamps.now) r }
    ensures { result ≡ counted (is_implied epoch stamps.now rows.now reasons.now uip) clause.now }
{
    let mut count = 0;
    for code in clause {
        if *code == uip {
            continue;
        }
        let reason = reasons[(*code / 2) as usize];
        if implied_by(rows, stamps, epoch, reason, negation(*code)).is_some() {
            count += 1;
        }
    }
    count
}

// The literals of a clause that have marks.
fn with_marks(
    alloc: Global,
    stamps: &[u32],
    epoch: u32,
    clause: &[u32],
) -> Result<Vec<u32>, AllocError>
    requires { AllBelow (2 * length stamps.now) clause.now }
    ensures { IfOk result (λ r. r.items ≡ kept epoch stamps.now clause.now) }
{
    let mut out = Vec::new(alloc);
    for code in clause {
        if stamps[(*code / 2) as usize] == epoch {
            out.push(*code)?;
        }
    }
    Ok(out)
}

// Resolves the implied literals away, so many at most, last of the trail first: a reason's other literals stand before, so
// that each literal goes but once. The marks of those that went are taken away; answers their negations.
fn resolve_implied(
    alloc: Global,
    vars: &[u32],
    rows: &Rows,
    trail: &Trail,
    notes: &mut Notes,
    pairs: &mut Pairs,
    uip: u32,
    left: usize,
    most: usize,
) -> Result<Vec<u32>, AllocError>
    requires rising { IsStrictlyIncreasing vars.now }
    requires wide { length trail.now.levels.items ≡ length vars.now }
    requires stamps { length notes.old.stamps.items ≡ length vars.now }
    requires fit { RowsFit vars.now rows.now }
    requires begin { Minimizing vars.now rows.now trail.now uip left notes.old.epoch notes.old.stamps.items notes.old.learnt.items pairs.old }
    requires enough { counted (is_implied notes.old.epoch notes.old.stamps.items rows.now trail.now.reasons.items uip) (kept notes.old.epoch notes.old.stamps.items notes.old.learnt.items) ≤ most }
    ensures taught { IfOk result (λ _. StaysTaught vars.now rows.now trail.now uip left (kept notes.old.epoch notes.old.stamps.items notes.old.learnt.items) pairs.old (kept notes.new.epoch notes.new.stamps.items notes.new.learnt.items) pairs.new) }
    ensures minimal { IfOk result (λ _. IsMinimal rows.now trail.now.reasons.items uip (kept notes.new.epoch notes.new.stamps.items notes.new.learnt.items)) }
    ensures learnt { IfOk result (λ _. notes.new.learnt.items ≡ notes.old.learnt.items) }
    ensures stamps { IfOk result (λ _. length notes.new.stamps.items ≡ length notes.old.stamps.items) }
    ensures gone { IfOk result (λ g. AllBelow (2 * length vars.now) g.items) }
{
    let mut gone = Vec::new(alloc);
    let mut at = left;
    let mut rest = most;
    'walk: while at > 0 {
        if rest == 0 {
            return Ok(gone);
        }
        at -= 1;
        let code = trail.codes[at];
        let number = (code / 2) as usize;
        if notes.stamps[number] != notes.epoch {
            continue;
        }
        let reason = trail.reasons[number];
        let found = implied_by(rows, notes.stamps.as_slice(), notes.epoch, reason, code);
        let Some(clause) = found else {
            continue;
        };
        notes.stamps[number] = 0;
        pairs.push(vars[number], clause)?;
        gone.push(code)?;
        rest -= 1;
    }
    Ok(gone)
}

/// Resolves the literals of a learned clause away whose reasons have no other literals than the clause, but never the one
/// that the clause makes true, which is the only one of the current level. What is left stands in the notes. Answers the
/// negations of the literals that went.
pub fn minimize(
    alloc: Global,
    vars: &[u32],
    rows: &Rows,
    trail: &Trail,
    notes: &mut Notes,
    pairs: &mut Pairs,
    uip: u32,
    left: usize,
) -> Result<Vec<u32>, AllocError>
    requires rising { IsStrictlyIncreasing vars.now }
    requires wide { length trail.now.levels.items ≡ length vars.now }
    requires stamps { length notes.old.stamps.items ≡ length vars.now }
    requires fit { RowsFit vars.now rows.now }
    requires begin { Minimizing vars.now rows.now trail.now uip left notes.old.epoch notes.old.stamps.items notes.old.learnt.items pairs.old }
    requires marked { kept notes.old.epoch notes.old.stamps.items notes.old.learnt.items ≡ notes.old.learnt.items }
    ensures taught { IfOk result (λ _. StaysTaught vars.now rows.now trail.now uip left notes.old.learnt.items pairs.old notes.new.learnt.items pairs.new) }
    ensures minimal { IfOk result (λ _. IsMinimal rows.now trail.now.reasons.items uip notes.new.learnt.items) }
    ensures fits { IfOk result (λ _. AllBelow (2 * length vars.now) notes.new.learnt.items) }
    ensures stamps { IfOk result (λ _. length notes.new.stamps.items ≡ length vars.now) }
    ensures gone { IfOk result (λ g. AllBelow (2 * length vars.now) g.items) }
{
    let count = implied_count(
        rows,
        trail.reasons.as_slice(),
        notes.stamps.as_slice(),
        notes.epoch,
        notes.learnt.as_slice(),
        uip,
    );
    if count == 0 {
        return Ok(Vec::new(alloc));
    }
    let gone = resolve_implied(alloc, vars, rows, trail, notes, pairs, uip, left, count)?;
    let clause = with_marks(
        alloc,
        notes.stamps.as_slice(),
        notes.epoch,
        notes.learnt.as_slice(),
    )?;
    notes.learnt = clause;
    Ok(gone)
}
