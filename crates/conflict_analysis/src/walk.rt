//! The walk down the trail, from the last literal.

ghost use Rattle.std.specs.Prelude.{◌≡◌, ℕ, ◌<◌, ◌≤◌, ◌*◌, ◌&&◌, length, IfOk, List, Some, slice_get, nat_eq, nat_lt, [], MatchOption, true};
ghost use Rattle.prop.specs.Trues.{listed};
ghost use Rattle.std.specs.List.Sorted.{IsStrictlyIncreasing};
ghost use Rattle.resolution_log.specs.Codes.{AllBelow};
ghost use Rattle.clause_learning.specs.Trail.{Going};
ghost use Rattle.dense_trail.specs.Dense.{known_of, lits_of, entries_of};
ghost use Rattle.conflict_analysis.specs.Walk.{RowsFit, AreAbove, IsTaught};
ghost use Rattle.conflict_analysis.specs.Minimizing.{kept, Minimizing};

use crate::Notes;
use dense_trail::{Trail, negation};
use resolution_log::{Pairs, Rows};
use std::alloc::{AllocError, Global};

// No literal has this code.
const NONE: u32 = 0xffff_ffff;

/// What an analysis gives beside the clause, which stands in the notes.
#[derive(Drop)]
pub struct Analysis {
    /// The steps that lead to the clause from the one in conflict.
    pub pairs: Pairs,
    /// The literal that the clause makes true; none where the clause is empty.
    pub uip: Option<u32>,
    /// How many literals of the trail stand before the negation of that one.
    pub left: usize,
    /// The negations of literals that the clause had before it was made shorter.
    pub gone: Vec<u32>,
}

// Whether one literal of the current level is left, which is not the lowest.
#[inline]
fn is_first(level: u32, here: usize) -> bool
    ensures { result ≡ (nat_lt 0 level && nat_eq here 1) }
{
    level > 0 && here == 1
}

/// Walks down to the first unique implication point of the conflict in the clause with this number. The clause that comes
/// of it stands in the notes, the literal that it makes true last.
pub fn first_point(
    alloc: Global,
    vars: &[u32],
    rows: &Rows,
    trail: &Trail,
    level: u32,
    notes: &mut Notes,
    conflict: u32,
) -> Result<Analysis, AllocError>
    requires rising { IsStrictlyIncreasing vars.now }
    requires wide { length trail.now.levels.items ≡ length vars.now }
    requires stamps { length notes.old.stamps.items ≡ length vars.now }
    requires conflict { conflict < length rows.now }
    requires fit { RowsFit vars.now rows.now }
    requires begin { (r : List ℕ) → slice_get rows.now conflict ≡ Some r → Going (known_of vars.now rows.now) level (entries_of vars.now trail.now.levels.items trail.now.reasons.items trail.now.codes.items) conflict (lits_of vars.now r) [] }
    ensures taught { IfOk result (λ a. IsTaught vars.now rows.now trail.now level conflict notes.new.learnt.items a.pairs a.uip a.left) }
    ensures uip { IfOk result (λ a. MatchOption a.uip (Unit {0}) (λ k. listed notes.new.learnt.items k ≡ true)) }
    ensures above { IfOk result (λ a. AreAbove trail.now level a.left) }
    ensures minimizing { IfOk result (λ a. MatchOption a.uip (Unit {0}) (λ k. Minimizing vars.now rows.now trail.now k a.left notes.new.epoch notes.new.stamps.items notes.new.learnt.items a.pairs)) }
    ensures marked { IfOk result (λ a. MatchOption a.uip (Unit {0}) (λ k. kept notes.new.epoch notes.new.stamps.items notes.new.learnt.items ≡ notes.new.learnt.items)) }
    ensures left { IfOk result (λ a. a.left ≤ length trail.now.codes.items) }
    ensures gone { IfOk result (λ a. a.gone.items ≡ []) }
    ensures fits { IfOk result (λ _. AllBelow (2 * length vars.now) notes.new.learnt.items) }
    ensures stamps { IfOk result (λ _. length notes.new.stamps.items ≡ length vars.now) }
{
    notes.clear()?;
    notes.note(trail, level, rows.row(conflict as usize), NONE)?;
    let mut pairs = Pairs::new(alloc);
    let mut at = trail.codes.len();
    'walk: while at > 0 {
        at -= 1;
        let code = trail.codes[at];
        let number = (code / 2) as usize;
        if notes.stamps[number] != notes.epoch {
            continue;
        }
        if is_first(level, notes.here) {
            let uip = negation(code);
            notes.learnt.push(uip)?;
            return Ok(Analysis {
                pairs,
                uip: Some(uip),
                left: at,
                gone: Vec::new(alloc),
            });
        }
        let Some(reason) = trail.reasons[number] else {
            unreachable!()
        };
        notes.here -= 1;
        notes.note(trail, level, rows.row(reason as usize), code)?;
        pairs.push(vars[number], reason)?;
    }
    Ok(Analysis {
        pairs,
        uip: None,
        left: 0,
        gone: Vec::new(alloc),
    })
}
