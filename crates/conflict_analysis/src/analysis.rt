//! A conflict is analysed: the walk to the first unique implication point, and what it taught made shorter.

ghost use Rattle.std.specs.Prelude.{◌≡◌, ℕ, ◌<◌, ◌≤◌, ◌*◌, length, IfOk, List, Some, slice_get, [], MatchOption, true};
ghost use Rattle.prop.specs.Trues.{listed};
ghost use Rattle.std.specs.List.Sorted.{IsStrictlyIncreasing};
ghost use Rattle.resolution_log.specs.Codes.{AllBelow};
ghost use Rattle.clause_learning.specs.Trail.{Going};
ghost use Rattle.dense_trail.specs.Dense.{known_of, lits_of, entries_of};
ghost use Rattle.conflict_analysis.specs.Walk.{RowsFit, AreAbove, IsTaught};
ghost use Rattle.conflict_analysis.specs.Minimizing.{IsMinimal};

use crate::minimizing::minimize;
use crate::walk::first_point;
use crate::{Analysis, Notes};
use dense_trail::Trail;
use resolution_log::Rows;
use std::alloc::{AllocError, Global};

/// Analyses the conflict in the clause with this number. The clause that is learned stands in the notes, the literal that
/// it makes true among its literals; of the others none is implied by the rest of the clause alone.
pub fn analyze(
    alloc: Global,
    vars: &[u32],
    rows: &Rows,
    trail: &Trail,
    level: u32,
    notes: &mut Notes,
    conflict: u32,
) -> Result<Analysis, AllocError>
    requires rising { IsStrictlyIncreasing vars.now }
    requires wide { length trail.now.levels.items ≡ length vars.now }
    requires stamps { length notes.old.stamps.items ≡ length vars.now }
    requires conflict { conflict < length rows.now }
    requires fit { RowsFit vars.now rows.now }
    requires begin { (r : List ℕ) → slice_get rows.now conflict ≡ Some r → Going (known_of vars.now rows.now) level (entries_of vars.now trail.now.levels.items trail.now.reasons.items trail.now.codes.items) conflict (lits_of vars.now r) [] }
    ensures taught { IfOk result (λ a. IsTaught vars.now rows.now trail.now level conflict notes.new.learnt.items a.pairs a.uip a.left) }
    ensures uip { IfOk result (λ a. MatchOption a.uip (Unit {0}) (λ k. listed notes.new.learnt.items k ≡ true)) }
    ensures minimal { IfOk result (λ a. MatchOption a.uip (Unit {0}) (λ k. IsMinimal rows.now trail.now.reasons.items k notes.new.learnt.items)) }
    ensures gone { IfOk result (λ a. AllBelow (2 * length vars.now) a.gone.items) }
    ensures above { IfOk result (λ a. AreAbove trail.now level a.left) }
    ensures left { IfOk result (λ a. a.left ≤ length trail.now.codes.items) }
    ensures fits { IfOk result (λ _. AllBelow (2 * length vars.now) notes.new.learnt.items) }
    ensures stamps { IfOk result (λ _. length notes.new.stamps.items ≡ length vars.now) }
{
    let walked = first_point(alloc, vars, rows, trail, level, notes, conflict)?;
    let Analysis {
        mut pairs,
        uip,
        left,
        gone,
    } = walked;
    let Some(literal) = uip else {
        return Ok(Analysis {
            pairs,
            uip,
            left,
            gone,
        });
    };
    let gone = minimize(alloc, vars, rows, trail, notes, &mut pairs, literal, left)?;
    Ok(Analysis {
        pairs,
        uip: Some(literal),
        left,
        gone,
    })
}
