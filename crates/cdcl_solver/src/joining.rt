//! The clause that a conflict taught joins the board, and makes its literal true.

ghost use Rattle.std.specs.Prelude.{◌≡◌, ℕ, ◌+◌, ◌*◌, ◌<◌, ◌≤◌, ◌∷◌, ◌++◌, [], List, length, IfOk, OnErr, Some, true};
ghost use Rattle.prop.specs.declared.Lit.{Lit};
ghost use Rattle.prop.specs.Trues.{listed};
ghost use Rattle.resolution_log.specs.Codes.{AllBelow};
ghost use Rattle.resolution_log.specs.declared.Chain.{Chain};
ghost use Rattle.watched_clauses.specs.Kept.{IsLinked};
ghost use Rattle.conflict_analysis.specs.Walk.{AreAbove, IsTaught};
ghost use Rattle.cdcl_solver.specs.Joining.{Learned};
ghost use Rattle.cdcl_solver.specs.Search.{Rests};

use crate::board::{Board, go_back};
use crate::choosing::bump_all;
use crate::learning::{add_watch, what_to_watch};
use conflict_analysis::Notes;
use resolution_log::Rows;
use std::alloc::AllocError;

// There are fewer clauses than this, so that each is named by 32 bits.
const MOST_CLAUSES: usize = 0xffff_ffff;

// The number of the next clause, which has 32 bits.
fn next_number(rows: &Rows) -> Result<u32, AllocError>
    ensures value { IfOk result (λ n. n ≡ length rows.now) }
    ensures few { IfOk result (λ n. n < 4294967295) }
    ensures cause { OnErr result (4294967295 ≤ length rows.now) }
{
    let number = rows.len();
    if number >= MOST_CLAUSES {
        return Err(AllocError);
    }
    Ok(number as u32)
}

/// Goes back to the lowest level at which the learned clause, that of the notes, makes its literal true, and adds the
/// clause. The variables of the analysis become more active: `gone` are literals that the clause had before it was made
/// shorter, `left` is how many literals of the trail stand before the implication point.
pub fn join_learned(
    vars: &[u32],
    board: Board,
    notes: &Notes,
    gone: &[u32],
    uip: u32,
    left: usize,
) -> Result<Board, AllocError>
    requires linked { IsLinked vars.now board.rows board.level board.trail }
    requires learned { Learned vars.now board.rows board.trail board.level notes.now.learnt.items uip }
    requires fits { AllBelow (2 * length vars.now) notes.now.learnt.items }
    requires in_clause { listed notes.now.learnt.items uip ≡ true }
    requires gone { AllBelow (2 * length vars.now) gone.now }
    requires stamps { length notes.now.stamps.items ≡ length vars.now }
    requires left { left ≤ length board.trail.codes.items }
    ensures rests { IfOk result (λ b. (clauses : List (List Lit)) (log : List Chain) (ch : Chain) (n : ℕ) → AreAbove board.trail board.level n → IsTaught vars.now board.rows board.trail board.level ch.first notes.now.learnt.items ch.pairs (Some uip) n → Rests clauses vars.now board.rows board.level board.trail log → Rests clauses vars.now b.rows b.level b.trail (log ++ ch ∷ [])) }
    ensures rows { IfOk result (λ b. b.rows ≡ board.rows ++ notes.now.learnt.items ∷ []) }
    ensures few { IfOk result (λ b. length b.rows < 4294967296) }
{
    let _ = vars.len();
    let Board {
        mut rows,
        mut watches,
        mut lists,
        mut order,
        mut trail,
        ..
    } = board;
    let found = what_to_watch(&trail, notes.learnt.as_slice(), uip);
    bump_all(&mut order, &trail, notes, gone, left);
    go_back(&mut trail, &mut order, found.low)?;
    let head = trail.codes.len();
    let number = next_number(&rows)?;
    trail.push(uip, found.low, Some(number))?;
    add_watch(&mut watches, &mut lists, found.watch, number)?;
    rows.push(notes.learnt.as_slice())?;
    Ok(Board {
        rows,
        watches,
        lists,
        order,
        trail,
        head,
        level: found.low,
    })
}
