//! The clauses with the literals that they watch, and the trail: propagation, decisions, and the way back.

ghost use Rattle.std.specs.Prelude.{◌≡◌, ℕ, ◌+◌, ◌*◌, ◌/◌, ◌<◌, ◌≤◌, List, length, IfOk};
ghost use Rattle.prop.specs.declared.Lit.{Lit};
ghost use Rattle.clause_learning.specs.Trail.{Back, Set, SetAt};
ghost use Rattle.clause_learning.specs.Covers.{RisesFrom, last_level};
ghost use Rattle.watched_clauses.specs.Kept.{KeepsWatch, IsLinked};
ghost use Rattle.cdcl_solver.specs.Stops.{IsStop, trail_entries};

use crate::choosing::choice;
use activity_heap::Order;
use dense_trail::Trail;
use resolution_log::Rows;
use std::alloc::AllocError;
use watched_clauses::{Watch, WatchLists, propagate};

/// The clauses and the trail.
#[derive(Drop)]
pub struct Board {
    /// The clauses given, and those learned after them, as codes. They never change.
    pub rows: Rows,
    /// What each clause watches.
    pub watches: Vec<Watch>,
    /// For each literal the clauses that watch it.
    pub lists: WatchLists,
    /// Which variable is decided next.
    pub order: Order,
    /// The literals that are true.
    pub trail: Trail,
    /// The literals of the trail from here on wait in the queue: their lists were not gone through.
    pub head: usize,
    /// How many decisions stand.
    pub level: u32,
    pub ghost watching: { KeepsWatch rows watches.items lists trail level head },
    pub ghost within: { head ≤ length trail.codes.items },
    pub ghost all: { length lists ≡ length trail.truth.items },
    pub ghost deep: { level ≤ length trail.codes.items },
    pub ghost ordered: { length order.phases.items ≡ length trail.levels.items },
}

/// Where propagation stops.
#[derive(Clone, Copy)]
pub enum Stop {
    /// Every variable has a value, and every clause a true literal.
    AllMet,
    /// All literals of the clause with this number are false.
    Clash(u32),
}

/// What propagation leaves.
#[derive(Drop)]
pub struct Settled {
    /// The clauses and the trail.
    pub board: Board,
    /// Why it stops.
    pub stop: Stop,
}

// Propagates and decides until a clause is false or all are met.
fn run_on(
    rows: &Rows,
    watches: &mut [Watch],
    lists: &mut WatchLists,
    order: &mut Order,
    trail: &mut Trail,
    head: &mut usize,
    level: &mut u32,
) -> Result<Stop, AllocError>
    requires watching { KeepsWatch rows.now watches.old lists.old trail.old level.old head.old }
    requires within { head.old ≤ length trail.old.codes.items }
    requires all { length lists.old ≡ length trail.old.truth.items }
    requires deep { level.old ≤ length trail.old.codes.items }
    requires ordered { length order.old.phases.items ≡ length trail.old.levels.items }
    ensures watching { IfOk result (λ _. KeepsWatch rows.now watches.new lists.new trail.new level.new head.new) }
    ensures within { IfOk result (λ _. head.new ≤ length trail.new.codes.items) }
    ensures all { IfOk result (λ _. length lists.new ≡ length trail.new.truth.items) }
    ensures deep { IfOk result (λ _. level.new ≤ length trail.new.codes.items) }
    ensures ordered { IfOk result (λ _. length order.new.phases.items ≡ length trail.new.levels.items) }
    ensures stop { IfOk result (λ s. (vars : List ℕ) → IsLinked vars rows.now level.old trail.old → IsLinked vars rows.now level.new trail.new × IsStop vars rows.now trail.new s) }
{
    'search: loop {
        let clash = propagate(rows, watches, lists, trail, *level, head)?;
        if let Some(number) = clash {
            return Ok(Stop::Clash(number));
        }
        let Some(code) = choice(order, trail) else {
            return Ok(Stop::AllMet);
        };
        trail.push(code, *level + 1, None)?;
        *level += 1;
    }
}

/// Propagates and decides until a clause is false or all are met.
pub fn settle(board: Board) -> Result<Settled, AllocError>
    requires { length board.rows < 4294967296 }
    ensures stop { IfOk result (λ s. (vars : List ℕ) → IsLinked vars board.rows board.level board.trail → IsLinked vars s.board.rows s.board.level s.board.trail × IsStop vars s.board.rows s.board.trail s.stop) }
    ensures rows { IfOk result (λ s. s.board.rows ≡ board.rows) }
{
    let Board {
        rows,
        mut watches,
        mut lists,
        mut order,
        mut trail,
        mut head,
        mut level,
    } = board;
    let stop = run_on(
        &rows,
        &mut watches,
        &mut lists,
        &mut order,
        &mut trail,
        &mut head,
        &mut level,
    )?;
    Ok(Settled {
        board: Board {
            rows,
            watches,
            lists,
            order,
            trail,
            head,
            level,
        },
        stop,
    })
}

/// Takes values away until all that are left are of a level. Their variables may be decided again.
pub fn go_back(trail: &mut Trail, order: &mut Order, low: u32) -> Result<(), AllocError>
    requires { length order.old.phases.items ≡ length trail.old.levels.items }
    ensures back { IfOk result (λ _. (vars : List ℕ) (known : List (List Lit)) → Back known low (trail_entries vars trail.old) (trail_entries vars trail.old) → Back known low (trail_entries vars trail.old) (trail_entries vars trail.new) × ((l : Lit) → Set (trail_entries vars trail.new) l → SetAt low (trail_entries vars trail.new) l)) }
    ensures rises { IfOk result (λ _. (vars : List ℕ) → RisesFrom 0 (trail_entries vars trail.old) → low ≤ last_level 0 (trail_entries vars trail.old) → RisesFrom 0 (trail_entries vars trail.new) × (last_level 0 (trail_entries vars trail.new) ≡ low)) }
    ensures levels { IfOk result (λ _. trail.new.levels.items ≡ trail.old.levels.items) }
    ensures wide { IfOk result (λ _. length trail.new.truth.items ≡ length trail.old.truth.items) }
    ensures ordered { IfOk result (λ _. length order.new.phases.items ≡ length order.old.phases.items) }
{
    'back: while trail.codes.len() > 0 {
        let code = trail.codes[trail.codes.len() - 1];
        if trail.levels[(code / 2) as usize] <= low {
            return Ok(());
        }
        let _ = trail.pop();
        order.put_back(code / 2, code % 2 == 0)?;
    }
    Ok(())
}

/// Takes all decisions back.
pub fn start_over(vars: &[u32], board: Board) -> Result<Board, AllocError>
    requires { IsLinked vars.now board.rows board.level board.trail }
    ensures linked { IfOk result (λ b. IsLinked vars.now b.rows 0 b.trail) }
    ensures level { IfOk result (λ b. b.level ≡ 0) }
    ensures rows { IfOk result (λ b. b.rows ≡ board.rows) }
{
    let _ = vars.len();
    if board.level == 0 {
        return Ok(board);
    }
    let Board {
        rows,
        watches,
        lists,
        mut order,
        mut trail,
        ..
    } = board;
    go_back(&mut trail, &mut order, 0)?;
    let head = trail.codes.len();
    Ok(Board {
        rows,
        watches,
        lists,
        order,
        trail,
        head,
        level: 0,
    })
}
