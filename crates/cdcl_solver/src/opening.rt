//! The state before the first decision.

ghost use Rattle.std.specs.Prelude.{◌≡◌, ℕ, ◌*◌, ◌<◌, ◌≤◌, List, [], length, IfOk, MatchOption, ◌⊎◌, true, false, Some, slice_get, nat_eq};
ghost use Rattle.prop.specs.Trues.{listed};
ghost use Rattle.dense_trail.specs.Dense.{is_true};
ghost use Rattle.watched_clauses.specs.Judge.{first_of, second_of};
ghost use Rattle.watched_clauses.specs.Kept.{IsLinked, IsFalse};
ghost use Rattle.cdcl_solver.specs.Opening.{Built, AreUnits, UnitsMet};

use crate::learning::add_watch;
use dense_trail::{Trail, negation};
use resolution_log::Rows;
use std::alloc::{AllocError, Global};
use watched_clauses::{Watch, WatchLists};

/// What the clauses watch.
#[derive(Drop)]
pub struct Watches {
    /// The literals that each clause watches.
    pub watches: Vec<Watch>,
    /// For each literal the clauses that watch it.
    pub lists: WatchLists,
}

// A literal other than one, or that one where there is no other.
fn other_code(row: &[u32], first: u32) -> u32
    ensures { ((result ≡ first) × ((z : ℕ) → listed row.now z ≡ true → z ≡ first)) ⊎ ((result ≡ first → ⊥) × (listed row.now result ≡ true)) }
{
    for code in row {
        if *code != first {
            return *code;
        }
    }
    first
}

/// Each clause watches two different literals, where it has two.
pub fn watch_all(alloc: Global, rows: &Rows, codes: usize) -> Result<Watches, AllocError>
    requires some { (k : ℕ) → slice_get rows.now k ≡ Some [] → ⊥ }
    requires below { (k : ℕ) (r : List ℕ) (z : ℕ) → slice_get rows.now k ≡ Some r → listed r z ≡ true → z < codes }
    requires few { length rows.now < 4294967296 }
    ensures { IfOk result (λ w. Built rows.now w.watches.items w.lists codes (length rows.now)) }
{
    let mut watches = Vec::new(alloc);
    let mut lists = WatchLists::new(alloc, codes)?;
    for number in 0..rows.len() {
        let row = rows.row(number);
        let first = row[0];
        let second = other_code(row, first);
        let watch = Watch {
            first,
            second,
            pair: row.len() == 2,
        };
        add_watch(&mut watches, &mut lists, watch, number as u32)?;
    }
    Ok(Watches { watches, lists })
}

/// Makes the literals of the clauses of one literal true. Answers such a clause that is false, if there is one.
pub fn set_units(
    rows: &Rows,
    watches: &[Watch],
    trail: &mut Trail,
) -> Result<Option<u32>, AllocError>
    requires paired { length watches.now ≡ length rows.now }
    requires few { length rows.now < 4294967296 }
    requires units { AreUnits rows.now watches.now (length trail.old.truth.items) }
    ensures linked { IfOk result (λ _. (vars : List ℕ) → IsLinked vars rows.now 0 trail.old → IsLinked vars rows.now 0 trail.new) }
    ensures result { IfOk result (λ o. MatchOption o (UnitsMet watches.now (length watches.now) trail.new) (IsFalse rows.now trail.new)) }
    ensures wide { IfOk result (λ _. length trail.new.levels.items ≡ length trail.old.levels.items) }
{
    for number in 0..watches.len() {
        let watch = watches[number];
        if watch.first != watch.second {
            continue;
        }
        let code = watch.first;
        if trail.truth[code as usize] {
            continue;
        }
        if trail.truth[negation(code) as usize] {
            return Ok(Some(number as u32));
        }
        trail.push(code, 0, Some(number as u32))?;
    }
    Ok(None)
}
