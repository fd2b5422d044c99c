//! Propagation: the lists of the literals that became false are gone through until nothing waits, or a clause is false.

ghost use Rattle.std.specs.Prelude.{◌≡◌, ℕ, ◌+◌, ◌<◌, ◌≤◌, List, length, IfOk, MatchOption, slice_index};
ghost use Rattle.dense_trail.specs.Dense.{negation};
ghost use Rattle.watched_clauses.specs.Kept.{KeepsWatch, IsLinked, IsFalse};

use crate::{Finding, Watch, WatchLists, judge_from};
use dense_trail::{Trail, negation};
use resolution_log::Rows;
use std::alloc::AllocError;

// Goes through the clauses that watch a literal which is false, the negation of the first of the queue. Answers one that
// is false, if there is one; the literal then still waits.
fn visit(
    rows: &Rows,
    watches: &mut [Watch],
    lists: &mut WatchLists,
    trail: &mut Trail,
    level: u32,
    head: usize,
    falsified: u32,
) -> Result<Option<u32>, AllocError>
    requires head { head < length trail.old.codes.items }
    requires falsified { slice_index trail.old.codes.items head ≡ negation falsified }
    requires lists { length lists.old ≡ length trail.old.truth.items }
    requires watching { KeepsWatch rows.now watches.old lists.old trail.old level head }
    ensures watching { IfOk result (λ o. MatchOption o (KeepsWatch rows.now watches.new lists.new trail.new level (head + 1)) (λ k. KeepsWatch rows.now watches.new lists.new trail.new level head × IsFalse rows.now trail.new k)) }
    ensures linked { IfOk result (λ _. (vars : List ℕ) → IsLinked vars rows.now level trail.old → IsLinked vars rows.now level trail.new) }
    ensures grown { IfOk result (λ _. length trail.old.codes.items ≤ length trail.new.codes.items) }
    ensures wide { IfOk result (λ _. length trail.new.truth.items ≡ length trail.old.truth.items) }
    ensures lists { IfOk result (λ _. length lists.new ≡ length trail.new.truth.items) }
{
    let mut list = lists.take(falsified);
    let mut i = list.len();
    'clauses: while i > 0 {
        i -= 1;
        let number = list[i];
        let mut place = 0;
        let places = lists.places();
        match judge_from(rows, watches, trail, places, falsified, number, &mut place) {
            Finding::Elsewhere => {
                let _ = list.swap_remove(i);
            }
            Finding::Met => {}
            Finding::Open(other, open) => {
                watches[number as usize] = Watch {
                    first: other,
                    second: open,
                    pair: false,
                };
                lists.push(open, number)?;
                lists.keep_place(number, place)?;
                let _ = list.swap_remove(i);
            }
            Finding::Lone(other) => trail.push(other, level, Some(number))?,
            Finding::Clash => {
                lists.put(falsified, list);
                return Ok(Some(number));
            }
        }
    }
    lists.put(falsified, list);
    Ok(None)
}

/// Propagates until nothing waits, or a clause is false, whose number is answered.
pub fn propagate(
    rows: &Rows,
    watches: &mut [Watch],
    lists: &mut WatchLists,
    trail: &mut Trail,
    level: u32,
    head: &mut usize,
) -> Result<Option<u32>, AllocError>
    requires head { head.old ≤ length trail.old.codes.items }
    requires lists { length lists.old ≡ length trail.old.truth.items }
    requires watching { KeepsWatch rows.now watches.old lists.old trail.old level head.old }
    ensures watching { IfOk result (λ _. KeepsWatch rows.now watches.new lists.new trail.new level head.new) }
    ensures result { IfOk result (λ o. MatchOption o (length trail.new.codes.items ≤ head.new) (IsFalse rows.now trail.new)) }
    ensures linked { IfOk result (λ _. (vars : List ℕ) → IsLinked vars rows.now level trail.old → IsLinked vars rows.now level trail.new) }
    ensures head { IfOk result (λ _. head.new ≤ length trail.new.codes.items) }
    ensures grown { IfOk result (λ _. length trail.old.codes.items ≤ length trail.new.codes.items) }
    ensures wide { IfOk result (λ _. length trail.new.truth.items ≡ length trail.old.truth.items) }
    ensures lists { IfOk result (λ _. length lists.new ≡ length trail.new.truth.items) }
{
    let mut at = *head;
    'queue: while at < trail.codes.len() {
        let falsified = negation(trail.codes[at]);
        match visit(rows, watches, lists, trail, level, at, falsified)? {
            None => at += 1,
            Some(number) => {
                *head = at;
                return Ok(Some(number));
            }
        }
    }
    *head = at;
    Ok(None)
}
