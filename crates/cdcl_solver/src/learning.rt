//! The clause that a conflict taught joins the others.

ghost use Rattle.std.specs.Prelude.{◌≡◌, ℕ, ◌+◌, ◌*◌, ◌<◌, ◌≤◌, List, [], ◌∷◌, ◌++◌, length, IfOk, ◌||◌, nat_eq, nat_lt};
ghost use Rattle.resolution_log.specs.Codes.{AllBelow};
ghost use Rattle.watched_clauses.specs.declared.looking.Watch.{Watch};
ghost use Rattle.cdcl_solver.specs.Learning.{IsHighest, with_watch};

use dense_trail::Trail;
use std::alloc::AllocError;
use watched_clauses::{Watch, WatchLists};

/// What a learned clause watches, and the level to which the search goes back: the literal that it makes true, and one of
/// the highest level among the others.
#[derive(Clone, Copy)]
pub struct Highest {
    /// The literals that are watched; both are the same where there is no other.
    pub watch: Watch,
    /// The level of the second.
    pub low: u32,
}

// Whether a literal of this level is the second from now on: there is none yet, or it is of a lower level.
#[inline]
fn is_higher(second: u32, uip: u32, level: u32, low: u32) -> bool
    ensures { result ≡ (nat_eq second uip || nat_lt low level) }
{
    second == uip || level > low
}

/// Finds what a learned clause watches.
pub fn what_to_watch(trail: &Trail, clause: &[u32], uip: u32) -> Highest
    requires { AllBelow (2 * length trail.now.levels.items) clause.now }
    ensures highest { IsHighest trail.now.levels.items clause.now uip result.watch.first result.watch.second result.low }
    ensures pair { result.watch.pair ≡ nat_eq (length clause.now) 2 }
{
    let mut second = uip;
    let mut low = 0;
    for code in clause {
        if *code == uip {
            continue;
        }
        let level = trail.levels[(*code / 2) as usize];
        if !is_higher(second, uip, level, low) {
            continue;
        }
        second = *code;
        low = level;
    }
    Highest {
        watch: Watch {
            first: uip,
            second,
            pair: clause.len() == 2,
        },
        low,
    }
}

/// Adds what the next clause watches.
pub fn add_watch(
    watches: &mut Vec<Watch>,
    lists: &mut WatchLists,
    watch: Watch,
    number: u32,
) -> Result<(), AllocError>
    requires first { watch.first < length lists.old }
    requires second { watch.second < length lists.old }
    ensures watches { IfOk result (λ _. watches.new.items ≡ watches.old.items ++ watch ∷ []) }
    ensures lists { IfOk result (λ _. lists.new ≡ with_watch lists.old watch number) }
{
    watches.push(watch)?;
    if watch.first == watch.second {
        return Ok(());
    }
    lists.push(watch.first, number)?;
    lists.push(watch.second, number)?;
    Ok(())
}
