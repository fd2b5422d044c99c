//! What is known of a graph's places, and what is asked of it on a walk.
ghost use Rattle.walk_states.specs.Made as made;
ghost use Rattle.std.specs.Prelude.{ℕ, ◌≡◌, ◌<◌, drop};
ghost use Rattle.bv_term.specs.WellFormed.{Table};
ghost use Rattle.block_rule.specs.Plans as plans;
ghost use Rattle.block_rule.specs.Rule.{deed_of, guarded, is_awaited, some_live, through};
ghost use Rattle.walk_states.specs.Known.{on_unit, plan_of};
ghost use Rattle.walk_states.specs.Walks.{waits_of};

use crate::lists::many_wait;
use crate::state::Waiting;
use c_graph::Operation;
use plan_tables::{Flags, Live, Reads, Units};

/// What is known of a graph's places.
#[derive(Drop)]
pub struct Known {
    pub reached: Flags,
    pub alive: Flags,
    pub cuts: Flags,
    pub units: Units,
    pub live: Live,
    pub reads: Reads,
}

/// Whether a node is reached, and an error or a listed loop's node is reached from it.
pub fn matters(known: &Known, node: u32) -> bool
    ensures { result ≡ plans.matters (plan_of known.now) node }
{
    known.reached.get(node) && known.alive.get(node)
}

/// Whether a node is a cut point.
pub fn is_cut(known: &Known, node: u32) -> bool
    ensures { result ≡ (plan_of known.now).cuts node }
{
    known.cuts.get(node)
}

fn is_live(known: &Known, node: u32, cell: u32) -> bool
    ensures { result ≡ (plan_of known.now).live node cell }
{
    match known.units.get(cell) {
        None => false,
        Some(unit) => known.live.is_live(node, unit),
    }
}

fn is_read_by_some(known: &Known, waiting: &[Waiting], cell: u32) -> bool
    ensures { result ≡ some_live (plan_of known.now) (waits_of waiting.now) cell }
{
    for place in waiting {
        if is_live(known, place.node, cell) {
            return true;
        }
    }
    false
}

fn is_awaited(known: &Known, waiting: &[Waiting], cell: u32) -> bool
    ensures { result ≡ is_awaited (plan_of known.now) (waits_of waiting.now) cell }
{
    many_wait(waiting) || is_read_by_some(known, waiting, cell)
}

fn through(known: &Known, waiting: &[Waiting], guard: Option<u32>, cell: u32) -> Option<u32>
    ensures { result ≡ through (plan_of known.now) (waits_of waiting.now) guard cell }
{
    if is_awaited(known, waiting, cell) {
        return guard;
    }
    None
}

/// The guard through which an operation goes.
pub fn guard_for(
    known: &Known,
    waiting: &[Waiting],
    guard: Option<u32>,
    operation: Operation,
) -> Option<u32>
    ensures means { (table : Table) → guarded table result operation ≡ deed_of table (plan_of known.now) (waits_of waiting.now) guard operation }
    ensures made { result ≡ made.guard_for (plan_of known.now) (waits_of waiting.now) guard operation }
{
    match operation {
        Operation::Assume(_) | Operation::Draw(_, _) => guard,
        Operation::Set(cell, _) | Operation::SetAt(cell, _, _, _) => {
            through(known, waiting, guard, cell)
        }
    }
}
