//! What is known on a walk, and the ways out of places.

use block_steps::Cursor;
use bv_term::TermId;
use lv_base::Memory;
use std::alloc::{AllocError, AllocFailed};

/// Why a walk stops: memory, or the graph is not what the rule says.
#[derive(Clone, Copy)]
pub enum Stop {
    Memory,
    Differs,
}

impl From<Memory> for Stop {
    ghost use Rattle.std.specs.Prelude.{◌≡◌};
    ghost use Rattle.walk_states.specs.declared.state.Stop.TheVariants.{Memory};

    ghost from_gives = { λ _ e. e ≡ Memory };

    fn from(_: Memory) -> Self {
        Stop::Memory
    }
}

impl From<AllocError> for Stop {
    ghost use Rattle.std.specs.Prelude.{◌≡◌};
    ghost use Rattle.walk_states.specs.declared.state.Stop.TheVariants.{Memory};

    ghost from_gives = { λ _ e. e ≡ Memory };

    fn from(_: AllocError) -> Self {
        Stop::Memory
    }
}

impl<T: Drop> From<AllocFailed<T>> for Stop {
    ghost use Rattle.std.specs.Prelude.{◌≡◌};
    ghost use Rattle.walk_states.specs.declared.state.Stop.TheVariants.{Memory};

    ghost from_gives = { λ _ e. e ≡ Memory };

    fn from(_: AllocFailed<T>) -> Self {
        Stop::Memory
    }
}

/// A place that waits, and the saved cell that is 1 where the run waits there; without a cell it surely does.
#[derive(Clone, Copy)]
pub struct Waiting {
    pub node: u32,
    pub guard: Option<u32>,
}

/// A check that may have failed: the saved cell that is 1 where it did, and its error.
#[derive(Clone, Copy)]
pub struct Failing {
    pub cell: u32,
    pub error: u32,
}

/// A walk along a block's places: who waits, in the order of numbers, the checks since the last branch, whether a run may have been
/// lost, the next saved cell, and the place in the edges.
#[derive(Drop)]
pub struct Walk {
    pub waiting: Vec<Waiting>,
    pub bads: Vec<Failing>,
    pub lost: bool,
    pub next: u32,
    pub cursor: Cursor,
}

/// A way: where it leads, its edge, and of how many operations that has before those of the way.
#[derive(Clone, Copy)]
pub struct Way {
    pub to: u32,
    pub edge_at: usize,
    pub skip: usize,
}

/// The ways out of a place: one; one behind a test; an error where the first test holds, and a way where the second does; two errors;
/// two ways that do nothing behind their tests.
#[derive(Clone, Copy)]
pub enum Ways {
    Goes(Way),
    Tested(TermId, Way),
    Checked(TermId, u32, TermId, Way),
    Fails(TermId, u32, TermId, u32),
    Forks(TermId, u32, TermId, u32),
}

/// A place with its ways out.
#[derive(Clone, Copy)]
pub struct Place {
    pub node: u32,
    pub ways: Ways,
}
