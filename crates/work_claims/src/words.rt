//! The two words that the workers share, what a worker steps with, and what the claims come to.
ghost use Rattle.std.specs.Prelude.{◌≡◌, ◌≤◌};
ghost use Rattle.work_claims.specs.Hands.{IsClaimer};

use crate::knowledge::{Hand, Terms};
use crate::law::Law;
use atomic_table::{Seat, Table};
use std::alloc::Global;

/// The two words that the workers share.
#[derive(Drop)]
pub struct Claims {
    pub(crate) table: Table<(), Hand, Terms, Law, Global>,
    pub(crate) total: u32,
    pub ghost two_words: { table.shared.table_id.words ≡ 2 },
    pub ghost no_slot: { table.shared.table_id.slots ≡ 0 },
    pub ghost told: { total ≡ table.shared.key.total },
    pub ghost some_worker: { 1 ≤ table.shared.key.workers },
}

/// What one worker steps with. It has no bytes. Each number that it reported was given to it.
#[derive(Drop)]
pub struct Claimer {
    pub(crate) seat: Seat<(), Hand>,
    pub ghost is_claimer: { IsClaimer seat.me },
}

/// What the claims came to.
#[derive(Clone, Copy, PartialEq, Eq, Debug)]
pub struct Closed {
    /// The numbers below this one were given.
    pub claimed: u32,
    /// The least number that was reported; 4294967295 where there is none.
    pub lowest: u32,
}
