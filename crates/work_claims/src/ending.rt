//! How the claims end: the claimers become one seat, and the last state is read beside what it knows.
ghost use Rattle.std.specs.Prelude.{◌≡◌, ℕ, ◌<◌, ◌≤◌, min, [], All};
ghost use Rattle.work_claims.specs.Counts.{times, once_below, least};
ghost use Rattle.work_claims.specs.Seats.{IsOfTable, merged};

use crate::knowledge::{Hand, Terms};
use crate::law::{Gather, Law};
use crate::words::{Claimer, Closed};
use atomic_table::{Seat, Shared, Table};
use std::alloc::Global;

// The seat, with what all the others know.
pub(crate) fn gather(
    shared: &Shared<(), Hand, Terms, Law>,
    mut seat: Seat<(), Hand>,
    mut others: Vec<Claimer>,
) -> Seat<(), Hand>
    requires words { 0 < shared.now.table_id.words }
    requires seat { (seat.table_id ≡ shared.now.table_id) × (seat.me.1 ≡ []) × (0 < seat.me.0.parts) }
    requires others { All (IsOfTable shared.now.table_id) others.items }
    ensures table { result.table_id ≡ shared.now.table_id }
    ensures knows { result.me.0 ≡ merged seat.me.0 others.items }
{
    while let Some(Claimer { seat: other }) = others.pop() {
        shared.join_seat::<Gather>(&mut seat, other);
    }
    seat
}

// The smaller of the two.
fn at_most(next: u64, total: u32) -> u32
    ensures { result ≡ min next total }
{
    if next < u64::from(total) {
        next as u32
    } else {
        total
    }
}

// What the last state comes to, where the seat stands for all claimers.
pub(crate) fn settle(
    table: Table<(), Hand, Terms, Law, Global>,
    total: u32,
    seat: Seat<(), Hand>,
) -> Closed
    requires sizes { (table.shared.table_id.words ≡ 2) × (table.shared.table_id.slots ≡ 0) }
    requires total { total ≡ table.shared.key.total }
    requires seat { seat.table_id ≡ table.shared.table_id }
    requires all { seat.me.0.parts ≡ table.shared.key.workers }
    ensures given { (x : ℕ) → times x seat.me.0.given ≡ once_below x result.claimed }
    ensures claimed { result.claimed ≤ total }
    ensures finished { 0 < seat.me.0.finishes → result.claimed ≡ total }
    ensures lowest { result.lowest ≡ least seat.me.0.reported }
    ensures answered { result.lowest ≤ seat.me.0.least }
{
    let closed = table.close_with(seat);
    let next = closed.word(0);
    let lowest = closed.word(1);
    closed.free();
    Closed {
        claimed: at_most(next, total),
        lowest: lowest as u32,
    }
}
