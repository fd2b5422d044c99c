//! The calls of the workers, and of the one who made the claims.
ghost use Rattle.std.specs.Prelude.{◌≡◌, ℕ, ◌+◌, ◌<◌, ◌≤◌, [], All, IfOk, IfSome, IfNone, length};
ghost use Rattle.work_claims.specs.Counts.{times, once_below, least, total_of, least_of};
ghost use Rattle.work_claims.specs.Hands.{fresh, taken, with_given, with_finish, with_report, with_answer};
ghost use Rattle.work_claims.specs.Seats.{hand, terms, IsOf, IsAllOf, IsDealt};

use crate::ending::{gather, settle};
use crate::knowledge::{Hand, Terms};
use crate::law::{Deal, Law, Look, Take, Tell};
use crate::words::{Claimer, Claims, Closed};
use atomic_table::{Seat, Shared, Table};
use lv_base::Memory;
use std::alloc::Global;

// The claimers of a table: all parts of the seat but one are cut off, one by one.
fn deal(
    alloc: Global,
    shared: &Shared<(), Hand, Terms, Law>,
    mut seat: Seat<(), Hand>,
    workers: u32,
) -> Result<Vec<Claimer>, Memory>
    requires words { 0 < shared.now.table_id.words }
    requires workers { 1 ≤ workers }
    requires seat { (seat.table_id ≡ shared.now.table_id) × (seat.me ≡ (fresh shared.now.key.total workers, [])) }
    ensures count { IfOk result (λ v. length v.items ≡ workers) }
    ensures dealt { IfOk result (λ v. All (IsDealt shared.now.table_id shared.now.key.total) v.items) }
{
    let mut claimers = Vec::with_capacity(alloc, workers as usize)?;
    let mut left = workers;
    while left > 1 {
        let other = shared.split_seat::<Deal>(&mut seat);
        claimers.push(Claimer { seat: other })?;
        left -= 1;
    }
    claimers.push(Claimer { seat })?;
    Ok(claimers)
}

impl Claims {
    /// Fresh claims, and claimers that were given nothing.
    pub fn new(alloc: Global, total: u32, workers: u32) -> Result<(Claims, Vec<Claimer>), Memory>
        requires workers { (1 ≤ workers) × (workers ≤ 64) }
        requires room { total + workers < 4294967295 }
        ensures terms { IfOk result (λ r. (terms r.0).total ≡ total) }
        ensures workers { IfOk result (λ r. (terms r.0).workers ≡ workers) }
        ensures claimers { IfOk result (λ r. IsAllOf r.0 r.1.items) }
        ensures nothing { IfOk result (λ r. All (λ c. hand c ≡ fresh total 1) r.1.items) }
    {
        let about = Terms { total, workers };
        let (table, seat) = Table::of_words(alloc, &[0, 4294967295], &about)?;
        let claimers = deal(alloc, &table.shared, seat, workers)?;
        Ok((Claims { table, total }, claimers))
    }

    // The next number is taken where it is below the total: it is the number found, and one step finds it and makes it one more.
    fn take_next(&self, seat: &mut Seat<(), Hand>) -> u64
        requires table { seat.old.table_id ≡ self.now.table.shared.table_id }
        requires one { seat.old.me.0.parts ≡ 1 }
        requires unfinished { seat.old.me.0.finishes ≡ 0 }
        ensures table { seat.new.table_id ≡ seat.old.table_id }
        ensures slots { seat.new.me.1 ≡ seat.old.me.1 }
        ensures taken { seat.new.me.0 ≡ taken seat.old.me.0 result }
    {
        self.table.shared.fetch_add::<Take>(seat, 0, 1)
    }

    /// The next number, where one is left: a single atomic step. At `None` the claimer is finished.
    pub fn claim(&self, me: &mut Claimer) -> Option<u32>
        requires of { IsOf self.now me.old }
        requires unfinished { (hand me.old).finishes ≡ 0 }
        ensures of { IsOf self.now me.new }
        ensures below { IfSome result (λ k. k < (terms self.now).total) }
        ensures given { IfSome result (λ k. hand me.new ≡ with_given (hand me.old) k) }
        ensures has { IfSome result (λ k. 0 < times k (hand me.new).given) }
        ensures finished { IfNone result (hand me.new ≡ with_finish (hand me.old)) }
    {
        let found = self.take_next(&mut me.seat);
        if found < u64::from(self.total) {
            Some(found as u32)
        } else {
            None
        }
    }

    /// Reports a number that the claimer was given: a single atomic step.
    pub fn report(&self, me: &mut Claimer, number: u32)
        requires of { IsOf self.now me.old }
        requires given { 0 < times number (hand me.old).given }
        ensures of { IsOf self.now me.new }
        ensures reported { hand me.new ≡ with_report (hand me.old) number }
    {
        self.table
            .shared
            .fetch_min::<Tell>(&mut me.seat, 1, u64::from(number));
    }

    /// The least number that was reported so far by any claimer, or 4294967295: a single atomic step.
    pub fn lowest(&self, me: &mut Claimer) -> u32
        requires of { IsOf self.now me.old }
        ensures of { IsOf self.now me.new }
        ensures answered { hand me.new ≡ with_answer (hand me.old) result }
        ensures reports { result ≤ least (hand me.old).reported }
        ensures answers { result ≤ (hand me.old).least }
    {
        self.table.shared.load::<Look>(&mut me.seat, 1) as u32
    }

    /// What the claims came to, from all their claimers.
    pub fn close(self, mut claimers: Vec<Claimer>) -> Closed
        requires all { IsAllOf self claimers.items }
        ensures given { (x : ℕ) → total_of (λ c. times x (hand c).given) claimers.items ≡ once_below x result.claimed }
        ensures claimed { result.claimed ≤ (terms self).total }
        ensures finished { 0 < total_of (λ c. (hand c).finishes) claimers.items → result.claimed ≡ (terms self).total }
        ensures lowest { result.lowest ≡ least_of (λ c. least (hand c).reported) claimers.items }
        ensures answered { result.lowest ≤ least_of (λ c. (hand c).least) claimers.items }
    {
        let Some(Claimer { seat }) = claimers.pop() else {
            unreachable!()
        };
        let seat = gather(&self.table.shared, seat, claimers);
        let Claims { table, total } = self;
        settle(table, total, seat)
    }
}
