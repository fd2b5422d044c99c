//! What a clause asks for when a literal that it watches has become false.

ghost use Rattle.std.specs.Prelude.{true, false, ◌≡◌, ℕ, ◌<◌, ◌≤◌, List, length, Some, slice_get, slice_index, MatchOption};
ghost use Rattle.resolution_log.specs.Codes.{AllBelow};
ghost use Rattle.dense_trail.specs.Dense.{negation, is_true};
ghost use Rattle.watched_clauses.specs.Judge.{is_closed, AllClosed, last_finding, IsFinding, IsPair, AreWatched, first_of, second_of};

use dense_trail::{Trail, negation};
use resolution_log::Rows;

/// The two literals that a clause watches, by their codes. A clause of one literal watches nothing: both are that one.
#[derive(Clone, Copy)]
pub struct Watch {
    /// One of them.
    pub first: u32,
    /// The other one.
    pub second: u32,
    /// The clause has no other literal, so that it need not be read.
    pub pair: bool,
}

/// What is to be done with a clause.
#[derive(Clone, Copy)]
pub enum Finding {
    /// The clause watches other literals.
    Elsewhere,
    /// The other watched literal is true.
    Met,
    /// The first literal stays watched, and the second, which is not false, is to be watched with it.
    Open(u32, u32),
    /// All others are false, and this one has no value.
    Lone(u32),
    /// All are false.
    Clash,
}

// Whether a literal is no other one to watch: it is watched already, or it is false.
#[inline]
fn is_closed(trail: &Trail, other: u32, code: u32) -> bool
    requires { code < length trail.now.truth.items }
    ensures { result ≡ is_closed trail.now.truth.items other code }
{
    code == other || trail.truth[negation(code) as usize]
}

// The first place in a part of a row whose literal is another one to watch.
#[inline]
fn open_within(row: &[u32], trail: &Trail, other: u32, from: usize, to: usize) -> Option<usize>
    requires below { AllBelow (length trail.now.truth.items) row.now }
    requires to { to ≤ length row.now }
    ensures { MatchOption result (AllClosed trail.now.truth.items other row.now from to) (λ at. (at < to) × (is_closed trail.now.truth.items other (slice_index row.now at) ≡ false)) }
{
    for at in from..to {
        if !is_closed(trail, other, row[at]) {
            return Some(at);
        }
    }
    None
}

// A place in a row whose literal is another one to watch: from a place on, and then from the start.
#[inline]
fn open_from(row: &[u32], trail: &Trail, other: u32, place: usize) -> Option<usize>
    requires { AllBelow (length trail.now.truth.items) row.now }
    ensures { MatchOption result (AllClosed trail.now.truth.items other row.now 0 (length row.now)) (λ at. (at < length row.now) × (is_closed trail.now.truth.items other (slice_index row.now at) ≡ false)) }
{
    let from = if place < row.len() { place } else { 0 };
    if let Some(at) = open_within(row, trail, other, from, row.len()) {
        return Some(at);
    }
    open_within(row, trail, other, 0, from)
}

// The other watched literal of a clause that watches this one.
#[inline]
fn other_of(watch: Watch, falsified: u32) -> Option<u32>
    ensures { MatchOption result ((watch.first ≡ falsified → ⊥) × (watch.second ≡ falsified → ⊥)) (AreWatched watch.first watch.second falsified) }
{
    if watch.first == falsified {
        return Some(watch.second);
    }
    if watch.second == falsified {
        return Some(watch.first);
    }
    None
}

// Where no other literal may be true: whether this one is false too.
#[inline]
fn last_finding(trail: &Trail, other: u32) -> Finding
    requires { other < length trail.now.truth.items }
    ensures { result ≡ last_finding trail.now.truth.items other }
{
    if trail.truth[negation(other) as usize] {
        Finding::Clash
    } else {
        Finding::Lone(other)
    }
}

// Where the last search of a clause ended, where that is written.
#[inline]
fn place_of(places: &[usize], number: u32) -> usize {
    let at = number as usize;
    if at < places.len() { places[at] } else { 0 }
}

/// Looks at the clause with this number, where the literal has become false. Another literal to watch is searched from the
/// place on at which the last search of the clause ended; where this one ends is written to `place`. Literals before it
/// were mostly false then, and stay so while the search goes down.
#[inline]
pub fn judge_from(
    rows: &Rows,
    watches: &[Watch],
    trail: &Trail,
    places: &[usize],
    falsified: u32,
    number: u32,
    place: &mut usize,
) -> Finding
    requires row { number < length rows.now }
    requires watch { number < length watches.now }
    requires first { first_of watches.now number < length trail.now.truth.items }
    requires second { second_of watches.now number < length trail.now.truth.items }
    requires falsified { is_true trail.now.truth.items (negation falsified) ≡ true }
    requires pair { (r : List ℕ) → slice_get rows.now number ≡ Some r → IsPair watches.now number r }
    requires below { (r : List ℕ) → slice_get rows.now number ≡ Some r → AllBelow (length trail.now.truth.items) r }
    ensures { (r : List ℕ) → slice_get rows.now number ≡ Some r → IsFinding trail.now.truth.items falsified (first_of watches.now number) (second_of watches.now number) r result }
{
    let watch = watches[number as usize];
    let Some(other) = other_of(watch, falsified) else {
        return Finding::Elsewhere;
    };
    if trail.truth[other as usize] {
        return Finding::Met;
    }
    if watch.pair {
        return last_finding(trail, other);
    }
    let row = rows.row(number as usize);
    match open_from(row, trail, other, place_of(places, number)) {
        Some(at) => {
            *place = at;
            Finding::Open(other, row[at])
        }
        None => last_finding(trail, other),
    }
}

/// [`judge_from`] where no place is written.
pub fn judge(rows: &Rows, watches: &[Watch], trail: &Trail, falsified: u32, number: u32) -> Finding
    requires row { number < length rows.now }
    requires watch { number < length watches.now }
    requires first { first_of watches.now number < length trail.now.truth.items }
    requires second { second_of watches.now number < length trail.now.truth.items }
    requires falsified { is_true trail.now.truth.items (negation falsified) ≡ true }
    requires pair { (r : List ℕ) → slice_get rows.now number ≡ Some r → IsPair watches.now number r }
    requires below { (r : List ℕ) → slice_get rows.now number ≡ Some r → AllBelow (length trail.now.truth.items) r }
    ensures { (r : List ℕ) → slice_get rows.now number ≡ Some r → IsFinding trail.now.truth.items falsified (first_of watches.now number) (second_of watches.now number) r result }
{
    let mut place = 0;
    judge_from(rows, watches, trail, &[], falsified, number, &mut place)
}
