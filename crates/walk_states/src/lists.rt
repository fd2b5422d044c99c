//! Lists of places that wait.
ghost use Rattle.walk_states.specs.Told.{Told};
ghost use Rattle.std.specs.Prelude.{◌≡◌, [], ◌∷◌, ◌++◌, IfOk, Some, drop, length, nat_lt};
ghost use Rattle.block_rule.specs.Rule.{found, is_none, with_wait, without};
ghost use Rattle.walk_states.specs.Walks.{bads_of, waits_of};

use crate::state::{Failing, Stop, Waiting};
use std::alloc::Global;

/// The guard of a place among those that wait.
pub fn found(waiting: &[Waiting], node: u32) -> Option<Option<u32>>
    ensures { result ≡ found (waits_of waiting.now) node }
{
    for place in waiting {
        if place.node == node {
            return Some(place.guard);
        }
    }
    None
}

/// A list with one more place, unless it is this one.
fn kept(all: Vec<Waiting>, place: Waiting, node: u32) -> Result<Vec<Waiting>, Stop>
    ensures means { IfOk result (λ v. waits_of v.items ≡ waits_of all.items ++ without (waits_of (place ∷ [])) node) }
    ensures made { Told (λ v. waits_of v.items) result (Some (waits_of all.items ++ without (waits_of (place ∷ [])) node)) }
{
    if place.node == node {
        return Ok(all);
    }
    let mut more = all;
    more.push(place)?;
    Ok(more)
}

/// The places that wait, without one.
pub fn without(alloc: Global, waiting: &[Waiting], node: u32) -> Result<Vec<Waiting>, Stop>
    ensures means { IfOk result (λ v. waits_of v.items ≡ without (waits_of waiting.now) node) }
    ensures made { Told (λ v. waits_of v.items) result (Some (without (waits_of waiting.now) node)) }
{
    let mut all = Vec::new(alloc);
    for number in 0..waiting.len() {
        all = kept(all, waiting[number], node)?;
    }
    Ok(all)
}

/// A list, and then the places from a number on.
fn joined(all: Vec<Waiting>, waiting: &[Waiting], from: usize) -> Result<Vec<Waiting>, Stop>
    ensures means { IfOk result (λ v. waits_of v.items ≡ waits_of all.items ++ waits_of (drop from waiting.now)) }
    ensures made { Told (λ v. waits_of v.items) result (Some (waits_of all.items ++ waits_of (drop from waiting.now))) }
{
    let mut more = all;
    for number in from..waiting.len() {
        more.push(waiting[number])?;
    }
    Ok(more)
}

/// The places that wait with one more, in the order of their numbers.
pub(crate) fn with_wait(
    alloc: Global,
    waiting: &[Waiting],
    node: u32,
    guard: Option<u32>,
) -> Result<Vec<Waiting>, Stop>
    ensures means { IfOk result (λ v. waits_of v.items ≡ with_wait (waits_of waiting.now) node guard) }
    ensures made { Told (λ v. waits_of v.items) result (Some (with_wait (waits_of waiting.now) node guard)) }
{
    let mut all = Vec::new(alloc);
    for number in 0..waiting.len() {
        if waiting[number].node >= node {
            all.push(Waiting { node, guard })?;
            return joined(all, waiting, number);
        }
        all.push(waiting[number])?;
    }
    all.push(Waiting { node, guard })?;
    Ok(all)
}

/// One more check at the end.
pub(crate) fn with_bad(bads: Vec<Failing>, cell: u32, error: u32) -> Result<Vec<Failing>, Stop>
    ensures means { IfOk result (λ v. bads_of v.items ≡ bads_of bads.items ++ record { cell = cell; error = error } ∷ []) }
    ensures made { Told (λ v. bads_of v.items) result (Some (bads_of bads.items ++ record { cell = cell; error = error } ∷ [])) }
{
    let mut more = bads;
    more.push(Failing { cell, error })?;
    Ok(more)
}

/// Whether no place waits.
pub fn no_waits(waiting: &[Waiting]) -> bool
    ensures { result ≡ is_none (waits_of waiting.now) }
{
    waiting.len() == 0
}

/// Whether no check is open.
pub fn no_bads(bads: &[Failing]) -> bool
    ensures { result ≡ is_none (bads_of bads.now) }
{
    bads.len() == 0
}

/// Whether more than 64 places wait.
pub(crate) fn many_wait(waiting: &[Waiting]) -> bool
    ensures { result ≡ nat_lt 64 (length (waits_of waiting.now)) }
{
    64 < waiting.len()
}
