ghost use Rattle.std.specs.Prelude.{◌≡◌, IfOk};
ghost use Rattle.std.specs.Option.{IfSome};
ghost use Rattle.std.specs.List.{list_all, list_any};
ghost use Rattle.c_typed.specs.Rules as r;
ghost use Rattle.first_broken.specs.Found.{summary};
ghost use Rattle.first_broken.specs.Seen as lines;
ghost use Rattle.call_order.specs.Apart as apart;
ghost use Rattle.call_order.specs.Layers as layers;
ghost use Rattle.call_order.specs.Seen as seen;

use crate::calls::CallAt;
use crate::marks::is_marked;
use crate::search::reached;
use first_broken::{Found, line};
use lv_base::{Memory, SourceFault};
use std::alloc::Global;

// A call, with the function that makes it.
#[derive(Clone, Copy)]
struct Made {
    caller: u32,
    call: CallAt,
}

// The number of a function's part. Functions past the numbers are in part 0.
fn part_of(parts: &[u32], function: u32) -> u32
    ensures { result ≡ apart.part_of parts.now function }
{
    match parts.get(function as usize) {
        None => 0,
        Some(part) => *part,
    }
}

// The earlier one by offset.
fn earlier(best: Option<Made>, made: Made) -> Option<Made> {
    match best {
        Some(best) if best.call.at <= made.call.at => Some(best),
        _ => Some(made),
    }
}

// The first by offset of those before and of a function's calls within its part.
fn first_within(parts: &[u32], before: Option<Made>, caller: u32, own: &[CallAt]) -> Option<Made> {
    let mut best = before;
    for call in own {
        if part_of(parts, call.to) == part_of(parts, caller) {
            let call = *call;
            best = earlier(best, Made { caller, call });
        }
    }
    best
}

// The first call by offset that stays within a part. Nothing is relied on: the call is tested.
fn first_inner(parts: &[u32], calls: &[Vec<CallAt>]) -> Option<Made> {
    let mut best = None;
    let mut caller = 0u32;
    for own in calls {
        best = first_within(parts, best, caller, own);
        caller = caller.saturating_add(1);
    }
    best
}

// Whether a call goes to a lower part, or stays in its part and does not stand before this offset.
fn is_apart(parts: &[u32], at: u32, own: u32, call: CallAt) -> bool
    ensures { result ≡ apart.is_apart parts.now at own (seen.call_of call) }
{
    let part = part_of(parts, call.to);
    part < own || (part == own && at <= call.at)
}

fn own_apart(parts: &[u32], at: u32, own: u32, calls: &[CallAt]) -> bool
    ensures { result ≡ list_all (λ (c : CallAt). apart.is_apart parts.now at own (seen.call_of c)) calls.now }
{
    calls.iter().all(|call| is_apart(parts, at, own, *call))
}

// A part by the place of its function.
fn part_at(parts: &[u32], i: usize) -> u32
    ensures { result ≡ apart.part_of parts.now i }
{
    match parts.get(i) {
        None => 0,
        Some(part) => *part,
    }
}

fn all_apart(parts: &[u32], at: u32, calls: &[Vec<CallAt>]) -> bool
    ensures { result ≡ apart.all_apart parts.now at 0 (seen.all_calls calls.now) }
{
    for (i, own) in calls.iter().enumerate() {
        let part = part_at(parts, i);
        if !own_apart(parts, at, part, own) {
            return false;
        }
    }
    true
}

// Whether one of these calls has this offset and this function.
fn has_call(own: &[CallAt], call: CallAt) -> bool
    ensures { result ≡ list_any (λ (c : CallAt). apart.is_call call.at call.to (seen.call_of c)) own.now }
{
    own.iter().any(|c| c.at == call.at && c.to == call.to)
}

// Whether the function makes this call.
fn is_made(calls: &[Vec<CallAt>], caller: u32, call: CallAt) -> bool
    ensures { result ≡ apart.is_made call.at call.to caller (seen.all_calls calls.now) }
{
    let i = caller as usize;
    if i < calls.len() {
        has_call(&calls[i], call)
    } else {
        false
    }
}

/// The first call that lies on a cycle of calls, where the parts show it: no call goes to a higher part, and a call that stays
/// in its part, behind none of these, lies on a cycle.
///
/// Fails with `Memory` where there is no more memory for marks of the functions.
pub(crate) fn confirmed(
    alloc: Global,
    calls: &[Vec<CallAt>],
    parts: &[u32],
) -> Result<Option<Found>, Memory>
    ensures { IfOk result (λ o. IfSome o (λ x. layers.IsBounded (seen.graph_of calls.now) → lines.found_of x ≡ summary (r.recursion (seen.graph_of calls.now) 0 (seen.all_calls calls.now)))) }
{
    let Some(made) = first_inner(parts, calls) else {
        return Ok(None);
    };
    let call = made.call;
    if !all_apart(parts, call.at, calls) {
        return Ok(None);
    }
    if !is_made(calls, made.caller, call) {
        return Ok(None);
    }
    let marks = reached(alloc, calls, call.to)?;
    if !is_marked(&marks, made.caller) {
        return Ok(None);
    }
    Ok(Some(line(true, SourceFault::Recursion, call.at)))
}
