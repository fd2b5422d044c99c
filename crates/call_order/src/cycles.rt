ghost use Rattle.std.specs.Prelude.{◌≡◌, length, IfOk, slice_index_or, false};
ghost use Rattle.std.specs.List.{list_any};
ghost use Rattle.c_typed.specs.Rules as r;
ghost use Rattle.first_broken.specs.Found.{summary};
ghost use Rattle.first_broken.specs.Seen as lines;
ghost use Rattle.call_order.specs.Layers as layers;
ghost use Rattle.call_order.specs.Seen as seen;

use crate::calls::CallAt;
use crate::confirmed::confirmed;
use crate::marks::is_marked;
use crate::order::{guided, is_whole};
use crate::walk::make_guess;
use first_broken::{Found, both, line, none};
use lv_base::{Memory, SourceFault};
use std::alloc::Global;

fn any_call(calls: &[CallAt], marks: &[bool]) -> bool
    ensures { result ≡ list_any (λ (c : CallAt). slice_index_or marks.now c.to false) calls.now }
{
    calls.iter().any(|call| is_marked(marks, call.to))
}

// Whether one of these calls is of a marked function.
fn calls_marked(calls: &[CallAt], marks: &[bool]) -> bool
    ensures { result ≡ layers.any_marked marks.now (seen.targets calls.now) }
{
    any_call(calls, marks)
}

// The goal itself, among so many functions.
fn first_layer(alloc: Global, count: usize, goal: usize) -> Result<Vec<bool>, Memory>
    ensures { IfOk result (λ x. x.items ≡ layers.first_layer count goal) }
{
    let mut marks = Vec::new(alloc);
    for i in 0..count {
        marks.push(i == goal)?;
    }
    Ok(marks)
}

// The goal itself, and the functions that call a function of the layer before.
fn next_layer(
    alloc: Global,
    calls: &[Vec<CallAt>],
    goal: usize,
    before: &[bool],
) -> Result<Vec<bool>, Memory>
    ensures { IfOk result (λ x. x.items ≡ layers.next_layer (seen.graph_of calls.now) goal before.now) }
{
    let mut marks = Vec::new(alloc);
    for (i, own) in calls.iter().enumerate() {
        marks.push(i == goal || calls_marked(own, before))?;
    }
    Ok(marks)
}

// The functions from which calls lead to the goal.
fn leading(alloc: Global, calls: &[Vec<CallAt>], goal: usize) -> Result<Vec<bool>, Memory>
    ensures { IfOk result (λ x. x.items ≡ layers.layers (seen.graph_of calls.now) goal (length calls.now)) }
{
    let mut marks = first_layer(alloc, calls.len(), goal)?;
    for _round in 0..calls.len() {
        marks = next_layer(alloc, calls, goal, &marks)?;
    }
    Ok(marks)
}

// The calls of a function that lie on a cycle, by what leads to the function.
fn cycle_lines(calls: &[CallAt], marks: &[bool]) -> Found
    ensures { lines.found_of result ≡ summary (layers.lines_in marks.now (seen.calls calls.now)) }
{
    let mut all = none();
    for call in calls {
        let test = is_marked(marks, call.to);
        all = both(all, line(test, SourceFault::Recursion, call.at));
    }
    all
}

// The calls that lie on a cycle, function by function.
fn lines_found(alloc: Global, calls: &[Vec<CallAt>]) -> Result<Found, Memory>
    ensures { IfOk result (λ x. lines.found_of x ≡ summary (layers.all_lines (seen.graph_of calls.now) 0 (seen.all_calls calls.now))) }
{
    let mut all = none();
    for (i, own) in calls.iter().enumerate() {
        let marks = leading(alloc, calls, i)?;
        all = both(all, cycle_lines(own, &marks));
    }
    Ok(all)
}

/// The first call that lies on a cycle of calls, where functions make these calls, each of one of them.
///
/// Fails with `Memory` where there is no more memory for marks of the functions.
pub fn recursion_found(alloc: Global, calls: &[Vec<CallAt>]) -> Result<Found, Memory>
    ensures { IfOk result (λ x. layers.IsBounded (seen.graph_of calls.now) → lines.found_of x ≡ summary (r.recursion (seen.graph_of calls.now) 0 (seen.all_calls calls.now))) }
{
    let guess = make_guess(alloc, calls)?;
    let taking = guided(alloc, calls, &guess.order)?;
    if is_whole(&taking.taken) {
        return Ok(none());
    }
    match confirmed(alloc, calls, &guess.parts)? {
        Some(found) => Ok(found),
        None => lines_found(alloc, calls),
    }
}
