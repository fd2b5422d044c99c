ghost use Rattle.std.specs.Prelude.{◌≡◌, ◌≤◌, IfOk, OnErr, slice_index_or, false};
ghost use Rattle.std.specs.List.{list_all};
ghost use Rattle.call_order.specs.Layers.{IsBounded, HasNoCycle};
ghost use Rattle.call_order.specs.Order.{IsOrder};
ghost use Rattle.call_order.specs.Peel as peel;
ghost use Rattle.call_order.specs.Seen as seen;
ghost use Rattle.call_order.specs.Walks.{order_by_walk};

use crate::calls::CallAt;
use crate::marks::{is_marked, mark};
use crate::walk::make_guess;
use lv_base::Memory;
use std::alloc::Global;

// The functions that are taken, and these in the order in which they were.
#[derive(Drop)]
pub(crate) struct Taking {
    pub(crate) taken: Vec<bool>,
    order: Vec<u32>,
}

// A number of a function. No memory holds as many as make it too great.
fn number_of(i: usize) -> Result<u32, Memory>
    ensures same { IfOk result (λ n. n ≡ i) }
    ensures cause { OnErr result (4294967296 ≤ i) }
{
    if i > u32::MAX as usize {
        return Err(Memory);
    }
    Ok(i as u32)
}

fn all_calls(calls: &[CallAt], taken: &[bool]) -> bool
    ensures { result ≡ list_all (λ (c : CallAt). slice_index_or taken.now c.to false) calls.now }
{
    calls.iter().all(|call| is_marked(taken, call.to))
}

// Whether each function that these calls are of is taken.
fn is_ready(calls: &[CallAt], taken: &[bool]) -> bool
    ensures { result ≡ peel.is_ready taken.now (seen.targets calls.now) }
{
    all_calls(calls, taken)
}

fn start(alloc: Global, count: usize) -> Result<Taking, Memory>
    ensures { IfOk result (λ t. seen.taking_of t ≡ peel.start count) }
{
    Ok(Taking {
        taken: vec![in alloc; false; count]?,
        order: Vec::new(alloc),
    })
}

// Takes a function if those that it calls are taken.
fn visit(taking: &mut Taking, function: usize, calls: &[CallAt]) -> Result<(), Memory>
    ensures { IfOk result (λ _. seen.taking_of taking.new ≡ peel.visit function (seen.targets calls.now) (seen.taking_of taking.old)) }
{
    let number = number_of(function)?;
    if !is_marked(&taking.taken, number) && is_ready(calls, &taking.taken) {
        taking.order.push(number)?;
        mark(&mut taking.taken, function);
    }
    Ok(())
}

// A number past the functions takes none.
fn visit_at(taking: &mut Taking, calls: &[Vec<CallAt>], function: u32) -> Result<(), Memory>
    ensures { IfOk result (λ _. seen.taking_of taking.new ≡ peel.visit_at (seen.graph_of calls.now) function (seen.taking_of taking.old)) }
{
    let i = function as usize;
    if i < calls.len() {
        visit(taking, i, &calls[i])
    } else {
        Ok(())
    }
}

/// Takes functions in this order, each if those that it calls are taken.
pub(crate) fn guided(alloc: Global, calls: &[Vec<CallAt>], order: &[u32]) -> Result<Taking, Memory>
    ensures { IfOk result (λ x. seen.taking_of x ≡ peel.guided (seen.graph_of calls.now) order.now) }
{
    let mut taking = start(alloc, calls.len())?;
    for function in order {
        visit_at(&mut taking, calls, *function)?;
    }
    Ok(taking)
}

fn round(taking: &mut Taking, calls: &[Vec<CallAt>]) -> Result<(), Memory>
    ensures { IfOk result (λ _. seen.taking_of taking.new ≡ peel.round 0 (seen.graph_of calls.now) (seen.taking_of taking.old)) }
{
    for (i, own) in calls.iter().enumerate() {
        visit(taking, i, own)?;
    }
    Ok(())
}

/// Whether each function is taken.
pub(crate) fn is_whole(taken: &[bool]) -> bool
    ensures { result ≡ peel.is_whole taken.now }
{
    taken.iter().all(|is_taken| *is_taken)
}

// Nothing is left to do where each function is taken.
fn next_round(taking: &mut Taking, calls: &[Vec<CallAt>]) -> Result<(), Memory>
    ensures { IfOk result (λ _. seen.taking_of taking.new ≡ peel.next_round (seen.graph_of calls.now) (seen.taking_of taking.old)) }
{
    if is_whole(&taking.taken) {
        return Ok(());
    }
    round(taking, calls)
}

// As many rounds as there are functions.
fn rounds(taking: &mut Taking, calls: &[Vec<CallAt>]) -> Result<(), Memory>
    ensures { IfOk result (λ _. seen.taking_of taking.new ≡ peel.all_rounds (seen.graph_of calls.now) (seen.taking_of taking.old)) }
{
    for _round in 0..calls.len() {
        next_round(taking, calls)?;
    }
    Ok(())
}

// Goes on round by round if the order has left functions.
fn finish(taking: &mut Taking, calls: &[Vec<CallAt>]) -> Result<(), Memory>
    ensures { IfOk result (λ _. seen.taking_of taking.new ≡ peel.finished (seen.graph_of calls.now) (seen.taking_of taking.old)) }
{
    if is_whole(&taking.taken) {
        return Ok(());
    }
    rounds(taking, calls)
}

fn order_in(taking: Taking) -> Vec<u32>
    ensures { result.items ≡ taking.order.items }
{
    taking.order
}

/// An order of the functions in which each stands behind those that it calls, where they make these calls and no call lies on a
/// cycle of calls.
///
/// Fails with `Memory` where there is no more memory for the order.
pub fn order_of(alloc: Global, calls: &[Vec<CallAt>]) -> Result<Vec<u32>, Memory>
    requires bounded { IsBounded (seen.graph_of calls.now) }
    requires acyclic { HasNoCycle (seen.graph_of calls.now) }
    ensures order { IfOk result (λ x. IsOrder (seen.graph_of calls.now) x.items) }
    ensures made { IfOk result (λ x. x.items ≡ order_by_walk (seen.graph_of calls.now)) }
{
    let guess = make_guess(alloc, calls)?;
    let mut taking = guided(alloc, calls, &guess.order)?;
    finish(&mut taking, calls)?;
    Ok(order_in(taking))
}
