ghost use Rattle.std.specs.Prelude.{◌≡◌, IfOk};
ghost use Rattle.call_order.specs.Apart as apart;
ghost use Rattle.call_order.specs.Peel as peel;
ghost use Rattle.call_order.specs.Seen as seen;

use crate::calls::CallAt;
use crate::marks::{is_marked, mark};
use lv_base::Memory;
use std::alloc::Global;

// The functions that are marked, and those of them whose calls are still to be followed.
#[derive(Drop)]
struct Search {
    marks: Vec<bool>,
    open: Vec<u32>,
}

fn enter(search: &mut Search, function: u32) -> Result<(), Memory>
    ensures { IfOk result (λ _. search.new.marks.items ≡ peel.marked search.old.marks.items function) }
{
    let is_new = !is_marked(&search.marks, function);
    mark(&mut search.marks, function as usize);
    if is_new {
        search.open.push(function)?;
    }
    Ok(())
}

fn enter_all(search: &mut Search, calls: &[CallAt]) -> Result<(), Memory>
    ensures { IfOk result (λ _. search.new.marks.items ≡ apart.marked_all search.old.marks.items (seen.targets calls.now)) }
{
    for call in calls {
        enter(search, call.to)?;
    }
    Ok(())
}

// Marks what a function calls, if it is marked itself.
fn expand(search: &mut Search, calls: &[Vec<CallAt>], function: u32) -> Result<(), Memory>
    ensures { IfOk result (λ _. search.new.marks.items ≡ apart.expanded (seen.graph_of calls.now) function search.old.marks.items) }
{
    let i = function as usize;
    if is_marked(&search.marks, function) && i < calls.len() {
        return enter_all(search, &calls[i]);
    }
    Ok(())
}

fn begin(alloc: Global, count: usize, start: u32) -> Result<Search, Memory>
    ensures { IfOk result (λ s. s.marks.items ≡ apart.only count start) }
{
    let mut search = Search {
        marks: vec![in alloc; false; count]?,
        open: Vec::new(alloc),
    };
    enter(&mut search, start)?;
    Ok(search)
}

fn marks_in(search: Search) -> Vec<bool>
    ensures { result.items ≡ search.marks.items }
{
    search.marks
}

/// Functions to which calls lead from a function, itself among them.
///
/// Fails with `Memory` where there is no more memory for marks of the functions.
pub(crate) fn reached(alloc: Global, calls: &[Vec<CallAt>], start: u32) -> Result<Vec<bool>, Memory>
    ensures { IfOk result (λ x. apart.AreReached (seen.graph_of calls.now) start x.items) }
{
    let mut search = begin(alloc, calls.len(), start)?;
    for _call in 0..calls.len() {
        match search.open.pop() {
            None => return Ok(marks_in(search)),
            Some(function) => expand(&mut search, calls, function)?,
        }
    }
    Ok(marks_in(search))
}
