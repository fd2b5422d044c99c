//! Where the code of each function stands in that of the program.
//!
//! The ranges are laid out by the links of the code, and then tried against them, so that no proof has to follow how they are laid.

ghost use Rattle.std.specs.Prelude.{◌≡◌, ◌<◌, ◌↔◌, ℕ, List, length, IfOk, IsTrue, Some, slice_get, slice_set};
ghost use Rattle.c_typed.specs.Parts.{tree_of};
ghost use Rattle.c_typed.specs.Run as run;
ghost use Rattle.slot_values.specs.Linked.{links_of};
ghost use Rattle.slot_values.specs.Seen as values;
ghost use Rattle.cfg_build.specs.declared.placing.Range.{Range};
ghost use Rattle.cfg_build.specs.Numbers.{AllLinked};
ghost use Rattle.cfg_build.specs.Ranges as of;
ghost use Rattle.cfg_build.specs.Ranges.{entry_or, slot_or, AreRanges, IsRange};

use crate::placing::Range;
use c_typed::Typed;
use lv_base::Memory;
use slot_compiler::{Code, main_number};
use slot_values::Link;
use std::alloc::Global;

/// The number of `main`.
pub(crate) fn main_of(typed: &Typed) -> u32
    ensures main { (main : ℕ) → run.main_number (tree_of typed.now).functions ≡ Some main → main < 4294967296 → result ≡ main }
    ensures value { result ≡ of.main_or (run.main_number (tree_of typed.now).functions) }
{
    match main_number(typed.functions()) {
        None => 0,
        Some(number) => u32::try_from(number).unwrap_or(0),
    }
}

fn is_main(typed: &Typed, main: u32) -> bool
    ensures { IsTrue result ↔ (run.main_number (tree_of typed.now).functions ≡ Some main) }
{
    match main_number(typed.functions()) {
        None => false,
        Some(number) => number == main as usize,
    }
}

// A range without a place for each of so many functions.
fn no_ranges(alloc: Global, functions: usize) -> Result<Vec<Range>, Memory>
    ensures count { IfOk result (λ r. length r.items ≡ functions) }
    ensures made { IfOk result (λ r. r.items ≡ of.no_ranges functions) }
{
    let mut ranges = Vec::new(alloc);
    for number in 0..functions {
        let Ok(function) = u32::try_from(number) else {
            return Err(Memory);
        };
        ranges.push(Range {
            function,
            entry: 0,
            end: 0,
            slot: 0,
            bound: 0,
        })?;
    }
    Ok(ranges)
}

// The entry of the link of this number, or the end of the code behind the last one.
pub(crate) fn entry_at(code: &Code, number: usize) -> usize
    ensures { result ≡ entry_or (length code.now.instructions.items) (slice_get code.now.links.items number) }
{
    match code.links.get(number) {
        None => code.instructions.len(),
        Some(link) => link.entry,
    }
}

// The slot of the link of this number, or the bound of all slots behind the last one.
fn slot_at(code: &Code, slots: usize, number: usize) -> usize
    ensures { result ≡ slot_or slots (slice_get code.now.links.items number) }
{
    match code.links.get(number) {
        None => slots,
        Some(link) => link.slot,
    }
}

// A range for a function, if it is one of these.
fn put_range(ranges: &mut Vec<Range>, range: Range)
    ensures { ranges.new.items ≡ slice_set ranges.old.items range.function range }
{
    let number = range.function as usize;
    if number < ranges.len() {
        ranges[number] = range;
    }
}

// The range of a link whose code goes up to an end, and its slots up to a bound.
fn range_of(link: Link, end: usize, bound: usize) -> Range
    ensures { result ≡ of.range_of (values.link_of link) end bound }
{
    Range {
        function: link.function,
        entry: link.entry,
        end,
        slot: link.slot,
        bound,
    }
}

/// The code and the slots of each function, by its number: from its first ones up to those of the next one in the code.
pub(crate) fn ranges_of(
    alloc: Global,
    typed: &Typed,
    code: &Code,
    slots: usize,
) -> Result<Vec<Range>, Memory>
    ensures stand { (all : List Range) → length all ≡ length (tree_of typed.now).functions
        → AreRanges (length code.now.instructions.items) slots (links_of code.now.links.items) all → AllLinked (links_of code.now.links.items) (length all)
        → IfOk result (λ r. r.items ≡ all) }
    ensures made { IfOk result (λ r. r.items ≡ of.ranges_to (length code.now.instructions.items) slots (links_of code.now.links.items) (of.no_ranges (length (tree_of typed.now).functions))) }
{
    let mut ranges = no_ranges(alloc, typed.functions().len())?;
    for number in 0..code.links.len() {
        let Some(link) = link_at(code, number) else {
            return Ok(ranges);
        };
        let (end, bound) = (entry_at(code, number + 1), slot_at(code, slots, number + 1));
        put_range(&mut ranges, range_of(link, end, bound));
    }
    Ok(ranges)
}

fn is_range_of(ranges: &[Range], link: Link, end: usize, bound: usize) -> bool
    ensures { IsTrue result ↔ IsRange (values.link_of link) end bound ranges.now }
{
    match ranges.get(link.function as usize) {
        None => false,
        Some(range) => is_range(range, link, end, bound) && link.entry < end,
    }
}

fn is_range(range: &Range, link: Link, end: usize, bound: usize) -> bool
    ensures { IsTrue result ↔ (range.now ≡ of.range_of (values.link_of link) end bound) }
{
    let is_code = range.function == link.function && range.entry == link.entry && range.end == end;
    is_code && range.slot == link.slot && range.bound == bound
}

pub(crate) fn link_at(code: &Code, number: usize) -> Option<Link>
    ensures { result ≡ slice_get code.now.links.items number }
{
    code.links.get(number).copied()
}

// Whether each range is that of its function's link.
fn are_ranges(code: &Code, slots: usize, ranges: &[Range]) -> bool
    ensures { IsTrue result ↔ AreRanges (length code.now.instructions.items) slots (links_of code.now.links.items) ranges.now }
{
    for number in 0..code.links.len() {
        let Some(link) = link_at(code, number) else {
            return false;
        };
        let (end, bound) = (entry_at(code, number + 1), slot_at(code, slots, number + 1));
        if !is_range_of(ranges, link, end, bound) {
            return false;
        }
    }
    true
}

/// Whether the ranges are those of the code, and the number is that of `main`.
pub(crate) fn is_placed(
    typed: &Typed,
    code: &Code,
    slots: usize,
    ranges: &[Range],
    main: u32,
) -> bool
    ensures stand { IsTrue result → AreRanges (length code.now.instructions.items) slots (links_of code.now.links.items) ranges.now }
    ensures main { IsTrue result → run.main_number (tree_of typed.now).functions ≡ Some main }
    ensures whole { AreRanges (length code.now.instructions.items) slots (links_of code.now.links.items) ranges.now
        → run.main_number (tree_of typed.now).functions ≡ Some main → IsTrue result }
{
    if !is_main(typed, main) {
        return false;
    }
    are_ranges(code, slots, ranges)
}
