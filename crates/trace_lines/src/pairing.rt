//! Flat code has no offsets for draws, conditions, assignments and cases. The sites of a source stand in the order of these
//! instructions: each gets its site, where a function has as many of each, in one order.
ghost use Rattle.std.specs.Option.{option_copied};
ghost use Rattle.std.specs.Prelude.{◌≡◌, IfOk, map, option_map, slice_get, take, drop, ◌-◌};
ghost use Rattle.c_tree.specs.Denotes.{tree_of};
ghost use Rattle.c_tree.specs.View as v;
ghost use Rattle.c_typed.specs.View.{function_of};
ghost use Rattle.slot_values.specs.Seen.{link_of, links_of};
ghost use Rattle.trace_lines.specs.Pairing as pairing;

use c_tree::{Body, Item, Unit};
use c_typed::Function;
use lv_base::Memory;
use slot_code::Instruction;
use slot_compiler::Code;
use slot_values::Link;
use std::alloc::Global;
use trace_sites::{Part, Site, body_sites};

// What an instruction does at a site.
fn part_of(instruction: Instruction) -> Option<Part>
    ensures { result ≡ pairing.part_of instruction }
{
    match instruction {
        Instruction::Draw(_, _) => Some(Part::Draw),
        Instruction::SkipZero(_, _) => Some(Part::Decision),
        Instruction::Store(_, _) => Some(Part::Assignment),
        Instruction::SkipEqual(_, _, _) => Some(Part::Case),
        _ => None,
    }
}

fn is_same(first: Part, second: Part) -> bool
    ensures { result ≡ pairing.is_same first second }
{
    match (first, second) {
        (Part::Draw, Part::Draw) => true,
        (Part::Decision, Part::Decision) => true,
        (Part::Assignment, Part::Assignment) => true,
        (Part::Case, Part::Case) => true,
        _ => false,
    }
}

// A site of this part.
fn of_part(part: Part, site: Option<&Site>) -> Option<Site>
    ensures { result ≡ pairing.of_part part (option_copied site.entry) }
{
    match site {
        None => None,
        Some(site) => {
            if is_same(site.part, part) {
                Some(*site)
            } else {
                None
            }
        }
    }
}

// What comes of an instruction, in front of these sites.
enum Fit {
    Without,
    With(Site),
    Nothing,
}

fn fit_of(instruction: Instruction, found: &[Site], used: usize) -> Fit
    ensures { result ≡ pairing.fit_of (pairing.part_of instruction) (slice_get found.now used) }
{
    match part_of(instruction) {
        None => Fit::Without,
        Some(part) => match of_part(part, found.get(used)) {
            None => Fit::Nothing,
            Some(site) => Fit::With(site),
        },
    }
}

// The site of each of these instructions, by its place among them; none where they have other sites than these.
fn fitted(
    alloc: Global,
    code: &[Instruction],
    found: &[Site],
) -> Result<Option<Vec<Option<Site>>>, Memory>
    ensures { IfOk result (λ r. option_map (λ v. v.items) r ≡ pairing.fitted code.now found.now) }
{
    let mut got = Vec::new(alloc);
    let mut used = 0usize;
    let mut place = 0usize;
    'code: while place < code.len() {
        match fit_of(code[place], found, used) {
            Fit::Nothing => return Ok(None),
            Fit::Without => {
                got.push(None)?;
                place += 1;
            }
            Fit::With(site) => {
                got.push(Some(site))?;
                used += 1;
                place += 1;
            }
        }
    }
    if used < found.len() {
        return Ok(None);
    }
    Ok(Some(got))
}

// The sites of some code; none for each instruction where they don't fit.
fn sites_for(
    alloc: Global,
    code: &[Instruction],
    found: &[Site],
) -> Result<Vec<Option<Site>>, Memory>
    ensures { IfOk result (λ r. r.items ≡ pairing.sites_or_none code.now (pairing.fitted code.now found.now)) }
{
    match fitted(alloc, code, found)? {
        Some(sites) => Ok(sites),
        None => Ok(vec![in alloc; None; code.len()]?),
    }
}

// The body of a function whose name has this offset.
fn body_in(item: &Item, at: u32) -> Option<&Body>
    ensures { option_map v.body_of (option_copied result) ≡ pairing.body_in (v.item_of item.entry.now) at }
{
    match item {
        Item::Function(function) => {
            if function.name.at == at {
                Some(&function.body)
            } else {
                None
            }
        }
        _ => None,
    }
}

fn body_at(items: &[Item], at: u32) -> Option<&Body>
    ensures { option_map v.body_of (option_copied result) ≡ pairing.body_at (v.items_of items.entry.now) at }
{
    let mut left = items.len();
    'items: while left > 0 {
        if let Some(body) = body_in(&items[left - 1], at) {
            return Some(body);
        }
        left -= 1;
    }
    None
}

fn body_of<'a>(items: &'a [Item], function: Option<&Function>) -> Option<&'a Body>
    ensures { option_map v.body_of (option_copied result) ≡ pairing.body_of (v.items_of items.entry.now) (option_map function_of (option_copied function.entry)) }
{
    match function {
        None => None,
        Some(function) => body_at(items, function.at),
    }
}

fn sites_of(alloc: Global, body: Option<&Body>) -> Result<Vec<Site>, Memory>
    ensures { IfOk result (λ r. r.items ≡ pairing.sites_of (option_map v.body_of (option_copied body.entry))) }
{
    let mut found = Vec::new(alloc);
    match body {
        None => Ok(found),
        Some(body) => {
            body_sites(body, &mut found)?;
            Ok(found)
        }
    }
}

// The code from one place up to another.
fn own_code(code: &[Instruction], from: usize, to: usize) -> &[Instruction]
    ensures { result.now ≡ take (to - from) (drop from code.entry.now) }
{
    if from > code.len() {
        return &[];
    }
    let back = &code[from..];
    let count = to.saturating_sub(from);
    if count < back.len() {
        &back[..count]
    } else {
        back
    }
}

fn function_at(functions: &[Function], number: u32) -> Option<&Function>
    ensures { option_map function_of (option_copied result) ≡ slice_get (map function_of functions.entry.now) number }
{
    functions.get(number as usize)
}

fn function_sites(
    alloc: Global,
    unit: &Unit,
    functions: &[Function],
    code: &[Instruction],
    link: Link,
    end: usize,
) -> Result<Vec<Option<Site>>, Memory>
    ensures { IfOk result (λ r. r.items ≡ pairing.function_sites (tree_of unit.now) (map function_of functions.now) code.now (link_of link) end) }
{
    let body = body_of(&unit.items, function_at(functions, link.function));
    let found = sites_of(alloc, body)?;
    sites_for(alloc, own_code(code, link.entry, end), &found)
}

// Where the code of the function of this number begins, or where all code ends.
fn entry_at(links: &[Link], number: usize, end: usize) -> usize
    ensures { result ≡ pairing.entry_at links.now number end }
{
    match links.get(number) {
        Some(link) => link.entry,
        None => end,
    }
}

/// The site of each instruction of a program's code, by its place; none for those that want none, or where the sites of a function
/// don't fit its code.
///
/// Fails with `Memory`.
pub fn paired(
    alloc: Global,
    unit: &Unit,
    functions: &[Function],
    code: &Code,
) -> Result<Vec<Option<Site>>, Memory>
    ensures { IfOk result (λ r. r.items ≡ pairing.paired (tree_of unit.now) (map function_of functions.now) code.now.instructions.items (links_of code.now.links.items)) }
{
    let mut sites = Vec::new(alloc);
    let mut number = 0usize;
    'links: while number < code.links.len() {
        let end = entry_at(&code.links, number + 1, code.instructions.len());
        let own = function_sites(
            alloc,
            unit,
            functions,
            &code.instructions,
            code.links[number],
            end,
        )?;
        sites.extend_from_slice(&own)?;
        number += 1;
    }
    Ok(sites)
}
