//! The numbers of nodes in the graphs of functions, and the function whose code has a place. Both are laid out link by link, since the
//! code of each function ends where that of the next one begins.

ghost use Rattle.std.specs.Prelude.{◌≡◌, ◌+◌, ◌-◌, ◌++◌, length, replicate, IfOk};
ghost use Rattle.slot_values.specs.Linked.{links_of};
ghost use Rattle.cfg_build.specs.Steps.{node_id};
ghost use Rattle.cfg_build.specs.Sizes as s;
ghost use Rattle.cfg_build.specs.Numbers.{code_between, first_number, last_number, numbers_from, numbers_to, owners_to};

use crate::fitting::instruction_at;
use crate::ranging::{entry_at, link_at};
use crate::sizes::nodes_at;
use c_graph::NodeId;
use lv_base::Memory;
use slot_code::Instruction;
use slot_compiler::Code;
use std::alloc::Global;

// The number behind the nodes of an instruction, the first of which has this one.
fn number_behind(number: u32, instruction: Instruction) -> Result<u32, Memory>
    ensures { IfOk result (λ n. n ≡ number + s.nodes_at instruction) }
{
    match number.checked_add(nodes_at(instruction)) {
        None => Err(Memory),
        Some(next) => Ok(next),
    }
}

/// The number of a function's first place: in the graph of `main` number 0 is the node at which it begins.
pub(crate) fn first_of(main: u32, function: u32) -> u32
    ensures { result ≡ first_number main function }
{
    if function == main { 1 } else { 0 }
}

/// The node behind those of a function's places, the first of which has this number.
pub(crate) fn exit_of(
    code: &[Instruction],
    first: u32,
    entry: usize,
    end: usize,
) -> Result<NodeId, Memory>
    ensures { IfOk result (λ n. n ≡ node_id (last_number code.now first entry end)) }
{
    let mut exit = first;
    for place in entry..end {
        let Some(instruction) = instruction_at(code, place) else {
            return Ok(NodeId(exit));
        };
        exit = number_behind(exit, instruction)?;
    }
    Ok(NodeId(exit))
}

// The numbers of the places of one function, from one on, behind those that are there.
fn number_all(
    code: &[Instruction],
    first: u32,
    entry: usize,
    end: usize,
    numbers: &mut Vec<u32>,
) -> Result<(), Memory>
    ensures { IfOk result (λ u. numbers.new.items ≡ numbers.old.items ++ numbers_from first (code_between code.now entry end)) }
{
    let mut number = first;
    for place in entry..end {
        let Some(instruction) = instruction_at(code, place) else {
            return Ok(());
        };
        numbers.push(number)?;
        number = number_behind(number, instruction)?;
    }
    Ok(())
}

/// The number of each place's node in its function's graph.
pub(crate) fn numbers_of(alloc: Global, code: &Code, main: u32) -> Result<Vec<u32>, Memory>
    ensures { IfOk result (λ r. r.items ≡ numbers_to code.now.instructions.items main (length code.now.instructions.items) (links_of code.now.links.items)) }
{
    let mut numbers = vec![in alloc; 0u32; entry_at(code, 0)]?;
    for number in 0..code.links.len() {
        let Some(link) = link_at(code, number) else {
            return Ok(numbers);
        };
        let (first, end) = (first_of(main, link.function), entry_at(code, number + 1));
        number_all(&code.instructions, first, link.entry, end, &mut numbers)?;
    }
    Ok(numbers)
}

// The function of each place from one on up to another, behind those that are there.
fn own_all(function: u32, entry: usize, end: usize, owners: &mut Vec<u32>) -> Result<(), Memory>
    ensures { IfOk result (λ u. owners.new.items ≡ owners.old.items ++ replicate (end - entry) function) }
{
    for _place in entry..end {
        owners.push(function)?;
    }
    Ok(())
}

/// The function whose code has each place.
pub(crate) fn owners_of(alloc: Global, code: &Code) -> Result<Vec<u32>, Memory>
    ensures { IfOk result (λ r. r.items ≡ owners_to (length code.now.instructions.items) (links_of code.now.links.items)) }
{
    let mut owners = vec![in alloc; 0u32; entry_at(code, 0)]?;
    for number in 0..code.links.len() {
        let Some(link) = link_at(code, number) else {
            return Ok(owners);
        };
        own_all(
            link.function,
            link.entry,
            entry_at(code, number + 1),
            &mut owners,
        )?;
    }
    Ok(owners)
}
