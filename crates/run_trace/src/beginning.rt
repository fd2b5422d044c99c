ghost use Rattle.std.specs.Prelude.{◌≡◌, IfOk, map, pos, option_map, replicate};
ghost use Rattle.c_typed.specs.View as v;
ghost use Rattle.c_typed.specs.Run as run;
ghost use Rattle.c_typed.specs.Parts.{tree_of};
ghost use Rattle.slot_code.specs.Machine as flat;
ghost use Rattle.slot_values.specs.Seen as values;
ghost use Rattle.slot_compiler.specs.Seen as seen;
ghost use Rattle.slot_board.specs.Seen.{state};
ghost use Rattle.slot_board.specs.Boards.{state_of};

use c_typed::{Function, Object, Owner, Typed};
use lv_base::Memory;
use slot_board::{Board, Row};
use slot_compiler::{Code, main_number};
use slot_values::{Link, link_of};
use std::alloc::Global;

// A function without a number has no code that could be called.
fn number_of(number: usize) -> Result<u32, Memory>
    ensures { IfOk result (λ n. n ≡ number) }
{
    match u32::try_from(number) {
        Err(_) => Err(Memory),
        Ok(number) => Ok(number),
    }
}

/// Where the code of `main` stands; none where no function is `main`, or its code doesn't stand there.
///
/// Fails with `Memory` where its number is none of a call.
pub(crate) fn main_link(functions: &[Function], code: &Code) -> Result<Option<Link>, Memory>
    ensures { IfOk result (λ l. option_map values.link_of l ≡ flat.main_link (run.main_number (map v.function_of functions.now)) (seen.code_of code.now)) }
{
    match main_number(functions) {
        None => Ok(None),
        Some(number) => Ok(link_of(&code.links, number_of(number)?)),
    }
}

// The values of an object before a run. A local one has a 0 for each element, a scalar being one.
fn start_row(alloc: Global, object: &Object) -> Result<Row, Memory>
    ensures { IfOk result (λ row. row ≡ run.start_values (v.object_of object.now)) }
{
    match object.owner {
        Owner::Static => Ok(Row::new(object.first.to_vec(alloc)?)),
        Owner::Local(_) => {
            let size = if object.length == 0 {
                1
            } else {
                object.length as usize
            };
            Ok(Row::new(vec![in alloc; 0i128; size]?))
        }
    }
}

fn start_rows(alloc: Global, objects: &[Object]) -> Result<Vec<Row>, Memory>
    ensures { IfOk result (λ rows. rows.items ≡ run.start_store (map v.object_of objects.now)) }
{
    let mut rows = Vec::new(alloc);
    let mut index = 0usize;
    'objects: while index < objects.len() {
        let row = start_row(alloc, &objects[index])?;
        rows.push(row)?;
        index += 1;
    }
    Ok(rows)
}

/// A board with so many slots, on which a run begins: each object has its first values, and no input is drawn.
///
/// Fails with `Memory`.
pub(crate) fn new_board(
    alloc: Global,
    typed: &Typed,
    slots: usize,
    turns: u64,
) -> Result<Board, Memory>
    ensures slots { IfOk result (λ b. b.slots.items ≡ replicate slots (pos 0)) }
    ensures state { IfOk result (λ b. state_of b ≡ state (run.start_store (tree_of typed.now).objects) 0 turns) }
{
    let store = start_rows(alloc, typed.objects())?;
    let slots = vec![in alloc; 0i128; slots]?;
    Ok(Board {
        slots,
        store,
        taken: 0,
        turns,
    })
}
