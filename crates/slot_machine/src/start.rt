ghost use Rattle.std.specs.Prelude.{◌≡◌, ◌<◌, IfOk, length, map, pos};
ghost use Rattle.c_typed.specs.View.{object_of};
ghost use Rattle.c_typed.specs.Run as typed;
ghost use Rattle.slot_code.specs.Slots.{put};
ghost use Rattle.slot_board.specs.Seen.{state};
ghost use Rattle.slot_board.specs.Boards.{state_of};

use c_typed::{Object, Owner};
use lv_base::Memory;
use slot_board::{Board, Row, put_value};
use std::alloc::Global;

// How many elements an object has, a scalar being one.
fn size(object: &Object) -> usize
    ensures { result ≡ typed.size_of (Some (object_of object.now)) }
{
    if object.length == 0 {
        return 1;
    }
    object.length as usize
}

// The values of an object before a run.
fn start_row(alloc: Global, object: &Object) -> Result<Row, Memory>
    ensures { IfOk result (λ row. row ≡ typed.start_values (object_of object.now)) }
{
    match object.owner {
        Owner::Static => {
            let values = object.first.to_vec(alloc)?;
            Ok(Row::new(values))
        }
        Owner::Local(_) => {
            let values = vec![in alloc; 0i128; size(object)]?;
            Ok(Row::new(values))
        }
    }
}

/// The values of all objects before a run.
pub fn start_rows(alloc: Global, objects: &[Object]) -> Result<Vec<Row>, Memory>
    ensures { IfOk result (λ rows. rows.items ≡ typed.start_store (map object_of objects.now)) }
{
    let mut rows = Vec::new(alloc);
    let mut index = 0usize;
    'objects: while index < objects.len() {
        let row = start_row(alloc, &objects[index])?;
        rows.push(row)?;
        index += 1;
    }
    Ok(rows)
}

// Each object gets the values that it has in another list of as many.
fn reset(store: &mut [Row], first: &[Row])
    requires { map length store.old ≡ map length first.now }
    ensures { store.new ≡ first.now }
{
    let mut index = 0usize;
    'objects: while index < store.len() {
        let row = &mut store[index];
        row.copy_from(&first[index]);
        index += 1;
    }
}

/// Begins a run with these turns: each object has its first values, no input is drawn, and a slot holds the place to return
/// to.
pub fn begin(board: &mut Board, first: &[Row], slot: usize, end: usize, turns: u64)
    requires sizes { map length board.old.store.items ≡ map length first.now }
    requires slot { slot < length board.old.slots.items }
    ensures slots { board.new.slots.items ≡ put board.old.slots.items slot (pos end) }
    ensures state { state_of board.new ≡ state first.now 0 turns }
{
    reset(&mut board.store, first);
    put_value(&mut board.slots, slot, end as i128);
    board.taken = 0;
    board.turns = turns;
}
