ghost use Rattle.std.specs.Prelude.{◌≡◌, [], ◌∷◌, IfOk, slice_index_or};
ghost use Rattle.event_log.specs.Noted.{noted};
ghost use Rattle.run_events.specs.Told as told;

use crate::operands::{Operands, element_in, value_in};
use event_log::{Event, Log};
use lv_base::Memory;
use slot_board::{Board, Row};
use slot_code::Instruction;

// Notes each value of an object.
fn tell_row(log: &mut Log, place: usize, row: &Row) -> Result<(), Memory>
    ensures { IfOk result (λ _. log.new ≡ told.all_noted log.old (told.row_events place 0 row.now)) }
{
    let mut index = 0usize;
    'elements: while index < row.size() {
        let element = index as u128;
        log.note(Event {
            place,
            element,
            value: row.value_at(element),
        })?;
        index += 1;
    }
    Ok(())
}

// Notes each value of the object of this number, if there is one.
fn tell_object(log: &mut Log, place: usize, store: &[Row], object: u32) -> Result<(), Memory>
    ensures { IfOk result (λ _. log.new ≡ told.all_noted log.old (told.row_events place 0 (slice_index_or store.now object []))) }
{
    match store.get(object as usize) {
        Some(row) => tell_row(log, place, row),
        None => Ok(()),
    }
}

fn tell_written(
    log: &mut Log,
    place: usize,
    operands: Operands,
    store: &[Row],
    object: u32,
) -> Result<(), Memory>
    ensures { IfOk result (λ _. log.new ≡ told.all_noted log.old (told.written place operands store.now object)) }
{
    let element = operands.first.unsigned_abs();
    log.note(Event {
        place,
        element,
        value: element_in(store, object, element),
    })
}

fn tell_value(log: &mut Log, place: usize, element: u128, value: i128) -> Result<(), Memory>
    ensures { IfOk result (λ _. log.new ≡ told.all_noted log.old (told.event place element value ∷ [])) }
{
    log.note(Event {
        place,
        element,
        value,
    })
}

fn tell_matched(log: &mut Log, place: usize, found: i128, value: i128) -> Result<(), Memory>
    ensures { IfOk result (λ _. log.new ≡ told.all_noted log.old (told.matched place found value)) }
{
    if found <= value && value <= found {
        return tell_value(log, place, 0, value);
    }
    Ok(())
}

fn presence(operands: Operands) -> u128
    ensures { result ≡ told.presence operands }
{
    if operands.third == 0 { 0 } else { 1 }
}

/// Notes what an instruction did, which had these operands, once it is done.
///
/// Fails with `Memory`.
pub(crate) fn tell(
    log: &mut Log,
    instruction: Instruction,
    place: usize,
    operands: Operands,
    board: &Board,
) -> Result<(), Memory>
    ensures { IfOk result (λ _. log.new ≡ told.all_noted log.old (told.events_of instruction place operands board.now.slots.items board.now.store.items)) }
{
    match instruction {
        Instruction::Draw(slot, _) => {
            let value = value_in(&board.slots, slot);
            tell_value(log, place, 0, value)
        }
        Instruction::Fill(object, _, _) => tell_object(log, place, &board.store, object),
        Instruction::Begin(_, object, _, _) => tell_object(log, place, &board.store, object),
        Instruction::Bind(_, _) => tell_value(log, place, 0, operands.first),
        Instruction::Store(_, object) => {
            tell_written(log, place, operands, &board.store, object)
        }
        Instruction::Update(_, _, _, _, _, object) => {
            tell_written(log, place, operands, &board.store, object)
        }
        Instruction::Change(_, _, _, _, _, object) => {
            tell_written(log, place, operands, &board.store, object)
        }
        Instruction::SkipZero(_, _) => tell_value(log, place, 0, operands.first),
        Instruction::SkipEqual(_, value, _) => tell_matched(log, place, operands.first, value),
        Instruction::Call(_, _, _) => tell_value(log, place, 0, 0),
        Instruction::Take(_, _, _, _) => {
            tell_value(log, place, presence(operands), operands.second)
        }
        _ => Ok(()),
    }
}
