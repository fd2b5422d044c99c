ghost use Rattle.std.specs.Prelude.{◌≡◌, ◌≤◌, length};
ghost use Rattle.slot_code.specs.Slots.{get, slots_of};
ghost use Rattle.run_events.specs.Told as told;

use slot_board::{Board, Row};
use slot_code::Instruction;

/// What stands in the slot of an instruction and in the two behind it, before it is done: its operands, from the first on. Of a
/// call that gave something they are the place to return to, what was returned, and whether something was. Of `++` and `--` the
/// second is what the element held, whose index is the first.
#[derive(Clone, Copy, Debug, PartialEq, Eq)]
pub struct Operands {
    pub first: i128,
    pub second: i128,
    pub third: i128,
}

/// The value of a slot, and 0 where there is none.
pub(crate) fn value_in(slots: &[i128], slot: usize) -> i128
    ensures { result ≡ get slots.now slot }
{
    match slots.get(slot) {
        Some(value) => *value,
        None => 0,
    }
}

// The values in three slots from this one on.
fn values_from(slots: &[i128], slot: usize) -> Operands
    requires { slot ≤ length slots.now }
    ensures { result ≡ told.values_from slots.now slot }
{
    Operands {
        first: value_in(slots, slot),
        second: value_in(slots, slot + 1),
        third: value_in(slots, slot + 2),
    }
}

// The slot in which the operands of an instruction begin.
fn operand_slot(instruction: Instruction) -> usize
    ensures slot { result ≡ told.operand_slot instruction }
    ensures low { result ≤ slots_of instruction }
{
    match instruction {
        Instruction::Constant(slot, _) => slot,
        Instruction::Read(slot, _) => slot,
        Instruction::Element(slot, _, _, _) => slot,
        Instruction::Locate(slot, _, _, _) => slot,
        Instruction::Load(slot, _) => slot,
        Instruction::Store(slot, _) => slot,
        Instruction::Convert(slot, _) => slot,
        Instruction::Negate(slot, _, _) => slot,
        Instruction::Complement(slot, _, _) => slot,
        Instruction::Not(slot) => slot,
        Instruction::Truth(slot) => slot,
        Instruction::Binary(slot, _, _, _) => slot,
        Instruction::Update(slot, _, _, _, _, _) => slot,
        Instruction::Change(slot, _, _, _, _, _) => slot,
        Instruction::Draw(slot, _) => slot,
        Instruction::Fill(_, _, _) => 0,
        Instruction::Begin(slot, _, _, _) => slot,
        Instruction::Bind(slot, _) => slot,
        Instruction::Jump(_) => 0,
        Instruction::SkipZero(slot, _) => slot,
        Instruction::SkipEqual(slot, _, _) => slot,
        Instruction::Turn(_, _) => 0,
        Instruction::Call(_, _, slot) => slot,
        Instruction::Take(_, _, from, _) => from,
        Instruction::Return(slot) => slot,
        Instruction::Fail(_, _) => 0,
        Instruction::Stop => 0,
    }
}

/// The value of an element, and 0 where there is none.
pub(crate) fn element_in(store: &[Row], object: u32, element: u128) -> i128
    ensures { result ≡ told.element_in store.now object element }
{
    match store.get(object as usize) {
        Some(row) => row.value_at(element),
        None => 0,
    }
}

// The object with an element that `++` or `--` changes.
fn changed_object(instruction: Instruction) -> Option<u32>
    ensures { result ≡ told.changed_object instruction }
{
    match instruction {
        Instruction::Change(_, _, _, _, _, object) => Some(object),
        _ => None,
    }
}

// In the second place stands what such an element held before.
fn with_held(operands: Operands, store: &[Row], object: Option<u32>) -> Operands
    ensures { result ≡ told.with_held operands store.now object }
{
    match object {
        None => operands,
        Some(object) => Operands {
            first: operands.first,
            second: element_in(store, object, operands.first.unsigned_abs()),
            third: operands.third,
        },
    }
}

/// The operands of an instruction, before it is done on this board.
pub(crate) fn operands_of(board: &Board, instruction: Instruction) -> Operands
    requires { slots_of instruction ≤ length board.now.slots.items }
    ensures { result ≡ told.operands_of board.now.slots.items board.now.store.items instruction }
{
    let values = values_from(&board.slots, operand_slot(instruction));
    with_held(values, &board.store, changed_object(instruction))
}
