//! Which slots instructions read.
ghost use Rattle.std.specs.Prelude.{◌≡◌, ◌+◌, IfOk};
ghost use Rattle.code_layout.specs.Reading as of;

use crate::layout::is_array;
use c_typed::Object;
use lv_base::Memory;
use slot_code::Instruction;

/// Slots that are read: so many, from the first on.
#[derive(Clone, Copy)]
pub(crate) struct Span {
    pub(crate) first: usize,
    pub(crate) count: usize,
}

/// The slot so many behind another.
///
/// Fails with `Memory` where it has no number.
pub fn behind(slot: usize, count: usize) -> Result<usize, Memory>
    ensures { IfOk result (λ n. n ≡ slot + count) }
{
    match slot.checked_add(count) {
        None => Err(Memory),
        Some(number) => Ok(number),
    }
}

fn slots_at(first: usize, count: usize) -> Span
    ensures { result ≡ of.span first count }
{
    Span { first, count }
}

// So many slots, the first of which stands so many behind a slot.
fn slots_behind(slot: usize, steps: usize, count: usize) -> Result<Span, Memory>
    ensures { IfOk result (λ s. s ≡ of.span (slot + steps) count) }
{
    let first = behind(slot, steps)?;
    Ok(slots_at(first, count))
}

// The index of an element, and so many slots behind it. Of a scalar there is no index.
fn on_element(objects: &[Object], object: u32, slot: usize, count: usize) -> Result<Span, Memory>
    ensures { IfOk result (λ s. s ≡ of.on_element objects.now object slot count) }
{
    if is_array(objects, object) {
        let all = behind(count, 1)?;
        Ok(slots_at(slot, all))
    } else {
        slots_behind(slot, 1, count)
    }
}

/// The slots that an instruction reads; the place to return to is none of them.
pub(crate) fn reads(objects: &[Object], instruction: Instruction) -> Result<Span, Memory>
    ensures { IfOk result (λ s. s ≡ of.reads objects.now instruction) }
{
    match instruction {
        Instruction::Constant(_, _) => Ok(slots_at(0, 0)),
        Instruction::Read(_, _) => Ok(slots_at(0, 0)),
        Instruction::Element(slot, _, _, _) => Ok(slots_at(slot, 1)),
        Instruction::Locate(slot, _, _, _) => Ok(slots_at(slot, 1)),
        Instruction::Load(slot, object) => on_element(objects, object, slot, 0),
        Instruction::Store(slot, object) => on_element(objects, object, slot, 1),
        Instruction::Convert(slot, _) => Ok(slots_at(slot, 1)),
        Instruction::Negate(slot, _, _) => Ok(slots_at(slot, 1)),
        Instruction::Complement(slot, _, _) => Ok(slots_at(slot, 1)),
        Instruction::Not(slot) => Ok(slots_at(slot, 1)),
        Instruction::Truth(slot) => Ok(slots_at(slot, 1)),
        Instruction::Binary(slot, _, _, _) => Ok(slots_at(slot, 2)),
        Instruction::Update(slot, _, _, _, _, object) => on_element(objects, object, slot, 2),
        Instruction::Change(slot, _, _, _, _, object) => on_element(objects, object, slot, 0),
        Instruction::Draw(_, _) => Ok(slots_at(0, 0)),
        Instruction::Fill(_, _, _) => Ok(slots_at(0, 0)),
        Instruction::Begin(slot, _, _, values) => Ok(slots_at(slot, values)),
        Instruction::Bind(slot, _) => Ok(slots_at(slot, 1)),
        Instruction::Jump(_) => Ok(slots_at(0, 0)),
        Instruction::Turn(_, _) => Ok(slots_at(0, 0)),
        Instruction::SkipZero(slot, _) => Ok(slots_at(slot, 1)),
        Instruction::SkipEqual(slot, _, _) => Ok(slots_at(slot, 1)),
        Instruction::Call(_, _, _) => Ok(slots_at(0, 0)),
        Instruction::Return(_) => Ok(slots_at(0, 0)),
        Instruction::Take(_, _, from, _) => slots_behind(from, 1, 2),
        Instruction::Fail(_, _) => Ok(slots_at(0, 0)),
        Instruction::Stop => Ok(slots_at(0, 0)),
    }
}
