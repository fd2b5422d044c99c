//! Where instructions go on, and which slot they fill. That both lie within their function is tried at each place, so that no proof has
//! to follow how code is made.

ghost use Rattle.std.specs.Prelude.{◌≡◌, ◌==◌, ◌&&◌, ◌+◌, IfOk};
ghost use Rattle.cfg_build.specs.Keeping as of;

use crate::placing::Range;
use code_layout::behind;
use lv_base::Memory;
use slot_code::Instruction;

// Whether the place is one of the function's code.
fn is_inside(range: &Range, place: usize) -> bool
    ensures { result ≡ of.is_inside range.now place }
{
    range.entry <= place && place < range.end
}

// Whether both ways of a branch stay.
fn both_inside(range: &Range, next: usize, skip: u32) -> Result<bool, Memory>
    ensures { IfOk result (λ b. b ≡ (of.is_inside range.now next && of.is_inside range.now (next + skip))) }
{
    let far = behind(next, skip as usize)?;
    Ok(is_inside(range, next) && is_inside(range, far))
}

fn returns(range: &Range, next: usize, slot: usize) -> bool
    ensures { result ≡ ((slot == range.now.slot) && (next == range.now.end)) }
{
    slot == range.slot && next == range.end
}

fn stays(range: &Range, place: usize, instruction: Instruction) -> Result<bool, Memory>
    ensures { IfOk result (λ b. b ≡ of.stays range.now place instruction) }
{
    let next = behind(place, 1)?;
    match instruction {
        Instruction::Fail(_, _) | Instruction::Stop => Ok(true),
        Instruction::Return(slot) => Ok(returns(range, next, slot)),
        Instruction::Jump(skip) => Ok(is_inside(range, behind(next, skip as usize)?)),
        Instruction::Turn(_, goal) => Ok(is_inside(range, goal)),
        Instruction::SkipZero(_, skip) => both_inside(range, next, skip),
        Instruction::SkipEqual(_, _, skip) => both_inside(range, next, skip),
        _ => Ok(is_inside(range, next)),
    }
}

fn filled_by(instruction: Instruction) -> Result<Option<usize>, Memory>
    ensures { IfOk result (λ s. s ≡ of.filled_by instruction) }
{
    Ok(match instruction {
        Instruction::Load(slot, _) => Some(behind(slot, 1)?),
        Instruction::Constant(slot, _)
        | Instruction::Read(slot, _)
        | Instruction::Element(slot, _, _, _)
        | Instruction::Locate(slot, _, _, _)
        | Instruction::Store(slot, _)
        | Instruction::Convert(slot, _)
        | Instruction::Negate(slot, _, _)
        | Instruction::Complement(slot, _, _)
        | Instruction::Not(slot)
        | Instruction::Truth(slot)
        | Instruction::Binary(slot, _, _, _)
        | Instruction::Update(slot, _, _, _, _, _)
        | Instruction::Change(slot, _, _, _, _, _)
        | Instruction::Draw(slot, _)
        | Instruction::Take(slot, _, _, _) => Some(slot),
        _ => None,
    })
}

fn is_own(range: &Range, slot: Option<usize>) -> bool
    ensures { result ≡ of.is_own range.now slot }
{
    match slot {
        None => true,
        Some(slot) => range.slot < slot && slot < range.bound,
    }
}

/// Whether the instruction at a place goes on in its function's code, and fills a slot of its function.
pub(crate) fn keeps(range: &Range, place: usize, instruction: Instruction) -> Result<bool, Memory>
    ensures { IfOk result (λ b. b ≡ of.keeps range.now place instruction) }
{
    Ok(stays(range, place, instruction)? && is_own(range, filled_by(instruction)?))
}
