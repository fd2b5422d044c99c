ghost use Rattle.std.specs.Prelude.{◌≡◌, max, suc, IfOk};
ghost use Rattle.slot_code.specs.Slots as s;

use lv_base::Memory;
use slot_code::Instruction;
use slot_values::{after, next};

/// The larger number.
pub(crate) fn larger(first: usize, second: usize) -> usize
    ensures { result ≡ max first second }
{
    if first < second { second } else { first }
}

// A call's answer lies behind the place to return to, and is taken into a slot.
fn taking(slot: usize, from: usize) -> Result<usize, Memory>
    ensures { IfOk result (λ n. n ≡ max (suc slot) (suc (suc (suc from)))) }
{
    let own = next(slot)?;
    let answer = next(next(next(from)?)?)?;
    Ok(larger(own, answer))
}

// Slots below this number hold all that an instruction works on.
fn slots_of(instruction: Instruction) -> Result<usize, Memory>
    ensures { IfOk result (λ n. n ≡ s.slots_of instruction) }
{
    match instruction {
        Instruction::Constant(slot, _) => next(slot),
        Instruction::Read(slot, _) => next(slot),
        Instruction::Element(slot, _, _, _) => next(slot),
        Instruction::Locate(slot, _, _, _) => next(slot),
        Instruction::Load(slot, _) => next(next(slot)?),
        Instruction::Store(slot, _) => next(next(slot)?),
        Instruction::Convert(slot, _) => next(slot),
        Instruction::Negate(slot, _, _) => next(slot),
        Instruction::Complement(slot, _, _) => next(slot),
        Instruction::Not(slot) => next(slot),
        Instruction::Truth(slot) => next(slot),
        Instruction::Binary(slot, _, _, _) => next(next(slot)?),
        Instruction::Update(slot, _, _, _, _, _) => next(next(next(slot)?)?),
        Instruction::Change(slot, _, _, _, _, _) => next(slot),
        Instruction::Draw(slot, _) => next(slot),
        Instruction::Fill(_, _, _) => Ok(0),
        Instruction::Begin(slot, _, _, values) => after(slot, values),
        Instruction::Bind(slot, _) => next(slot),
        Instruction::Jump(_) => Ok(0),
        Instruction::SkipZero(slot, _) => next(slot),
        Instruction::SkipEqual(slot, _, _) => next(slot),
        Instruction::Turn(_, _) => Ok(0),
        Instruction::Call(_, _, slot) => next(slot),
        Instruction::Take(slot, _, from, _) => taking(slot, from),
        Instruction::Return(slot) => next(slot),
        Instruction::Fail(_, _) => Ok(0),
        Instruction::Stop => Ok(0),
    }
}

/// How many slots these instructions need.
///
/// Fails with `Memory` where no machine has so many.
pub fn slots_in(code: &[Instruction]) -> Result<usize, Memory>
    ensures { IfOk result (λ n. n ≡ s.slots_in code.now) }
{
    let mut most = 0;
    for instruction in code {
        most = larger(most, slots_of(*instruction)?);
    }
    Ok(most)
}
