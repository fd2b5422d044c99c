ghost use Rattle.std.specs.Prelude.{◌≡◌, ◌++◌, [], ◌∷◌, IfOk};
ghost use Rattle.c_typed.specs.View as v;
ghost use Rattle.slot_code.specs.Statements as c;
ghost use Rattle.slot_values.specs.Seen as values;
ghost use Rattle.slot_statements.specs.Joints as joints;
ghost use Rattle.slot_statements.specs.Seen as seen;

use crate::frames::{Exits, Frame, kind_of};
use crate::sizes::count_in;
use c_typed::Value;
use lv_base::{Memory, Text};
use slot_code::Instruction;
use slot_values::{Usage, add, add_values, after, count_of, distance, next, value_code};
use std::alloc::Global;

/// One instruction.
pub(crate) fn one(alloc: Global, instruction: Instruction) -> Result<Vec<Instruction>, Memory>
    ensures { IfOk result (λ r. r.items ≡ instruction ∷ []) }
{
    let mut code = Vec::new(alloc);
    add(&mut code, instruction)?;
    Ok(code)
}

/// One more instruction, and code behind it.
pub(crate) fn followed(
    code: Vec<Instruction>,
    instruction: Instruction,
    rest: &[Instruction],
) -> Result<Vec<Instruction>, Memory>
    ensures { IfOk result (λ r. r.items ≡ code.items ++ instruction ∷ rest.now) }
{
    let mut all = code;
    add(&mut all, instruction)?;
    all.extend_from_slice(rest)?;
    Ok(all)
}

/// Code behind other code.
pub(crate) fn joined(
    code: Vec<Instruction>,
    rest: &[Instruction],
) -> Result<Vec<Instruction>, Memory>
    ensures { IfOk result (λ r. r.items ≡ code.items ++ rest.now) }
{
    let mut all = code;
    all.extend_from_slice(rest)?;
    Ok(all)
}

/// From this place forward to that one.
pub(crate) fn jump_from(place: usize, goal: usize) -> Result<Instruction, Memory>
    ensures { IfOk result (λ x. x ≡ c.jump_from place goal) }
{
    let behind = next(place)?;
    Ok(Instruction::Jump(distance(goal.saturating_sub(behind))?))
}

/// All elements of an object are drawn.
pub(crate) fn fill_code(
    alloc: Global,
    frame: &Frame<'_>,
    object: u32,
) -> Result<Vec<Instruction>, Memory>
    ensures { IfOk result (λ r. r.items ≡ joints.fill_code frame.now object) }
{
    let kind = kind_of(frame.scene.objects, object);
    let count = count_of(frame.scene.objects, object);
    one(alloc, Instruction::Fill(object, kind, count))
}

/// An object gets its initial values.
#[tactic(auto, using(crate::proofs::Views::number_is))]
pub(crate) fn begin_code(
    alloc: Global,
    frame: &Frame<'_>,
    object: u32,
    list: &[Value],
) -> Result<Vec<Instruction>, Memory>
    ensures { IfOk result (λ r. r.items ≡ joints.begin_code frame.now object (v.values_of list.now)) }
{
    let mut code = Vec::new(alloc);
    add_values(alloc, &frame.scene, frame.slot, list, &mut code)?;
    let count = count_of(frame.scene.objects, object);
    add(
        &mut code,
        Instruction::Begin(frame.slot, object, count, list.len()),
    )?;
    Ok(code)
}

/// A value that is used.
pub(crate) fn used_code(
    alloc: Global,
    frame: &Frame<'_>,
    value: &Value,
) -> Result<Vec<Instruction>, Memory>
    ensures { IfOk result (λ r. r.items ≡ joints.used_code frame.now (v.value value.now)) }
{
    value_code(alloc, &frame.scene, Usage::Used, frame.slot, value)
}

/// A condition that may be left out.
pub(crate) fn test_code(
    alloc: Global,
    frame: &Frame<'_>,
    test: &Option<Box<Value>>,
) -> Result<Vec<Instruction>, Memory>
    ensures { IfOk result (λ r. r.items ≡ values.test_code frame.now.scene frame.now.slot (v.option_value test.now)) }
{
    match test {
        None => one(alloc, Instruction::Constant(frame.slot, 1)),
        Some(value) => value_code(alloc, &frame.scene, Usage::Used, frame.slot, value),
    }
}

/// A part that may be left out.
pub(crate) fn effect_code(
    alloc: Global,
    frame: &Frame<'_>,
    part: &Option<Box<Value>>,
) -> Result<Vec<Instruction>, Memory>
    ensures { IfOk result (λ r. r.items ≡ values.effect_code frame.now.scene frame.now.slot (v.option_value part.now)) }
{
    match part {
        None => Ok(Vec::new(alloc)),
        Some(value) => value_code(alloc, &frame.scene, Usage::Dropped, frame.slot, value),
    }
}

/// The statement of an `if` behind its condition. It has so many instructions.
pub(crate) fn if_code(
    slot: usize,
    test: Vec<Instruction>,
    size: usize,
    inner: &[Instruction],
) -> Result<Vec<Instruction>, Memory>
    ensures { IfOk result (λ r. r.items ≡ joints.if_code slot test.items size inner.now) }
{
    followed(test, Instruction::SkipZero(slot, distance(size)?), inner)
}

/// The two statements of an `if` behind its condition. They have so many instructions.
pub(crate) fn else_code(
    slot: usize,
    test: Vec<Instruction>,
    first: &[Instruction],
    size: usize,
    second: &[Instruction],
    rest: usize,
) -> Result<Vec<Instruction>, Memory>
    ensures { IfOk result (λ r. r.items ≡ joints.else_code slot test.items first.now size second.now rest) }
{
    let skip = distance(after(size, 1)?)?;
    let front = followed(test, Instruction::SkipZero(slot, skip), first)?;
    followed(front, Instruction::Jump(distance(rest)?), second)
}

/// What begins a loop, and its keyword, the place of its condition and the condition's slot.
#[derive(Clone, Copy)]
pub(crate) struct Head {
    pub first: Instruction,
    pub at: u32,
    pub place: usize,
    pub slot: usize,
}

/// A loop behind other code.
pub(crate) fn loop_code(
    start: Vec<Instruction>,
    head: Head,
    test: &[Instruction],
    body: &[Instruction],
    third: &[Instruction],
) -> Result<Vec<Instruction>, Memory>
    ensures { IfOk result (λ r. r.items ≡ joints.loop_code start.items head test.now body.now third.now) }
{
    let skip = distance(after(after(body.len(), third.len())?, 1)?)?;
    let front = followed(start, head.first, test)?;
    let middle = followed(front, Instruction::SkipZero(head.slot, skip), body)?;
    let mut code = joined(middle, third)?;
    add(&mut code, Instruction::Turn(head.at, head.place))?;
    Ok(code)
}

/// A `while` at this place.
pub(crate) fn while_code(
    alloc: Global,
    at: u32,
    place: usize,
    slot: usize,
    test: &[Instruction],
    body: &[Instruction],
) -> Result<Vec<Instruction>, Memory>
    ensures { IfOk result (λ r. r.items ≡ joints.while_code at place slot test.now body.now) }
{
    let place = next(place)?;
    let first = Instruction::Turn(at, place);
    let head = Head {
        first,
        at,
        place,
        slot,
    };
    loop_code(Vec::new(alloc), head, test, body, &[])
}

/// A `do` at this place, which begins behind its condition.
pub(crate) fn do_code(
    alloc: Global,
    at: u32,
    place: usize,
    slot: usize,
    test: &[Instruction],
    body: &[Instruction],
) -> Result<Vec<Instruction>, Memory>
    ensures { IfOk result (λ r. r.items ≡ joints.do_code at place slot test.now body.now) }
{
    let place = next(place)?;
    let first = Instruction::Jump(distance(after(test.len(), 1)?)?);
    let head = Head {
        first,
        at,
        place,
        slot,
    };
    loop_code(Vec::new(alloc), head, test, body, &[])
}

/// The body of a switch behind the tries of its cases, and the jump to its `default` or past it.
pub(crate) fn switch_code(
    value: Vec<Instruction>,
    cases: &[Instruction],
    skip: usize,
    body: &[Instruction],
) -> Result<Vec<Instruction>, Memory>
    ensures { IfOk result (λ r. r.items ≡ joints.switch_code value.items cases.now skip body.now) }
{
    let front = joined(value, cases)?;
    followed(front, Instruction::Jump(distance(skip)?), body)
}

/// How far a jump goes: to the other place where there is one.
pub(crate) fn or_place(place: usize, other: Option<usize>) -> usize
    ensures { result ≡ c.or_place place other }
{
    match other {
        None => place,
        Some(other) => other,
    }
}

fn label_place(exits: &Exits<'_, '_>, name: &Text) -> Result<usize, Memory>
    ensures { IfOk result (λ n. n ≡ seen.label_place exits.now name.now) }
{
    match exits.labels.find(name) {
        None => Ok(exits.end),
        Some(place) => after(exits.start, place),
    }
}

/// A jump to a label, which takes a turn.
pub(crate) fn goto_code(
    alloc: Global,
    exits: &Exits<'_, '_>,
    at: u32,
    name: &Text,
) -> Result<Vec<Instruction>, Memory>
    ensures { IfOk result (λ r. r.items ≡ joints.goto_code exits.now at name.now) }
{
    let place = label_place(exits, name)?;
    one(alloc, Instruction::Turn(at, place))
}

/// A jump forward.
pub(crate) fn jump_code(
    alloc: Global,
    place: usize,
    goal: usize,
) -> Result<Vec<Instruction>, Memory>
    ensures { IfOk result (λ r. r.items ≡ c.jump_from place goal ∷ []) }
{
    one(alloc, jump_from(place, goal)?)
}

// Nothing is returned; the value is evaluated.
fn dropped_return(
    value: Vec<Instruction>,
    place: usize,
    end: usize,
) -> Result<Vec<Instruction>, Memory>
    ensures { IfOk result (λ r. r.items ≡ joints.dropped_return place end value.items) }
{
    let behind = after(place, count_in(&value))?;
    let mut code = value;
    add(&mut code, jump_from(behind, end)?)?;
    Ok(code)
}

fn used_return(
    slot: usize,
    value: Vec<Instruction>,
    place: usize,
    end: usize,
) -> Result<Vec<Instruction>, Memory>
    ensures { IfOk result (λ r. r.items ≡ joints.used_return slot place end value.items) }
{
    let behind = next(after(place, count_in(&value))?)?;
    let mut code = value;
    add(&mut code, Instruction::Constant(next(slot)?, 1))?;
    add(&mut code, jump_from(behind, next(end)?)?)?;
    Ok(code)
}

/// A return, to the place behind the function's body, or, with a value, to the one behind that.
pub(crate) fn return_code(
    alloc: Global,
    frame: &Frame<'_>,
    place: usize,
    end: usize,
    value: &Option<Box<Value>>,
) -> Result<Vec<Instruction>, Memory>
    ensures { IfOk result (λ r. r.items ≡ joints.return_code frame.now place end (v.option_value value.now)) }
{
    match value {
        None => one(alloc, jump_from(place, end)?),
        Some(value) => match frame.result {
            None => {
                let code = value_code(alloc, &frame.scene, Usage::Dropped, frame.slot, value)?;
                dropped_return(code, place, end)
            }
            Some(_) => {
                let code = value_code(alloc, &frame.scene, Usage::Used, frame.slot, value)?;
                used_return(frame.slot, code, place, end)
            }
        },
    }
}
