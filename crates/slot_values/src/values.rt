ghost use Rattle.std.specs.Prelude.{◌≡◌, ◌++◌, IfOk};
ghost use Rattle.c_typed.specs.Rules as r;
ghost use Rattle.c_typed.specs.View as v;
ghost use Rattle.slot_values.specs.Seen as seen;

use crate::pieces::{
    add, add_call, close_skip, end_both, end_choice, end_either, next, open, open_either,
};
use crate::scene::{Scene, Usage, count_of, is_needed};
use c_typed::{Target, Value};
use lv_base::{ErrorKind, Memory};
use slot_code::Instruction;
use std::alloc::Global;

fn object_in(target: &Target) -> u32
    ensures { result ≡ r.object_in (v.target target.now) }
{
    match target {
        Target::Object(object) => *object,
        Target::Element(_, object, _) => *object,
    }
}

/// The code of a value, behind the code that is there. It leaves the value in a slot, and uses this slot and those behind it.
///
/// Fails with `Memory` where there is no more memory, or a skip or a slot has no number.
#[cycle(values)]
#[tactic(auto, using(crate::proofs::Views::value_Call, crate::proofs::Views::value_Comma))]
pub fn add_value(
    alloc: Global,
    scene: &Scene<'_>,
    usage: Usage,
    slot: usize,
    value: &Value,
    code: &mut Vec<Instruction>,
) -> Result<(), Memory>
    ensures { IfOk result (λ _. code.new.items ≡ code.old.items ++ seen.value_code scene.now (seen.use_of usage) slot (v.value value.now)) }
{
    match value {
        Value::Constant(_, number) => add(code, Instruction::Constant(slot, *number)),
        Value::Read(_, object) => add(code, Instruction::Read(slot, *object)),
        Value::Element(_, at, object, index) => {
            add_value(alloc, scene, Usage::Used, slot, index, code)?;
            let count = count_of(scene.objects, *object);
            add(code, Instruction::Element(slot, *at, *object, count))
        }
        Value::Whole(object) => add(code, Instruction::Read(slot, *object)),
        Value::Nothing => add(code, Instruction::Constant(slot, 0)),
        Value::Convert(kind, inner) => {
            add_value(alloc, scene, Usage::Used, slot, inner, code)?;
            add(code, Instruction::Convert(slot, *kind))
        }
        Value::Discard(inner) => {
            add_value(alloc, scene, Usage::Dropped, slot, inner, code)?;
            add(code, Instruction::Constant(slot, 0))
        }
        Value::Negate(kind, at, inner) => {
            add_value(alloc, scene, Usage::Used, slot, inner, code)?;
            add(code, Instruction::Negate(slot, *kind, *at))
        }
        Value::Complement(kind, at, inner) => {
            add_value(alloc, scene, Usage::Used, slot, inner, code)?;
            add(code, Instruction::Complement(slot, *kind, *at))
        }
        Value::Not(inner) => {
            add_value(alloc, scene, Usage::Used, slot, inner, code)?;
            add(code, Instruction::Not(slot))
        }
        Value::Binary(op, kind, at, first, second) => {
            add_value(alloc, scene, Usage::Used, slot, first, code)?;
            add_value(alloc, scene, Usage::Used, next(slot)?, second, code)?;
            add(code, Instruction::Binary(slot, *op, *kind, *at))
        }
        Value::Both(first, second) => {
            add_value(alloc, scene, Usage::Used, slot, first, code)?;
            let at = open(code, Instruction::SkipZero(slot, 0))?;
            add_value(alloc, scene, Usage::Used, slot, second, code)?;
            end_both(slot, at, code)
        }
        Value::Either(first, second) => {
            add_value(alloc, scene, Usage::Used, slot, first, code)?;
            let at = open_either(slot, code)?;
            add_value(alloc, scene, Usage::Used, slot, second, code)?;
            end_either(slot, at, code)
        }
        Value::Cond(kind, test, first, second) => {
            add_value(alloc, scene, Usage::Used, slot, test, code)?;
            let skip = open(code, Instruction::SkipZero(slot, 0))?;
            add_value(alloc, scene, Usage::Used, slot, first, code)?;
            close_skip(slot, skip, 1, code)?;
            let jump = open(code, Instruction::Jump(0))?;
            add_value(alloc, scene, Usage::Used, slot, second, code)?;
            end_choice(slot, *kind, jump, code)
        }
        Value::Assign(_, _, target, inner) => {
            add_target(alloc, scene, slot, target, code)?;
            add_value(alloc, scene, Usage::Used, next(slot)?, inner, code)?;
            add(code, Instruction::Store(slot, object_in(target)))
        }
        Value::Update(op, kind, own, at, target, inner) => {
            let object = object_in(target);
            add_target(alloc, scene, slot, target, code)?;
            add(code, Instruction::Load(slot, object))?;
            add_value(alloc, scene, Usage::Used, next(next(slot)?)?, inner, code)?;
            add(
                code,
                Instruction::Update(slot, *op, *kind, *own, *at, object),
            )
        }
        Value::Change(before, by, kind, at, target) => {
            add_target(alloc, scene, slot, target, code)?;
            let object = object_in(target);
            add(
                code,
                Instruction::Change(slot, *before, *by, *kind, *at, object),
            )
        }
        Value::Call(kind, at, _, function, values) => {
            let arguments = values.as_slice();
            add_values(alloc, scene, slot, arguments, code)?;
            let needed = is_needed(usage, *kind);
            add_call(scene, slot, *at, needed, *function, arguments.len(), code)
        }
        Value::Reach(at) => add(code, Instruction::Fail(ErrorKind::Reach, *at)),
        Value::Abort => add(code, Instruction::Stop),
        Value::Draw(kind) => add(code, Instruction::Draw(slot, *kind)),
        Value::Comma(values, last) => {
            add_dropped(alloc, scene, slot, values, code)?;
            add_value(alloc, scene, Usage::Used, slot, last, code)
        }
    }
}

/// The code of a value alone.
///
/// Fails with `Memory` as `add_value` does.
pub fn value_code(
    alloc: Global,
    scene: &Scene<'_>,
    usage: Usage,
    slot: usize,
    value: &Value,
) -> Result<Vec<Instruction>, Memory>
    ensures { IfOk result (λ c. c.items ≡ seen.value_code scene.now (seen.use_of usage) slot (v.value value.now)) }
{
    let mut code = Vec::new(alloc);
    add_value(alloc, scene, usage, slot, value, &mut code)?;
    Ok(code)
}

/// The code of values, behind the code that is there, each into a slot of its own from this one on.
///
/// Fails with `Memory` as `add_value` does.
#[cycle(values)]
pub fn add_values(
    alloc: Global,
    scene: &Scene<'_>,
    slot: usize,
    values: &[Value],
    code: &mut Vec<Instruction>,
) -> Result<(), Memory>
    ensures { IfOk result (λ _. code.new.items ≡ code.old.items ++ seen.values_code scene.now slot (v.values_of values.now)) }
{
    let mut place = slot;
    for value in values {
        add_value(alloc, scene, Usage::Used, place, value, code)?;
        place = next(place)?;
    }
    Ok(())
}

// The code of values that are not used.
#[cycle(values)]
fn add_dropped(
    alloc: Global,
    scene: &Scene<'_>,
    slot: usize,
    values: &[Value],
    code: &mut Vec<Instruction>,
) -> Result<(), Memory>
    ensures { IfOk result (λ _. code.new.items ≡ code.old.items ++ seen.drops_code scene.now slot (v.values_of values.now)) }
{
    for value in values {
        add_value(alloc, scene, Usage::Dropped, slot, value, code)?;
    }
    Ok(())
}

// The index of the element that is assigned to; a scalar is its element 0.
#[cycle(values)]
fn add_target(
    alloc: Global,
    scene: &Scene<'_>,
    slot: usize,
    target: &Target,
    code: &mut Vec<Instruction>,
) -> Result<(), Memory>
    ensures { IfOk result (λ _. code.new.items ≡ code.old.items ++ seen.goal_code scene.now slot (v.target target.now)) }
{
    match target {
        Target::Object(_) => add(code, Instruction::Constant(slot, 0)),
        Target::Element(at, object, index) => {
            add_value(alloc, scene, Usage::Used, slot, index, code)?;
            let count = count_of(scene.objects, *object);
            add(code, Instruction::Locate(slot, *at, *object, count))
        }
    }
}
