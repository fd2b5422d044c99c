ghost use Rattle.std.specs.Prelude.{◌≡◌, ◌+◌, IfOk};
ghost use Rattle.c_run.specs.Operators as o;
ghost use Rattle.c_typed.specs.View as v;
ghost use Rattle.slot_code.specs.Statements as c;
ghost use Rattle.slot_statements.specs.Aiming as aiming;
ghost use Rattle.slot_statements.specs.Joints as joints;
ghost use Rattle.slot_statements.specs.Seen as seen;

use crate::cases::cases_code;
use crate::frames::{Aims, Frame, beyond, loop_aims, switch_aims};
use crate::joints::{
    Head, do_code, effect_code, else_code, if_code, loop_code, or_place, switch_code, test_code,
    used_code, while_code,
};
use crate::marks::default_in;
use crate::sizes::{effect_size, measured, size_in, size_of, switch_head, test_size, value_size};
use c_typed::{Step, Value};
use lv_base::{Kind, Memory};
use slot_code::Instruction;
use slot_values::{Usage, after, next};
use std::alloc::Global;

/// Where the first statement of an `if` begins.
pub(crate) fn if_aims(
    alloc: Global,
    frame: &Frame<'_>,
    aims: Aims,
    test: &Value,
) -> Result<Aims, Memory>
    ensures { IfOk result (λ a. a ≡ aiming.beyond aims (seen.value_size frame.now o.used (v.value test.now) + 1)) }
{
    let head = after(value_size(alloc, frame, Usage::Used, test)?, 1)?;
    beyond(aims, head)
}

/// Where the second statement of an `if` begins.
pub(crate) fn else_aims(
    alloc: Global,
    frame: &Frame<'_>,
    aims: Aims,
    test: &Value,
    first: &Step,
) -> Result<Aims, Memory>
    ensures { IfOk result (λ a. a ≡ aiming.beyond aims (seen.value_size frame.now o.used (v.value test.now) + 1 + (seen.measured frame.now (v.step first.now)).size + 1)) }
{
    let head = after(value_size(alloc, frame, Usage::Used, test)?, 1)?;
    let size = size_of(alloc, frame, first)?;
    let middle = after(after(head, size)?, 1)?;
    beyond(aims, middle)
}

/// An `if` with a statement, by the statement's code.
pub(crate) fn if_step(
    alloc: Global,
    frame: &Frame<'_>,
    test: &Value,
    inner: &Step,
    code: Vec<Instruction>,
) -> Result<Vec<Instruction>, Memory>
    ensures { IfOk result (λ r. r.items ≡ joints.if_code frame.now.slot (joints.used_code frame.now (v.value test.now)) (seen.measured frame.now (v.step inner.now)).size code.items) }
{
    let test = used_code(alloc, frame, test)?;
    let size = size_of(alloc, frame, inner)?;
    if_code(frame.slot, test, size, &code)
}

/// An `if` with two statements, by their code.
pub(crate) fn else_step(
    alloc: Global,
    frame: &Frame<'_>,
    test: &Value,
    first: &Step,
    code: Vec<Instruction>,
    second: &Step,
    other: Vec<Instruction>,
) -> Result<Vec<Instruction>, Memory>
    ensures { IfOk result (λ r. r.items ≡ joints.else_code frame.now.slot (joints.used_code frame.now (v.value test.now)) code.items (seen.measured frame.now (v.step first.now)).size other.items (seen.measured frame.now (v.step second.now)).size) }
{
    let test = used_code(alloc, frame, test)?;
    let size = size_of(alloc, frame, first)?;
    let rest = size_of(alloc, frame, second)?;
    else_code(frame.slot, test, &code, size, &other, rest)
}

/// The body of a `while` or a `do`.
pub(crate) fn while_aims(
    alloc: Global,
    frame: &Frame<'_>,
    aims: Aims,
    test: &Value,
    body: &Step,
) -> Result<Aims, Memory>
    ensures { IfOk result (λ a. a ≡ aiming.loop_aims aims.place 0 (seen.value_size frame.now o.used (v.value test.now)) (seen.measured frame.now (v.step body.now)).size 0) }
{
    let test = value_size(alloc, frame, Usage::Used, test)?;
    let size = size_of(alloc, frame, body)?;
    loop_aims(aims.place, 0, test, size, 0)
}

/// A `while` at this place, by its body's code.
pub(crate) fn while_step(
    alloc: Global,
    frame: &Frame<'_>,
    at: u32,
    place: usize,
    test: &Value,
    body: Vec<Instruction>,
) -> Result<Vec<Instruction>, Memory>
    ensures { IfOk result (λ r. r.items ≡ joints.while_code at place frame.now.slot (joints.used_code frame.now (v.value test.now)) body.items) }
{
    let test = used_code(alloc, frame, test)?;
    while_code(alloc, at, place, frame.slot, &test, &body)
}

/// A `do` at this place, by its body's code.
pub(crate) fn do_step(
    alloc: Global,
    frame: &Frame<'_>,
    at: u32,
    place: usize,
    test: &Value,
    body: Vec<Instruction>,
) -> Result<Vec<Instruction>, Memory>
    ensures { IfOk result (λ r. r.items ≡ joints.do_code at place frame.now.slot (joints.used_code frame.now (v.value test.now)) body.items) }
{
    let test = used_code(alloc, frame, test)?;
    do_code(alloc, at, place, frame.slot, &test, &body)
}

/// The body of a switch.
pub(crate) fn inside_switch(
    alloc: Global,
    frame: &Frame<'_>,
    aims: Aims,
    kind: Kind,
    value: &Value,
    body: &Step,
) -> Result<Aims, Memory>
    ensures { IfOk result (λ a. a ≡ aiming.switch_aims aims (seen.switch_head frame.now kind (v.value value.now) (seen.measured frame.now (v.step body.now))) (seen.measured frame.now (v.step body.now)).size) }
{
    let measure = measured(alloc, frame, body)?;
    let head = switch_head(alloc, frame, kind, value, &measure)?;
    switch_aims(aims, head, measure.size)
}

/// A switch, by its body's code.
pub(crate) fn switch_step(
    alloc: Global,
    frame: &Frame<'_>,
    kind: Kind,
    value: &Value,
    body: &Step,
    code: Vec<Instruction>,
) -> Result<Vec<Instruction>, Memory>
    ensures { IfOk result (λ r. r.items ≡ joints.switch_step frame.now kind (v.value value.now) (seen.measured frame.now (v.step body.now)) code.items) }
{
    let value = used_code(alloc, frame, value)?;
    let measure = measured(alloc, frame, body)?;
    let cases = cases_code(alloc, frame.model, frame.slot, kind, &measure.marks)?;
    let skip = or_place(measure.size, default_in(&measure.marks));
    switch_code(value, &cases, skip, &code)
}

/// The body of a `for`.
pub(crate) fn for_aims(
    alloc: Global,
    frame: &Frame<'_>,
    aims: Aims,
    start: &[Step],
    test: &Option<Box<Value>>,
    third: &Option<Box<Value>>,
    body: &Step,
) -> Result<Aims, Memory>
    ensures { IfOk result (λ a. a ≡ aiming.loop_aims aims.place (seen.measured_all frame.now (v.steps_of start.now)).size (seen.test_size frame.now (v.option_value test.now)) (seen.measured frame.now (v.step body.now)).size (seen.effect_size frame.now (v.option_value third.now))) }
{
    let before = size_in(alloc, frame, start)?;
    let test = test_size(alloc, frame, test)?;
    let third = effect_size(alloc, frame, third)?;
    let size = size_of(alloc, frame, body)?;
    loop_aims(aims.place, before, test, size, third)
}

/// Where a `for` begins behind its first part.
pub(crate) fn for_place(
    alloc: Global,
    frame: &Frame<'_>,
    aims: Aims,
    start: &[Step],
) -> Result<usize, Memory>
    ensures { IfOk result (λ n. n ≡ aims.place + (seen.measured_all frame.now (v.steps_of start.now)).size) }
{
    let before = size_in(alloc, frame, start)?;
    after(aims.place, before)
}

/// A `for` at this place behind its first part, by the code of that part and of its body.
pub(crate) fn for_step(
    alloc: Global,
    frame: &Frame<'_>,
    at: u32,
    place: usize,
    start: Vec<Instruction>,
    test: &Option<Box<Value>>,
    third: &Option<Box<Value>>,
    body: Vec<Instruction>,
) -> Result<Vec<Instruction>, Memory>
    ensures { IfOk result (λ r. r.items ≡ joints.for_step frame.now at place start.items (v.option_value test.now) (v.option_value third.now) body.items) }
{
    let test = test_code(alloc, frame, test)?;
    let third = effect_code(alloc, frame, third)?;
    let place = next(place)?;
    let head = Head {
        first: Instruction::Turn(at, place),
        at,
        place,
        slot: frame.slot,
    };
    loop_code(start, head, &test, &body, &third)
}
