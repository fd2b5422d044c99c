ghost use Rattle.std.specs.Prelude.{◌≡◌, ◌+◌, length, IfOk};
ghost use Rattle.c_run.specs.Operators as o;
ghost use Rattle.c_typed.specs.View as v;
ghost use Rattle.slot_code.specs.Statements as c;
ghost use Rattle.slot_values.specs.Seen as values;
ghost use Rattle.slot_statements.specs.Measures as me;
ghost use Rattle.slot_statements.specs.Seen as seen;

use crate::cases::cases_code;
use crate::frames::Frame;
use crate::marks::{Name, add_moved};
use crate::measures::{Measure, behind, chosen, looped, named, plain, switched};
use c_typed::{Step, Value};
use lv_base::{Kind, Memory};
use slot_code::Instruction;
use slot_values::{Usage, add_values, after, value_code};
use std::alloc::Global;

/// How many instructions there are.
pub(crate) fn count_in(code: &[Instruction]) -> usize
    ensures { result ≡ length code.now }
{
    code.len()
}

// How many instructions a value has.
pub(crate) fn value_size(
    alloc: Global,
    frame: &Frame<'_>,
    usage: Usage,
    value: &Value,
) -> Result<usize, Memory>
    ensures { IfOk result (λ n. n ≡ seen.value_size frame.now (values.use_of usage) (v.value value.now)) }
{
    let code = value_code(alloc, &frame.scene, usage, frame.slot, value)?;
    Ok(count_in(&code))
}

// Initial values, and what stores them.
fn begin_size(alloc: Global, frame: &Frame<'_>, list: &[Value]) -> Result<usize, Memory>
    ensures { IfOk result (λ n. n ≡ length (values.values_code frame.now.scene frame.now.slot (v.values_of list.now)) + 1) }
{
    let mut code = Vec::new(alloc);
    add_values(alloc, &frame.scene, frame.slot, list, &mut code)?;
    after(count_in(&code), 1)
}

// A condition that may be left out.
pub(crate) fn test_size(
    alloc: Global,
    frame: &Frame<'_>,
    test: &Option<Box<Value>>,
) -> Result<usize, Memory>
    ensures { IfOk result (λ n. n ≡ seen.test_size frame.now (v.option_value test.now)) }
{
    match test {
        None => Ok(1),
        Some(value) => value_size(alloc, frame, Usage::Used, value),
    }
}

// A part that may be left out.
pub(crate) fn effect_size(
    alloc: Global,
    frame: &Frame<'_>,
    part: &Option<Box<Value>>,
) -> Result<usize, Memory>
    ensures { IfOk result (λ n. n ≡ seen.effect_size frame.now (v.option_value part.now)) }
{
    match part {
        None => Ok(0),
        Some(value) => value_size(alloc, frame, Usage::Dropped, value),
    }
}

fn return_size(alloc: Global, frame: &Frame<'_>, part: &Option<Box<Value>>) -> Result<usize, Memory>
    ensures { IfOk result (λ n. n ≡ c.return_size frame.now.result (length (seen.return_value frame.now (v.option_value part.now))) (v.option_value part.now)) }
{
    match part {
        None => Ok(1),
        Some(value) => match frame.result {
            None => after(value_size(alloc, frame, Usage::Dropped, value)?, 1),
            Some(_) => after(value_size(alloc, frame, Usage::Used, value)?, 2),
        },
    }
}

// What stands before the body of a switch: its value, its cases and one more jump.
pub(crate) fn switch_head(
    alloc: Global,
    frame: &Frame<'_>,
    kind: Kind,
    value: &Value,
    body: &Measure<'_>,
) -> Result<usize, Memory>
    ensures { IfOk result (λ n. n ≡ seen.switch_head frame.now kind (v.value value.now) (seen.measure_of body.now)) }
{
    let test = value_size(alloc, frame, Usage::Used, value)?;
    let cases = cases_code(alloc, frame.model, frame.slot, kind, &body.marks)?;
    after(after(test, count_in(&cases))?, 1)
}

// A value alone.
fn valued<'a>(
    alloc: Global,
    frame: &Frame<'_>,
    usage: Usage,
    value: &Value,
) -> Result<Measure<'a>, Memory>
    ensures { IfOk result (λ m. seen.measure_of m ≡ me.plain (seen.value_size frame.now (values.use_of usage) (v.value value.now))) }
{
    let size = value_size(alloc, frame, usage, value)?;
    Ok(plain(alloc, size))
}

// Initial values alone.
fn begun<'a>(alloc: Global, frame: &Frame<'_>, list: &[Value]) -> Result<Measure<'a>, Memory>
    ensures { IfOk result (λ m. seen.measure_of m ≡ me.plain (length (values.values_code frame.now.scene frame.now.slot (v.values_of list.now)) + 1)) }
{
    let size = begin_size(alloc, frame, list)?;
    Ok(plain(alloc, size))
}

fn returned<'a>(
    alloc: Global,
    frame: &Frame<'_>,
    part: &Option<Box<Value>>,
) -> Result<Measure<'a>, Memory>
    ensures { IfOk result (λ m. seen.measure_of m ≡ me.plain (c.return_size frame.now.result (length (seen.return_value frame.now (v.option_value part.now))) (v.option_value part.now))) }
{
    let size = return_size(alloc, frame, part)?;
    Ok(plain(alloc, size))
}

// An `if` with this statement.
fn guarded<'a>(
    alloc: Global,
    frame: &Frame<'_>,
    test: &Value,
    inner: Measure<'a>,
) -> Result<Measure<'a>, Memory>
    ensures { IfOk result (λ m. seen.measure_of m ≡ me.behind (seen.value_size frame.now o.used (v.value test.now) + 1) (seen.measure_of inner.entry)) }
{
    let head = after(value_size(alloc, frame, Usage::Used, test)?, 1)?;
    behind(alloc, head, &inner)
}

// An `if` with these two statements.
fn divided<'a>(
    alloc: Global,
    frame: &Frame<'_>,
    test: &Value,
    first: Measure<'a>,
    second: Measure<'a>,
) -> Result<Measure<'a>, Memory>
    ensures { IfOk result (λ m. seen.measure_of m ≡ me.chosen (seen.value_size frame.now o.used (v.value test.now)) (seen.measure_of first.entry) (seen.measure_of second.entry)) }
{
    let test = value_size(alloc, frame, Usage::Used, test)?;
    chosen(alloc, test, &first, &second)
}

// A `while` or a `do` with this body.
fn repeated<'a>(
    alloc: Global,
    frame: &Frame<'_>,
    test: &Value,
    body: Measure<'a>,
) -> Result<Measure<'a>, Memory>
    ensures { IfOk result (λ m. seen.measure_of m ≡ me.looped 0 (seen.value_size frame.now o.used (v.value test.now)) 0 (seen.measure_of body.entry)) }
{
    let test = value_size(alloc, frame, Usage::Used, test)?;
    looped(alloc, 0, test, 0, &body)
}

// A `for` with this body, behind so many instructions.
fn counted<'a>(
    alloc: Global,
    frame: &Frame<'_>,
    before: usize,
    test: &Option<Box<Value>>,
    third: &Option<Box<Value>>,
    body: Measure<'a>,
) -> Result<Measure<'a>, Memory>
    ensures { IfOk result (λ m. seen.measure_of m ≡ me.looped before (seen.test_size frame.now (v.option_value test.now)) (seen.effect_size frame.now (v.option_value third.now)) (seen.measure_of body.entry)) }
{
    let test = test_size(alloc, frame, test)?;
    let third = effect_size(alloc, frame, third)?;
    looped(alloc, before, test, third, &body)
}

// A switch with this body.
fn selected<'a>(
    alloc: Global,
    frame: &Frame<'_>,
    kind: Kind,
    value: &Value,
    body: Measure<'a>,
) -> Result<Measure<'a>, Memory>
    ensures { IfOk result (λ m. seen.measure_of m ≡ me.switched (seen.switch_head frame.now kind (v.value value.now) (seen.measure_of body.entry)) (seen.measure_of body.entry)) }
{
    let head = switch_head(alloc, frame, kind, value, &body)?;
    switched(alloc, head, &body)
}

/// How many instructions a statement has, and the places in it that are jumped to.
///
/// Fails with `Memory` where there is no more memory, or where a size, a skip or a slot has no number.
#[cycle(sizes)]
pub fn measured<'a>(alloc: Global, frame: &Frame<'_>, step: &'a Step) -> Result<Measure<'a>, Memory>
    ensures { IfOk result (λ m. seen.measure_of m ≡ seen.measured frame.now (v.step step.now)) }
{
    match step {
        Step::Draw(_) => Ok(plain(alloc, 1)),
        Step::Begin(_, list) => begun(alloc, frame, list),
        Step::Block(steps) => measured_all(alloc, frame, steps),
        Step::Empty => Ok(plain(alloc, 0)),
        Step::Effect(value) => valued(alloc, frame, Usage::Dropped, value),
        Step::If(test, inner) => {
            let inner = measured(alloc, frame, inner)?;
            guarded(alloc, frame, test, inner)
        }
        Step::IfElse(test, first, second) => {
            let first = measured(alloc, frame, first)?;
            let second = measured(alloc, frame, second)?;
            divided(alloc, frame, test, first, second)
        }
        Step::While(_, test, body) => {
            let body = measured(alloc, frame, body)?;
            repeated(alloc, frame, test, body)
        }
        Step::Switch(_, kind, value, body) => {
            let body = measured(alloc, frame, body)?;
            selected(alloc, frame, *kind, value, body)
        }
        Step::Do(_, body, test) => {
            let body = measured(alloc, frame, body)?;
            repeated(alloc, frame, test, body)
        }
        Step::For(_, start, test, third, body) => {
            let before = size_in(alloc, frame, start)?;
            let body = measured(alloc, frame, body)?;
            counted(alloc, frame, before, test, third, body)
        }
        Step::Case(_, value, inner) => {
            let inner = measured(alloc, frame, inner)?;
            named(alloc, Name::Case(*value), inner)
        }
        Step::Default(_, inner) => {
            let inner = measured(alloc, frame, inner)?;
            named(alloc, Name::Default, inner)
        }
        Step::Label(name, _, inner) => {
            let inner = measured(alloc, frame, inner)?;
            named(alloc, Name::Label(name), inner)
        }
        Step::Goto(_, _, _) => Ok(plain(alloc, 1)),
        Step::Break(_) => Ok(plain(alloc, 1)),
        Step::Continue(_) => Ok(plain(alloc, 1)),
        Step::Return(_, value) => returned(alloc, frame, value),
    }
}

/// How many instructions statements in a row have.
#[cycle(sizes)]
pub(crate) fn size_in(alloc: Global, frame: &Frame<'_>, steps: &[Step]) -> Result<usize, Memory>
    ensures { IfOk result (λ n. n ≡ (seen.measured_all frame.now (v.steps_of steps.now)).size) }
{
    let measure = measured_all(alloc, frame, steps)?;
    Ok(measure.size)
}

/// The same of statements in a row.
///
/// Fails with `Memory` as `measured` does.
#[cycle(sizes)]
pub fn measured_all<'a>(
    alloc: Global,
    frame: &Frame<'_>,
    steps: &'a [Step],
) -> Result<Measure<'a>, Memory>
    ensures { IfOk result (λ m. seen.measure_of m ≡ seen.measured_all frame.now (v.steps_of steps.now)) }
{
    let mut size = 0;
    let mut marks = Vec::new(alloc);
    for step in steps {
        let own = measured(alloc, frame, step)?;
        add_moved(size, &own.marks, &mut marks)?;
        size = after(size, own.size)?;
    }
    Ok(Measure { size, marks })
}

/// How many instructions a statement has.
pub(crate) fn size_of(alloc: Global, frame: &Frame<'_>, step: &Step) -> Result<usize, Memory>
    ensures { IfOk result (λ n. n ≡ (seen.measured frame.now (v.step step.now)).size) }
{
    let measure = measured(alloc, frame, step)?;
    Ok(measure.size)
}
