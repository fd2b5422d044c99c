ghost use Rattle.std.specs.Prelude.{◌≡◌, IfOk};
ghost use Rattle.c_typed.specs.View as v;
ghost use Rattle.slot_statements.specs.Seen as seen;

use crate::branches::{
    do_step, else_aims, else_step, for_aims, for_place, for_step, if_aims, if_step, inside_switch,
    switch_step, while_aims, while_step,
};
use crate::frames::{Aims, Exits, Frame, beyond};
use crate::joints::{begin_code, fill_code, goto_code, joined, jump_code, return_code};
use crate::sizes::size_of;
use c_typed::Step;
use lv_base::Memory;
use slot_code::Instruction;
use slot_values::{Usage, after, value_code};
use std::alloc::Global;

/// The code of a statement, by where it begins and where its jumps go.
///
/// Fails with `Memory` where there is no more memory, or where a size, a skip or a slot has no number.
#[cycle(steps)]
pub fn step_code(
    alloc: Global,
    frame: &Frame<'_>,
    exits: &Exits<'_, '_>,
    aims: Aims,
    step: &Step,
) -> Result<Vec<Instruction>, Memory>
    ensures { IfOk result (λ r. r.items ≡ seen.step_code frame.now exits.now aims (v.step step.now)) }
{
    match step {
        Step::Draw(object) => fill_code(alloc, frame, *object),
        Step::Begin(object, list) => begin_code(alloc, frame, *object, list),
        Step::Block(steps) => steps_code(alloc, frame, exits, aims, steps),
        Step::Empty => Ok(Vec::new(alloc)),
        Step::Effect(value) => {
            value_code(alloc, &frame.scene, Usage::Dropped, frame.slot, value)
        }
        Step::If(test, inner) => {
            let near = if_aims(alloc, frame, aims, test)?;
            let code = step_code(alloc, frame, exits, near, inner)?;
            if_step(alloc, frame, test, inner, code)
        }
        Step::IfElse(test, first, second) => {
            let near = if_aims(alloc, frame, aims, test)?;
            let far = else_aims(alloc, frame, aims, test, first)?;
            let code = step_code(alloc, frame, exits, near, first)?;
            let other = step_code(alloc, frame, exits, far, second)?;
            else_step(alloc, frame, test, first, code, second, other)
        }
        Step::While(at, test, body) => {
            let inside = while_aims(alloc, frame, aims, test, body)?;
            let code = step_code(alloc, frame, exits, inside, body)?;
            while_step(alloc, frame, *at, aims.place, test, code)
        }
        Step::Switch(_, kind, value, body) => {
            let inside = inside_switch(alloc, frame, aims, *kind, value, body)?;
            let code = step_code(alloc, frame, exits, inside, body)?;
            switch_step(alloc, frame, *kind, value, body, code)
        }
        Step::Do(at, body, test) => {
            let inside = while_aims(alloc, frame, aims, test, body)?;
            let code = step_code(alloc, frame, exits, inside, body)?;
            do_step(alloc, frame, *at, aims.place, test, code)
        }
        Step::For(at, start, test, third, body) => {
            let inside = for_aims(alloc, frame, aims, start, test, third, body)?;
            let place = for_place(alloc, frame, aims, start)?;
            let begins = steps_code(alloc, frame, exits, aims, start)?;
            let code = step_code(alloc, frame, exits, inside, body)?;
            for_step(alloc, frame, *at, place, begins, test, third, code)
        }
        Step::Case(_, _, inner) => step_code(alloc, frame, exits, aims, inner),
        Step::Default(_, inner) => step_code(alloc, frame, exits, aims, inner),
        Step::Label(_, _, inner) => step_code(alloc, frame, exits, aims, inner),
        Step::Goto(at, name, _) => goto_code(alloc, exits, *at, name),
        Step::Break(_) => jump_code(alloc, aims.place, aims.broke),
        Step::Continue(_) => jump_code(alloc, aims.place, aims.continued),
        Step::Return(_, value) => return_code(alloc, frame, aims.place, exits.end, value),
    }
}

/// The code of statements in a row.
///
/// Fails with `Memory` as `step_code` does.
#[cycle(steps)]
pub fn steps_code(
    alloc: Global,
    frame: &Frame<'_>,
    exits: &Exits<'_, '_>,
    aims: Aims,
    steps: &[Step],
) -> Result<Vec<Instruction>, Memory>
    ensures { IfOk result (λ r. r.items ≡ seen.steps_code frame.now exits.now aims (v.steps_of steps.now)) }
{
    let mut code = Vec::new(alloc);
    let mut size = 0;
    for step in steps {
        let own = step_code(alloc, frame, exits, beyond(aims, size)?, step)?;
        code = joined(code, &own)?;
        size = after(size, size_of(alloc, frame, step)?)?;
    }
    Ok(code)
}
