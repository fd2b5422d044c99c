ghost use Rattle.std.specs.Prelude.{◌≡◌, IfOk};
ghost use Rattle.c_typed.specs.View as v;
ghost use Rattle.slot_compiler.specs.Bodies as bodies;

use c_typed::Step;
use lv_base::{Kind, Memory, Model};
use slot_code::Instruction;
use slot_statements::{Aims, Exits, Frame, Labels, measured_all, steps_code};
use slot_values::{Scene, add, after, next};
use std::alloc::Global;

// The statements of a function with this result, whose code begins at a place, and whose place to return to is in a slot.
fn body_steps(
    alloc: Global,
    scene: &Scene<'_>,
    model: Model,
    kind: Option<Kind>,
    slot: usize,
    place: usize,
    body: &[Step],
) -> Result<Vec<Instruction>, Memory>
    ensures { IfOk result (λ r. r.items ≡ bodies.body_steps scene.now model kind slot place (v.steps_of body.now)) }
{
    let frame = Frame {
        scene: *scene,
        model,
        result: kind,
        slot: next(slot)?,
    };
    let measure = measured_all(alloc, &frame, body)?;
    let end = after(place, measure.size)?;
    let labels = Labels::new(alloc, &measure.marks)?;
    let exits = Exits {
        start: place,
        end,
        labels: &labels,
    };
    let aims = Aims {
        broke: end,
        continued: end,
        place,
    };
    steps_code(alloc, &frame, &exits, aims, body)
}

/// A function's code: its statements, and behind them what is left without a value, and the way back.
pub(crate) fn body_code(
    alloc: Global,
    scene: &Scene<'_>,
    model: Model,
    kind: Option<Kind>,
    slot: usize,
    place: usize,
    body: &[Step],
) -> Result<Vec<Instruction>, Memory>
    ensures { IfOk result (λ r. r.items ≡ bodies.body_code scene.now model kind slot place (v.steps_of body.now)) }
{
    let mut code = body_steps(alloc, scene, model, kind, slot, place, body)?;
    add(&mut code, Instruction::Constant(next(next(slot)?)?, 0))?;
    add(&mut code, Instruction::Return(slot))?;
    Ok(code)
}
