//! The `while` and `for` loops of a body, by the offsets of their keywords.

ghost use Rattle.std.specs.Prelude.{◌≡◌, ◌++◌, IfOk};
ghost use Rattle.c_typed.specs.View as v;
ghost use Rattle.cfg_build.specs.Looped as of;

use c_typed::Step;
use lv_base::Memory;

/// Adds the offsets of the loops in these statements, in their order.
#[cycle(loop_walk)]
pub(crate) fn loops_in(steps: &[Step], found: &mut Vec<u32>) -> Result<(), Memory>
    ensures { IfOk result (λ u. found.new.items ≡ found.old.items ++ of.loops_in (v.steps_of steps.now)) }
{
    for step in steps {
        loops_of(step, found)?;
    }
    Ok(())
}

#[cycle(loop_walk)]
fn loops_of(step: &Step, found: &mut Vec<u32>) -> Result<(), Memory>
    ensures { IfOk result (λ u. found.new.items ≡ found.old.items ++ of.loops_of (v.step step.now)) }
{
    match step {
        Step::Block(steps) => loops_in(steps, found),
        Step::If(_, inner) => loops_of(inner, found),
        Step::IfElse(_, first, second) => {
            loops_of(first, found)?;
            loops_of(second, found)
        }
        Step::While(at, _, inner) => {
            found.push(*at)?;
            loops_of(inner, found)
        }
        Step::For(at, _, _, _, inner) => {
            found.push(*at)?;
            loops_of(inner, found)
        }
        Step::Do(_, inner, _) => loops_of(inner, found),
        Step::Switch(_, _, _, inner) => loops_of(inner, found),
        Step::Case(_, _, inner) | Step::Default(_, inner) => loops_of(inner, found),
        Step::Label(_, _, inner) => loops_of(inner, found),
        Step::Draw(_) | Step::Begin(_, _) | Step::Empty | Step::Effect(_) => Ok(()),
        Step::Goto(_, _, _) | Step::Break(_) | Step::Continue(_) | Step::Return(_, _) => Ok(()),
    }
}
