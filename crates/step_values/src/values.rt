ghost use Rattle.std.specs.Prelude.{◌≡◌, ◌++◌, IfOk, map};
ghost use Rattle.c_typed.specs.View as v;
ghost use Rattle.c_typed.specs.Rules as r;
ghost use Rattle.step_values.specs.Seen as seen;

use c_typed::{Step, Value};
use lv_base::Memory;

// The values of a list, behind those that are there.
fn add_parts<'a>(parts: &'a [Value], found: &mut Vec<&'a Value>) -> Result<(), Memory>
    ensures { IfOk result (λ _. seen.values found.new.items ≡ seen.values found.old.items ++ r.all_parts (v.values_of parts.now)) }
{
    for part in parts {
        found.push(part)?;
    }
    Ok(())
}

fn add_option<'a>(value: &'a Option<Box<Value>>, found: &mut Vec<&'a Value>) -> Result<(), Memory>
    ensures { IfOk result (λ _. seen.values found.new.items ≡ seen.values found.old.items ++ r.all_option (v.option_value value.now)) }
{
    match value {
        None => Ok(()),
        Some(value) => {
            found.push(value)?;
            Ok(())
        }
    }
}

/// The values of a statement in their order, behind those that are there: whole expressions and the single initial values of
/// declarations, not their parts.
#[cycle(values)]
pub fn values_in<'a>(step: &'a Step, found: &mut Vec<&'a Value>) -> Result<(), Memory>
    ensures { IfOk result (λ _. seen.values found.new.items ≡ seen.values found.old.items ++ r.all_values (v.step step.now)) }
{
    match step {
        Step::Draw(_) => Ok(()),
        Step::Begin(_, values) => add_parts(values, found),
        Step::Block(steps) => values_in_all(steps, found),
        Step::Empty => Ok(()),
        Step::Effect(value) => {
            found.push(value)?;
            Ok(())
        }
        Step::If(test, inner) => {
            found.push(test)?;
            values_in(inner, found)
        }
        Step::IfElse(test, first, second) => {
            found.push(test)?;
            values_in(first, found)?;
            values_in(second, found)
        }
        Step::While(_, test, inner) => {
            found.push(test)?;
            values_in(inner, found)
        }
        Step::Switch(_, _, value, inner) => {
            found.push(value)?;
            values_in(inner, found)
        }
        Step::Do(_, inner, test) => {
            values_in(inner, found)?;
            found.push(test)?;
            Ok(())
        }
        Step::For(_, start, test, third, inner) => {
            values_in_all(start, found)?;
            add_option(test, found)?;
            add_option(third, found)?;
            values_in(inner, found)
        }
        Step::Case(_, _, inner) => values_in(inner, found),
        Step::Default(_, inner) => values_in(inner, found),
        Step::Label(_, _, inner) => values_in(inner, found),
        Step::Goto(_, _, _) => Ok(()),
        Step::Break(_) => Ok(()),
        Step::Continue(_) => Ok(()),
        Step::Return(_, value) => add_option(value, found),
    }
}

/// The values of statements in a row, behind those that are there.
#[cycle(values)]
pub fn values_in_all<'a>(steps: &'a [Step], found: &mut Vec<&'a Value>) -> Result<(), Memory>
    ensures { IfOk result (λ _. seen.values found.new.items ≡ seen.values found.old.items ++ r.all_of_all (v.steps_of steps.now)) }
{
    for step in steps {
        values_in(step, found)?;
    }
    Ok(())
}
