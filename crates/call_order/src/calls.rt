ghost use Rattle.std.specs.Prelude.{◌≡◌, ◌++◌, IfOk};
ghost use Rattle.c_typed.specs.View as v;
ghost use Rattle.c_typed.specs.Rules as r;
ghost use Rattle.step_values.specs.Seen as values;
ghost use Rattle.call_order.specs.Seen as seen;

use c_typed::{Target, Value};
use lv_base::Memory;
use std::alloc::Global;

/// A call: the called name's offset, and the number of the function that is called.
#[derive(Clone, Copy, Debug)]
pub struct CallAt {
    pub at: u32,
    pub to: u32,
}

// The calls in a value, in the order of the `(`, behind those that are there.
#[cycle(calls)]
#[tactic(auto, using(crate::proofs::Views::value_Call, crate::proofs::Views::value_Comma))]
fn add_calls(value: &Value, found: &mut Vec<CallAt>) -> Result<(), Memory>
    ensures { IfOk result (λ _. seen.calls found.new.items ≡ seen.calls found.old.items ++ r.calls (v.value value.now)) }
{
    match value {
        Value::Constant(_, _) => Ok(()),
        Value::Read(_, _) => Ok(()),
        Value::Element(_, _, _, index) => add_calls(index, found),
        Value::Whole(_) => Ok(()),
        Value::Nothing => Ok(()),
        Value::Convert(_, inner) => add_calls(inner, found),
        Value::Discard(inner) => add_calls(inner, found),
        Value::Negate(_, _, inner) => add_calls(inner, found),
        Value::Complement(_, _, inner) => add_calls(inner, found),
        Value::Not(inner) => add_calls(inner, found),
        Value::Binary(_, _, _, first, second) => {
            add_calls(first, found)?;
            add_calls(second, found)
        }
        Value::Both(first, second) => {
            add_calls(first, found)?;
            add_calls(second, found)
        }
        Value::Either(first, second) => {
            add_calls(first, found)?;
            add_calls(second, found)
        }
        Value::Cond(_, test, first, second) => {
            add_calls(test, found)?;
            add_calls(first, found)?;
            add_calls(second, found)
        }
        Value::Assign(_, _, target, inner) => {
            add_target_calls(target, found)?;
            add_calls(inner, found)
        }
        Value::Update(_, _, _, _, target, inner) => {
            add_target_calls(target, found)?;
            add_calls(inner, found)
        }
        Value::Change(_, _, _, _, target) => add_target_calls(target, found),
        Value::Call(_, at, _, function, values) => {
            found.push(CallAt {
                at: *at,
                to: *function,
            })?;
            add_all_calls(values, found)
        }
        Value::Reach(_) => Ok(()),
        Value::Abort => Ok(()),
        Value::Draw(_) => Ok(()),
        Value::Comma(values, last) => {
            add_all_calls(values, found)?;
            add_calls(last, found)
        }
    }
}

#[cycle(calls)]
fn add_target_calls(target: &Target, found: &mut Vec<CallAt>) -> Result<(), Memory>
    ensures { IfOk result (λ _. seen.calls found.new.items ≡ seen.calls found.old.items ++ r.calls_of_goal (v.target target.now)) }
{
    match target {
        Target::Object(_) => Ok(()),
        Target::Element(_, _, index) => add_calls(index, found),
    }
}

#[cycle(calls)]
fn add_all_calls(list: &[Value], found: &mut Vec<CallAt>) -> Result<(), Memory>
    ensures { IfOk result (λ _. seen.calls found.new.items ≡ seen.calls found.old.items ++ r.calls_in (v.values_of list.now)) }
{
    for value in list {
        add_calls(value, found)?;
    }
    Ok(())
}

/// The calls in these expressions of functions with a body, in their order.
pub fn calls_of(alloc: Global, all: &[&Value]) -> Result<Vec<CallAt>, Memory>
    ensures { IfOk result (λ x. seen.calls x.items ≡ r.calls_of (values.values all.now)) }
{
    let mut found = Vec::new(alloc);
    for value in all {
        add_calls(value, &mut found)?;
    }
    Ok(found)
}
