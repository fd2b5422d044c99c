ghost use Rattle.std.specs.Prelude.{◌≡◌, IfOk, true};
ghost use Rattle.c_tree.specs.View as v;
ghost use Rattle.c_meaning.specs.Kinds as k;
ghost use Rattle.c_meaning.specs.Types as ty;
ghost use Rattle.c_meaning.specs.Value as m;
ghost use Rattle.c_typed.specs.Tree as t;
ghost use Rattle.c_typed.specs.View as tv;
ghost use Rattle.c_types.specs.Elaborated as el;
ghost use Rattle.type_scopes.specs.Seen as seen;
ghost use Rattle.typed_values.specs.Made as made;

use crate::names::{array_of, base_of, kind_at};
use crate::nodes::{boxed, changed, element, element_target, nothing};
use c_tree::{Crement, Expr};
use c_typed::{Target, Value};
use lv_base::{Kind, Memory, Model};
use std::alloc::Global;
use type_scopes::Env;

/// An element that is read, of the array that stands before the `[` (C11 6.5.2.1).
pub fn indexed(
    alloc: Global,
    env: &Env<'_>,
    kind: Kind,
    at: u32,
    array: &Expr,
    index: Box<Value>,
) -> Result<Box<Value>, Memory>
    ensures { IfOk result (λ r. tv.value r.value ≡ t.vElement kind at (el.or_none (seen.env_of env.now) (m.base_of (seen.env_of env.now) (v.expr array.now))) (tv.value index.value)) }
{
    let array = array_of(env, base_of(env, array))?;
    element(alloc, kind, at, array, index)
}

/// An element that is assigned to, of the array that stands before the `[`.
pub fn indexed_target(
    alloc: Global,
    env: &Env<'_>,
    at: u32,
    array: &Expr,
    index: Box<Value>,
) -> Result<Box<Target>, Memory>
    ensures { IfOk result (λ r. tv.target r.value ≡ t.gElement at (el.or_none (seen.env_of env.now) (m.base_of (seen.env_of env.now) (v.expr array.now))) (tv.value index.value)) }
{
    let array = array_of(env, base_of(env, array))?;
    element_target(alloc, at, array, index)
}

#[tactic(auto, using(crate::proofs::Views::value_Comma))]
fn comma_node(before: Vec<Value>, last: Box<Value>) -> Value
    ensures { tv.value result ≡ t.vComma (tv.values_of before.items) (tv.value last.value) }
{
    Value::Comma(before, last)
}

/// A comma of some values (C11 6.5.17). Without any it is nothing.
#[tactic(auto, using(crate::proofs::Views::values_push))]
pub fn comma(alloc: Global, values: Vec<Value>) -> Result<Box<Value>, Memory>
    ensures { IfOk result (λ r. tv.value r.value ≡ made.comma_value (tv.values_of values.items)) }
{
    let mut before = values;
    match before.pop() {
        None => nothing(alloc),
        Some(last) => {
            let last = Box::new(alloc, last)?;
            boxed(alloc, comma_node(before, last))
        }
    }
}

/// `++` or `--` before its operand (C11 6.5.3.1).
pub fn changed_before(
    alloc: Global,
    env: &Env<'_>,
    model: Model,
    by: Crement,
    at: u32,
    operand: &Expr,
    target: Box<Target>,
) -> Result<Box<Value>, Memory>
    ensures { IfOk result (λ r. tv.value r.value ≡ t.vChange true by (k.kind_of (ty.type_of (seen.env_of env.now) model (v.expr operand.now))) at (tv.target target.value)) }
{
    changed(alloc, true, by, kind_at(env, model, operand), at, target)
}
