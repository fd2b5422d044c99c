ghost use Rattle.std.specs.Prelude.{◌≡◌, IfOk};
ghost use Rattle.c_tree.specs.View as v;
ghost use Rattle.c_meaning.specs.Constants as c;
ghost use Rattle.c_typed.specs.Tree as t;
ghost use Rattle.c_typed.specs.View as tv;
ghost use Rattle.c_types.specs.Elaborated as el;
ghost use Rattle.type_scopes.specs.Seen as seen;
ghost use Rattle.typed_statements.specs.Steps as step;

use crate::declarations::declared;
use crate::nodes::{
    block, case_node, do_node, effect, else_node, for_node, if_node, push_step, return_node,
    switch_node, while_node,
};
use c_tree::{Declaration, Expr, ForHead, ForStart, Head};
use c_typed::{Step, Value};
use lv_base::{Kind, Memory, Model, Text};
use std::alloc::Global;
use type_constants::constant;
use type_kinds::promoted;
use type_scopes::Env;
use typed_expressions::typed_value;
use typed_values::{converted, kind_at};

/// A declaration that is a block of its own.
pub fn declared_block(
    alloc: Global,
    env: &Env<'_>,
    model: Model,
    bodies: &[Text],
    declaration: &Declaration,
) -> Result<Box<Step>, Memory>
    ensures { IfOk result (λ r. tv.step r.value ≡ t.pBlock (el.declared (seen.env_of env.now) model bodies.now t.no_steps (v.declaration_of declaration.now))) }
{
    let steps = declared(alloc, env, model, bodies, declaration)?;
    block(alloc, steps)
}

/// An expression whose value is not used.
pub fn effect_of(
    alloc: Global,
    env: &Env<'_>,
    model: Model,
    bodies: &[Text],
    e: &Box<Expr>,
) -> Result<Box<Step>, Memory>
    ensures { IfOk result (λ r. tv.step r.value ≡ t.pEffect (el.value (seen.env_of env.now) model bodies.now (v.expr e.now.value))) }
{
    let value = typed_value(alloc, env, model, bodies, e)?;
    effect(alloc, value)
}

fn condition(
    alloc: Global,
    env: &Env<'_>,
    model: Model,
    bodies: &[Text],
    head: &Head,
) -> Result<Box<Value>, Memory>
    ensures { IfOk result (λ r. tv.value r.value ≡ el.condition (seen.env_of env.now) model bodies.now (v.head_of head.now)) }
{
    typed_value(alloc, env, model, bodies, &head.condition)
}

/// An `if` before this body.
pub fn if_of(
    alloc: Global,
    env: &Env<'_>,
    model: Model,
    bodies: &[Text],
    head: &Head,
    body: Box<Step>,
) -> Result<Box<Step>, Memory>
    ensures { IfOk result (λ r. tv.step r.value ≡ t.pIf (el.condition (seen.env_of env.now) model bodies.now (v.head_of head.now)) (tv.step body.value)) }
{
    let test = condition(alloc, env, model, bodies, head)?;
    if_node(alloc, test, body)
}

/// An `if` before these bodies.
pub fn else_of(
    alloc: Global,
    env: &Env<'_>,
    model: Model,
    bodies: &[Text],
    head: &Head,
    a: Box<Step>,
    b: Box<Step>,
) -> Result<Box<Step>, Memory>
    ensures { IfOk result (λ r. tv.step r.value ≡ t.pIfElse (el.condition (seen.env_of env.now) model bodies.now (v.head_of head.now)) (tv.step a.value) (tv.step b.value)) }
{
    let test = condition(alloc, env, model, bodies, head)?;
    else_node(alloc, test, a, b)
}

/// A `while` before this body.
pub fn while_of(
    alloc: Global,
    env: &Env<'_>,
    model: Model,
    bodies: &[Text],
    head: &Head,
    body: Box<Step>,
) -> Result<Box<Step>, Memory>
    ensures { IfOk result (λ r. tv.step r.value ≡ t.pWhile (el.keyword (seen.env_of env.now) model bodies.now (v.head_of head.now)) (el.condition (seen.env_of env.now) model bodies.now (v.head_of head.now)) (tv.step body.value)) }
{
    let test = condition(alloc, env, model, bodies, head)?;
    while_node(alloc, head.at, test, body)
}

fn switch_kind(env: &Env<'_>, model: Model, bodies: &[Text], head: &Head) -> Kind
    ensures { result ≡ el.switch_kind (seen.env_of env.now) model bodies.now (v.head_of head.now) }
{
    promoted(kind_at(env, model, &head.condition))
}

/// A `switch` before this body, on its promoted value (C11 6.8.4.2).
pub fn switch_of(
    alloc: Global,
    env: &Env<'_>,
    model: Model,
    bodies: &[Text],
    head: &Head,
    body: Box<Step>,
) -> Result<Box<Step>, Memory>
    ensures { IfOk result (λ r. tv.step r.value ≡ t.pSwitch (el.keyword (seen.env_of env.now) model bodies.now (v.head_of head.now)) (el.switch_kind (seen.env_of env.now) model bodies.now (v.head_of head.now)) (t.vConvert (el.switch_kind (seen.env_of env.now) model bodies.now (v.head_of head.now)) (el.condition (seen.env_of env.now) model bodies.now (v.head_of head.now))) (tv.step body.value)) }
{
    let kind = switch_kind(env, model, bodies, head);
    let value = condition(alloc, env, model, bodies, head)?;
    let value = converted(alloc, kind, value)?;
    switch_node(alloc, head.at, kind, value, body)
}

/// A `do`, of this keyword, around this body.
pub fn do_of(
    alloc: Global,
    env: &Env<'_>,
    model: Model,
    bodies: &[Text],
    at: u32,
    body: Box<Step>,
    head: &Head,
) -> Result<Box<Step>, Memory>
    ensures { IfOk result (λ r. tv.step r.value ≡ t.pDo at (tv.step body.value) (el.condition (seen.env_of env.now) model bodies.now (v.head_of head.now))) }
{
    let test = condition(alloc, env, model, bodies, head)?;
    do_node(alloc, at, body, test)
}

fn optional(
    alloc: Global,
    env: &Env<'_>,
    model: Model,
    bodies: &[Text],
    e: &Option<Box<Expr>>,
) -> Result<Option<Box<Value>>, Memory>
    ensures { IfOk result (λ r. tv.option_value r ≡ el.option_value (seen.env_of env.now) model bodies.now (v.option_expr e.now)) }
{
    match e {
        None => Ok(None),
        Some(e) => {
            let value = typed_value(alloc, env, model, bodies, e)?;
            Ok(Some(value))
        }
    }
}

fn effects(
    alloc: Global,
    env: &Env<'_>,
    model: Model,
    bodies: &[Text],
    e: &Option<Box<Expr>>,
) -> Result<Vec<Step>, Memory>
    ensures { IfOk result (λ r. tv.steps_of r.items ≡ el.effect (seen.env_of env.now) model bodies.now (v.option_expr e.now)) }
{
    let mut steps = Vec::new(alloc);
    match e {
        None => Ok(steps),
        Some(e) => {
            let value = typed_value(alloc, env, model, bodies, e)?;
            push_step(&mut steps, Step::Effect(value))?;
            Ok(steps)
        }
    }
}

fn for_start(
    alloc: Global,
    env: &Env<'_>,
    model: Model,
    bodies: &[Text],
    start: &ForStart,
) -> Result<Vec<Step>, Memory>
    ensures { IfOk result (λ r. tv.steps_of r.items ≡ el.for_start (seen.env_of env.now) model bodies.now (v.for_start_of start.now)) }
{
    match start {
        ForStart::Declaration(declaration) => declared(alloc, env, model, bodies, declaration),
        ForStart::Expr(e, _) => effects(alloc, env, model, bodies, e),
    }
}

/// A `for` before this body.
pub fn for_of(
    alloc: Global,
    env: &Env<'_>,
    model: Model,
    bodies: &[Text],
    head: &ForHead,
    body: Box<Step>,
) -> Result<Box<Step>, Memory>
    ensures { IfOk result (λ r. tv.step r.value ≡ el.for_step (seen.env_of env.now) model bodies.now (v.for_head_of head.now) (tv.step body.value)) }
{
    let start = for_start(alloc, env, model, bodies, &head.start)?;
    let test = optional(alloc, env, model, bodies, &head.test)?;
    let third = optional(alloc, env, model, bodies, &head.step)?;
    for_node(alloc, head.at, start, test, third, body)
}

fn or_zero(value: Option<i128>) -> i128
    ensures { result ≡ c.or_zero value }
{
    match value {
        None => 0,
        Some(value) => value,
    }
}

/// A `case`, of this keyword, before this statement. Its value is converted to the kind of its switch where it is compared.
pub fn case_of(
    alloc: Global,
    env: &Env<'_>,
    model: Model,
    at: u32,
    e: &Box<Expr>,
    body: Box<Step>,
) -> Result<Box<Step>, Memory>
    ensures { IfOk result (λ r. tv.step r.value ≡ t.pCase at (c.or_zero (c.constant_of (seen.env_of env.now) model (v.expr e.now.value))) (tv.step body.value)) }
{
    let value = or_zero(constant(env, model, e));
    case_node(alloc, at, value, body)
}

// A value as one of a function's result. A void function has none to convert to.
fn as_result(
    alloc: Global,
    result_kind: Option<Kind>,
    value: Box<Value>,
) -> Result<Box<Value>, Memory>
    ensures { IfOk result (λ r. tv.value r.value ≡ step.as_result result_kind (tv.value value.value)) }
{
    match result_kind {
        None => Ok(value),
        Some(kind) => converted(alloc, kind, value),
    }
}

fn returned(
    alloc: Global,
    env: &Env<'_>,
    model: Model,
    bodies: &[Text],
    result_kind: Option<Kind>,
    e: &Option<Box<Expr>>,
) -> Result<Option<Box<Value>>, Memory>
    ensures { IfOk result (λ r. tv.option_value r ≡ el.returned (seen.env_of env.now) model bodies.now result_kind (v.option_expr e.now)) }
{
    match e {
        None => Ok(None),
        Some(e) => {
            let value = typed_value(alloc, env, model, bodies, e)?;
            let value = as_result(alloc, result_kind, value)?;
            Ok(Some(value))
        }
    }
}

/// A `return`, of this keyword, of a value that is converted to the function's result (C11 6.8.6.4).
pub fn return_of(
    alloc: Global,
    env: &Env<'_>,
    model: Model,
    bodies: &[Text],
    result_kind: Option<Kind>,
    at: u32,
    e: &Option<Box<Expr>>,
) -> Result<Box<Step>, Memory>
    ensures { IfOk result (λ r. tv.step r.value ≡ t.pReturn at (el.returned (seen.env_of env.now) model bodies.now result_kind (v.option_expr e.now))) }
{
    let value = returned(alloc, env, model, bodies, result_kind, e)?;
    return_node(alloc, at, value)
}
