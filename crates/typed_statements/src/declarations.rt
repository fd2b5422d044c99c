ghost use Rattle.std.specs.Prelude.{◌≡◌, IfOk, Some, slice_get};
ghost use Rattle.c_tree.specs.View as v;
ghost use Rattle.c_meaning.specs.Bindings as b;
ghost use Rattle.c_typed.specs.Tree as t;
ghost use Rattle.c_typed.specs.View as tv;
ghost use Rattle.c_types.specs.Elaborated as el;
ghost use Rattle.type_scopes.specs.Seen as seen;

use crate::nodes::push_step;
use c_tree::{Declaration, Declarator, Expr, Initial, Listed};
use c_typed::{Step, Value};
use lv_base::{Kind, Memory, Model, Text};
use std::alloc::Global;
use type_scopes::{Env, declared_entity, object_number};
use typed_expressions::typed_value;
use typed_values::converted;

/// The kind of an object, and `int` where there is none.
pub fn object_kind(env: &Env<'_>, object: u32) -> Kind
    ensures { result ≡ b.kind_of_object (slice_get (seen.env_of env.now).objects object) }
{
    match env.objects.get(object as usize) {
        None => Kind::Int,
        Some(object) => object.kind,
    }
}

// A value, converted to a kind.
fn value_as(
    alloc: Global,
    env: &Env<'_>,
    model: Model,
    bodies: &[Text],
    kind: Kind,
    e: &Box<Expr>,
) -> Result<Box<Value>, Memory>
    ensures { IfOk result (λ r. tv.value r.value ≡ t.vConvert kind (el.value (seen.env_of env.now) model bodies.now (v.expr e.now.value))) }
{
    let value = typed_value(alloc, env, model, bodies, e)?;
    converted(alloc, kind, value)
}

// A list of one value, converted to a kind.
#[tactic(auto, using(crate::proofs::Views::values_one))]
fn one_value(
    alloc: Global,
    env: &Env<'_>,
    model: Model,
    bodies: &[Text],
    kind: Kind,
    e: &Box<Expr>,
) -> Result<Vec<Value>, Memory>
    ensures { IfOk result (λ r. tv.values_of r.items ≡ t.values_and t.no_values (t.vConvert kind (el.value (seen.env_of env.now) model bodies.now (v.expr e.now.value)))) }
{
    let value = value_as(alloc, env, model, bodies, kind, e)?;
    let mut values = Vec::new(alloc);
    values.push(Box::into_inner(value))?;
    Ok(values)
}

/// The values of the parts of a list, each converted to a kind.
///
/// Fails with `Memory`.
#[tactic(auto, using(std::proofs::lemmas::List::take_all))]
pub fn typed_list_as(
    alloc: Global,
    env: &Env<'_>,
    model: Model,
    bodies: &[Text],
    kind: Kind,
    parts: &[Listed],
) -> Result<Vec<Value>, Memory>
    ensures { IfOk result (λ r. tv.values_of r.items ≡ el.values_as (seen.env_of env.now) model bodies.now kind (v.parts_of parts.now)) }
{
    let mut values = Vec::new(alloc);
    for part in parts {
        let value = value_as(alloc, env, model, bodies, kind, &part.value)?;
        values.push(Box::into_inner(value))?;
    }
    Ok(values)
}

// The initial values of an object.
fn add_initial(
    alloc: Global,
    env: &Env<'_>,
    model: Model,
    bodies: &[Text],
    steps: &mut Vec<Step>,
    initial: &Initial,
    object: u32,
) -> Result<(), Memory>
    ensures { IfOk result (λ _. tv.steps_of steps.new.items ≡ el.beginning (seen.env_of env.now) model bodies.now (tv.steps_of steps.old.items) (v.initial_of initial.now) (Some object)) }
{
    match initial {
        Initial::Nothing => push_step(steps, Step::Draw(object)),
        Initial::Value(_, e) => {
            let values = one_value(alloc, env, model, bodies, object_kind(env, object), e)?;
            push_step(steps, Step::Begin(object, values))
        }
        Initial::List(_, _, parts, _, _) => {
            let values = typed_list_as(alloc, env, model, bodies, object_kind(env, object), parts)?;
            push_step(steps, Step::Begin(object, values))
        }
    }
}

// What is declared, if it is an object.
fn add_object(
    alloc: Global,
    env: &Env<'_>,
    model: Model,
    bodies: &[Text],
    steps: &mut Vec<Step>,
    initial: &Initial,
    object: Option<u32>,
) -> Result<(), Memory>
    ensures { IfOk result (λ _. tv.steps_of steps.new.items ≡ el.beginning (seen.env_of env.now) model bodies.now (tv.steps_of steps.old.items) (v.initial_of initial.now) object) }
{
    match object {
        None => Ok(()),
        Some(object) => add_initial(alloc, env, model, bodies, steps, initial, object),
    }
}

fn add_declarator(
    alloc: Global,
    env: &Env<'_>,
    model: Model,
    bodies: &[Text],
    steps: &mut Vec<Step>,
    declarator: &Declarator,
) -> Result<(), Memory>
    ensures { IfOk result (λ _. tv.steps_of steps.new.items ≡ el.beginning (seen.env_of env.now) model bodies.now (tv.steps_of steps.old.items) (v.initial_of declarator.now.initial) (b.object_number (b.declared_at (seen.env_of env.now) declarator.now.name.at))) }
{
    let object = object_number(declared_entity(env, declarator.name.at));
    add_object(
        alloc,
        env,
        model,
        bodies,
        steps,
        &declarator.initial,
        object,
    )
}

#[tactic(auto, using(std::proofs::lemmas::List::take_all))]
fn add_declarators(
    alloc: Global,
    env: &Env<'_>,
    model: Model,
    bodies: &[Text],
    steps: &mut Vec<Step>,
    declarators: &[Declarator],
) -> Result<(), Memory>
    ensures { IfOk result (λ _. tv.steps_of steps.new.items ≡ el.declaring (seen.env_of env.now) model bodies.now (tv.steps_of steps.old.items) (v.declarators_of declarators.now)) }
{
    for declarator in declarators {
        add_declarator(alloc, env, model, bodies, steps, declarator)?;
    }
    Ok(())
}

/// Adds the steps of a declaration in a block: for each object that it declares its initial values, or that they are drawn.
///
/// Fails with `Memory`.
pub fn add_declaration(
    alloc: Global,
    env: &Env<'_>,
    model: Model,
    bodies: &[Text],
    steps: &mut Vec<Step>,
    declaration: &Declaration,
) -> Result<(), Memory>
    ensures { IfOk result (λ _. tv.steps_of steps.new.items ≡ el.declared (seen.env_of env.now) model bodies.now (tv.steps_of steps.old.items) (v.declaration_of declaration.now)) }
{
    add_declarators(alloc, env, model, bodies, steps, &declaration.declarators)
}

/// The steps of a declaration that stands alone.
///
/// Fails with `Memory`.
pub fn declared(
    alloc: Global,
    env: &Env<'_>,
    model: Model,
    bodies: &[Text],
    declaration: &Declaration,
) -> Result<Vec<Step>, Memory>
    ensures { IfOk result (λ r. tv.steps_of r.items ≡ el.declared (seen.env_of env.now) model bodies.now t.no_steps (v.declaration_of declaration.now)) }
{
    let mut steps = Vec::new(alloc);
    add_declaration(alloc, env, model, bodies, &mut steps, declaration)?;
    Ok(steps)
}
