ghost use Rattle.std.specs.Prelude.{◌≡◌, IfOk, pos};
ghost use Rattle.c_tree.specs.Tree as tr;
ghost use Rattle.c_tree.specs.View as v;
ghost use Rattle.c_meaning.specs.Bindings as b;
ghost use Rattle.c_meaning.specs.Kinds as k;
ghost use Rattle.c_meaning.specs.Types as ty;
ghost use Rattle.c_typed.specs.Tree as t;
ghost use Rattle.c_typed.specs.View as tv;
ghost use Rattle.c_types.specs.Elaborated as el;
ghost use Rattle.type_scopes.specs.Seen as seen;
ghost use Rattle.typed_values.specs.Made as made;

use c_tree::{AssignOp, BinaryOp, Crement, Expr, Listed, PrefixOp, Specs};
use c_typed::{Target, Value};
use lv_base::{Kind, Memory, Model, Text};
use std::alloc::Global;
use type_kinds::number_kind;
use type_scopes::{Env, named_entity, object_number, type_of, words_type};
use typed_values::{
    assigned, binary, called_name, cast, changed, changed_before, choice, comma, constant,
    converted, indexed, indexed_target, kind_at, named_value, object_target, or_first,
    parameter_kind, parameters_of, prefixed, size,
};

// The size of what these words name.
fn size_of_words(
    alloc: Global,
    env: &Env<'_>,
    model: Model,
    specs: &Specs,
) -> Result<Box<Value>, Memory>
    ensures { IfOk result (λ r. tv.value r.value ≡ t.vConstant (k.size_kind model) (pos (k.size_of model (b.words_type (seen.env_of env.now) (v.words_of specs.now))))) }
{
    size(alloc, model, words_type(env, specs))
}

// A value in a cast to what these words name.
fn cast_of(
    alloc: Global,
    env: &Env<'_>,
    specs: &Specs,
    value: Box<Value>,
) -> Result<Box<Value>, Memory>
    ensures { IfOk result (λ r. tv.value r.value ≡ el.cast_to (b.words_type (seen.env_of env.now) (v.words_of specs.now)) (tv.value value.value)) }
{
    cast(alloc, words_type(env, specs), value)
}

// A binary operator on these operands, which have these values.
fn binary_of(
    alloc: Global,
    env: &Env<'_>,
    model: Model,
    op: BinaryOp,
    at: u32,
    a: &Expr,
    b: &Expr,
    x: Box<Value>,
    y: Box<Value>,
) -> Result<Box<Value>, Memory>
    ensures { IfOk result (λ r. tv.value r.value ≡ made.binary_value model op at (k.kind_of (ty.type_of (seen.env_of env.now) model (v.expr a.now))) (k.kind_of (ty.type_of (seen.env_of env.now) model (v.expr b.now))) (tv.value x.value) (tv.value y.value)) }
{
    let left = kind_at(env, model, a);
    let right = kind_at(env, model, b);
    binary(alloc, model, op, at, left, right, x, y)
}

// An assignment to the one of the value of the other.
fn assigned_of(
    alloc: Global,
    env: &Env<'_>,
    model: Model,
    op: AssignOp,
    at: u32,
    a: &Expr,
    b: &Expr,
    target: Box<Target>,
    y: Box<Value>,
) -> Result<Box<Value>, Memory>
    ensures { IfOk result (λ r. tv.value r.value ≡ made.assigned_value model op at (k.kind_of (ty.type_of (seen.env_of env.now) model (v.expr a.now))) (k.kind_of (ty.type_of (seen.env_of env.now) model (v.expr b.now))) (tv.target target.value) (tv.value y.value)) }
{
    let left = kind_at(env, model, a);
    let right = kind_at(env, model, b);
    assigned(alloc, model, op, at, left, right, target, y)
}

// A prefix operator, before this operand.
#[cycle(typed)]
fn typed_prefix(
    alloc: Global,
    env: &Env<'_>,
    model: Model,
    bodies: &[Text],
    op: PrefixOp,
    at: u32,
    e: &Expr,
) -> Result<Box<Value>, Memory>
    ensures { IfOk result (λ r. tv.value r.value ≡ el.value (seen.env_of env.now) model bodies.now (tr.ePrefix op at (v.expr e.now))) }
{
    match op {
        PrefixOp::Increment => {
            let target = typed_target(alloc, env, model, bodies, e)?;
            changed_before(alloc, env, model, Crement::Increment, at, e, target)
        }
        PrefixOp::Decrement => {
            let target = typed_target(alloc, env, model, bodies, e)?;
            changed_before(alloc, env, model, Crement::Decrement, at, e, target)
        }
        PrefixOp::Sizeof => size(alloc, model, type_of(env, model, e)),
        PrefixOp::Plus
        | PrefixOp::Minus
        | PrefixOp::Complement
        | PrefixOp::Not
        | PrefixOp::Extension => {
            let value = typed_value(alloc, env, model, bodies, e)?;
            prefixed(alloc, op, at, kind_at(env, model, e), value)
        }
    }
}

// `++` or `--`, behind this operand.
#[cycle(typed)]
fn typed_postfix(
    alloc: Global,
    env: &Env<'_>,
    model: Model,
    bodies: &[Text],
    by: Crement,
    at: u32,
    e: &Expr,
) -> Result<Box<Value>, Memory>
    ensures { IfOk result (λ r. tv.value r.value ≡ el.value (seen.env_of env.now) model bodies.now (tr.ePostfix (v.expr e.now) by at)) }
{
    let target = typed_target(alloc, env, model, bodies, e)?;
    changed(alloc, false, by, kind_at(env, model, e), at, target)
}

/// The values of the parts of a list.
///
/// Fails with `Memory`.
#[cycle(typed)]
#[tactic(auto, using(std::proofs::lemmas::List::take_all))]
pub fn typed_list(
    alloc: Global,
    env: &Env<'_>,
    model: Model,
    bodies: &[Text],
    parts: &[Listed],
) -> Result<Vec<Value>, Memory>
    ensures { IfOk result (λ r. tv.values_of r.items ≡ el.values (seen.env_of env.now) model bodies.now (v.parts_of parts.now)) }
{
    let mut values = Vec::new(alloc);
    for part in parts {
        let value = typed_value(alloc, env, model, bodies, &part.value)?;
        values.push(Box::into_inner(value))?;
    }
    Ok(values)
}

// The values of arguments, each converted to its parameter's kind.
#[cycle(typed)]
#[tactic(auto, using(std::proofs::lemmas::List::take_all))]
fn typed_arguments(
    alloc: Global,
    env: &Env<'_>,
    model: Model,
    bodies: &[Text],
    kinds: &[Kind],
    parts: &[Listed],
) -> Result<Vec<Value>, Memory>
    ensures { IfOk result (λ r. tv.values_of r.items ≡ el.arguments (seen.env_of env.now) model bodies.now kinds.now (v.parts_of parts.now)) }
{
    let mut values = Vec::new(alloc);
    for (i, part) in parts.iter().enumerate() {
        let value = typed_value(alloc, env, model, bodies, &part.value)?;
        let argument = converted(alloc, parameter_kind(kinds, i), value)?;
        values.push(Box::into_inner(argument))?;
    }
    Ok(values)
}

/// What an expression is assigned to by: a scalar or an element, through round brackets and `__extension__`. What is
/// neither is no target, which the rules refuse.
///
/// Fails with `Memory`.
#[cycle(typed)]
#[tactic(auto, using(crate::proofs::Matching::expr_Call, crate::proofs::Matching::expr_Comma, crate::proofs::Matching::expr_Cast, crate::proofs::Matching::expr_SizeofType))]
pub fn typed_target(
    alloc: Global,
    env: &Env<'_>,
    model: Model,
    bodies: &[Text],
    e: &Expr,
) -> Result<Box<Target>, Memory>
    ensures { IfOk result (λ r. tv.target r.value ≡ el.goal (seen.env_of env.now) model bodies.now (v.expr e.now)) }
{
    match e {
        Expr::Paren(_, e, _) => typed_target(alloc, env, model, bodies, e),
        Expr::Prefix(op, _, e) => match op {
            PrefixOp::Extension => typed_target(alloc, env, model, bodies, e),
            PrefixOp::Increment => object_target(alloc, 0),
            PrefixOp::Decrement => object_target(alloc, 0),
            PrefixOp::Plus => object_target(alloc, 0),
            PrefixOp::Minus => object_target(alloc, 0),
            PrefixOp::Complement => object_target(alloc, 0),
            PrefixOp::Not => object_target(alloc, 0),
            PrefixOp::Sizeof => object_target(alloc, 0),
        },
        Expr::Name(name, at) => {
            let object = object_number(named_entity(env, name.as_bytes(), *at));
            object_target(alloc, or_first(object))
        }
        Expr::Index(a, at, i, _) => {
            let index = typed_value(alloc, env, model, bodies, i)?;
            indexed_target(alloc, env, *at, a, index)
        }
        Expr::Number(_, _, _) => object_target(alloc, 0),
        Expr::Letter(_, _) => object_target(alloc, 0),
        Expr::Call(_, _, _, _) => object_target(alloc, 0),
        Expr::Postfix(_, _, _) => object_target(alloc, 0),
        Expr::SizeofType(_, _, _, _) => object_target(alloc, 0),
        Expr::Cast(_, _, _, _) => object_target(alloc, 0),
        Expr::Binary(_, _, _, _) => object_target(alloc, 0),
        Expr::Cond(_, _, _, _, _) => object_target(alloc, 0),
        Expr::Assign(_, _, _, _) => object_target(alloc, 0),
        Expr::Comma(_) => object_target(alloc, 0),
    }
}

/// The value of an expression, with its names as numbers and its conversions as nodes (C11 6.5).
///
/// Fails with `Memory`.
#[cycle(typed)]
pub fn typed_value(
    alloc: Global,
    env: &Env<'_>,
    model: Model,
    bodies: &[Text],
    e: &Expr,
) -> Result<Box<Value>, Memory>
    ensures { IfOk result (λ r. tv.value r.value ≡ el.value (seen.env_of env.now) model bodies.now (v.expr e.now)) }
{
    match e {
        Expr::Name(name, at) => named_value(alloc, env, named_entity(env, name.as_bytes(), *at)),
        Expr::Number(n, form, _) => constant(alloc, number_kind(model, *n, *form), *n as i128),
        Expr::Letter(n, _) => constant(alloc, Kind::Int, *n as i128),
        Expr::Paren(_, e, _) => typed_value(alloc, env, model, bodies, e),
        Expr::Call(f, bracket, parts, _) => {
            let kinds = parameters_of(env, f);
            let values = typed_arguments(alloc, env, model, bodies, kinds, parts)?;
            called_name(alloc, env, bodies, f, *bracket, values)
        }
        Expr::Index(a, at, i, _) => {
            let index = typed_value(alloc, env, model, bodies, i)?;
            indexed(alloc, env, kind_at(env, model, e), *at, a, index)
        }
        Expr::Postfix(e, by, at) => typed_postfix(alloc, env, model, bodies, *by, *at, e),
        Expr::Prefix(op, at, e) => typed_prefix(alloc, env, model, bodies, *op, *at, e),
        Expr::SizeofType(_, _, specs, _) => size_of_words(alloc, env, model, specs),
        Expr::Cast(_, specs, _, e) => {
            let value = typed_value(alloc, env, model, bodies, e)?;
            cast_of(alloc, env, specs, value)
        }
        Expr::Binary(a, op, at, b) => {
            let x = typed_value(alloc, env, model, bodies, a)?;
            let y = typed_value(alloc, env, model, bodies, b)?;
            binary_of(alloc, env, model, *op, *at, a, b, x, y)
        }
        Expr::Cond(c, _, a, _, b) => {
            let test = typed_value(alloc, env, model, bodies, c)?;
            let x = typed_value(alloc, env, model, bodies, a)?;
            let y = typed_value(alloc, env, model, bodies, b)?;
            choice(alloc, type_of(env, model, e), test, x, y)
        }
        Expr::Assign(a, op, at, b) => {
            let target = typed_target(alloc, env, model, bodies, a)?;
            let y = typed_value(alloc, env, model, bodies, b)?;
            assigned_of(alloc, env, model, *op, *at, a, b, target, y)
        }
        Expr::Comma(parts) => comma(alloc, typed_list(alloc, env, model, bodies, parts)?),
    }
}
