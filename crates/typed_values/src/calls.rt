ghost use Rattle.std.specs.Prelude.{◌≡◌, ℕ, List, IfOk, position, bytes_eq, slice_index_or};
ghost use Rattle.std.specs.Option.{option_copied};
ghost use Rattle.lv_base.specs.declared.kind.Kind.TheVariants as kind;
ghost use Rattle.c_tree.specs.View as v;
ghost use Rattle.c_meaning.specs.Value as m;
ghost use Rattle.c_typed.specs.Tree as t;
ghost use Rattle.c_typed.specs.View as tv;
ghost use Rattle.type_scopes.specs.Seen as seen;
ghost use Rattle.type_scopes.specs.Found as found;
ghost use Rattle.typed_values.specs.Made as made;

use crate::known::{Known, known_of};
use crate::nodes::{abort, boxed, drawn, number_of, reach};
use c_tree::Expr;
use c_typed::Value;
use lv_base::{Kind, Memory, Text};
use std::alloc::Global;
use type_scopes::{Entity, Env, named_entity};

fn entity_parameters<'b>(entity: Option<&'b Entity>) -> &'b [Kind]
    ensures { result.now ≡ m.entity_parameters (found.some_entity (option_copied entity.entry)) }
{
    match entity {
        Some(Entity::Function(_, parameters)) => parameters,
        Some(Entity::Object(_)) => &[],
        Some(Entity::Constant(_)) => &[],
        Some(Entity::Typedef(_, _)) => &[],
        Some(Entity::Tag(_)) => &[],
        Some(Entity::Name(_, _)) => &[],
        None => &[],
    }
}

/// The kinds of the parameters of what is called.
#[tactic(auto, using(crate::proofs::Views::expr_Call, crate::proofs::Views::expr_Comma, crate::proofs::Views::expr_Cast, crate::proofs::Views::expr_SizeofType))]
pub fn parameters_of<'b>(env: &'b Env<'_>, f: &Expr) -> &'b [Kind]
    ensures { result.now ≡ m.parameters_of (seen.env_of env.now) (v.expr f.now) }
{
    match f {
        Expr::Name(name, at) => entity_parameters(named_entity(env, name.as_bytes(), *at)),
        Expr::Number(_, _, _) => &[],
        Expr::Letter(_, _) => &[],
        Expr::Paren(_, _, _) => &[],
        Expr::Call(_, _, _, _) => &[],
        Expr::Index(_, _, _, _) => &[],
        Expr::Postfix(_, _, _) => &[],
        Expr::Prefix(_, _, _) => &[],
        Expr::SizeofType(_, _, _, _) => &[],
        Expr::Cast(_, _, _, _) => &[],
        Expr::Binary(_, _, _, _) => &[],
        Expr::Cond(_, _, _, _, _) => &[],
        Expr::Assign(_, _, _, _) => &[],
        Expr::Comma(_) => &[],
    }
}

/// The kind of the parameter of this index.
pub fn parameter_kind(kinds: &[Kind], i: usize) -> Kind
    ensures { result ≡ slice_index_or kinds.now i kind.Int }
{
    match kinds.get(i) {
        None => Kind::Int,
        Some(kind) => *kind,
    }
}

// The number of the function with a body that has this name.
fn function_number(bodies: &[Text], name: &[u8]) -> Option<usize>
    ensures { result ≡ position (λ (n : List ℕ). bytes_eq n name.now) bodies.now }
{
    for (i, body) in bodies.iter().enumerate() {
        if body.as_bytes() == name {
            return Some(i);
        }
    }
    None
}

// A call of a function with a body.
#[tactic(auto, using(crate::proofs::Views::value_Call))]
fn call_node(
    declared_result: Option<Kind>,
    at: u32,
    bracket: u32,
    function: u32,
    arguments: Vec<Value>,
) -> Value
    ensures { tv.value result ≡ t.vCall declared_result at bracket function (tv.values_of arguments.items) }
{
    Value::Call(declared_result, at, bracket, function, arguments)
}

fn called(
    alloc: Global,
    declared_result: Option<Kind>,
    at: u32,
    bracket: u32,
    function: Option<usize>,
    arguments: Vec<Value>,
) -> Result<Box<Value>, Memory>
    ensures { IfOk result (λ r. tv.value r.value ≡ made.called declared_result at bracket function (tv.values_of arguments.items)) }
{
    match function {
        None => abort(alloc),
        Some(function) => {
            let number = number_of(function)?;
            boxed(
                alloc,
                call_node(declared_result, at, bracket, number, arguments),
            )
        }
    }
}

// A call of a function of this name, with what it means without a body.
fn called_known(
    alloc: Global,
    bodies: &[Text],
    known: Option<Known>,
    declared_result: Option<Kind>,
    name: &[u8],
    at: u32,
    bracket: u32,
    arguments: Vec<Value>,
) -> Result<Box<Value>, Memory>
    ensures { IfOk result (λ r. tv.value r.value ≡ made.called_known bodies.now (made.some_known known) declared_result name.now at bracket (tv.values_of arguments.items)) }
{
    match known {
        Some(Known::Reaches) => reach(alloc, at),
        Some(Known::Aborts) => abort(alloc),
        Some(Known::Draws(kind)) => drawn(alloc, declared_result, kind),
        None => {
            let function = function_number(bodies, name);
            called(alloc, declared_result, at, bracket, function, arguments)
        }
    }
}

fn called_entity(
    alloc: Global,
    bodies: &[Text],
    entity: Option<&Entity>,
    name: &[u8],
    at: u32,
    bracket: u32,
    arguments: Vec<Value>,
) -> Result<Box<Value>, Memory>
    ensures { IfOk result (λ r. tv.value r.value ≡ made.called_entity bodies.now (found.some_entity (option_copied entity.entry)) name.now at bracket (tv.values_of arguments.items)) }
{
    match entity {
        Some(Entity::Function(declared_result, _)) => {
            let known = known_of(name);
            called_known(
                alloc,
                bodies,
                known,
                *declared_result,
                name,
                at,
                bracket,
                arguments,
            )
        }
        Some(Entity::Object(_)) => abort(alloc),
        Some(Entity::Constant(_)) => abort(alloc),
        Some(Entity::Typedef(_, _)) => abort(alloc),
        Some(Entity::Tag(_)) => abort(alloc),
        Some(Entity::Name(_, _)) => abort(alloc),
        None => abort(alloc),
    }
}

/// A call of what stands before the `(`, on converted arguments (C11 6.5.2.2).
#[tactic(auto, using(crate::proofs::Views::expr_Call, crate::proofs::Views::expr_Comma, crate::proofs::Views::expr_Cast, crate::proofs::Views::expr_SizeofType))]
pub fn called_name(
    alloc: Global,
    env: &Env<'_>,
    bodies: &[Text],
    f: &Expr,
    bracket: u32,
    arguments: Vec<Value>,
) -> Result<Box<Value>, Memory>
    ensures { IfOk result (λ r. tv.value r.value ≡ made.called_name bodies.now (seen.env_of env.now) (v.expr f.now) bracket (tv.values_of arguments.items)) }
{
    match f {
        Expr::Name(name, at) => {
            let name = name.as_bytes();
            let entity = named_entity(env, name, *at);
            called_entity(alloc, bodies, entity, name, *at, bracket, arguments)
        }
        Expr::Number(_, _, _) => abort(alloc),
        Expr::Letter(_, _) => abort(alloc),
        Expr::Paren(_, _, _) => abort(alloc),
        Expr::Call(_, _, _, _) => abort(alloc),
        Expr::Index(_, _, _, _) => abort(alloc),
        Expr::Postfix(_, _, _) => abort(alloc),
        Expr::Prefix(_, _, _) => abort(alloc),
        Expr::SizeofType(_, _, _, _) => abort(alloc),
        Expr::Cast(_, _, _, _) => abort(alloc),
        Expr::Binary(_, _, _, _) => abort(alloc),
        Expr::Cond(_, _, _, _, _) => abort(alloc),
        Expr::Assign(_, _, _, _) => abort(alloc),
        Expr::Comma(_) => abort(alloc),
    }
}
