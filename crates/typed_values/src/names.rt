ghost use Rattle.std.specs.Prelude.{◌≡◌, IfOk};
ghost use Rattle.std.specs.Option.{option_copied, option_map};
ghost use Rattle.c_tree.specs.View as v;
ghost use Rattle.c_meaning.specs.Bindings as b;
ghost use Rattle.c_meaning.specs.Kinds as k;
ghost use Rattle.c_meaning.specs.Types as ty;
ghost use Rattle.c_meaning.specs.Value as m;
ghost use Rattle.c_typed.specs.View as tv;
ghost use Rattle.c_types.specs.Elaborated as el;
ghost use Rattle.type_scopes.specs.Seen as seen;
ghost use Rattle.type_scopes.specs.Found as found;

use crate::nodes::{constant, nothing, number_of};
use c_tree::{Expr, PrefixOp};
use c_typed::Value;
use lv_base::{Kind, Memory, Model};
use std::alloc::Global;
use type_kinds::kind_of;
use type_scopes::{Entity, Env, Object, named_entity, object_number, type_of};

/// The kind of an expression's value, and `int` of what has none.
pub fn kind_at(env: &Env<'_>, model: Model, e: &Expr) -> Kind
    ensures { result ≡ k.kind_of (ty.type_of (seen.env_of env.now) model (v.expr e.now)) }
{
    kind_of(type_of(env, model, e))
}

/// The object of a scalar or an array, through round brackets and `__extension__`.
#[tactic(auto, using(crate::proofs::Views::expr_Call, crate::proofs::Views::expr_Comma, crate::proofs::Views::expr_Cast, crate::proofs::Views::expr_SizeofType))]
pub fn base_of(env: &Env<'_>, e: &Expr) -> Option<u32>
    ensures { result ≡ m.base_of (seen.env_of env.now) (v.expr e.now) }
{
    match e {
        Expr::Name(name, at) => object_number(named_entity(env, name.as_bytes(), *at)),
        Expr::Paren(_, e, _) => base_of(env, e),
        Expr::Prefix(op, _, e) => match op {
            PrefixOp::Extension => base_of(env, e),
            PrefixOp::Increment => None,
            PrefixOp::Decrement => None,
            PrefixOp::Plus => None,
            PrefixOp::Minus => None,
            PrefixOp::Complement => None,
            PrefixOp::Not => None,
            PrefixOp::Sizeof => None,
        },
        Expr::Number(_, _, _) => None,
        Expr::Letter(_, _) => None,
        Expr::Call(_, _, _, _) => None,
        Expr::Index(_, _, _, _) => None,
        Expr::Postfix(_, _, _) => None,
        Expr::SizeofType(_, _, _, _) => None,
        Expr::Cast(_, _, _, _) => None,
        Expr::Binary(_, _, _, _) => None,
        Expr::Cond(_, _, _, _, _) => None,
        Expr::Assign(_, _, _, _) => None,
        Expr::Comma(_) => None,
    }
}

/// The array of an index, and a number that no object has where there is none.
pub fn array_of(env: &Env<'_>, base: Option<u32>) -> Result<u32, Memory>
    ensures { IfOk result (λ r. r ≡ el.or_none (seen.env_of env.now) base) }
{
    match base {
        None => number_of(env.objects.len()),
        Some(object) => Ok(object),
    }
}

/// The object that a name is assigned to by, and the first one where there is none.
pub fn or_first(object: Option<u32>) -> u32
    ensures { result ≡ el.or_first object }
{
    match object {
        None => 0,
        Some(object) => object,
    }
}

fn scalar_or_array(
    alloc: Global,
    number: u32,
    kind: Kind,
    length: Option<u64>,
) -> Result<Box<Value>, Memory>
    ensures { IfOk result (λ r. tv.value r.value ≡ el.scalar_or_array number kind length) }
{
    match length {
        None => Ok(Box::new(alloc, Value::Read(kind, number))?),
        Some(_) => Ok(Box::new(alloc, Value::Whole(number))?),
    }
}

fn object_value(
    alloc: Global,
    number: u32,
    object: Option<&Object<'_>>,
) -> Result<Box<Value>, Memory>
    ensures { IfOk result (λ r. tv.value r.value ≡ el.object_value number (option_map seen.object_of (option_copied object.entry))) }
{
    match object {
        None => Ok(Box::new(alloc, Value::Read(Kind::Int, number))?),
        Some(object) => scalar_or_array(alloc, number, object.kind, object.length),
    }
}

/// The value of what a name stands for (C11 6.5.1).
pub fn named_value(
    alloc: Global,
    env: &Env<'_>,
    entity: Option<&Entity>,
) -> Result<Box<Value>, Memory>
    ensures { IfOk result (λ r. tv.value r.value ≡ el.named_value (seen.env_of env.now) (found.some_entity (option_copied entity.entry))) }
{
    match entity {
        Some(Entity::Object(number)) => {
            object_value(alloc, *number, env.objects.get(*number as usize))
        }
        Some(Entity::Constant(value)) => constant(alloc, Kind::Int, *value),
        Some(Entity::Function(_, _)) => nothing(alloc),
        Some(Entity::Typedef(_, _)) => nothing(alloc),
        Some(Entity::Tag(_)) => nothing(alloc),
        Some(Entity::Name(_, _)) => nothing(alloc),
        None => nothing(alloc),
    }
}
