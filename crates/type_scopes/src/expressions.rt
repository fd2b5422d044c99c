ghost use Rattle.std.specs.Prelude.{◌≡◌, slice_get};
ghost use Rattle.std.specs.Option.{option_copied, option_map};
ghost use Rattle.c_tree.specs.Tree as t;
ghost use Rattle.c_tree.specs.View as v;
ghost use Rattle.c_meaning.specs.Bindings as b;
ghost use Rattle.c_meaning.specs.Types as ty;
ghost use Rattle.type_kinds.specs.Seen as kinds;
ghost use Rattle.type_scopes.specs.Seen as seen;
ghost use Rattle.type_scopes.specs.Found as found;

use crate::entries::{Entity, Env, Object};
use crate::look_ups::named_entity;
use crate::words::words_type;
use c_tree::{Expr, Listed};
use lv_base::{Kind, Model};
use type_kinds::{
    ExprType, arms_type, binary_type, called_type, element_type, number_kind, prefix_type,
    size_kind,
};

/// The type of an object.
pub fn object_type<'t>(object: Option<&Object<'_>>) -> ExprType<'t>
    ensures { kinds.type_of result ≡ b.object_type (option_map seen.object_of (option_copied object.entry)) }
{
    match object {
        None => ExprType::None,
        Some(object) => match object.length {
            None => ExprType::Kind(object.kind),
            Some(length) => ExprType::Array(object.kind, length),
        },
    }
}

/// The type of what a name stands for.
pub fn entity_type<'b, 'a>(env: &'b Env<'a>, entity: Option<&'b Entity>) -> ExprType<'b>
    ensures { kinds.type_of result ≡ b.entity_type (seen.env_of env.now) (found.some_entity (option_copied entity.entry)) }
{
    match entity {
        Some(Entity::Object(number)) => object_type(env.objects.get(*number as usize)),
        Some(Entity::Function(result_kind, parameters)) => {
            ExprType::Function(*result_kind, parameters)
        }
        Some(Entity::Constant(_)) => ExprType::Kind(Kind::Int),
        Some(Entity::Name(kind, _)) => ExprType::Kind(*kind),
        Some(Entity::Typedef(_, _)) => ExprType::None,
        Some(Entity::Tag(_)) => ExprType::None,
        None => ExprType::None,
    }
}

#[cycle(type_of)]
#[tactic(auto, using(crate::proofs::Rows::last_type_is))]
fn last_type<'b, 'a>(env: &'b Env<'a>, model: Model, parts: &[Listed]) -> ExprType<'b>
    ensures { kinds.type_of result ≡ ty.type_of_last (seen.env_of env.now) model (v.parts_of parts.now) }
{
    match parts {
        [] => ExprType::None,
        [.., part] => type_of(env, model, &part.value),
    }
}

/// The type of an expression (C11 6.5).
#[cycle(type_of)]
#[tactic(auto, using(crate::proofs::Views::expr_Call, crate::proofs::Views::expr_Comma, crate::proofs::Views::expr_Cast, crate::proofs::Views::expr_SizeofType))]
pub fn type_of<'b, 'a>(env: &'b Env<'a>, model: Model, e: &Expr) -> ExprType<'b>
    ensures { kinds.type_of result ≡ ty.type_of (seen.env_of env.now) model (v.expr e.now) }
{
    match e {
        Expr::Name(name, at) => entity_type(env, named_entity(env, name.as_bytes(), *at)),
        Expr::Number(value, form, _) => ExprType::Kind(number_kind(model, *value, *form)),
        Expr::Letter(_, _) => ExprType::Kind(Kind::Int),
        Expr::Paren(_, e, _) => type_of(env, model, e),
        Expr::Call(f, _, _, _) => called_type(type_of(env, model, f)),
        Expr::Index(a, _, _, _) => element_type(type_of(env, model, a)),
        Expr::Postfix(e, _, _) => type_of(env, model, e),
        Expr::Prefix(op, _, e) => prefix_type(model, *op, type_of(env, model, e)),
        Expr::SizeofType(_, _, _, _) => ExprType::Kind(size_kind(model)),
        Expr::Cast(_, specs, _, _) => words_type(env, specs),
        Expr::Binary(a, op, _, b) => {
            let a = type_of(env, model, a);
            binary_type(model, *op, a, type_of(env, model, b))
        }
        Expr::Cond(_, _, a, _, b) => {
            let a = type_of(env, model, a);
            arms_type(model, a, type_of(env, model, b))
        }
        Expr::Assign(a, _, _, _) => type_of(env, model, a),
        Expr::Comma(parts) => last_type(env, model, parts),
    }
}
