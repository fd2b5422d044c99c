ghost use Rattle.std.specs.Prelude.{◌≡◌, slice_get};
ghost use Rattle.std.specs.Option.{option_copied, option_map};
ghost use Rattle.std.specs.List.{list_any};
ghost use Rattle.std.specs.Prelude.{bytes_eq, ℕ, List};
ghost use Rattle.c_tree.specs.View as v;
ghost use Rattle.c_meaning.specs.Bindings as b;
ghost use Rattle.c_meaning.specs.Rules as r;
ghost use Rattle.type_scopes.specs.Seen as seen;
ghost use Rattle.type_scopes.specs.Found as found;
ghost use Rattle.typing_rules.specs.Summed as s;

use c_tree::{Expr, PrefixOp};
use lv_base::Text;
use type_kinds::is_kind;
use type_scopes::{Entity, Env, Object, entity_type, named_entity};
use typed_values::known_of;

/// Whether what a name stands for has a value, or is a function.
pub fn is_value_name(entity: Option<&Entity>) -> bool
    ensures { result ≡ r.is_value_name (found.some_entity (option_copied entity.entry)) }
{
    match entity {
        Some(Entity::Object(_)) => true,
        Some(Entity::Function(_, _)) => true,
        Some(Entity::Constant(_)) => true,
        Some(Entity::Name(_, _)) => true,
        Some(Entity::Typedef(_, _)) => false,
        Some(Entity::Tag(_)) => false,
        None => false,
    }
}

/// Whether a name stands for an object or a prototype's parameter.
pub fn is_object_name(entity: Option<&Entity>) -> bool
    ensures { result ≡ r.is_object_name (found.some_entity (option_copied entity.entry)) }
{
    match entity {
        Some(Entity::Object(_)) => true,
        Some(Entity::Name(_, _)) => true,
        Some(Entity::Function(_, _)) => false,
        Some(Entity::Constant(_)) => false,
        Some(Entity::Typedef(_, _)) => false,
        Some(Entity::Tag(_)) => false,
        None => false,
    }
}

fn is_const_object(object: Option<&Object<'_>>) -> bool
    ensures { result ≡ b.is_const_object (option_map seen.object_of (option_copied object.entry)) }
{
    match object {
        None => false,
        Some(object) => object.is_const,
    }
}

fn is_const_name(env: &Env<'_>, entity: Option<&Entity>) -> bool
    ensures { result ≡ s.is_const_name (seen.env_of env.now) (found.some_entity (option_copied entity.entry)) }
{
    match entity {
        Some(Entity::Object(number)) => is_const_object(env.objects.get(*number as usize)),
        Some(Entity::Name(_, is_const)) => *is_const,
        Some(Entity::Function(_, _)) => false,
        Some(Entity::Constant(_)) => false,
        Some(Entity::Typedef(_, _)) => false,
        Some(Entity::Tag(_)) => false,
        None => false,
    }
}

fn is_scalar_name(env: &Env<'_>, entity: Option<&Entity>) -> bool
    ensures { result ≡ s.is_scalar_name (seen.env_of env.now) (found.some_entity (option_copied entity.entry)) }
{
    is_object_name(entity) && is_kind(entity_type(env, entity))
}

/// Whether an expression is an object that is no array, or an element, so that it may be assigned to (C11 6.3.2.1 p1). Round
/// brackets and `__extension__` are looked through.
#[tactic(auto, using(crate::proofs::Views::expr_Call, crate::proofs::Views::expr_Comma, crate::proofs::Views::expr_Cast, crate::proofs::Views::expr_SizeofType))]
pub fn is_target(env: &Env<'_>, e: &Expr) -> bool
    ensures { result ≡ s.is_target (seen.env_of env.now) (v.expr e.now) }
{
    match e {
        Expr::Name(name, at) => is_scalar_name(env, named_entity(env, name.as_bytes(), *at)),
        Expr::Index(_, _, _, _) => true,
        Expr::Paren(_, e, _) => is_target(env, e),
        Expr::Prefix(op, _, e) => match op {
            PrefixOp::Extension => is_target(env, e),
            PrefixOp::Increment => false,
            PrefixOp::Decrement => false,
            PrefixOp::Plus => false,
            PrefixOp::Minus => false,
            PrefixOp::Complement => false,
            PrefixOp::Not => false,
            PrefixOp::Sizeof => false,
        },
        Expr::Number(_, _, _) => false,
        Expr::Letter(_, _) => false,
        Expr::Call(_, _, _, _) => false,
        Expr::Postfix(_, _, _) => false,
        Expr::SizeofType(_, _, _, _) => false,
        Expr::Cast(_, _, _, _) => false,
        Expr::Binary(_, _, _, _) => false,
        Expr::Cond(_, _, _, _, _) => false,
        Expr::Assign(_, _, _, _) => false,
        Expr::Comma(_) => false,
    }
}

/// Whether what is written there is `const`: the object, or the array of the element.
#[tactic(auto, using(crate::proofs::Views::expr_Call, crate::proofs::Views::expr_Comma, crate::proofs::Views::expr_Cast, crate::proofs::Views::expr_SizeofType))]
pub fn is_const_target(env: &Env<'_>, e: &Expr) -> bool
    ensures { result ≡ s.is_const_target (seen.env_of env.now) (v.expr e.now) }
{
    match e {
        Expr::Name(name, at) => is_const_name(env, named_entity(env, name.as_bytes(), *at)),
        Expr::Index(a, _, _, _) => is_const_target(env, a),
        Expr::Paren(_, e, _) => is_const_target(env, e),
        Expr::Prefix(op, _, e) => match op {
            PrefixOp::Extension => is_const_target(env, e),
            PrefixOp::Increment => false,
            PrefixOp::Decrement => false,
            PrefixOp::Plus => false,
            PrefixOp::Minus => false,
            PrefixOp::Complement => false,
            PrefixOp::Not => false,
            PrefixOp::Sizeof => false,
        },
        Expr::Number(_, _, _) => false,
        Expr::Letter(_, _) => false,
        Expr::Call(_, _, _, _) => false,
        Expr::Postfix(_, _, _) => false,
        Expr::SizeofType(_, _, _, _) => false,
        Expr::Cast(_, _, _, _) => false,
        Expr::Binary(_, _, _, _) => false,
        Expr::Cond(_, _, _, _, _) => false,
        Expr::Assign(_, _, _, _) => false,
        Expr::Comma(_) => false,
    }
}

fn has_body(bodies: &[Text], name: &[u8]) -> bool
    ensures { result ≡ list_any (λ (m : List ℕ). bytes_eq m name.now) bodies.now }
{
    bodies.iter().any(|body| body.is(name))
}

/// Whether a function of this name has a body, or means something without one.
pub fn is_callable(bodies: &[Text], name: &[u8]) -> bool
    ensures { result ≡ s.is_callable bodies.now name.now }
{
    has_body(bodies, name) || known_of(name).is_some()
}

/// Whether this is a function that takes so many arguments.
pub fn takes(entity: Option<&Entity>, count: usize) -> bool
    ensures { result ≡ s.takes (found.some_entity (option_copied entity.entry)) count }
{
    match entity {
        Some(Entity::Function(_, parameters)) => parameters.len() == count,
        Some(Entity::Object(_)) => false,
        Some(Entity::Constant(_)) => false,
        Some(Entity::Typedef(_, _)) => false,
        Some(Entity::Tag(_)) => false,
        Some(Entity::Name(_, _)) => false,
        None => false,
    }
}
