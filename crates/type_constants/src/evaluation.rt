ghost use Rattle.std.specs.Prelude.{◌≡◌, pos, Some};
ghost use Rattle.std.specs.Option.{option_copied};
ghost use Rattle.c_tree.specs.View as v;
ghost use Rattle.c_meaning.specs.Bindings as b;
ghost use Rattle.c_meaning.specs.Constants as c;
ghost use Rattle.c_meaning.specs.Kinds as k;
ghost use Rattle.type_scopes.specs.Seen as seen;
ghost use Rattle.type_scopes.specs.Found as found;
ghost use Rattle.type_constants.specs.Evaluated as ev;

use crate::operations::{binary_constant, cast_constant, cond_constant, prefix_constant};
use c_tree::{Expr, PrefixOp, Specs};
use lv_base::Model;
use type_kinds::{is_kind, kind_of, size_of};
use type_scopes::{Entity, Env, named_entity, type_of, words_type};

/// Whether a name stands for an object.
pub fn is_object(entity: Option<&Entity>) -> bool
    ensures { result ≡ c.is_object (found.some_entity (option_copied entity.entry)) }
{
    match entity {
        Some(Entity::Object(_)) => true,
        Some(Entity::Name(_, _)) => true,
        Some(Entity::Function(_, _)) => false,
        Some(Entity::Constant(_)) => false,
        Some(Entity::Typedef(_, _)) => false,
        Some(Entity::Tag(_)) => false,
        None => false,
    }
}

/// Whether an expression may stand as a constant: outside of `sizeof` no object's name, call, assignment, `++`, `--` or
/// comma stands in it (C11 6.6).
#[tactic(auto, using(crate::proofs::Views::expr_Call, crate::proofs::Views::expr_Comma, crate::proofs::Views::expr_Cast, crate::proofs::Views::expr_SizeofType))]
pub fn is_constant(env: &Env<'_>, e: &Expr) -> bool
    ensures { result ≡ c.is_constant (seen.env_of env.now) (v.expr e.now) }
{
    match e {
        Expr::Name(name, at) => !is_object(named_entity(env, name.as_bytes(), *at)),
        Expr::Number(_, _, _) => true,
        Expr::Letter(_, _) => true,
        Expr::Paren(_, e, _) => is_constant(env, e),
        Expr::Call(_, _, _, _) => false,
        Expr::Index(a, _, i, _) => is_constant(env, a) && is_constant(env, i),
        Expr::Postfix(_, _, _) => false,
        Expr::Prefix(op, _, e) => match op {
            PrefixOp::Increment => false,
            PrefixOp::Decrement => false,
            PrefixOp::Sizeof => true,
            PrefixOp::Plus => is_constant(env, e),
            PrefixOp::Minus => is_constant(env, e),
            PrefixOp::Complement => is_constant(env, e),
            PrefixOp::Not => is_constant(env, e),
            PrefixOp::Extension => is_constant(env, e),
        },
        Expr::SizeofType(_, _, _, _) => true,
        Expr::Cast(_, _, _, e) => is_constant(env, e),
        Expr::Binary(a, _, _, b) => is_constant(env, a) && is_constant(env, b),
        Expr::Cond(c, _, a, _, b) => {
            is_constant(env, c) && (is_constant(env, a) && is_constant(env, b))
        }
        Expr::Assign(_, _, _, _) => false,
        Expr::Comma(_) => false,
    }
}

fn named_constant(entity: Option<&Entity>) -> Option<i128>
    ensures { result ≡ ev.named_constant (found.some_entity (option_copied entity.entry)) }
{
    match entity {
        Some(Entity::Object(_)) => None,
        Some(Entity::Constant(value)) => Some(*value),
        Some(Entity::Name(_, _)) => Some(0),
        Some(Entity::Function(_, _)) => Some(0),
        Some(Entity::Typedef(_, _)) => Some(0),
        Some(Entity::Tag(_)) => Some(0),
        None => Some(0),
    }
}

fn size_of_words(env: &Env<'_>, model: Model, specs: &Specs) -> Option<i128>
    ensures { result ≡ Some (pos (k.size_of model (b.words_type (seen.env_of env.now) (v.words_of specs.now)))) }
{
    Some(size_of(model, words_type(env, specs)) as i128)
}

fn cast_of(env: &Env<'_>, model: Model, specs: &Specs, value: Option<i128>) -> Option<i128>
    ensures { result ≡ ev.cast_constant model (b.words_type (seen.env_of env.now) (v.words_of specs.now)) value }
{
    cast_constant(model, words_type(env, specs), value)
}

// The value of an expression that is constant.
#[tactic(auto, using(crate::proofs::Views::expr_Call, crate::proofs::Views::expr_Comma, crate::proofs::Views::expr_Cast, crate::proofs::Views::expr_SizeofType))]
fn evaluated(env: &Env<'_>, model: Model, e: &Expr) -> Option<i128>
    ensures { result ≡ ev.evaluated (seen.env_of env.now) model (v.expr e.now) }
{
    match e {
        Expr::Name(name, at) => named_constant(named_entity(env, name.as_bytes(), *at)),
        Expr::Number(value, _, _) => Some(*value as i128),
        Expr::Letter(value, _) => Some(*value as i128),
        Expr::Paren(_, e, _) => evaluated(env, model, e),
        Expr::Call(_, _, _, _) => None,
        Expr::Index(_, _, _, _) => None,
        Expr::Postfix(_, _, _) => None,
        Expr::Prefix(op, _, e) => {
            let value = evaluated(env, model, e);
            prefix_constant(*op, model, type_of(env, model, e), value)
        }
        Expr::SizeofType(_, _, specs, _) => size_of_words(env, model, specs),
        Expr::Cast(_, specs, _, e) => {
            let value = evaluated(env, model, e);
            cast_of(env, model, specs, value)
        }
        Expr::Binary(a, op, _, b) => {
            let k = kind_of(type_of(env, model, a));
            let l = kind_of(type_of(env, model, b));
            let x = evaluated(env, model, a);
            binary_constant(*op, model, k, l, x, evaluated(env, model, b))
        }
        Expr::Cond(c, _, a, _, b) => {
            let test = evaluated(env, model, c);
            let x = evaluated(env, model, a);
            cond_constant(
                model,
                type_of(env, model, e),
                test,
                x,
                evaluated(env, model, b),
            )
        }
        Expr::Assign(_, _, _, _) => None,
        Expr::Comma(_) => None,
    }
}

/// The value of a constant expression. None where an expression is no constant, has no value, or is undefined, since its
/// evaluation ends in an error.
#[tactic(auto, using(crate::proofs::Values::constant_is))]
pub fn constant(env: &Env<'_>, model: Model, e: &Expr) -> Option<i128>
    ensures { result ≡ c.constant_of (seen.env_of env.now) model (v.expr e.now) }
{
    if is_constant(env, e) && is_kind(type_of(env, model, e)) {
        evaluated(env, model, e)
    } else {
        None
    }
}
