ghost use Rattle.std.specs.Prelude.{◌≡◌};
ghost use Rattle.c_tree.specs.View as v;
ghost use Rattle.c_meaning.specs.Bindings as b;
ghost use Rattle.first_broken.specs.Seen as lines;
ghost use Rattle.type_scopes.specs.Seen as seen;
ghost use Rattle.typing_rules.specs.Summed as s;

use crate::entities::{is_callable, is_const_target, is_target, takes};
use crate::offsets::Offsets;
use c_tree::{Expr, Listed, PrefixOp, Specs};
use first_broken::{Found, both, line, none};
use lv_base::{Kind, Model, SourceFault, Text, in_range};
use tree_places::{count_parts, first_of, own_token};
use type_constants::{constant, is_constant};
use type_kinds::{ExprType, is_array, is_kind, is_void};
use type_scopes::{Env, constant_value, declared_entity, named_entity, type_of, words_type};

/// An array, a function or void stands where a value must (C11 6.3.2.1).
pub fn value_line(env: &Env<'_>, model: Model, e: &Expr) -> Found
    ensures { lines.found_of result ≡ s.value_found (seen.env_of env.now) model (v.expr e.now) }
{
    let test = !is_kind(type_of(env, model, e));
    line(test, SourceFault::NotScalar, own_token(e))
}

/// The last part of a comma expression is a value or void.
#[tactic(auto, using(crate::proofs::Rows::last_is))]
pub fn last_line(env: &Env<'_>, model: Model, parts: &[Listed]) -> Found
    ensures { lines.found_of result ≡ s.last_found (seen.env_of env.now) model (v.parts_of parts.now) }
{
    match parts {
        [] => none(),
        [.., part] => value_or_void(env, model, &part.value),
    }
}

fn value_or_void(env: &Env<'_>, model: Model, e: &Expr) -> Found
    ensures { lines.found_of result ≡ s.value_or_void (seen.env_of env.now) model (v.expr e.now) }
{
    let of = type_of(env, model, e);
    line(
        !(is_kind(of) || is_void(of)),
        SourceFault::NotScalar,
        own_token(e),
    )
}

/// The name is declared a second time in its scope (C11 6.7 p3).
pub fn declared_line(again: &Offsets, at: u32) -> Found
    ensures { lines.found_of result ≡ s.declared_found again.now at }
{
    line(again.holds(at), SourceFault::Redeclared, at)
}

/// What is assigned to is an object or an element (C11 6.5.16 p2), and not `const`.
pub fn target_lines(env: &Env<'_>, at: u32, e: &Expr) -> Found
    ensures { lines.found_of result ≡ s.target_found (seen.env_of env.now) at (v.expr e.now) }
{
    let written = is_target(env, e);
    let wrong = line(!written, SourceFault::NotScalar, at);
    let test = written && is_const_target(env, e);
    both(wrong, line(test, SourceFault::ConstWritten, at))
}

/// What is called is the name of a function that has a body or a meaning of its own, with as many arguments as parameters
/// (C11 6.5.2.2).
#[tactic(auto, using(crate::proofs::Views::expr_Call, crate::proofs::Views::expr_Comma, crate::proofs::Views::expr_Cast, crate::proofs::Views::expr_SizeofType))]
pub fn callee_line(env: &Env<'_>, bodies: &[Text], f: &Expr, bracket: u32, count: usize) -> Found
    ensures { lines.found_of result ≡ s.callee_found (seen.env_of env.now) bodies.now (v.expr f.now) bracket count }
{
    match f {
        Expr::Name(name, at) => named_line(env, bodies, name, *at, count),
        Expr::Number(_, _, _) => wrong_call(bracket),
        Expr::Letter(_, _) => wrong_call(bracket),
        Expr::Paren(_, _, _) => wrong_call(bracket),
        Expr::Call(_, _, _, _) => wrong_call(bracket),
        Expr::Index(_, _, _, _) => wrong_call(bracket),
        Expr::Postfix(_, _, _) => wrong_call(bracket),
        Expr::Prefix(_, _, _) => wrong_call(bracket),
        Expr::SizeofType(_, _, _, _) => wrong_call(bracket),
        Expr::Cast(_, _, _, _) => wrong_call(bracket),
        Expr::Binary(_, _, _, _) => wrong_call(bracket),
        Expr::Cond(_, _, _, _, _) => wrong_call(bracket),
        Expr::Assign(_, _, _, _) => wrong_call(bracket),
        Expr::Comma(_) => wrong_call(bracket),
    }
}

fn wrong_call(at: u32) -> Found
    ensures { lines.found_of result ≡ s.wrong_call at }
{
    line(true, SourceFault::WrongCall, at)
}

fn named_line(env: &Env<'_>, bodies: &[Text], name: &Text, at: u32, count: usize) -> Found
    ensures { lines.found_of result ≡ s.named_found (seen.env_of env.now) bodies.now name.now at count }
{
    let test = !is_right_call(env, bodies, name.as_bytes(), at, count);
    line(test, SourceFault::WrongCall, at)
}

fn is_right_call(env: &Env<'_>, bodies: &[Text], name: &[u8], at: u32, count: usize) -> bool
    ensures { result ≡ s.is_right_call (seen.env_of env.now) bodies.now name.now at count }
{
    takes(named_entity(env, name, at), count) && is_callable(bodies, name)
}

/// Both arms of `? :` are void, or both are values (C11 6.5.15 p3).
fn arm_lines(env: &Env<'_>, model: Model, a: &Expr, b: &Expr) -> Found
    ensures { lines.found_of result ≡ s.arms_found (seen.env_of env.now) model (v.expr a.now) (v.expr b.now) }
{
    if is_void(type_of(env, model, a)) && is_void(type_of(env, model, b)) {
        none()
    } else {
        both(value_line(env, model, a), value_line(env, model, b))
    }
}

/// What `? :` asks of its parts.
pub fn cond_lines(env: &Env<'_>, model: Model, c: &Expr, a: &Expr, b: &Expr) -> Found
    ensures { lines.found_of result ≡ s.cond_found (seen.env_of env.now) model (v.expr c.now) (v.expr a.now) (v.expr b.now) }
{
    both(value_line(env, model, c), arm_lines(env, model, a, b))
}

/// A constant expression is a constant that is not undefined (C11 6.6).
pub fn constant_lines(env: &Env<'_>, model: Model, e: &Expr) -> Found
    ensures { lines.found_of result ≡ s.constant_found (seen.env_of env.now) model (v.expr e.now) }
{
    let undefined = is_kind(type_of(env, model, e)) && constant(env, model, e).is_none();
    let test = !is_constant(env, e) || undefined;
    both(
        value_line(env, model, e),
        line(test, SourceFault::NotConstant, first_of(e)),
    )
}

/// The value of the constant whose name is this token lies in `int` (C11 6.7.2.2 p2); where it doesn't, that is told at `at`.
pub fn range_line(env: &Env<'_>, model: Model, name: u32, at: u32) -> Found
    ensures { lines.found_of result ≡ s.range_found (seen.env_of env.now) model name at }
{
    let value = constant_value(declared_entity(env, name));
    line(
        !in_range(Kind::Int, model, value),
        SourceFault::NotConstant,
        at,
    )
}

/// What an operator in front asks of its operand.
pub fn prefix_lines(env: &Env<'_>, model: Model, op: PrefixOp, at: u32, e: &Expr) -> Found
    ensures { lines.found_of result ≡ s.prefix_found (seen.env_of env.now) model op at (v.expr e.now) }
{
    match op {
        PrefixOp::Increment => target_lines(env, at, e),
        PrefixOp::Decrement => target_lines(env, at, e),
        PrefixOp::Extension => none(),
        PrefixOp::Sizeof => sizeof_line(env, model, e),
        PrefixOp::Plus => value_line(env, model, e),
        PrefixOp::Minus => value_line(env, model, e),
        PrefixOp::Complement => value_line(env, model, e),
        PrefixOp::Not => value_line(env, model, e),
    }
}

fn sizeof_line(env: &Env<'_>, model: Model, e: &Expr) -> Found
    ensures { lines.found_of result ≡ s.sizeof_found (seen.env_of env.now) model (v.expr e.now) }
{
    let of = type_of(env, model, e);
    line(
        !(is_kind(of) || is_array(of)),
        SourceFault::NotScalar,
        own_token(e),
    )
}

/// A cast to void takes any operand, another one a value (C11 6.5.4).
pub fn cast_lines(env: &Env<'_>, model: Model, specs: &Specs, e: &Expr) -> Found
    ensures { lines.found_of result ≡ s.cast_found (seen.env_of env.now) model (b.words_type (seen.env_of env.now) (v.words_of specs.now)) (v.expr e.now) }
{
    match words_type(env, specs) {
        ExprType::Void => none(),
        ExprType::Kind(_) => value_line(env, model, e),
        ExprType::Array(_, _) => value_line(env, model, e),
        ExprType::Function(_, _) => value_line(env, model, e),
        ExprType::None => value_line(env, model, e),
    }
}

/// Each argument is a value.
#[tactic(auto, using(crate::proofs::Rows::values_more, std::proofs::lemmas::List::take_all))]
pub fn value_lines(env: &Env<'_>, model: Model, parts: &[Listed]) -> Found
    ensures { lines.found_of result ≡ s.values_found (seen.env_of env.now) model (v.parts_of parts.now) }
{
    let mut all = none();
    for part in parts {
        all = both(all, value_line(env, model, &part.value));
    }
    all
}

/// What a call asks of its name and its arguments.
pub fn call_lines(
    env: &Env<'_>,
    model: Model,
    bodies: &[Text],
    f: &Expr,
    bracket: u32,
    arguments: &[Listed],
) -> Found
    ensures { lines.found_of result ≡ s.call_found (seen.env_of env.now) model bodies.now (v.expr f.now) bracket (v.parts_of arguments.now) }
{
    let callee = callee_line(env, bodies, f, bracket, count_parts(arguments));
    both(callee, value_lines(env, model, arguments))
}

/// An element is one of an array, by a value (C11 6.5.2.1 p1).
pub fn index_lines(env: &Env<'_>, model: Model, a: &Expr, bracket: u32, i: &Expr) -> Found
    ensures { lines.found_of result ≡ s.index_found (seen.env_of env.now) model (v.expr a.now) bracket (v.expr i.now) }
{
    let test = !is_array(type_of(env, model, a));
    both(
        line(test, SourceFault::NotScalar, bracket),
        value_line(env, model, i),
    )
}
