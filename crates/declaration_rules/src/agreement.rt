ghost use Rattle.std.specs.Prelude.{◌≡◌, ◌&&◌, length, IfOk};
ghost use Rattle.c_tree.specs.View as v;
ghost use Rattle.c_meaning.specs.Constants as c;
ghost use Rattle.type_scopes.specs.Seen as seen;
ghost use Rattle.declaration_rules.specs.Twice as t;

use c_tree::{Expr, Form, Initial, Parameters, Specs};
use lv_base::{Kind, Memory, Model};
use std::alloc::Global;
use tree_places::count_parts;
use type_constants::constant;
use type_kinds::{is_same_kind, kind_in, kind_or_int};
use type_scopes::{Env, What, has_const, parameter_kinds, words_type};

fn both_same(x: bool, y: bool) -> bool
    ensures { result ≡ (x && y) }
{
    x && y
}

// Lists of one length.
#[tactic(auto, using(crate::proofs::KindRows::same_more, std::proofs::lemmas::List::take_all))]
fn all_same(xs: &[Kind], ys: &[Kind]) -> bool
    requires { length xs.now ≡ length ys.now }
    ensures { result ≡ t.same_kinds xs.now ys.now }
{
    let mut same = true;
    for (i, x) in xs.iter().enumerate() {
        same = both_same(same, is_same_kind(*x, ys[i]));
    }
    same
}

#[tactic(auto, using(crate::proofs::KindRows::differ))]
pub(crate) fn same_kinds(xs: &[Kind], ys: &[Kind]) -> bool
    ensures { result ≡ t.same_kinds xs.now ys.now }
{
    if xs.len() == ys.len() {
        all_same(xs, ys)
    } else {
        false
    }
}

/// Whether two results of functions are one, none being `void`.
pub(crate) fn same_result(x: Option<Kind>, y: Option<Kind>) -> bool
    ensures { result ≡ t.same_result x y }
{
    match x {
        None => y.is_none(),
        Some(x) => match y {
            None => false,
            Some(y) => is_same_kind(x, y),
        },
    }
}

fn same_length(x: Option<u64>, y: Option<u64>) -> bool
    ensures { result ≡ t.same_length x y }
{
    match x {
        None => y.is_none(),
        Some(x) => match y {
            None => false,
            Some(y) => x == y || (x == 0 || y == 0),
        },
    }
}

pub(crate) fn same_const(x: bool, y: bool) -> bool
    ensures { result ≡ t.same_const x y }
{
    if x { y } else { !y }
}

pub(crate) fn begins(initial: &Initial) -> bool
    ensures { result ≡ t.begins (v.initial_of initial.now) }
{
    match initial {
        Initial::Nothing => false,
        Initial::Value(_, _) => true,
        Initial::List(_, _, _, _, _) => true,
    }
}

fn listed(initial: &Initial) -> usize
    ensures { result ≡ c.listed (v.initial_of initial.now) }
{
    match initial {
        Initial::List(_, _, parts, _, _) => count_parts(parts),
        Initial::Nothing => 0,
        Initial::Value(_, _) => 0,
    }
}

fn length_from(value: Option<i128>) -> u64
    ensures { result ≡ c.length_from value }
{
    match value {
        None => 0,
        Some(value) => {
            if value < 1 {
                0
            } else if value > u64::MAX as i128 {
                u64::MAX
            } else {
                value as u64
            }
        }
    }
}

fn array_length(env: &Env<'_>, model: Model, e: &Option<Box<Expr>>, initial: &Initial) -> u64
    ensures { result ≡ c.array_length (seen.env_of env.now) model (v.option_expr e.now) (v.initial_of initial.now) }
{
    match e {
        None => listed(initial) as u64,
        Some(e) => length_from(constant(env, model, e)),
    }
}

/// The length of a declared array.
pub(crate) fn whole_length(
    env: &Env<'_>,
    model: Model,
    form: &Form,
    initial: &Initial,
) -> Option<u64>
    ensures { result ≡ c.object_length (seen.env_of env.now) model (v.form_of form.now) (v.initial_of initial.now) }
{
    match form {
        Form::Array(_, e, _) => Some(array_length(env, model, e, initial)),
        Form::Plain => None,
        Form::Function(_) => None,
    }
}

fn objects_agree(
    env: &Env<'_>,
    model: Model,
    specs: &Specs,
    form: &Form,
    initial: &Initial,
    others: &Specs,
    other: &Form,
    begun: &Initial,
) -> bool
    ensures { result ≡ t.objects_agree (seen.env_of env.now) model (v.words_of specs.now) (v.form_of form.now) (v.initial_of initial.now) (v.words_of others.now) (v.form_of other.now) (v.initial_of begun.now) }
{
    let kind = kind_or_int(words_type(env, specs));
    let length = whole_length(env, model, form, initial);
    is_same_kind(kind, kind_or_int(words_type(env, others)))
        && (same_length(length, whole_length(env, model, other, begun))
            && (same_const(has_const(env, specs), has_const(env, others))
                && !(begins(initial) && begins(begun))))
}

fn functions_agree(
    alloc: Global,
    env: &Env<'_>,
    specs: &Specs,
    parameters: &Parameters,
    body: bool,
    others: &Specs,
    list: &Parameters,
    other: bool,
) -> Result<bool, Memory>
    ensures { IfOk result (λ r. r ≡ t.functions_agree (seen.env_of env.now) (v.words_of specs.now) (v.parameters_of parameters.now) body (v.words_of others.now) (v.parameters_of list.now) other) }
{
    let kinds = parameter_kinds(alloc, env, parameters)?;
    let other_kinds = parameter_kinds(alloc, env, list)?;
    let first = kind_in(words_type(env, specs));
    let second = kind_in(words_type(env, others));
    Ok(same_result(first, second) && (same_kinds(&kinds, &other_kinds) && !(body && other)))
}

/// Whether two declarations of one object or function agree: in kind, length and `const` of the object, or in the kinds of
/// result and parameters; at most one of them initializes or has a body.
///
/// Fails with `Memory`.
pub fn agree(
    alloc: Global,
    env: &Env<'_>,
    model: Model,
    x: &What<'_>,
    y: &What<'_>,
) -> Result<bool, Memory>
    ensures { IfOk result (λ r. r ≡ t.agrees (seen.env_of env.now) model (seen.what_of x.now) (seen.what_of y.now)) }
{
    match x {
        What::Object(specs, form, initial) => match y {
            What::Object(others, other, begun) => {
                Ok(objects_agree(env, model, specs, form, initial, others, other, begun))
            }
            What::Parameter(_) => Ok(false),
            What::Function(_, _, _) => Ok(false),
            What::Typedef(_) => Ok(false),
            What::Constant(_) => Ok(false),
            What::Tag(_) => Ok(false),
            What::Name(_) => Ok(false),
        },
        What::Function(specs, parameters, body) => match y {
            What::Function(others, list, other) => {
                functions_agree(alloc, env, specs, parameters, *body, others, list, *other)
            }
            What::Object(_, _, _) => Ok(false),
            What::Parameter(_) => Ok(false),
            What::Typedef(_) => Ok(false),
            What::Constant(_) => Ok(false),
            What::Tag(_) => Ok(false),
            What::Name(_) => Ok(false),
        },
        What::Parameter(_) => Ok(false),
        What::Typedef(_) => Ok(false),
        What::Constant(_) => Ok(false),
        What::Tag(_) => Ok(false),
        What::Name(_) => Ok(false),
    }
}
