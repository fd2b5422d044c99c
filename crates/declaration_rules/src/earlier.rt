ghost use Rattle.std.specs.Prelude.{◌≡◌, length, slice_get, take, IfOk, Some};
ghost use Rattle.std.specs.List.{list_any};
ghost use Rattle.c_tree.specs.View as v;
ghost use Rattle.type_scopes.specs.Seen as seen;
ghost use Rattle.type_scopes.specs.Walking as walk;
ghost use Rattle.declaration_rules.specs.Earlier as p;
ghost use Rattle.declaration_rules.specs.Twice as t;

use crate::agreement::{begins, same_const, same_kinds, same_result, whole_length};
use c_tree::{Form, Initial, Parameters, Specs};
use lv_base::{Memory, Model};
use std::alloc::Global;
use type_kinds::{is_same_kind, kind_in, kind_or_int};
use type_scopes::{
    Entry, Env, What, has_const, is_file, is_same, is_tag, parameter_kinds, words_type,
};

/// What is known of all declarations before one, of its name in its scope: whether there are any, and whether some of them is
/// of another type, initializes or has a body. `length` is the last one of an array among them but for 0, and `lengths` whether
/// two of these differ.
#[derive(Clone, Copy)]
pub(crate) struct Past {
    pub(crate) met: bool,
    pub(crate) apart: bool,
    pub(crate) filled: bool,
    pub(crate) length: u64,
    pub(crate) lengths: bool,
}

fn nothing() -> Past
    ensures { result ≡ p.nothing }
{
    Past {
        met: false,
        apart: false,
        filled: false,
        length: 0,
        lengths: false,
    }
}

fn same_space(x: &What<'_>, y: &What<'_>) -> bool
    ensures { result ≡ t.same_space (seen.what_of x.now) (seen.what_of y.now) }
{
    if is_tag(x) { is_tag(y) } else { !is_tag(y) }
}

// Whether two declarations are in one name space and one scope, and have one name. A parameter without a name has none.
fn meets(x: &Entry<'_>, y: &Entry<'_>) -> bool
    ensures { result ≡ t.meets (seen.declared_of x.now) (seen.declared_of y.now) }
{
    same_space(&x.what, &y.what)
        && is_same(x.scope, y.scope)
        && x.name == y.name
        && 0 < x.name.len()
}

fn meets_at(env: &Env<'_>, place: usize, entry: &Entry<'_>) -> bool
    ensures { result ≡ walk.holds_at (p.is_met (seen.declared_of entry.now)) (slice_get (seen.env_of env.now).entries place) }
{
    match env.entries.get(place) {
        None => false,
        Some(earlier) => meets(entry, earlier),
    }
}

// One more than the place of the last declaration before this one that it meets, and 0 where there is none.
fn twin_met(env: &Env<'_>, place: usize, entry: &Entry<'_>) -> usize
    requires { slice_get env.now.entries place ≡ Some entry.now }
    ensures { result ≡ walk.last_where (p.is_met (seen.declared_of entry.now)) (seen.env_of env.now).entries place }
{
    let mut left = env.entries.twin_before(place);
    'twins: while left > 0 {
        if meets_at(env, left - 1, entry) {
            return left;
        }
        left = env.entries.twin_before(left - 1);
    }
    0
}

// The same. A declaration without a name meets none, however many of them there are.
fn last_met(env: &Env<'_>, place: usize, entry: &Entry<'_>) -> usize
    requires { slice_get env.now.entries place ≡ Some entry.now }
    ensures { result ≡ walk.last_where (p.is_met (seen.declared_of entry.now)) (seen.env_of env.now).entries place }
{
    if entry.name.len() == 0 {
        0
    } else {
        twin_met(env, place, entry)
    }
}

fn same_shape(x: Option<u64>, y: Option<u64>) -> bool
    ensures { result ≡ p.same_shape x y }
{
    match x {
        None => y.is_none(),
        Some(_) => y.is_some(),
    }
}

fn or_zero(length: Option<u64>) -> u64
    ensures { result ≡ p.or_zero length }
{
    match length {
        None => 0,
        Some(length) => length,
    }
}

fn is_far(n: u64, m: u64) -> bool
    ensures { result ≡ p.is_far n m }
{
    !(n == m || (n == 0 || m == 0))
}

fn is_filled(what: &What<'_>) -> bool
    ensures { result ≡ p.is_filled (seen.what_of what.now) }
{
    match what {
        What::Object(_, _, initial) => begins(initial),
        What::Function(_, _, body) => *body,
        What::Parameter(_) => false,
        What::Typedef(_) => false,
        What::Constant(_) => false,
        What::Tag(_) => false,
        What::Name(_) => false,
    }
}

fn length_of(env: &Env<'_>, model: Model, what: &What<'_>) -> u64
    ensures { result ≡ p.length_of (seen.env_of env.now) model (seen.what_of what.now) }
{
    match what {
        What::Object(_, form, initial) => or_zero(whole_length(env, model, form, initial)),
        What::Function(_, _, _) => 0,
        What::Parameter(_) => 0,
        What::Typedef(_) => 0,
        What::Constant(_) => 0,
        What::Tag(_) => 0,
        What::Name(_) => 0,
    }
}

fn objects_alike(
    env: &Env<'_>,
    model: Model,
    specs: &Specs,
    form: &Form,
    initial: &Initial,
    others: &Specs,
    other: &Form,
    begun: &Initial,
) -> bool
    ensures { result ≡ p.objects_alike (seen.env_of env.now) model (v.words_of specs.now) (v.form_of form.now) (v.initial_of initial.now) (v.words_of others.now) (v.form_of other.now) (v.initial_of begun.now) }
{
    let kind = kind_or_int(words_type(env, specs));
    let length = whole_length(env, model, form, initial);
    is_same_kind(kind, kind_or_int(words_type(env, others)))
        && (same_shape(length, whole_length(env, model, other, begun))
            && same_const(has_const(env, specs), has_const(env, others)))
}

fn functions_alike(
    alloc: Global,
    env: &Env<'_>,
    specs: &Specs,
    parameters: &Parameters,
    others: &Specs,
    list: &Parameters,
) -> Result<bool, Memory>
    ensures { IfOk result (λ r. r ≡ p.functions_alike (seen.env_of env.now) (v.words_of specs.now) (v.parameters_of parameters.now) (v.words_of others.now) (v.parameters_of list.now)) }
{
    let kinds = parameter_kinds(alloc, env, parameters)?;
    let other_kinds = parameter_kinds(alloc, env, list)?;
    let first = kind_in(words_type(env, specs));
    let second = kind_in(words_type(env, others));
    Ok(same_result(first, second) && same_kinds(&kinds, &other_kinds))
}

// Whether two declarations agree but for lengths, and for what initializes or has a body.
fn alike(
    alloc: Global,
    env: &Env<'_>,
    model: Model,
    x: &What<'_>,
    y: &What<'_>,
) -> Result<bool, Memory>
    ensures { IfOk result (λ r. r ≡ p.alike (seen.env_of env.now) model (seen.what_of x.now) (seen.what_of y.now)) }
{
    match x {
        What::Object(specs, form, initial) => match y {
            What::Object(others, other, begun) => {
                Ok(objects_alike(env, model, specs, form, initial, others, other, begun))
            }
            What::Parameter(_) => Ok(false),
            What::Function(_, _, _) => Ok(false),
            What::Typedef(_) => Ok(false),
            What::Constant(_) => Ok(false),
            What::Tag(_) => Ok(false),
            What::Name(_) => Ok(false),
        },
        What::Function(specs, parameters, _) => match y {
            What::Function(others, list, _) => {
                functions_alike(alloc, env, specs, parameters, others, list)
            }
            What::Object(_, _, _) => Ok(false),
            What::Parameter(_) => Ok(false),
            What::Typedef(_) => Ok(false),
            What::Constant(_) => Ok(false),
            What::Tag(_) => Ok(false),
            What::Name(_) => Ok(false),
        },
        What::Parameter(_) => Ok(false),
        What::Typedef(_) => Ok(false),
        What::Constant(_) => Ok(false),
        What::Tag(_) => Ok(false),
        What::Name(_) => Ok(false),
    }
}

// Behind a declaration of which this was known.
fn behind(
    alloc: Global,
    env: &Env<'_>,
    model: Model,
    earlier: &What<'_>,
    what: &What<'_>,
    past: Past,
) -> Result<Past, Memory>
    ensures { IfOk result (λ r. r ≡ p.behind (seen.env_of env.now) model (seen.what_of earlier.now) (seen.what_of what.now) past) }
{
    let same = alike(alloc, env, model, earlier, what)?;
    let length = length_of(env, model, earlier);
    Ok(Past {
        met: true,
        apart: !same || past.apart,
        filled: is_filled(earlier) || past.filled,
        length: if length == 0 { past.length } else { length },
        lengths: past.lengths || is_far(past.length, length),
    })
}

fn behind_at(
    alloc: Global,
    env: &Env<'_>,
    model: Model,
    place: usize,
    what: &What<'_>,
    pasts: &[Past],
) -> Result<Past, Memory>
    ensures { IfOk result (λ r. r ≡ p.behind_at (seen.env_of env.now) model (seen.what_of what.now) (slice_get (seen.env_of env.now).entries place) (slice_get pasts.now place)) }
{
    match env.entries.get(place) {
        None => Ok(nothing()),
        Some(earlier) => match pasts.get(place) {
            None => Ok(nothing()),
            Some(past) => behind(alloc, env, model, &earlier.what, what, *past),
        },
    }
}

fn past_of(
    alloc: Global,
    env: &Env<'_>,
    model: Model,
    place: usize,
    entry: &Entry<'_>,
    pasts: &[Past],
) -> Result<Past, Memory>
    requires at { slice_get env.now.entries place ≡ Some entry.now }
    requires known { p.ArePasts (seen.env_of env.now) model place pasts.now }
    ensures { IfOk result (λ r. p.IsPast (seen.env_of env.now) model (take place (seen.env_of env.now).entries) (seen.declared_of entry.now) r) }
{
    let left = last_met(env, place, entry);
    if left == 0 {
        return Ok(nothing());
    }
    behind_at(alloc, env, model, left - 1, &entry.what, pasts)
}

// What is known before the declaration at a place, where it is known of each before it.
fn past_at(
    alloc: Global,
    env: &Env<'_>,
    model: Model,
    place: usize,
    pasts: &[Past],
) -> Result<Past, Memory>
    requires { p.ArePasts (seen.env_of env.now) model place pasts.now }
    ensures { IfOk result (p.IsPastAt (seen.env_of env.now) model place) }
{
    match env.entries.get(place) {
        None => Ok(nothing()),
        Some(entry) => past_of(alloc, env, model, place, entry, pasts),
    }
}

fn is_far_from(past: Past, length: u64) -> bool
    ensures { result ≡ p.is_far_from past length }
{
    (past.lengths && length != 0) || is_far(past.length, length)
}

// Whether the declarations before this one leave no room for it.
fn leave_no_room(env: &Env<'_>, model: Model, past: Past, entry: &Entry<'_>) -> bool
    ensures { result ≡ p.leave_no_room (seen.env_of env.now) model past (seen.declared_of entry.now) }
{
    if is_file(entry.scope) {
        past.apart
            || (is_far_from(past, length_of(env, model, &entry.what))
                || (past.filled && is_filled(&entry.what)))
    } else {
        past.met
    }
}

/// What is known of the declarations before each.
///
/// Fails with `Memory`.
pub(crate) fn pasts_of(alloc: Global, env: &Env<'_>, model: Model) -> Result<Vec<Past>, Memory>
    ensures { IfOk result (λ r. p.ArePasts (seen.env_of env.now) model (length env.now.entries) r.items) }
{
    let mut pasts = Vec::new(alloc);
    for place in 0..env.entries.len() {
        let past = past_at(alloc, env, model, place, &pasts)?;
        pasts.push(past)?;
    }
    Ok(pasts)
}

/// Whether a declaration before this one, at its place, leaves no room for it: one of its name and scope.
pub(crate) fn clashes_before(
    env: &Env<'_>,
    model: Model,
    place: usize,
    entry: &Entry<'_>,
    pasts: &[Past],
) -> bool
    requires at { slice_get env.now.entries place ≡ Some entry.now }
    requires known { p.ArePasts (seen.env_of env.now) model (length env.now.entries) pasts.now }
    ensures { result ≡ list_any (t.clashes (seen.env_of env.now) model (seen.declared_of entry.now)) (take place (seen.env_of env.now).entries) }
{
    match pasts.get(place) {
        None => false,
        Some(past) => leave_no_room(env, model, *past, entry),
    }
}
