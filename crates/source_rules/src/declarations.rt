ghost use Rattle.std.specs.Prelude.{◌≡◌};
ghost use Rattle.c_tree.specs.Tree as t;
ghost use Rattle.c_tree.specs.View as v;
ghost use Rattle.c_meaning.specs.Constants as co;
ghost use Rattle.c_meaning.specs.Rules as r;
ghost use Rattle.first_broken.specs.Seen as lines;
ghost use Rattle.type_scopes.specs.Seen as seen;
ghost use Rattle.typing_rules.specs.Summed as s;
ghost use Rattle.source_rules.specs.Summed as a;

use c_tree::{Declaration, Declarator, Expr, Form, Initial, Listed, Parameter, Parameters, Specs};
use first_broken::{Found, both, line, none, unless};
use lv_base::{Model, SourceFault, Text};
use name_entries::object_length;
use tree_places::{count_parts, first_of};
use type_constants::constant;
use type_scopes::Env;
use typing_rules::{Offsets, constant_lines, expression, value_line, words};

// The words of a declaration.
pub(crate) fn specs_found(
    env: &Env<'_>,
    model: Model,
    bodies: &[Text],
    again: &Offsets,
    specs: &Specs,
) -> Found
    ensures { lines.found_of result ≡ s.found_of_words (seen.env_of env.now) model bodies.now again.now (v.words_of specs.now) }
{
    words(env, model, bodies, again, &specs.words)
}

/// An expression whose value is wanted.
pub(crate) fn value_found(
    env: &Env<'_>,
    model: Model,
    bodies: &[Text],
    again: &Offsets,
    e: &Expr,
) -> Found
    ensures { lines.found_of result ≡ a.value_all (seen.env_of env.now) model bodies.now again.now (v.expr e.now) }
{
    let parts = expression(env, model, bodies, again, e);
    unless(parts, value_line(env, model, e))
}

/// A constant.
pub(crate) fn constant_found(
    env: &Env<'_>,
    model: Model,
    bodies: &[Text],
    again: &Offsets,
    e: &Expr,
) -> Found
    ensures { lines.found_of result ≡ a.constant_all (seen.env_of env.now) model bodies.now again.now (v.expr e.now) }
{
    let parts = expression(env, model, bodies, again, e);
    unless(parts, constant_lines(env, model, e))
}

// What an object begins with: a static one with a constant (C11 6.7.9 p4).
fn first_found(
    env: &Env<'_>,
    model: Model,
    bodies: &[Text],
    again: &Offsets,
    is_static: bool,
    e: &Expr,
) -> Found
    ensures { lines.found_of result ≡ a.first_all (seen.env_of env.now) model bodies.now again.now is_static (v.expr e.now) }
{
    if is_static {
        constant_found(env, model, bodies, again, e)
    } else {
        value_found(env, model, bodies, again, e)
    }
}

#[tactic(auto, using(crate::proofs::Rows::firsts_more, std::proofs::lemmas::List::take_all))]
fn firsts_found(
    env: &Env<'_>,
    model: Model,
    bodies: &[Text],
    again: &Offsets,
    is_static: bool,
    parts: &[Listed],
) -> Found
    ensures { lines.found_of result ≡ a.firsts_all (seen.env_of env.now) model bodies.now again.now is_static (v.parts_of parts.now) }
{
    let mut all = none();
    for part in parts {
        let first = first_found(env, model, bodies, again, is_static, &part.value);
        all = both(all, first);
    }
    all
}

fn is_short(env: &Env<'_>, model: Model, e: &Expr) -> bool
    ensures { result ≡ a.is_short (seen.env_of env.now) model (v.expr e.now) }
{
    match constant(env, model, e) {
        None => false,
        Some(value) => value <= 0,
    }
}

// The length of an array is a constant of at least 1 (C11 6.7.6.2 p1).
fn length_found(env: &Env<'_>, model: Model, bodies: &[Text], again: &Offsets, e: &Expr) -> Found
    ensures { lines.found_of result ≡ a.length_all (seen.env_of env.now) model bodies.now again.now (v.expr e.now) }
{
    let short = line(
        is_short(env, model, e),
        SourceFault::NotConstant,
        first_of(e),
    );
    let own = both(constant_lines(env, model, e), short);
    unless(expression(env, model, bodies, again, e), own)
}

#[tactic(auto, using(crate::proofs::Rows::params_more, std::proofs::lemmas::List::take_all))]
fn params_found(
    env: &Env<'_>,
    model: Model,
    bodies: &[Text],
    again: &Offsets,
    parameters: &[Parameter],
) -> Found
    ensures { lines.found_of result ≡ a.params_all (seen.env_of env.now) model bodies.now again.now (v.params_of parameters.now) }
{
    let mut all = none();
    for parameter in parameters {
        let own = specs_found(env, model, bodies, again, &parameter.specs);
        all = both(all, own);
    }
    all
}

/// The words of a function's parameters.
pub(crate) fn parameters_found(
    env: &Env<'_>,
    model: Model,
    bodies: &[Text],
    again: &Offsets,
    parameters: &Parameters,
) -> Found
    ensures { lines.found_of result ≡ a.parameters_all (seen.env_of env.now) model bodies.now again.now (v.parameters_of parameters.now) }
{
    match parameters {
        Parameters::Unknown(_, _) => none(),
        Parameters::Void(_, _, _) => none(),
        Parameters::Some(_, list, _) => params_found(env, model, bodies, again, list),
    }
}

fn option_length(
    env: &Env<'_>,
    model: Model,
    bodies: &[Text],
    again: &Offsets,
    e: &Option<Box<Expr>>,
) -> Found
    ensures { lines.found_of result ≡ a.option_length (seen.env_of env.now) model bodies.now again.now (v.option_expr e.now) }
{
    match e {
        None => none(),
        Some(e) => length_found(env, model, bodies, again, e),
    }
}

fn form_found(env: &Env<'_>, model: Model, bodies: &[Text], again: &Offsets, form: &Form) -> Found
    ensures { lines.found_of result ≡ a.form_all (seen.env_of env.now) model bodies.now again.now (v.form_of form.now) }
{
    match form {
        Form::Plain => none(),
        Form::Array(_, e, _) => option_length(env, model, bodies, again, e),
        Form::Function(parameters) => parameters_found(env, model, bodies, again, parameters),
    }
}

fn is_too_many(length: Option<u64>, count: usize) -> bool
    ensures { result ≡ a.exceeds length count }
{
    match length {
        None => false,
        Some(length) => 0 < length && length < count as u64,
    }
}

// More values than elements; a broken length is none.
fn count_found(
    env: &Env<'_>,
    model: Model,
    form: &Form,
    initial: &Initial,
    count: usize,
    at: u32,
) -> Found
    ensures { lines.found_of result ≡ a.count_found (seen.env_of env.now) model (v.form_of form.now) (v.initial_of initial.now) count at }
{
    let length = object_length(env, model, form, initial);
    line(is_too_many(length, count), SourceFault::NotScalar, at)
}

fn initial_found(
    env: &Env<'_>,
    model: Model,
    bodies: &[Text],
    again: &Offsets,
    is_static: bool,
    form: &Form,
    initial: &Initial,
) -> Found
    ensures { lines.found_of result ≡ a.initial_all (seen.env_of env.now) model bodies.now again.now is_static (v.form_of form.now) (v.initial_of initial.now) }
{
    match initial {
        Initial::Nothing => none(),
        Initial::Value(_, e) => first_found(env, model, bodies, again, is_static, e),
        Initial::List(_, at, parts, _, _) => {
            let count = count_parts(parts);
            let many = count_found(env, model, form, initial, count, *at);
            both(
                many,
                firsts_found(env, model, bodies, again, is_static, parts),
            )
        }
    }
}

// A declared name, behind those before it.
fn with_declarator(
    env: &Env<'_>,
    model: Model,
    bodies: &[Text],
    again: &Offsets,
    is_static: bool,
    all: Found,
    declarator: &Declarator,
) -> Found
    ensures { lines.found_of result ≡ a.with_declarator (seen.env_of env.now) model bodies.now again.now is_static (lines.found_of all) (v.form_of declarator.now.form) (v.initial_of declarator.now.initial) }
{
    let form = &declarator.form;
    let initial = &declarator.initial;
    let formed = both(all, form_found(env, model, bodies, again, form));
    both(
        formed,
        initial_found(env, model, bodies, again, is_static, form, initial),
    )
}

#[tactic(auto, using(crate::proofs::Rows::declarators_more, std::proofs::lemmas::List::take_all))]
fn declarators_found(
    env: &Env<'_>,
    model: Model,
    bodies: &[Text],
    again: &Offsets,
    is_static: bool,
    declarators: &[Declarator],
) -> Found
    ensures { lines.found_of result ≡ a.declarators_all (seen.env_of env.now) model bodies.now again.now is_static (v.declarators_of declarators.now) }
{
    let mut all = none();
    for declarator in declarators {
        all = with_declarator(env, model, bodies, again, is_static, all, declarator);
    }
    all
}

/// A declaration; the objects of the file live as long as the program.
pub(crate) fn declaration_found(
    env: &Env<'_>,
    model: Model,
    bodies: &[Text],
    again: &Offsets,
    is_static: bool,
    declaration: &Declaration,
) -> Found
    ensures { lines.found_of result ≡ a.declaration_all (seen.env_of env.now) model bodies.now again.now is_static (v.declaration_of declaration.now) }
{
    let spoken = specs_found(env, model, bodies, again, &declaration.specs);
    let list = &declaration.declarators;
    both(
        spoken,
        declarators_found(env, model, bodies, again, is_static, list),
    )
}
