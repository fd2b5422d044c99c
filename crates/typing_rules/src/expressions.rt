ghost use Rattle.std.specs.Prelude.{◌≡◌};
ghost use Rattle.std.specs.Option.{option_copied};
ghost use Rattle.c_tree.specs.Tree as t;
ghost use Rattle.c_tree.specs.View as v;
ghost use Rattle.c_meaning.specs.Bindings as b;
ghost use Rattle.c_meaning.specs.Rules as r;
ghost use Rattle.first_broken.specs.Seen as lines;
ghost use Rattle.type_scopes.specs.Seen as seen;
ghost use Rattle.type_scopes.specs.Found as found;
ghost use Rattle.typing_rules.specs.Summed as s;

use crate::entities::is_value_name;
use crate::lines::{
    call_lines, cast_lines, cond_lines, constant_lines, declared_line, index_lines, last_line,
    prefix_lines, range_line, target_lines, value_line,
};
use crate::offsets::Offsets;
use c_tree::{Enumerator, Expr, Listed, Spec};
use first_broken::{Found, both, line, none, unless};
use lv_base::{Model, SourceFault, Text};
use tree_places::first_of;
use type_scopes::{Env, named_entity, visible};

// A name that stands for a value or a function.
fn name_line(env: &Env<'_>, name: &Text, at: u32) -> Found
    ensures { lines.found_of result ≡ s.name_found (seen.env_of env.now) name.now at }
{
    let test = !is_value_name(named_entity(env, name.as_bytes(), at));
    line(test, SourceFault::UnknownName, at)
}

// A tag that is declared.
fn tag_line(env: &Env<'_>, name: &Text, at: u32) -> Found
    ensures { lines.found_of result ≡ s.tag_found (seen.env_of env.now) name.now at }
{
    let test = visible(env, true, name.as_bytes(), at).is_none();
    line(test, SourceFault::UnknownName, at)
}

// What the value of an enumeration's constant, whose name is this token, is asked for.
fn own_lines(env: &Env<'_>, model: Model, name: u32, e: &Expr) -> Found
    ensures { lines.found_of result ≡ s.own_found (seen.env_of env.now) model name (v.expr e.now) }
{
    both(
        constant_lines(env, model, e),
        range_line(env, model, name, first_of(e)),
    )
}

// A constant of an enumeration, behind the constants before it.
#[cycle(expression)]
fn with_enumerator(
    env: &Env<'_>,
    model: Model,
    bodies: &[Text],
    again: &Offsets,
    all: Found,
    constant: &Enumerator,
) -> Found
    ensures { lines.found_of result ≡ s.with_enumerator (seen.env_of env.now) model bodies.now again.now (lines.found_of all) constant.now }
{
    match constant {
        Enumerator::Plain(_, _, at) => {
            let named = both(all, declared_line(again, *at));
            both(named, range_line(env, model, *at, *at))
        }
        Enumerator::Valued(_, _, at, _, e) => {
            let named = both(all, declared_line(again, *at));
            let value = expression(env, model, bodies, again, e);
            both(named, unless(value, own_lines(env, model, *at, e)))
        }
    }
}

#[cycle(expression)]
#[tactic(auto, using(crate::proofs::Rows::enumerators_more, std::proofs::lemmas::List::take_all))]
fn enumerators(
    env: &Env<'_>,
    model: Model,
    bodies: &[Text],
    again: &Offsets,
    constants: &[Enumerator],
) -> Found
    ensures { lines.found_of result ≡ s.found_of_enumerators (seen.env_of env.now) model bodies.now again.now (v.enumerators_of constants.now) }
{
    let mut all = none();
    for constant in constants {
        all = with_enumerator(env, model, bodies, again, all, constant);
    }
    all
}

#[cycle(expression)]
#[tactic(auto, using(crate::proofs::Views::word_Enum, crate::proofs::Views::word_TagEnum))]
fn word(env: &Env<'_>, model: Model, bodies: &[Text], again: &Offsets, word: &Spec) -> Found
    ensures { lines.found_of result ≡ s.found_of_word (seen.env_of env.now) model bodies.now again.now (v.word word.now) }
{
    match word {
        Spec::Type(_, _) => none(),
        Spec::Storage(_, _) => none(),
        Spec::Const(_, _) => none(),
        Spec::Extension(_) => none(),
        Spec::Attribute(_) => none(),
        Spec::Typedef(_, _) => none(),
        Spec::Tag(_, name, at) => tag_line(env, name, *at),
        Spec::Enum(_, _, constants, _, _) => enumerators(env, model, bodies, again, constants),
        Spec::TagEnum(_, _, at, _, constants, _, _) => {
            let list = enumerators(env, model, bodies, again, constants);
            both(declared_line(again, *at), list)
        }
    }
}

/// The rules that the words of a declaration, of a parameter, of a cast or of `sizeof` break: unknown tags, and what the
/// lists of enumerations declare.
#[cycle(expression)]
#[tactic(auto, using(crate::proofs::Rows::words_more, std::proofs::lemmas::List::take_all))]
pub fn words(env: &Env<'_>, model: Model, bodies: &[Text], again: &Offsets, words: &[Spec]) -> Found
    ensures { lines.found_of result ≡ s.found_of_words (seen.env_of env.now) model bodies.now again.now (v.words_behind t.no_words words.now) }
{
    let mut all = none();
    for one in words {
        all = both(all, word(env, model, bodies, again, one));
    }
    all
}

/// The rules that the parts of a list break, each by itself.
#[cycle(expression)]
#[tactic(auto, using(crate::proofs::Rows::parts_more, std::proofs::lemmas::List::take_all))]
pub fn parts(
    env: &Env<'_>,
    model: Model,
    bodies: &[Text],
    again: &Offsets,
    parts: &[Listed],
) -> Found
    ensures { lines.found_of result ≡ s.found_of_parts (seen.env_of env.now) model bodies.now again.now (v.parts_of parts.now) }
{
    let mut all = none();
    for part in parts {
        all = both(all, expression(env, model, bodies, again, &part.value));
    }
    all
}

/// The rules of names, types, calls and constants that an expression breaks (C11 6.5). `bodies` are the names of the
/// functions that have a body, `again` the offsets of the names that are declared a second time in their scopes. Lines
/// around parts that break such a rule are not tried.
#[cycle(expression)]
#[tactic(auto, using(crate::proofs::Views::expr_Call, crate::proofs::Views::expr_Comma, crate::proofs::Views::expr_Cast, crate::proofs::Views::expr_SizeofType))]
pub fn expression(env: &Env<'_>, model: Model, bodies: &[Text], again: &Offsets, e: &Expr) -> Found
    ensures { lines.found_of result ≡ s.found (seen.env_of env.now) model bodies.now again.now (v.expr e.now) }
{
    match e {
        Expr::Name(name, at) => name_line(env, name, *at),
        Expr::Number(_, _, _) => none(),
        Expr::Letter(_, _) => none(),
        Expr::Paren(_, e, _) => expression(env, model, bodies, again, e),
        Expr::Call(f, bracket, arguments, _) => {
            let callee = expression(env, model, bodies, again, f);
            let all = both(callee, parts(env, model, bodies, again, arguments));
            unless(all, call_lines(env, model, bodies, f, *bracket, arguments))
        }
        Expr::Index(a, bracket, i, _) => {
            let base = expression(env, model, bodies, again, a);
            let all = both(base, expression(env, model, bodies, again, i));
            unless(all, index_lines(env, model, a, *bracket, i))
        }
        Expr::Postfix(e, _, at) => {
            let all = expression(env, model, bodies, again, e);
            unless(all, target_lines(env, *at, e))
        }
        Expr::Prefix(op, at, e) => {
            let all = expression(env, model, bodies, again, e);
            unless(all, prefix_lines(env, model, *op, *at, e))
        }
        Expr::SizeofType(_, _, specs, _) => words(env, model, bodies, again, &specs.words),
        Expr::Cast(_, specs, _, e) => {
            let list = words(env, model, bodies, again, &specs.words);
            let all = both(list, expression(env, model, bodies, again, e));
            unless(all, cast_lines(env, model, specs, e))
        }
        Expr::Binary(a, _, _, b) => {
            let first = expression(env, model, bodies, again, a);
            let all = both(first, expression(env, model, bodies, again, b));
            unless(
                all,
                both(value_line(env, model, a), value_line(env, model, b)),
            )
        }
        Expr::Cond(c, _, a, _, b) => {
            let test = expression(env, model, bodies, again, c);
            let first = both(test, expression(env, model, bodies, again, a));
            let all = both(first, expression(env, model, bodies, again, b));
            unless(all, cond_lines(env, model, c, a, b))
        }
        Expr::Assign(a, _, at, b) => {
            let first = expression(env, model, bodies, again, a);
            let all = both(first, expression(env, model, bodies, again, b));
            unless(
                all,
                both(target_lines(env, *at, a), value_line(env, model, b)),
            )
        }
        Expr::Comma(list) => {
            let all = parts(env, model, bodies, again, list);
            unless(all, last_line(env, model, list))
        }
    }
}
