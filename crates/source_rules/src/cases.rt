ghost use Rattle.std.specs.Prelude.{◌≡◌, ◌++◌, IfOk, [], false};
ghost use Rattle.c_tree.specs.View as v;
ghost use Rattle.c_meaning.specs.Kinds as k;
ghost use Rattle.c_meaning.specs.Rules as r;
ghost use Rattle.c_meaning.specs.Types as ty;
ghost use Rattle.first_broken.specs.Seen as lines;
ghost use Rattle.first_broken.specs.Found.{summary};
ghost use Rattle.type_scopes.specs.Seen as seen;
ghost use Rattle.source_rules.specs.Cases as c;

use c_tree::{Expr, Head, Statement};
use first_broken::{Found, both, line, none};
use lv_base::{Kind, Memory, Model, SourceFault, convert};
use std::alloc::Global;
use std::collections::HashSet;
use type_constants::constant;
use type_kinds::{kind_of, promoted};
use type_scopes::{Env, type_of};

/// A `case` with its value in the kind of the switch, or a `default`, with the offset of the keyword. A broken `case` has no
/// value.
#[derive(Clone, Copy, Debug)]
pub enum Case {
    Value(Option<i128>, u32),
    Default(u32),
}

fn case_at(case: Case) -> u32
    ensures { result ≡ r.case_at (c.case_of case) }
{
    match case {
        Case::Value(_, at) => at,
        Case::Default(at) => at,
    }
}

fn case_value(env: &Env<'_>, model: Model, kind: Kind, e: &Expr) -> Option<i128>
    ensures { result ≡ c.case_value (seen.env_of env.now) model kind (v.expr e.now) }
{
    match constant(env, model, e) {
        None => None,
        Some(value) => Some(convert(value, kind, model)),
    }
}

/// The cases of a switch's body in their order, behind those that are there; not those of a switch in it. `kind` is the
/// promoted kind of the switch's value.
#[cycle(cases)]
#[tactic(auto, using(crate::proofs::Views::statement_Block))]
fn cases_in(
    env: &Env<'_>,
    model: Model,
    kind: Kind,
    statement: &Statement,
    found: &mut Vec<Case>,
) -> Result<(), Memory>
    ensures { IfOk result (λ _. c.cases found.new.items ≡ c.cases found.old.items ++ c.cases_in (seen.env_of env.now) model kind (v.statement statement.now)) }
{
    match statement {
        Statement::Declaration(_) => Ok(()),
        Statement::Block(_, list, _) => cases_in_all(env, model, kind, list, found),
        Statement::Empty(_) => Ok(()),
        Statement::Expr(_, _) => Ok(()),
        Statement::If(_, s) => cases_in(env, model, kind, s, found),
        Statement::IfElse(_, s, _, t) => {
            cases_in(env, model, kind, s, found)?;
            cases_in(env, model, kind, t, found)
        }
        Statement::While(_, s) => cases_in(env, model, kind, s, found),
        Statement::Switch(_, _) => Ok(()),
        Statement::Do(_, s, _, _) => cases_in(env, model, kind, s, found),
        Statement::For(_, s) => cases_in(env, model, kind, s, found),
        Statement::Case(at, e, _, s) => {
            found.push(Case::Value(case_value(env, model, kind, e), *at))?;
            cases_in(env, model, kind, s, found)
        }
        Statement::Default(at, _, s) => {
            found.push(Case::Default(*at))?;
            cases_in(env, model, kind, s, found)
        }
        Statement::Label(_, _, _, _, s) => cases_in(env, model, kind, s, found),
        Statement::Goto(_, _, _, _) => Ok(()),
        Statement::Break(_, _) => Ok(()),
        Statement::Continue(_, _) => Ok(()),
        Statement::Return(_, _, _) => Ok(()),
    }
}

#[cycle(cases)]
#[tactic(auto, using(crate::proofs::Rows::cases_more, std::proofs::lemmas::List::take_all))]
fn cases_in_all(
    env: &Env<'_>,
    model: Model,
    kind: Kind,
    statements: &[Statement],
    found: &mut Vec<Case>,
) -> Result<(), Memory>
    ensures { IfOk result (λ _. c.cases found.new.items ≡ c.cases found.old.items ++ c.cases_in_all (seen.env_of env.now) model kind (v.statements_of statements.now)) }
{
    for statement in statements {
        cases_in(env, model, kind, statement, found)?;
    }
    Ok(())
}

// The cases so far, for look-ups: their values, and whether a `default` is among them.
#[derive(Drop)]
struct Past {
    values: HashSet<i128>,
    has_default: bool,
}

fn nothing_past(alloc: Global) -> Past
    ensures values { result.values.keys ≡ [] }
    ensures default { result.has_default ≡ false }
{
    Past {
        values: HashSet::new(alloc),
        has_default: false,
    }
}

// Whether the same case is among those so far.
fn is_past(past: &Past, case: Case) -> bool
    ensures { result ≡ c.stands past.now.values.keys past.now.has_default (c.case_of case) }
{
    match case {
        Case::Value(None, _) => false,
        Case::Value(Some(value), _) => past.values.contains(&value),
        Case::Default(_) => past.has_default,
    }
}

// With one more case.
fn keep_case(past: &mut Past, case: Case) -> Result<(), Memory>
    ensures values { IfOk result (λ _. c.Gains past.old.values.keys (c.values_of (c.case_of case)) past.new.values.keys) }
    ensures default { IfOk result (λ _. past.new.has_default ≡ c.has_default past.old.has_default (c.case_of case)) }
{
    match case {
        Case::Value(None, _) => {}
        Case::Value(Some(value), _) => {
            past.values.insert(value)?;
        }
        Case::Default(_) => past.has_default = true,
    }
    Ok(())
}

/// Two cases of one value, or two defaults: each later one is broken (C11 6.8.4.2 p3).
///
/// Fails with `Memory` where there is no more memory for the values.
#[tactic(auto, using(std::proofs::lemmas::List::take_all))]
pub fn duplicates(alloc: Global, cases: &[Case]) -> Result<Found, Memory>
    ensures { IfOk result (λ x. lines.found_of x ≡ summary (c.repeated [] (c.cases cases.now))) }
{
    let mut past = nothing_past(alloc);
    let mut all = none();
    for case in cases {
        let test = is_past(&past, *case);
        all = both(all, line(test, SourceFault::DuplicateCase, case_at(*case)));
        keep_case(&mut past, *case)?;
    }
    Ok(all)
}

/// The cases of the switch with this head and body.
pub fn cases_of(
    alloc: Global,
    env: &Env<'_>,
    model: Model,
    head: &Head,
    statement: &Statement,
) -> Result<Vec<Case>, Memory>
    ensures { IfOk result (λ found. c.cases found.items ≡ c.cases_in (seen.env_of env.now) model (k.promoted (k.kind_of (ty.type_of (seen.env_of env.now) model (v.expr head.now.condition.value)))) (v.statement statement.now)) }
{
    let kind = promoted(kind_of(type_of(env, model, &head.condition)));
    let mut found = Vec::new(alloc);
    cases_in(env, model, kind, statement, &mut found)?;
    Ok(found)
}
