ghost use Rattle.std.specs.Prelude.{◌≡◌, IfOk};
ghost use Rattle.c_tree.specs.View as v;
ghost use Rattle.first_broken.specs.Seen as lines;
ghost use Rattle.type_scopes.specs.Seen as seen;
ghost use Rattle.source_rules.specs.Summed as a;

use crate::cases::{cases_of, duplicates};
use crate::declarations::{constant_found, declaration_found, value_found};
use c_tree::{Expr, ForHead, ForStart, Head, Statement};
use first_broken::{Found, both, none};
use lv_base::{Kind, Memory, Model, Text};
use std::alloc::Global;
use type_scopes::Env;
use typing_rules::{Offsets, expression};

fn option_found(
    env: &Env<'_>,
    model: Model,
    bodies: &[Text],
    again: &Offsets,
    e: &Option<Box<Expr>>,
) -> Found
    ensures { lines.found_of result ≡ a.option_all (seen.env_of env.now) model bodies.now again.now (v.option_expr e.now) }
{
    match e {
        None => none(),
        Some(e) => expression(env, model, bodies, again, e),
    }
}

fn test_found(
    env: &Env<'_>,
    model: Model,
    bodies: &[Text],
    again: &Offsets,
    e: &Option<Box<Expr>>,
) -> Found
    ensures { lines.found_of result ≡ a.test_all (seen.env_of env.now) model bodies.now again.now (v.option_expr e.now) }
{
    match e {
        None => none(),
        Some(e) => value_found(env, model, bodies, again, e),
    }
}

fn head_found(env: &Env<'_>, model: Model, bodies: &[Text], again: &Offsets, head: &Head) -> Found
    ensures { lines.found_of result ≡ a.head_all (seen.env_of env.now) model bodies.now again.now (v.head_of head.now) }
{
    value_found(env, model, bodies, again, &head.condition)
}

fn start_found(
    env: &Env<'_>,
    model: Model,
    bodies: &[Text],
    again: &Offsets,
    start: &ForStart,
) -> Found
    ensures { lines.found_of result ≡ a.start_all (seen.env_of env.now) model bodies.now again.now (v.for_start_of start.now) }
{
    match start {
        ForStart::Declaration(declaration) => {
            declaration_found(env, model, bodies, again, false, declaration)
        }
        ForStart::Expr(e, _) => option_found(env, model, bodies, again, e),
    }
}

// What stands in the brackets of a `for`.
fn for_found(env: &Env<'_>, model: Model, bodies: &[Text], again: &Offsets, head: &ForHead) -> Found
    ensures { lines.found_of result ≡ a.for_all (seen.env_of env.now) model bodies.now again.now (v.for_head_of head.now) }
{
    let start = start_found(env, model, bodies, again, &head.start);
    let test = test_found(env, model, bodies, again, &head.test);
    let step = option_found(env, model, bodies, again, &head.step);
    both(both(start, test), step)
}

// In a function with a result a returned value is wanted.
fn return_found(
    env: &Env<'_>,
    model: Model,
    bodies: &[Text],
    again: &Offsets,
    kind: Option<Kind>,
    e: &Option<Box<Expr>>,
) -> Found
    ensures { lines.found_of result ≡ a.return_all (seen.env_of env.now) model bodies.now again.now kind (v.option_expr e.now) }
{
    match kind {
        None => option_found(env, model, bodies, again, e),
        Some(_) => test_found(env, model, bodies, again, e),
    }
}

// The cases of a switch.
fn switch_found(
    alloc: Global,
    env: &Env<'_>,
    model: Model,
    head: &Head,
    statement: &Statement,
) -> Result<Found, Memory>
    ensures { IfOk result (λ r. lines.found_of r ≡ a.switch_found (seen.env_of env.now) model (v.head_of head.now) (v.statement statement.now)) }
{
    let cases = cases_of(alloc, env, model, head, statement)?;
    duplicates(alloc, &cases)
}

// What a statement breaks, in a function whose result has this kind, or which has none.
#[cycle(statement)]
#[tactic(auto, using(crate::proofs::Views::statement_Block))]
fn statement_found(
    alloc: Global,
    env: &Env<'_>,
    model: Model,
    bodies: &[Text],
    again: &Offsets,
    kind: Option<Kind>,
    statement: &Statement,
) -> Result<Found, Memory>
    ensures { IfOk result (λ r. lines.found_of r ≡ a.statement_all (seen.env_of env.now) model bodies.now again.now kind (v.statement statement.now)) }
{
    match statement {
        Statement::Declaration(declaration) => {
            Ok(declaration_found(env, model, bodies, again, false, declaration))
        }
        Statement::Block(_, list, _) => {
            statements_found(alloc, env, model, bodies, again, kind, list)
        }
        Statement::Empty(_) => Ok(none()),
        Statement::Expr(e, _) => Ok(expression(env, model, bodies, again, e)),
        Statement::If(head, s) => {
            let inner = statement_found(alloc, env, model, bodies, again, kind, s)?;
            Ok(both(head_found(env, model, bodies, again, head), inner))
        }
        Statement::IfElse(head, s, _, t) => {
            let first = statement_found(alloc, env, model, bodies, again, kind, s)?;
            let second = statement_found(alloc, env, model, bodies, again, kind, t)?;
            let test = head_found(env, model, bodies, again, head);
            Ok(both(both(test, first), second))
        }
        Statement::While(head, s) => {
            let inner = statement_found(alloc, env, model, bodies, again, kind, s)?;
            Ok(both(head_found(env, model, bodies, again, head), inner))
        }
        Statement::Switch(head, s) => {
            let inner = statement_found(alloc, env, model, bodies, again, kind, s)?;
            let cases = switch_found(alloc, env, model, head, s)?;
            let test = head_found(env, model, bodies, again, head);
            Ok(both(both(test, inner), cases))
        }
        Statement::Do(_, s, head, _) => {
            let inner = statement_found(alloc, env, model, bodies, again, kind, s)?;
            Ok(both(inner, head_found(env, model, bodies, again, head)))
        }
        Statement::For(head, s) => {
            let inner = statement_found(alloc, env, model, bodies, again, kind, s)?;
            Ok(both(for_found(env, model, bodies, again, head), inner))
        }
        Statement::Case(_, e, _, s) => {
            let inner = statement_found(alloc, env, model, bodies, again, kind, s)?;
            Ok(both(constant_found(env, model, bodies, again, e), inner))
        }
        Statement::Default(_, _, s) => {
            statement_found(alloc, env, model, bodies, again, kind, s)
        }
        Statement::Label(_, _, _, _, s) => {
            statement_found(alloc, env, model, bodies, again, kind, s)
        }
        Statement::Goto(_, _, _, _) => Ok(none()),
        Statement::Break(_, _) => Ok(none()),
        Statement::Continue(_, _) => Ok(none()),
        Statement::Return(_, e, _) => Ok(return_found(env, model, bodies, again, kind, e)),
    }
}

/// What the statements of a block break.
#[cycle(statement)]
#[tactic(auto, using(crate::proofs::Rows::statements_more, std::proofs::lemmas::List::take_all))]
pub(crate) fn statements_found(
    alloc: Global,
    env: &Env<'_>,
    model: Model,
    bodies: &[Text],
    again: &Offsets,
    kind: Option<Kind>,
    statements: &[Statement],
) -> Result<Found, Memory>
    ensures { IfOk result (λ r. lines.found_of r ≡ a.statements_all (seen.env_of env.now) model bodies.now again.now kind (v.statements_of statements.now)) }
{
    let mut all = none();
    for statement in statements {
        let own = statement_found(alloc, env, model, bodies, again, kind, statement)?;
        all = both(all, own);
    }
    Ok(all)
}
