ghost use Rattle.std.specs.Prelude.{◌≡◌, IfOk};
ghost use Rattle.std.specs.Option.{option_copied, option_map};
ghost use Rattle.c_tree.specs.View as v;
ghost use Rattle.c_typed.specs.View as tv;
ghost use Rattle.c_types.specs.Elaborated as el;
ghost use Rattle.type_scopes.specs.Seen as seen;
ghost use Rattle.typed_statements.specs.Steps as step;

use crate::declarations::add_declaration;
use crate::nodes::{
    block, break_node, continue_node, default_node, empty, goto_node, label_node, push_step,
};
use crate::parts::{
    case_of, declared_block, do_of, effect_of, else_of, for_of, if_of, return_of, switch_of,
    while_of,
};
use c_tree::{Declaration, Statement};
use c_typed::Step;
use lv_base::{Kind, Memory, Model, Text};
use std::alloc::Global;
use type_scopes::Env;

// The declaration that a statement is, if it is one.
#[tactic(auto, using(crate::proofs::Views::statement_Block))]
fn declaration_in(statement: &Statement) -> Option<&Declaration>
    ensures { option_map v.declaration_of (option_copied result) ≡ step.declaration_in (v.statement statement.now) }
{
    match statement {
        Statement::Declaration(declaration) => Some(declaration),
        Statement::Block(_, _, _) => None,
        Statement::Empty(_) => None,
        Statement::Expr(_, _) => None,
        Statement::If(_, _) => None,
        Statement::IfElse(_, _, _, _) => None,
        Statement::While(_, _) => None,
        Statement::Switch(_, _) => None,
        Statement::Do(_, _, _, _) => None,
        Statement::For(_, _) => None,
        Statement::Case(_, _, _, _) => None,
        Statement::Default(_, _, _) => None,
        Statement::Label(_, _, _, _, _) => None,
        Statement::Goto(_, _, _, _) => None,
        Statement::Break(_, _) => None,
        Statement::Continue(_, _) => None,
        Statement::Return(_, _, _) => None,
    }
}

/// A statement of a function with this result. A declaration that is no part of a block's list is a block of its own.
///
/// Fails with `Memory`.
#[cycle(typed)]
#[tactic(auto, using(crate::proofs::Views::statement_Block))]
pub fn typed_statement(
    alloc: Global,
    env: &Env<'_>,
    model: Model,
    bodies: &[Text],
    result_kind: Option<Kind>,
    statement: &Statement,
) -> Result<Box<Step>, Memory>
    ensures { IfOk result (λ r. tv.step r.value ≡ el.step (seen.env_of env.now) model bodies.now result_kind (v.statement statement.now)) }
{
    match statement {
        Statement::Declaration(declaration) => {
            declared_block(alloc, env, model, bodies, declaration)
        }
        Statement::Block(_, statements, _) => {
            let steps = typed_statements(alloc, env, model, bodies, result_kind, statements)?;
            block(alloc, steps)
        }
        Statement::Empty(_) => empty(alloc),
        Statement::Expr(e, _) => effect_of(alloc, env, model, bodies, e),
        Statement::If(head, s) => {
            let body = typed_statement(alloc, env, model, bodies, result_kind, s)?;
            if_of(alloc, env, model, bodies, head, body)
        }
        Statement::IfElse(head, a, _, b) => {
            let a = typed_statement(alloc, env, model, bodies, result_kind, a)?;
            let b = typed_statement(alloc, env, model, bodies, result_kind, b)?;
            else_of(alloc, env, model, bodies, head, a, b)
        }
        Statement::While(head, s) => {
            let body = typed_statement(alloc, env, model, bodies, result_kind, s)?;
            while_of(alloc, env, model, bodies, head, body)
        }
        Statement::Switch(head, s) => {
            let body = typed_statement(alloc, env, model, bodies, result_kind, s)?;
            switch_of(alloc, env, model, bodies, head, body)
        }
        Statement::Do(at, s, head, _) => {
            let body = typed_statement(alloc, env, model, bodies, result_kind, s)?;
            do_of(alloc, env, model, bodies, *at, body, head)
        }
        Statement::For(head, s) => {
            let body = typed_statement(alloc, env, model, bodies, result_kind, s)?;
            for_of(alloc, env, model, bodies, head, body)
        }
        Statement::Case(at, e, _, s) => {
            let body = typed_statement(alloc, env, model, bodies, result_kind, s)?;
            case_of(alloc, env, model, *at, e, body)
        }
        Statement::Default(at, _, s) => {
            let body = typed_statement(alloc, env, model, bodies, result_kind, s)?;
            default_node(alloc, *at, body)
        }
        Statement::Label(name, at, _, _, s) => {
            let body = typed_statement(alloc, env, model, bodies, result_kind, s)?;
            label_node(alloc, name.as_bytes(), *at, body)
        }
        Statement::Goto(at, name, named_at, _) => {
            goto_node(alloc, *at, name.as_bytes(), *named_at)
        }
        Statement::Break(at, _) => break_node(alloc, *at),
        Statement::Continue(at, _) => continue_node(alloc, *at),
        Statement::Return(at, e, _) => { return_of(alloc, env, model, bodies, result_kind, *at, e) }
    }
}

/// The steps of the statements of a block, in a function with this result.
///
/// Fails with `Memory`.
#[cycle(typed)]
#[tactic(auto, using(std::proofs::lemmas::List::take_all))]
pub fn typed_statements(
    alloc: Global,
    env: &Env<'_>,
    model: Model,
    bodies: &[Text],
    result_kind: Option<Kind>,
    statements: &[Statement],
) -> Result<Vec<Step>, Memory>
    ensures { IfOk result (λ r. tv.steps_of r.items ≡ el.steps (seen.env_of env.now) model bodies.now result_kind (v.statements_of statements.now)) }
{
    let mut steps = Vec::new(alloc);
    for statement in statements {
        match declaration_in(statement) {
            Some(declaration) => {
                add_declaration(alloc, env, model, bodies, &mut steps, declaration)?;
            }
            None => {
                let step = typed_statement(alloc, env, model, bodies, result_kind, statement)?;
                push_step(&mut steps, Box::into_inner(step))?;
            }
        }
    }
    Ok(steps)
}
