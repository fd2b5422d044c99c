ghost use Rattle.std.specs.Prelude.{◌≡◌, suc, IfOk};
ghost use Rattle.c_tree.specs.Tree as t;
ghost use Rattle.c_tree.specs.View as v;
ghost use Rattle.c_meaning.specs.Scope as s;
ghost use Rattle.name_bindings.specs.Bound as bd;
ghost use Rattle.type_scopes.specs.Seen as seen;
ghost use Rattle.source_bindings.specs.Steps as step;

use crate::declarators::bind_declaration;
use crate::expressions::{bind_expression, bind_option};
use c_tree::{Expr, ForHead, ForStart, Head, Statement};
use lv_base::{Memory, Model};
use name_entries::Region;
use std::alloc::Global;
use tree_places::end_of;
use type_scopes::{Env, Scope};

// The condition of a statement that ends at this token.
fn bind_condition<'a>(
    env: &mut Env<'a>,
    model: Model,
    owner: Option<u32>,
    head: &'a Head,
    last: u32,
) -> Result<(), Memory>
    ensures { IfOk result (λ _. seen.env_of env.new ≡ step.condition_in model owner (seen.env_of env.old) (v.head_of head.now) last) }
{
    let region = Region {
        scope: Scope::Block(head.at, last),
        owner,
    };
    bind_expression(env, model, region, &head.condition)
}

// The condition of a `do`, whose block goes from its `do` to its `;`.
fn bind_do_condition<'a>(
    env: &mut Env<'a>,
    model: Model,
    owner: Option<u32>,
    first: u32,
    head: &'a Head,
    last: u32,
) -> Result<(), Memory>
    ensures { IfOk result (λ _. seen.env_of env.new ≡ step.do_condition_in model owner (seen.env_of env.old) first (v.head_of head.now) last) }
{
    let region = Region {
        scope: Scope::Block(first, last),
        owner,
    };
    bind_expression(env, model, region, &head.condition)
}

// How a `for` begins.
fn bind_start<'a>(
    alloc: Global,
    env: &mut Env<'a>,
    model: Model,
    region: Region,
    start: &'a ForStart,
) -> Result<(), Memory>
    ensures { IfOk result (λ _. seen.env_of env.new ≡ bd.start model (seen.scope_of region.scope) region.owner (seen.env_of env.old) (v.for_start_of start.now)) }
{
    match start {
        ForStart::Declaration(declaration) => {
            bind_declaration(alloc, env, model, region, declaration)
        }
        ForStart::Expr(e, _) => bind_option(env, model, region, e),
    }
}

// What stands between the brackets of a `for` that ends at this token.
fn bind_for_head<'a>(
    alloc: Global,
    env: &mut Env<'a>,
    model: Model,
    owner: Option<u32>,
    head: &'a ForHead,
    last: u32,
) -> Result<(), Memory>
    ensures { IfOk result (λ _. seen.env_of env.new ≡ step.for_head_in model owner (seen.env_of env.old) (v.for_head_of head.now) last) }
{
    let region = Region {
        scope: Scope::Block(head.at, last),
        owner,
    };
    bind_start(alloc, env, model, region, &head.start)?;
    bind_option(env, model, region, &head.test)?;
    bind_option(env, model, region, &head.step)
}

// A statement that is a block of its own, from this token on.
#[cycle(bind_in)]
fn bind_inside<'a>(
    alloc: Global,
    env: &mut Env<'a>,
    model: Model,
    owner: Option<u32>,
    first: u32,
    statement: &'a Box<Statement>,
) -> Result<(), Memory>
    ensures { IfOk result (λ _. seen.env_of env.new ≡ step.inside model owner (seen.env_of env.old) first (v.statement statement.now.value)) }
{
    let region = Region {
        scope: Scope::Block(first, end_of(statement)),
        owner,
    };
    bind_statement(alloc, env, model, region, statement)
}

// The body of a `do`, a block that begins behind it.
#[cycle(bind_in)]
fn bind_behind<'a>(
    alloc: Global,
    env: &mut Env<'a>,
    model: Model,
    owner: Option<u32>,
    before: u32,
    statement: &'a Box<Statement>,
) -> Result<(), Memory>
    ensures { IfOk result (λ _. seen.env_of env.new ≡ step.inside model owner (seen.env_of env.old) (suc before) (v.statement statement.now.value)) }
{
    let region = Region {
        scope: Scope::Behind(before, end_of(statement)),
        owner,
    };
    bind_statement(alloc, env, model, region, statement)
}

// What stands in a block.
#[cycle(bind_in)]
fn bind_block<'a>(
    alloc: Global,
    env: &mut Env<'a>,
    model: Model,
    owner: Option<u32>,
    first: u32,
    statements: &'a Vec<Statement>,
    last: u32,
) -> Result<(), Memory>
    ensures { IfOk result (λ _. seen.env_of env.new ≡ bd.statements model owner (s.block first last) (seen.env_of env.old) (v.statements_of statements.now.items)) }
{
    let region = Region {
        scope: Scope::Block(first, last),
        owner,
    };
    bind_statements(alloc, env, model, region, statements)
}

// What a statement declares.
#[cycle(bind_in)]
#[tactic(auto, using(crate::proofs::Views::statement_Block))]
fn bind_statement<'a>(
    alloc: Global,
    env: &mut Env<'a>,
    model: Model,
    region: Region,
    statement: &'a Statement,
) -> Result<(), Memory>
    ensures { IfOk result (λ _. seen.env_of env.new ≡ bd.statement model region.owner (seen.scope_of region.scope) (seen.env_of env.old) (v.statement statement.now)) }
{
    let owner = region.owner;
    match statement {
        Statement::Declaration(declaration) => {
            bind_declaration(alloc, env, model, region, declaration)
        }
        Statement::Block(open, statements, close) => {
            bind_block(alloc, env, model, owner, *open, statements, *close)
        }
        Statement::Empty(_) => Ok(()),
        Statement::Expr(e, _) => bind_expression(env, model, region, e),
        Statement::If(head, s) => {
            bind_condition(env, model, owner, head, end_of(s))?;
            bind_inside(alloc, env, model, owner, head.close, s)
        }
        Statement::IfElse(head, a, at, b) => {
            bind_condition(env, model, owner, head, end_of(b))?;
            bind_inside(alloc, env, model, owner, head.close, a)?;
            bind_inside(alloc, env, model, owner, *at, b)
        }
        Statement::While(head, s) => {
            bind_condition(env, model, owner, head, end_of(s))?;
            bind_inside(alloc, env, model, owner, head.close, s)
        }
        Statement::Switch(head, s) => {
            bind_condition(env, model, owner, head, end_of(s))?;
            bind_inside(alloc, env, model, owner, head.close, s)
        }
        Statement::Do(at, s, head, semicolon) => {
            bind_behind(alloc, env, model, owner, *at, s)?;
            bind_do_condition(env, model, owner, *at, head, *semicolon)
        }
        Statement::For(head, s) => {
            bind_for_head(alloc, env, model, owner, head, end_of(s))?;
            bind_inside(alloc, env, model, owner, head.close, s)
        }
        Statement::Case(_, e, _, s) => {
            bind_expression(env, model, region, e)?;
            bind_statement(alloc, env, model, region, s)
        }
        Statement::Default(_, _, s) => bind_statement(alloc, env, model, region, s),
        Statement::Label(_, _, _, _, s) => bind_statement(alloc, env, model, region, s),
        Statement::Goto(_, _, _, _) => Ok(()),
        Statement::Break(_, _) => Ok(()),
        Statement::Continue(_, _) => Ok(()),
        Statement::Return(_, e, _) => bind_option(env, model, region, e),
    }
}

/// Binds what statements declare.
#[cycle(bind_in)]
#[tactic(auto, using(crate::proofs::Rows::statements_more, std::proofs::lemmas::List::take_all))]
pub fn bind_statements<'a>(
    alloc: Global,
    env: &mut Env<'a>,
    model: Model,
    region: Region,
    statements: &'a [Statement],
) -> Result<(), Memory>
    ensures { IfOk result (λ _. seen.env_of env.new ≡ bd.statements model region.owner (seen.scope_of region.scope) (seen.env_of env.old) (v.statements_of statements.now)) }
{
    for statement in statements {
        bind_statement(alloc, env, model, region, statement)?;
    }
    Ok(())
}
