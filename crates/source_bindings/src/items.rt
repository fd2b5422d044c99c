ghost use Rattle.std.specs.Prelude.{◌≡◌, ◌<◌, ◌≤◌, ◌^◌, IfOk, OnErr, None, Some, true};
ghost use Rattle.c_tree.specs.Tree as t;
ghost use Rattle.c_tree.specs.View as v;
ghost use Rattle.c_meaning.specs.Program as program;
ghost use Rattle.c_meaning.specs.Scope as s;
ghost use Rattle.name_bindings.specs.Bound as bd;
ghost use Rattle.type_scopes.specs.Seen as seen;
ghost use Rattle.source_bindings.specs.Steps as step;

use crate::declarators::bind_declaration;
use crate::expressions::bind_specs;
use crate::functions::{bind_parameters, bind_prototype};
use crate::statements::bind_statements;
use c_tree::{Body, Function, Item, Statement, Unit};
use lv_base::{Memory, Model};
use name_bindings::part_by_part;
use name_entries::{Named, Region, declare_function};
use std::alloc::Global;
use tree_places::{close_of, open_of};
use type_scopes::{Declarations, Env, Scope};

// A function with a body is declared in the file, behind its parameters.
fn bind_whole<'a>(
    alloc: Global,
    env: &mut Env<'a>,
    model: Model,
    function: &'a Function,
) -> Result<(), Memory>
    ensures { IfOk result (λ _. seen.env_of env.new ≡ bd.whole_function model (seen.env_of env.old) (v.words_of function.now.specs) function.now.name.text function.now.name.at (v.parameters_of function.now.parameters)) }
{
    let named = Named {
        name: function.name.text.as_bytes(),
        at: function.name.at,
        behind: close_of(&function.parameters),
    };
    let file = Region {
        scope: Scope::File,
        owner: None,
    };
    declare_function(
        alloc,
        env,
        model,
        named,
        file,
        &function.specs,
        &function.parameters,
        true,
    )
}

// A function whose body is left out.
fn bind_skipped<'a>(
    alloc: Global,
    env: &mut Env<'a>,
    model: Model,
    function: &'a Function,
) -> Result<(), Memory>
    ensures { IfOk result (λ _. seen.env_of env.new ≡ step.skipped model (seen.env_of env.old) (v.words_of function.now.specs) (v.name_of function.now.name) (v.parameters_of function.now.parameters)) }
{
    let file = Region {
        scope: Scope::File,
        owner: None,
    };
    bind_specs(env, model, file, &function.specs)?;
    bind_prototype(env, model, &function.parameters)?;
    bind_whole(alloc, env, model, function)
}

// A function of this number. Its parameters share the scope of its body.
fn bind_body<'a>(
    alloc: Global,
    env: &mut Env<'a>,
    model: Model,
    number: u32,
    function: &'a Function,
    statements: &'a [Statement],
    close: u32,
) -> Result<(), Memory>
    ensures { IfOk result (λ _. seen.env_of env.new ≡ step.with_body model number (seen.env_of env.old) (v.words_of function.now.specs) (v.name_of function.now.name) (v.parameters_of function.now.parameters) (v.statements_of statements.now) close) }
{
    let file = Region {
        scope: Scope::File,
        owner: None,
    };
    let body = Region {
        scope: Scope::Block(open_of(&function.parameters), close),
        owner: Some(number),
    };
    bind_specs(env, model, file, &function.specs)?;
    bind_parameters(env, model, body, &function.parameters)?;
    bind_whole(alloc, env, model, function)?;
    bind_statements(alloc, env, model, body, statements)
}

// A number that a function can have. No memory holds as many functions as make it too great.
fn function_number(number: usize) -> Result<u32, Memory>
    ensures same { IfOk result (λ n. n ≡ number) }
    ensures cause { OnErr result (4294967296 ≤ number) }
{
    if number > u32::MAX as usize {
        return Err(Memory);
    }
    Ok(number as u32)
}

fn bind_function<'a>(
    alloc: Global,
    env: &mut Env<'a>,
    model: Model,
    number: usize,
    function: &'a Function,
) -> Result<(), Memory>
    ensures { IfOk result (λ _. seen.env_of env.new ≡ bd.function model number (seen.env_of env.old) (v.words_of function.now.specs) function.now.name.text function.now.name.at (v.parameters_of function.now.parameters) (v.body_of function.now.body)) }
{
    match &function.body {
        Body::Skipped(_, _, _) => bind_skipped(alloc, env, model, function),
        Body::Block(_, statements, close) => {
            let number = function_number(number)?;
            bind_body(alloc, env, model, number, function, statements, *close)
        }
    }
}

fn bind_item<'a>(
    alloc: Global,
    env: &mut Env<'a>,
    model: Model,
    number: usize,
    item: &'a Item,
) -> Result<(), Memory>
    ensures { IfOk result (λ _. seen.env_of env.new ≡ bd.item model number (seen.env_of env.old) (v.item_of item.now)) }
{
    match item {
        Item::Skipped(_, _, _, _) => Ok(()),
        Item::Function(function) => bind_function(alloc, env, model, number, function),
        Item::Declaration(declaration) => {
            let file = Region {
                scope: Scope::File,
                owner: None,
            };
            bind_declaration(alloc, env, model, file, declaration)
        }
        Item::Empty(_) => Ok(()),
    }
}

// The functions with a body up to this item.
fn more_bodies(number: usize, item: &Item) -> usize
    requires { number < 2 ^ 63 }
    ensures { result ≡ step.bodies_with number (v.item_of item.now) }
{
    match item {
        Item::Skipped(_, _, _, _) => number,
        Item::Function(function) => match &function.body {
            Body::Skipped(_, _, _) => number,
            Body::Block(_, _, _) => number + 1,
        },
        Item::Declaration(_) => number,
        Item::Empty(_) => number,
    }
}

#[tactic(auto, using(crate::proofs::Rows::items_more, crate::proofs::Rows::bodies_more, std::proofs::lemmas::List::take_all))]
fn bind_items<'a>(
    alloc: Global,
    env: &mut Env<'a>,
    model: Model,
    items: &'a [Item],
) -> Result<(), Memory>
    ensures { IfOk result (λ _. seen.env_of env.new ≡ bd.items model (seen.env_of env.old) (v.items_of items.now)) }
{
    let mut number = 0usize;
    for item in items {
        bind_item(alloc, env, model, number, item)?;
        number = more_bodies(number, item);
    }
    Ok(())
}

/// What the names of a source are bound to, declaration by declaration: the names with their scopes, and the objects with
/// their types (C11 6.2.1, 6.7).
///
/// Fails with `Memory` where there is no more memory, or more than 2^32 objects or functions.
pub fn bind_all<'a>(alloc: Global, unit: &'a Unit, model: Model) -> Result<Env<'a>, Memory>
    ensures { IfOk result (λ env. seen.env_of env ≡ program.env_of (v.items_of unit.now.items.items) model) }
{
    part_by_part();
    let mut env = Env {
        entries: Declarations::new(alloc),
        objects: Vec::new(alloc),
    };
    bind_items(alloc, &mut env, model, &unit.items)?;
    Ok(env)
}
