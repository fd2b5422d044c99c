ghost use Rattle.std.specs.Prelude.{◌≡◌, [], ◌∷◌, ◌++◌, map, IfOk};
ghost use Rattle.c_tree.specs.View as v;
ghost use Rattle.c_meaning.specs.Program as program;
ghost use Rattle.c_typed.specs.View as tv;
ghost use Rattle.c_types.specs.Elaborated as el;
ghost use Rattle.type_scopes.specs.Seen as seen;
ghost use Rattle.typed_programs.specs.Parts as part;

use c_tree::{Body, Function, Item, Parameter, Parameters, Statement};
use c_typed::Function as TypedFunction;
use lv_base::{Memory, Model, Text};
use std::alloc::Global;
use tree_places::first_of_words;
use type_kinds::kind_in;
use type_scopes::{Env, declared_entity, object_number, words_type};
use typed_statements::typed_statements;

// Where a parameter is declared: at its name, or at its first token where it has none.
fn parameter_at(parameter: &Parameter) -> u32
    ensures { result ≡ part.parameter_at (v.words_of parameter.now.specs) (v.option_name parameter.now.name) }
{
    match &parameter.name {
        None => first_of_words(&parameter.specs),
        Some(name) => name.at,
    }
}

fn add_number(env: &Env<'_>, numbers: &mut Vec<u32>, at: u32) -> Result<(), Memory>
    ensures { IfOk result (λ _. numbers.new.items ≡ numbers.old.items ++ program.number_at (seen.env_of env.now) at) }
{
    match object_number(declared_entity(env, at)) {
        None => Ok(()),
        Some(number) => {
            numbers.push(number)?;
            Ok(())
        }
    }
}

#[tactic(auto, using(std::proofs::lemmas::List::take_all))]
fn numbers_of(alloc: Global, env: &Env<'_>, parameters: &[Parameter]) -> Result<Vec<u32>, Memory>
    ensures { IfOk result (λ r. r.items ≡ program.params_numbers (seen.env_of env.now) (v.params_of parameters.now)) }
{
    let mut numbers = Vec::new(alloc);
    for parameter in parameters {
        add_number(env, &mut numbers, parameter_at(parameter))?;
    }
    Ok(numbers)
}

/// The objects of the parameters of a function with a body.
///
/// Fails with `Memory`.
pub fn parameter_numbers(
    alloc: Global,
    env: &Env<'_>,
    parameters: &Parameters,
) -> Result<Vec<u32>, Memory>
    ensures { IfOk result (λ r. r.items ≡ program.parameter_numbers (seen.env_of env.now) (v.parameters_of parameters.now)) }
{
    match parameters {
        Parameters::Some(_, list, _) => numbers_of(alloc, env, list),
        Parameters::Unknown(_, _) => Ok(Vec::new(alloc)),
        Parameters::Void(_, _, _) => Ok(Vec::new(alloc)),
    }
}

// A function with this body.
fn typed_function(
    alloc: Global,
    env: &Env<'_>,
    model: Model,
    bodies: &[Text],
    function: &Function,
    statements: &[Statement],
) -> Result<TypedFunction, Memory>
    ensures { IfOk result (λ r. tv.function_of r ≡ el.function_of (seen.env_of env.now) model bodies.now (part.function_from (seen.env_of env.now) (v.words_of function.now.specs) (v.name_of function.now.name) (v.parameters_of function.now.parameters) (v.statements_of statements.now))) }
{
    let result_kind = kind_in(words_type(env, &function.specs));
    let parameters = parameter_numbers(alloc, env, &function.parameters)?;
    let body = typed_statements(alloc, env, model, bodies, result_kind, statements)?;
    let name = Text::copy_of(alloc, function.name.text.as_bytes())?;
    Ok(TypedFunction {
        name,
        at: function.name.at,
        result: result_kind,
        parameters,
        body,
    })
}

#[tactic(auto, using(crate::proofs::Rows::functions_push))]
fn push_function(functions: &mut Vec<TypedFunction>, function: TypedFunction) -> Result<(), Memory>
    ensures { IfOk result (λ _. map tv.function_of functions.new.items ≡ map tv.function_of functions.old.items ++ tv.function_of function ∷ []) }
{
    functions.push(function)?;
    Ok(())
}

fn add_function(
    alloc: Global,
    env: &Env<'_>,
    model: Model,
    bodies: &[Text],
    functions: &mut Vec<TypedFunction>,
    function: &Function,
) -> Result<(), Memory>
    ensures { IfOk result (λ _. map tv.function_of functions.new.items ≡ map tv.function_of functions.old.items ++ map (el.function_of (seen.env_of env.now) model bodies.now) (part.function_in (seen.env_of env.now) (v.words_of function.now.specs) (v.name_of function.now.name) (v.parameters_of function.now.parameters) (v.body_of function.now.body))) }
{
    match &function.body {
        Body::Skipped(_, _, _) => Ok(()),
        Body::Block(_, statements, _) => {
            let typed = typed_function(alloc, env, model, bodies, function, statements)?;
            push_function(functions, typed)
        }
    }
}

fn add_item(
    alloc: Global,
    env: &Env<'_>,
    model: Model,
    bodies: &[Text],
    functions: &mut Vec<TypedFunction>,
    item: &Item,
) -> Result<(), Memory>
    ensures { IfOk result (λ _. map tv.function_of functions.new.items ≡ map tv.function_of functions.old.items ++ map (el.function_of (seen.env_of env.now) model bodies.now) (part.functions_in (seen.env_of env.now) (v.item_of item.now))) }
{
    match item {
        Item::Skipped(_, _, _, _) => Ok(()),
        Item::Function(function) => add_function(alloc, env, model, bodies, functions, function),
        Item::Declaration(_) => Ok(()),
        Item::Empty(_) => Ok(()),
    }
}

/// The functions with a body, by number. `bodies` are their names.
///
/// Fails with `Memory`.
#[tactic(auto, using(crate::proofs::Rows::functions_more, std::proofs::lemmas::List::take_all))]
pub fn typed_functions(
    alloc: Global,
    env: &Env<'_>,
    model: Model,
    bodies: &[Text],
    items: &[Item],
) -> Result<Vec<TypedFunction>, Memory>
    ensures { IfOk result (λ r. map tv.function_of r.items ≡ map (el.function_of (seen.env_of env.now) model bodies.now) (program.functions_of (seen.env_of env.now) (v.items_of items.now))) }
{
    let mut functions = Vec::new(alloc);
    for item in items {
        add_item(alloc, env, model, bodies, &mut functions, item)?;
    }
    Ok(functions)
}
