ghost use Rattle.std.specs.Prelude.{◌≡◌, IfOk, None, Some, true};
ghost use Rattle.c_tree.specs.Tree as t;
ghost use Rattle.c_tree.specs.View as v;
ghost use Rattle.c_meaning.specs.Scope as s;
ghost use Rattle.name_bindings.specs.Bound as bd;
ghost use Rattle.type_scopes.specs.Seen as seen;

use crate::expressions::bind_specs;
use c_tree::{Parameter, Parameters};
use lv_base::{Memory, Model};
use name_entries::{Named, Region, declare_name, declare_parameter};
use tree_places::{close_of, first_of_words, open_of};
use type_scopes::{Env, Scope};

// A parameter of a function with a body. One without a name has the offset of its first token.
fn bind_parameter<'a>(
    env: &mut Env<'a>,
    model: Model,
    region: Region,
    parameter: &'a Parameter,
) -> Result<(), Memory>
    ensures { IfOk result (λ _. seen.env_of env.new ≡ bd.parameter model (seen.scope_of region.scope) region.owner (seen.env_of env.old) (v.words_of parameter.now.specs) (v.option_name parameter.now.name)) }
{
    bind_specs(env, model, region, &parameter.specs)?;
    let named = match &parameter.name {
        None => Named {
            name: b"",
            at: first_of_words(&parameter.specs),
            behind: first_of_words(&parameter.specs),
        },
        Some(name) => Named {
            name: name.text.as_bytes(),
            at: name.at,
            behind: name.at,
        },
    };
    declare_parameter(env, model, region, named, &parameter.specs)
}

#[tactic(auto, using(crate::proofs::Rows::params_more, std::proofs::lemmas::List::take_all))]
fn bind_parameter_list<'a>(
    env: &mut Env<'a>,
    model: Model,
    region: Region,
    parameters: &'a [Parameter],
) -> Result<(), Memory>
    ensures { IfOk result (λ _. seen.env_of env.new ≡ bd.params model (seen.scope_of region.scope) region.owner (seen.env_of env.old) (v.params_of parameters.now)) }
{
    for parameter in parameters {
        bind_parameter(env, model, region, parameter)?;
    }
    Ok(())
}

/// Binds the parameters of a function with a body, which are objects.
pub fn bind_parameters<'a>(
    env: &mut Env<'a>,
    model: Model,
    region: Region,
    parameters: &'a Parameters,
) -> Result<(), Memory>
    ensures { IfOk result (λ _. seen.env_of env.new ≡ bd.parameters model (seen.scope_of region.scope) region.owner (seen.env_of env.old) (v.parameters_of parameters.now)) }
{
    match parameters {
        Parameters::Unknown(_, _) => Ok(()),
        Parameters::Void(_, _, _) => Ok(()),
        Parameters::Some(_, list, _) => bind_parameter_list(env, model, region, list),
    }
}

// A parameter of a function without a body.
fn bind_name<'a>(
    env: &mut Env<'a>,
    model: Model,
    region: Region,
    parameter: &'a Parameter,
) -> Result<(), Memory>
    ensures { IfOk result (λ _. seen.env_of env.new ≡ bd.name model (seen.scope_of region.scope) region.owner (seen.env_of env.old) (v.words_of parameter.now.specs) (v.option_name parameter.now.name)) }
{
    bind_specs(env, model, region, &parameter.specs)?;
    match &parameter.name {
        None => Ok(()),
        Some(name) => {
            let named = Named {
                name: name.text.as_bytes(),
                at: name.at,
                behind: name.at,
            };
            declare_name(env, model, region, named, &parameter.specs)
        }
    }
}

#[tactic(auto, using(crate::proofs::Rows::names_more, std::proofs::lemmas::List::take_all))]
fn bind_name_list<'a>(
    env: &mut Env<'a>,
    model: Model,
    region: Region,
    parameters: &'a [Parameter],
) -> Result<(), Memory>
    ensures { IfOk result (λ _. seen.env_of env.new ≡ bd.names model (seen.scope_of region.scope) region.owner (seen.env_of env.old) (v.params_of parameters.now)) }
{
    for parameter in parameters {
        bind_name(env, model, region, parameter)?;
    }
    Ok(())
}

/// Binds the parameters of a function without a body, which are names alone. Their scope ends with their list.
pub fn bind_prototype<'a>(
    env: &mut Env<'a>,
    model: Model,
    parameters: &'a Parameters,
) -> Result<(), Memory>
    ensures { IfOk result (λ _. seen.env_of env.new ≡ bd.prototype model (seen.env_of env.old) (v.parameters_of parameters.now)) }
{
    match parameters {
        Parameters::Unknown(_, _) => Ok(()),
        Parameters::Void(_, _, _) => Ok(()),
        Parameters::Some(open, list, close) => {
            let region = Region {
                scope: Scope::Block(*open, *close),
                owner: None,
            };
            bind_name_list(env, model, region, list)
        }
    }
}
