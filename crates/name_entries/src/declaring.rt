ghost use Rattle.std.specs.Prelude.{◌≡◌, IfOk, Some};
ghost use Rattle.c_tree.specs.View as v;
ghost use Rattle.c_meaning.specs.Bindings as b;
ghost use Rattle.c_meaning.specs.Constants as c;
ghost use Rattle.c_meaning.specs.Scope as s;
ghost use Rattle.name_bindings.specs.Bound as bd;
ghost use Rattle.name_entries.specs.Places as place;
ghost use Rattle.type_scopes.specs.Seen as seen;
ghost use Rattle.type_scopes.specs.Steps as step;

use crate::objects::enter;
use crate::places::{Named, Region};
use c_tree::{Enumerator, Parameters, Specs};
use lv_base::{Memory, Model};
use std::alloc::Global;
use type_constants::constant;
use type_kinds::{kind_in, kind_or_int};
use type_scopes::{
    Entity, Env, What, constant_value, declared_entity, enum_kind, has_const, parameter_kinds,
    words_type,
};

/// Adds the declaration of a function.
pub fn declare_function<'a>(
    alloc: Global,
    env: &mut Env<'a>,
    model: Model,
    named: Named<'a>,
    region: Region,
    specs: &'a Specs,
    parameters: &'a Parameters,
    has_body: bool,
) -> Result<(), Memory>
    ensures { IfOk result (λ _. seen.env_of env.new ≡ bd.one model (seen.env_of env.old) (place.declared_by region named.entry (s.aFunction (v.words_of specs.now) (v.parameters_of parameters.now) has_body))) }
{
    let kinds = parameter_kinds(alloc, env, parameters)?;
    let entity = Entity::Function(kind_in(words_type(env, specs)), kinds);
    let what = What::Function(specs, parameters, has_body);
    enter(env, region, named, what, entity)
}

/// Adds the declaration of a typedef name.
pub fn declare_typedef<'a>(
    env: &mut Env<'a>,
    model: Model,
    region: Region,
    named: Named<'a>,
    specs: &'a Specs,
) -> Result<(), Memory>
    ensures { IfOk result (λ _. seen.env_of env.new ≡ bd.one model (seen.env_of env.old) (place.declared_by region named.entry (s.aTypedef (v.words_of specs.now)))) }
{
    let kind = kind_or_int(words_type(env, specs));
    let entity = Entity::Typedef(kind, has_const(env, specs));
    enter(env, region, named, What::Typedef(specs), entity)
}

/// Adds the name of a prototype's parameter.
pub fn declare_name<'a>(
    env: &mut Env<'a>,
    model: Model,
    region: Region,
    named: Named<'a>,
    specs: &'a Specs,
) -> Result<(), Memory>
    ensures { IfOk result (λ _. seen.env_of env.new ≡ bd.one model (seen.env_of env.old) (place.declared_by region named.entry (s.aName (v.words_of specs.now)))) }
{
    let kind = kind_or_int(words_type(env, specs));
    let entity = Entity::Name(kind, has_const(env, specs));
    enter(env, region, named, What::Name(specs), entity)
}

/// Adds a tag, behind its list.
pub fn declare_tag<'a>(
    env: &mut Env<'a>,
    model: Model,
    region: Region,
    named: Named<'a>,
    constants: &'a [Enumerator],
) -> Result<(), Memory>
    ensures { IfOk result (λ _. seen.env_of env.new ≡ bd.one model (seen.env_of env.old) (place.declared_by region named.entry (s.aTag (v.enumerators_of constants.now)))) }
{
    let kind = enum_kind(env, constants);
    enter(env, region, named, What::Tag(constants), Entity::Tag(kind))
}

fn place_of(constant: &Enumerator) -> u32
    ensures { result ≡ step.place_of constant.now }
{
    match constant {
        Enumerator::Plain(_, _, at) => *at,
        Enumerator::Valued(_, _, at, _, _) => *at,
    }
}

fn constant_at(env: &Env<'_>, this: &Enumerator) -> Option<i128>
    ensures { result ≡ Some (b.constant_value (b.declared_at (seen.env_of env.now) (step.place_of this.now))) }
{
    Some(constant_value(declared_entity(env, place_of(this))))
}

fn last_constant(env: &Env<'_>, before: &[Enumerator]) -> Option<i128>
    ensures { result ≡ c.last_constant (seen.env_of env.now) (v.enumerators_of before.now) }
{
    match before {
        [] => None,
        [.., last] => constant_at(env, last),
    }
}

fn next_of(last: Option<i128>) -> i128
    ensures { result ≡ c.next_constant last }
{
    match last {
        None => 0,
        Some(value) => { if value < i128::MAX { value + 1 } else { value } }
    }
}

fn or_zero(value: Option<i128>) -> i128
    ensures { result ≡ c.or_zero value }
{
    match value {
        None => 0,
        Some(value) => value,
    }
}

// The value of a constant behind these.
fn enumerator_value(env: &Env<'_>, model: Model, before: &[Enumerator], this: &Enumerator) -> i128
    ensures { result ≡ c.enumerator_value (seen.env_of env.now) model (v.enumerator_behind (v.enumerators_of before.now) this.now) }
{
    match this {
        Enumerator::Plain(_, _, _) => next_of(last_constant(env, before)),
        Enumerator::Valued(_, _, _, _, e) => or_zero(constant(env, model, e)),
    }
}

/// Adds a constant of an enumeration. `up_to_it` are the constants before it, and it.
pub fn declare_constant<'a>(
    env: &mut Env<'a>,
    model: Model,
    region: Region,
    named: Named<'a>,
    before: &'a [Enumerator],
    this: &'a Enumerator,
    up_to_it: &'a [Enumerator],
) -> Result<(), Memory>
    requires { v.enumerators_of up_to_it.now ≡ v.enumerator_behind (v.enumerators_of before.now) this.now }
    ensures { IfOk result (λ _. seen.env_of env.new ≡ bd.one model (seen.env_of env.old) (place.declared_by region named.entry (s.anEnumerator (v.enumerators_of up_to_it.now)))) }
{
    let value = enumerator_value(env, model, before, this);
    enter(
        env,
        region,
        named,
        What::Constant(up_to_it),
        Entity::Constant(value),
    )
}
