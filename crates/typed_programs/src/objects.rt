ghost use Rattle.std.specs.Prelude.{◌≡◌, ◌≤◌, map, IfOk, OnErr, Some};
ghost use Rattle.std.specs.Option.{option_copied, option_map};
ghost use Rattle.c_tree.specs.View as v;
ghost use Rattle.c_meaning.specs.Bindings as b;
ghost use Rattle.c_meaning.specs.Program as program;
ghost use Rattle.c_typed.specs.View as tv;
ghost use Rattle.c_types.specs.Elaborated as el;
ghost use Rattle.type_scopes.specs.Seen as seen;
ghost use Rattle.typed_programs.specs.Parts as part;

use crate::values::{initial_of, initial_values};
use c_tree::Initial;
use c_typed::{Object as TypedObject, Owner};
use lv_base::{Kind, Memory, Model, Text};
use std::alloc::Global;
use type_scopes::{Env, Object};
use typed_values::number_of;

// A length that an object can have. No memory holds as many elements as make it too great.
fn stored_length(length: u64) -> Result<u32, Memory>
    ensures same { IfOk result (λ n. n ≡ length) }
    ensures cause { OnErr result (4294967296 ≤ length) }
{
    if length > u32::MAX as u64 {
        return Err(Memory);
    }
    Ok(length as u32)
}

// The length of an object, 0 of a scalar.
fn length_of(length: Option<u64>) -> Result<u32, Memory>
    ensures { IfOk result (λ n. n ≡ el.length_of length) }
{
    match length {
        None => Ok(0),
        Some(length) => stored_length(length),
    }
}

// The elements of an object, a scalar being one.
fn count_of(object: &Object<'_>) -> Result<u32, Memory>
    ensures { IfOk result (λ n. n ≡ b.size_of_object (Some (seen.object_of object.now))) }
{
    match object.length {
        None => Ok(1),
        Some(length) => stored_length(length),
    }
}

fn owner_of(owner: Option<u32>) -> Owner
    ensures { tv.owner_of result ≡ el.owner_of owner }
{
    match owner {
        None => Owner::Static,
        Some(function) => Owner::Local(function),
    }
}

fn values_from(
    alloc: Global,
    env: &Env<'_>,
    model: Model,
    kind: Kind,
    count: u32,
    initial: Option<&Initial>,
) -> Result<Vec<i128>, Memory>
    ensures { IfOk result (λ r. r.items ≡ program.initial_values (seen.env_of env.now) model kind count (part.or_nothing (option_map v.initial_of (option_copied initial.entry)))) }
{
    match initial {
        None => initial_values(alloc, env, model, kind, count, &Initial::Nothing),
        Some(initial) => initial_values(alloc, env, model, kind, count, initial),
    }
}

// The values of a static object.
fn static_values(
    alloc: Global,
    env: &Env<'_>,
    model: Model,
    number: u32,
    object: &Object<'_>,
) -> Result<Vec<i128>, Memory>
    ensures { IfOk result (λ r. r.items ≡ program.initial_values (seen.env_of env.now) model object.now.kind (b.size_of_object (Some (seen.object_of object.now))) (program.initial_of number (seen.env_of env.now).entries)) }
{
    let count = count_of(object)?;
    values_from(
        alloc,
        env,
        model,
        object.kind,
        count,
        initial_of(env, number),
    )
}

// The values of an object that lives as long as the program, and none of any other.
fn first_values(
    alloc: Global,
    env: &Env<'_>,
    model: Model,
    number: u32,
    object: &Object<'_>,
) -> Result<Vec<i128>, Memory>
    ensures { IfOk result (λ r. r.items ≡ el.first_of object.now.owner (program.start_values (seen.env_of env.now) model number (seen.object_of object.now))) }
{
    match object.owner {
        None => static_values(alloc, env, model, number, object),
        Some(_) => Ok(Vec::new(alloc)),
    }
}

fn typed_object(
    alloc: Global,
    env: &Env<'_>,
    model: Model,
    number: u32,
    object: &Object<'_>,
) -> Result<TypedObject, Memory>
    ensures { IfOk result (λ r. tv.object_of r ≡ part.object_from (seen.env_of env.now) model number (seen.object_of object.now)) }
{
    let length = length_of(object.length)?;
    let first = first_values(alloc, env, model, number, object)?;
    let name = Text::copy_of(alloc, object.name)?;
    Ok(TypedObject {
        name,
        at: object.at,
        kind: object.kind,
        length,
        owner: owner_of(object.owner),
        first,
    })
}

/// The objects, by number.
///
/// Fails with `Memory`, also where an array has 2^32 elements or more.
#[tactic(auto, using(crate::proofs::Rows::objects_more))]
pub fn typed_objects(alloc: Global, env: &Env<'_>, model: Model) -> Result<Vec<TypedObject>, Memory>
    ensures { IfOk result (λ r. map tv.object_of r.items ≡ el.objects_from (seen.env_of env.now) model 0 (seen.env_of env.now).objects) }
{
    let mut objects = Vec::new(alloc);
    for (i, object) in env.objects.iter().enumerate() {
        let number = number_of(i)?;
        let object = typed_object(alloc, env, model, number, object)?;
        objects.push(object)?;
    }
    Ok(objects)
}
