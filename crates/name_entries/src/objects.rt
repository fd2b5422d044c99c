ghost use Rattle.std.specs.Prelude.{◌≡◌, IfOk};
ghost use Rattle.std.specs.Option.{option_copied};
ghost use Rattle.c_tree.specs.View as v;
ghost use Rattle.c_meaning.specs.Bindings as b;
ghost use Rattle.c_meaning.specs.Constants as c;
ghost use Rattle.c_meaning.specs.Scope as s;
ghost use Rattle.name_bindings.specs.Bound as bd;
ghost use Rattle.name_entries.specs.Placed as placed;
ghost use Rattle.name_entries.specs.Places as place;
ghost use Rattle.type_scopes.specs.Found as found;
ghost use Rattle.type_scopes.specs.Seen as seen;

use crate::lengths::object_length;
use crate::places::{Named, Region};
use c_tree::{Form, Initial, Specs};
use lv_base::{Memory, Model};
use type_kinds::kind_or_int;
use type_scopes::{Entity, Entry, Env, Object, Scope, What, has_const, object_number, words_type};

/// Adds a declaration.
pub fn enter<'a>(
    env: &mut Env<'a>,
    region: Region,
    named: Named<'a>,
    what: What<'a>,
    entity: Entity,
) -> Result<(), Memory>
    ensures { IfOk result (λ _. seen.env_of env.new ≡ c.entered (seen.env_of env.old) (place.declared_by region named.entry (seen.what_of what.entry)) (seen.entity_of entity)) }
{
    env.entries.push(Entry {
        name: named.name,
        at: named.at,
        from: named.behind as u64 + 1,
        scope: region.scope,
        owner: region.owner,
        what,
        entity,
    })?;
    Ok(())
}

fn add_object<'a>(
    env: &mut Env<'a>,
    region: Region,
    named: Named<'a>,
    what: What<'a>,
    object: Object<'a>,
) -> Result<(), Memory>
    ensures { IfOk result (λ _. seen.env_of env.new ≡ c.new_object (seen.env_of env.old) (place.declared_by region named.entry (seen.what_of what.entry)) (seen.object_of object.entry)) }
{
    let number = env.objects.len();
    if number > u32::MAX as usize {
        return Err(Memory);
    }
    env.objects.push(object)?;
    enter(env, region, named, what, Entity::Object(number as u32))
}

fn earlier_in_file<'b, 'a>(env: &'b Env<'a>, name: &[u8]) -> Option<&'b Entity>
    ensures { found.some_entity (option_copied result) ≡ c.earlier_in_file (seen.env_of env.now) name.now }
{
    match env.entries.first_in_file(name) {
        None => None,
        Some(entry) => Some(&entry.entity),
    }
}

fn same_object(env: &Env<'_>, scope: Scope, name: &[u8]) -> Option<u32>
    ensures { result ≡ placed.same_object (seen.env_of env.now) (seen.scope_of scope) name.now }
{
    match scope {
        Scope::File => object_number(earlier_in_file(env, name)),
        Scope::Block(_, _) => None,
        Scope::Behind(_, _) => None,
    }
}

fn place_object<'a>(
    env: &mut Env<'a>,
    region: Region,
    named: Named<'a>,
    what: What<'a>,
    object: Object<'a>,
    same: Option<u32>,
) -> Result<(), Memory>
    ensures { IfOk result (λ _. seen.env_of env.new ≡ placed.object_or (seen.env_of env.old) (place.declared_by region named.entry (seen.what_of what.entry)) (seen.object_of object.entry) same) }
{
    match same {
        Some(number) => enter(env, region, named, what, Entity::Object(number)),
        None => add_object(env, region, named, what, object),
    }
}

/// Adds the declaration of an object.
#[tactic(auto, using(crate::proofs::Placing::object_or_is))]
pub fn declare_object<'a>(
    env: &mut Env<'a>,
    model: Model,
    region: Region,
    named: Named<'a>,
    specs: &'a Specs,
    form: &'a Form,
    initial: &'a Initial,
) -> Result<(), Memory>
    ensures { IfOk result (λ _. seen.env_of env.new ≡ bd.one model (seen.env_of env.old) (place.declared_by region named.entry (s.anObject (v.words_of specs.now) (v.form_of form.now) (v.initial_of initial.now)))) }
{
    let object = Object {
        name: named.name,
        at: named.at,
        kind: kind_or_int(words_type(env, specs)),
        length: object_length(env, model, form, initial),
        is_const: has_const(env, specs),
        owner: region.owner,
    };
    let same = same_object(env, region.scope, named.name);
    place_object(
        env,
        region,
        named,
        What::Object(specs, form, initial),
        object,
        same,
    )
}

/// Adds the declaration of a parameter of a function with a body.
pub fn declare_parameter<'a>(
    env: &mut Env<'a>,
    model: Model,
    region: Region,
    named: Named<'a>,
    specs: &'a Specs,
) -> Result<(), Memory>
    ensures { IfOk result (λ _. seen.env_of env.new ≡ bd.one model (seen.env_of env.old) (place.declared_by region named.entry (s.aParameter (v.words_of specs.now)))) }
{
    let object = Object {
        name: named.name,
        at: named.at,
        kind: kind_or_int(words_type(env, specs)),
        length: None,
        is_const: has_const(env, specs),
        owner: region.owner,
    };
    add_object(env, region, named, What::Parameter(specs), object)
}
