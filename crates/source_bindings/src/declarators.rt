ghost use Rattle.std.specs.Prelude.{◌≡◌, IfOk, Bool, true, false};
ghost use Rattle.c_tree.specs.Tree as t;
ghost use Rattle.c_tree.specs.View as v;
ghost use Rattle.c_meaning.specs.Scope as s;
ghost use Rattle.name_bindings.specs.Bound as bd;
ghost use Rattle.name_entries.specs.Places as place;
ghost use Rattle.type_scopes.specs.Seen as seen;
ghost use Rattle.source_bindings.specs.Steps as step;

use crate::expressions::{bind_expression, bind_option, bind_parts, bind_specs};
use crate::functions::bind_prototype;
use c_tree::{Declaration, Declarator, Form, Initial, Name, Spec, Specs, StorageWord};
use lv_base::{Memory, Model};
use name_entries::{Named, Region, declare_function, declare_object, declare_typedef};
use std::alloc::Global;
use tree_places::close_of;
use type_scopes::Env;

fn typedef_with(word: &Spec, found: bool) -> bool
    ensures { result ≡ step.typedef_with (v.word word.now) found }
{
    match word {
        Spec::Storage(storage, _) => match storage {
            StorageWord::Typedef => true,
            StorageWord::Auto => found,
            StorageWord::Extern => found,
            StorageWord::Register => found,
            StorageWord::Static => found,
            StorageWord::Inline => found,
            StorageWord::InlineShort => found,
            StorageWord::InlineLong => found,
            StorageWord::Noreturn => found,
        },
        Spec::Type(_, _) => found,
        Spec::Const(_, _) => found,
        Spec::Extension(_) => found,
        Spec::Attribute(_) => found,
        Spec::Typedef(_, _) => found,
        Spec::Tag(_, _, _) => found,
        Spec::Enum(_, _, _, _, _) => found,
        Spec::TagEnum(_, _, _, _, _, _, _) => found,
    }
}

// Whether `typedef` stands among the words.
#[tactic(auto, using(crate::proofs::Rows::typedef_take, std::proofs::lemmas::List::take_all))]
fn has_typedef(specs: &Specs) -> bool
    ensures { result ≡ s.has_typedef (v.words_of specs.now) }
{
    let mut found = false;
    for word in &specs.words {
        found = typedef_with(word, found);
    }
    found
}

// A name that is no typedef name: a function, or an object.
fn declare_value<'a>(
    alloc: Global,
    env: &mut Env<'a>,
    model: Model,
    region: Region,
    named: Named<'a>,
    specs: &'a Specs,
    form: &'a Form,
    initial: &'a Initial,
) -> Result<(), Memory>
    ensures { IfOk result (λ _. seen.env_of env.new ≡ bd.one model (seen.env_of env.old) (place.declared_by region named.entry (s.declared_as (seen.scope_of region.scope) region.owner false (v.words_of specs.now) (v.form_of form.now) (v.initial_of initial.now)))) }
{
    match form {
        Form::Function(parameters) => {
            declare_function(alloc, env, model, named, region, specs, parameters, false)
        }
        Form::Plain => declare_object(env, model, region, named, specs, form, initial),
        Form::Array(_, _, _) => declare_object(env, model, region, named, specs, form, initial),
    }
}

// A declared name.
fn declare_named<'a>(
    alloc: Global,
    env: &mut Env<'a>,
    model: Model,
    region: Region,
    named: Named<'a>,
    specs: &'a Specs,
    form: &'a Form,
    initial: &'a Initial,
) -> Result<(), Memory>
    ensures { IfOk result (λ _. seen.env_of env.new ≡ bd.one model (seen.env_of env.old) (place.declared_by region named.entry (s.declared_as (seen.scope_of region.scope) region.owner (s.has_typedef (v.words_of specs.now)) (v.words_of specs.now) (v.form_of form.now) (v.initial_of initial.now)))) }
{
    if has_typedef(specs) {
        declare_typedef(env, model, region, named, specs)
    } else {
        declare_value(alloc, env, model, region, named, specs, form, initial)
    }
}

// What stands behind a declared name.
fn bind_form<'a>(
    env: &mut Env<'a>,
    model: Model,
    region: Region,
    form: &'a Form,
) -> Result<(), Memory>
    ensures { IfOk result (λ _. seen.env_of env.new ≡ step.form_in model (seen.scope_of region.scope) region.owner (seen.env_of env.old) (v.form_of form.now)) }
{
    match form {
        Form::Plain => Ok(()),
        Form::Array(_, e, _) => bind_option(env, model, region, e),
        Form::Function(parameters) => bind_prototype(env, model, parameters),
    }
}

// The token behind which a name of this offset and form is declared.
fn behind(at: u32, form: &Form) -> u32
    ensures { result ≡ step.behind at (v.form_of form.now) }
{
    match form {
        Form::Plain => at,
        Form::Array(_, _, close) => *close,
        Form::Function(parameters) => close_of(parameters),
    }
}

#[tactic(auto, using(crate::proofs::Rows::declarator_is))]
fn bind_form_and_name<'a>(
    alloc: Global,
    env: &mut Env<'a>,
    model: Model,
    region: Region,
    specs: &'a Specs,
    name: &'a Name,
    form: &'a Form,
    initial: &'a Initial,
) -> Result<(), Memory>
    ensures { IfOk result (λ _. seen.env_of env.new ≡ bd.declarator model (seen.scope_of region.scope) region.owner (seen.env_of env.old) (v.words_of specs.now) name.now.text name.now.at (v.form_of form.now) (v.initial_of initial.now)) }
{
    bind_form(env, model, region, form)?;
    let named = Named {
        name: name.text.as_bytes(),
        at: name.at,
        behind: behind(name.at, form),
    };
    declare_named(alloc, env, model, region, named, specs, form, initial)
}

fn bind_initial<'a>(
    env: &mut Env<'a>,
    model: Model,
    region: Region,
    initial: &'a Initial,
) -> Result<(), Memory>
    ensures { IfOk result (λ _. seen.env_of env.new ≡ bd.initial model (seen.scope_of region.scope) region.owner (seen.env_of env.old) (v.initial_of initial.now)) }
{
    match initial {
        Initial::Nothing => Ok(()),
        Initial::Value(_, e) => bind_expression(env, model, region, e),
        Initial::List(_, _, parts, _, _) => bind_parts(env, model, region, parts),
    }
}

// A name stands in its own initial value.
fn bind_declarator<'a>(
    alloc: Global,
    env: &mut Env<'a>,
    model: Model,
    region: Region,
    specs: &'a Specs,
    declarator: &'a Declarator,
) -> Result<(), Memory>
    ensures { IfOk result (λ _. seen.env_of env.new ≡ bd.whole_declarator model (seen.scope_of region.scope) region.owner (seen.env_of env.old) (v.words_of specs.now) (v.name_of declarator.now.name) (v.form_of declarator.now.form) (v.initial_of declarator.now.initial)) }
{
    bind_form_and_name(
        alloc,
        env,
        model,
        region,
        specs,
        &declarator.name,
        &declarator.form,
        &declarator.initial,
    )?;
    bind_initial(env, model, region, &declarator.initial)
}

#[tactic(auto, using(crate::proofs::Rows::declarators_more, std::proofs::lemmas::List::take_all))]
fn bind_declarators<'a>(
    alloc: Global,
    env: &mut Env<'a>,
    model: Model,
    region: Region,
    specs: &'a Specs,
    declarators: &'a [Declarator],
) -> Result<(), Memory>
    ensures { IfOk result (λ _. seen.env_of env.new ≡ bd.declarators model (seen.scope_of region.scope) region.owner (seen.env_of env.old) (v.words_of specs.now) (v.declarators_of declarators.now)) }
{
    for declarator in declarators {
        bind_declarator(alloc, env, model, region, specs, declarator)?;
    }
    Ok(())
}

/// Binds what a declaration declares.
pub fn bind_declaration<'a>(
    alloc: Global,
    env: &mut Env<'a>,
    model: Model,
    region: Region,
    declaration: &'a Declaration,
) -> Result<(), Memory>
    ensures { IfOk result (λ _. seen.env_of env.new ≡ bd.declaration model (seen.scope_of region.scope) region.owner (seen.env_of env.old) (v.declaration_of declaration.now)) }
{
    bind_specs(env, model, region, &declaration.specs)?;
    bind_declarators(
        alloc,
        env,
        model,
        region,
        &declaration.specs,
        &declaration.declarators,
    )
}
