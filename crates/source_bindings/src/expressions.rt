ghost use Rattle.std.specs.Prelude.{◌≡◌, ◌+◌, ◌<◌, take, length, IfOk};
ghost use Rattle.c_tree.specs.Tree as t;
ghost use Rattle.c_tree.specs.View as v;
ghost use Rattle.name_bindings.specs.Bound as bd;
ghost use Rattle.type_scopes.specs.Seen as seen;
ghost use Rattle.source_bindings.specs.Steps as step;

use c_tree::{Enumerator, Expr, Listed, Spec, Specs};
use lv_base::{Memory, Model, Text};
use name_entries::{Named, Region, declare_constant, declare_tag};
use tree_places::last_of;
use type_scopes::Env;

// The tag of an enumeration is declared behind its list.
fn bind_tag<'a>(
    env: &mut Env<'a>,
    model: Model,
    region: Region,
    name: &'a Text,
    at: u32,
    close: u32,
    constants: &'a [Enumerator],
) -> Result<(), Memory>
    ensures { IfOk result (λ _. seen.env_of env.new ≡ step.tagged model (seen.scope_of region.scope) region.owner (seen.env_of env.old) name.now at close (v.enumerators_of constants.now)) }
{
    let named = Named {
        name: name.as_bytes(),
        at,
        behind: close,
    };
    declare_tag(env, model, region, named, constants)
}

// A constant of an enumeration, of which these are the ones before it, and these with it.
fn bind_constant<'a>(
    env: &mut Env<'a>,
    model: Model,
    region: Region,
    before: &'a [Enumerator],
    this: &'a Enumerator,
    up_to_it: &'a [Enumerator],
) -> Result<(), Memory>
    requires { v.enumerators_of up_to_it.now ≡ v.enumerator_behind (v.enumerators_of before.now) this.now }
    ensures { IfOk result (λ _. seen.env_of env.new ≡ step.constant_with model (seen.scope_of region.scope) region.owner (seen.env_of env.old) (v.enumerators_of before.now) this.now) }
{
    match this {
        Enumerator::Plain(_, name, at) => {
            let named = Named {
                name: name.as_bytes(),
                at: *at,
                behind: *at,
            };
            declare_constant(env, model, region, named, before, this, up_to_it)
        }
        Enumerator::Valued(_, name, at, _, e) => {
            let named = Named {
                name: name.as_bytes(),
                at: *at,
                behind: last_of(e),
            };
            declare_constant(env, model, region, named, before, this, up_to_it)
        }
    }
}

// The constant of this index.
fn bind_constant_at<'a>(
    env: &mut Env<'a>,
    model: Model,
    region: Region,
    constants: &'a [Enumerator],
    i: usize,
    this: &'a Enumerator,
) -> Result<(), Memory>
    requires there { i < length constants.now }
    requires this { v.enumerators_of (take (i + 1) constants.now) ≡ v.enumerator_behind (v.enumerators_of (take i constants.now)) this.now }
    ensures { IfOk result (λ _. seen.env_of env.new ≡ step.constant_with model (seen.scope_of region.scope) region.owner (seen.env_of env.old) (v.enumerators_of (take i constants.now)) this.now) }
{
    let before = &constants[..i];
    let up_to_it = &constants[..i + 1];
    bind_constant(env, model, region, before, this, up_to_it)
}

// What the value of a constant declares.
#[cycle(bind)]
fn bind_value<'a>(
    env: &mut Env<'a>,
    model: Model,
    region: Region,
    constant: &'a Enumerator,
) -> Result<(), Memory>
    ensures { IfOk result (λ _. seen.env_of env.new ≡ step.value_in model (seen.scope_of region.scope) region.owner (seen.env_of env.old) constant.now) }
{
    match constant {
        Enumerator::Plain(_, _, _) => Ok(()),
        Enumerator::Valued(_, _, _, _, e) => bind_expression(env, model, region, e),
    }
}

// The constants of an enumeration, each behind its value.
#[cycle(bind)]
#[tactic(auto, using(crate::proofs::Rows::constants_more, std::proofs::lemmas::List::take_all))]
fn bind_constants<'a>(
    env: &mut Env<'a>,
    model: Model,
    region: Region,
    constants: &'a [Enumerator],
) -> Result<(), Memory>
    ensures { IfOk result (λ _. seen.env_of env.new ≡ bd.enumerators model (seen.scope_of region.scope) region.owner (seen.env_of env.old) (v.enumerators_of constants.now)) }
{
    for (i, constant) in constants.iter().enumerate() {
        bind_value(env, model, region, constant)?;
        bind_constant_at(env, model, region, constants, i, constant)?;
    }
    Ok(())
}

// What a word declares.
#[cycle(bind)]
#[tactic(auto, using(crate::proofs::Views::word_Enum, crate::proofs::Views::word_TagEnum))]
fn bind_word<'a>(
    env: &mut Env<'a>,
    model: Model,
    region: Region,
    word: &'a Spec,
) -> Result<(), Memory>
    ensures { IfOk result (λ _. seen.env_of env.new ≡ bd.word model (seen.scope_of region.scope) region.owner (seen.env_of env.old) (v.word word.now)) }
{
    match word {
        Spec::Type(_, _) => Ok(()),
        Spec::Storage(_, _) => Ok(()),
        Spec::Const(_, _) => Ok(()),
        Spec::Extension(_) => Ok(()),
        Spec::Attribute(_) => Ok(()),
        Spec::Typedef(_, _) => Ok(()),
        Spec::Tag(_, _, _) => Ok(()),
        Spec::Enum(_, _, constants, _, _) => bind_constants(env, model, region, constants),
        Spec::TagEnum(_, name, at, _, constants, _, close) => {
            bind_constants(env, model, region, constants)?;
            bind_tag(env, model, region, name, *at, *close, constants)
        }
    }
}

// What words declare.
#[cycle(bind)]
#[tactic(auto, using(crate::proofs::Rows::words_more, std::proofs::lemmas::List::take_all))]
fn bind_words<'a>(
    env: &mut Env<'a>,
    model: Model,
    region: Region,
    words: &'a [Spec],
) -> Result<(), Memory>
    ensures { IfOk result (λ _. seen.env_of env.new ≡ bd.words model (seen.scope_of region.scope) region.owner (seen.env_of env.old) (v.words_behind t.no_words words.now)) }
{
    for word in words {
        bind_word(env, model, region, word)?;
    }
    Ok(())
}

/// Binds what the parts of a list declare.
#[cycle(bind)]
#[tactic(auto, using(crate::proofs::Rows::parts_more, std::proofs::lemmas::List::take_all))]
pub fn bind_parts<'a>(
    env: &mut Env<'a>,
    model: Model,
    region: Region,
    parts: &'a [Listed],
) -> Result<(), Memory>
    ensures { IfOk result (λ _. seen.env_of env.new ≡ bd.parts model (seen.scope_of region.scope) region.owner (seen.env_of env.old) (v.parts_of parts.now)) }
{
    for part in parts {
        bind_expression(env, model, region, &part.value)?;
    }
    Ok(())
}

/// Binds what an expression declares: the constants and tags of enumerations, in casts and in `sizeof`.
#[cycle(bind)]
#[tactic(auto, using(crate::proofs::Views::expr_Call, crate::proofs::Views::expr_Comma, crate::proofs::Views::expr_Cast, crate::proofs::Views::expr_SizeofType))]
pub fn bind_expression<'a>(
    env: &mut Env<'a>,
    model: Model,
    region: Region,
    e: &'a Expr,
) -> Result<(), Memory>
    ensures { IfOk result (λ _. seen.env_of env.new ≡ bd.expression model (seen.scope_of region.scope) region.owner (seen.env_of env.old) (v.expr e.now)) }
{
    match e {
        Expr::Name(_, _) => Ok(()),
        Expr::Number(_, _, _) => Ok(()),
        Expr::Letter(_, _) => Ok(()),
        Expr::Paren(_, e, _) => bind_expression(env, model, region, e),
        Expr::Call(f, _, parts, _) => {
            bind_expression(env, model, region, f)?;
            bind_parts(env, model, region, parts)
        }
        Expr::Index(a, _, i, _) => {
            bind_expression(env, model, region, a)?;
            bind_expression(env, model, region, i)
        }
        Expr::Postfix(e, _, _) => bind_expression(env, model, region, e),
        Expr::Prefix(_, _, e) => bind_expression(env, model, region, e),
        Expr::SizeofType(_, _, specs, _) => bind_words(env, model, region, &specs.words),
        Expr::Cast(_, specs, _, e) => {
            bind_words(env, model, region, &specs.words)?;
            bind_expression(env, model, region, e)
        }
        Expr::Binary(a, _, _, b) => {
            bind_expression(env, model, region, a)?;
            bind_expression(env, model, region, b)
        }
        Expr::Cond(c, _, a, _, b) => {
            bind_expression(env, model, region, c)?;
            bind_expression(env, model, region, a)?;
            bind_expression(env, model, region, b)
        }
        Expr::Assign(a, _, _, b) => {
            bind_expression(env, model, region, a)?;
            bind_expression(env, model, region, b)
        }
        Expr::Comma(parts) => bind_parts(env, model, region, parts),
    }
}

/// Binds what an expression declares, where there is one.
pub fn bind_option<'a>(
    env: &mut Env<'a>,
    model: Model,
    region: Region,
    e: &'a Option<Box<Expr>>,
) -> Result<(), Memory>
    ensures { IfOk result (λ _. seen.env_of env.new ≡ bd.option model (seen.scope_of region.scope) region.owner (seen.env_of env.old) (v.option_expr e.now)) }
{
    match e {
        None => Ok(()),
        Some(e) => bind_expression(env, model, region, e),
    }
}

/// Binds what the words of a declaration declare.
pub fn bind_specs<'a>(
    env: &mut Env<'a>,
    model: Model,
    region: Region,
    specs: &'a Specs,
) -> Result<(), Memory>
    ensures { IfOk result (λ _. seen.env_of env.new ≡ bd.words model (seen.scope_of region.scope) region.owner (seen.env_of env.old) (v.words_of specs.now)) }
{
    bind_words(env, model, region, &specs.words)
}
