ghost use Rattle.std.specs.Prelude.{◌≡◌, IfOk, true, pos, int_lt, if◌then◌else◌};
ghost use Rattle.std.specs.Option.{option_copied};
ghost use Rattle.c_tree.specs.Tree as t;
ghost use Rattle.c_tree.specs.View as v;
ghost use Rattle.c_meaning.specs.Bindings as b;
ghost use Rattle.type_kinds.specs.Seen as kinds;
ghost use Rattle.type_scopes.specs.Seen as seen;
ghost use Rattle.type_scopes.specs.Found as found;
ghost use Rattle.type_scopes.specs.Steps as step;

use crate::entries::{Entity, Env};
use crate::look_ups::{declared_entity, named_entity, visible};
use c_tree::{Enumerator, Parameter, Parameters, Spec, Specs, Typing};
use lv_base::{Kind, Memory};
use std::alloc::Global;
use type_kinds::{ExprType, kind_or_int, type_with, typing_type};

/// The value of an enumeration's constant, and 0 of anything else.
pub fn constant_value(entity: Option<&Entity>) -> i128
    ensures { result ≡ b.constant_value (found.some_entity (option_copied entity.entry)) }
{
    match entity {
        Some(Entity::Constant(value)) => *value,
        Some(Entity::Object(_)) => 0,
        Some(Entity::Function(_, _)) => 0,
        Some(Entity::Typedef(_, _)) => 0,
        Some(Entity::Tag(_)) => 0,
        Some(Entity::Name(_, _)) => 0,
        None => 0,
    }
}

fn place_of(constant: &Enumerator) -> u32
    ensures { result ≡ step.place_of constant.now }
{
    match constant {
        Enumerator::Plain(_, _, at) => *at,
        Enumerator::Valued(_, _, at, _, _) => *at,
    }
}

fn is_negative(env: &Env<'_>, constant: &Enumerator) -> bool
    ensures { result ≡ int_lt (b.constant_value (b.declared_at (seen.env_of env.now) (step.place_of constant.now))) (pos 0) }
{
    constant_value(declared_entity(env, place_of(constant))) < 0
}

fn or_found(holds: bool, found: bool) -> bool
    ensures { result ≡ (if holds then true else found) }
{
    if holds { true } else { found }
}

// Whether some constant of an enumeration is negative.
#[tactic(auto, using(std::proofs::lemmas::List::take_all))]
fn has_negative(env: &Env<'_>, constants: &[Enumerator]) -> bool
    ensures { result ≡ b.has_negative (seen.env_of env.now) (v.enumerators_of constants.now) }
{
    let mut found = false;
    for constant in constants {
        found = or_found(is_negative(env, constant), found);
    }
    found
}

/// The kind of an enumeration: `unsigned int` where no constant is negative, else `int`.
pub fn enum_kind(env: &Env<'_>, constants: &[Enumerator]) -> Kind
    ensures { result ≡ b.enum_kind (seen.env_of env.now) (v.enumerators_of constants.now) }
{
    if has_negative(env, constants) {
        Kind::Int
    } else {
        Kind::UInt
    }
}

/// The kind that a typedef name or a tag stands for.
pub fn named_kind(entity: Option<&Entity>) -> Option<Kind>
    ensures { result ≡ b.named_kind (found.some_entity (option_copied entity.entry)) }
{
    match entity {
        Some(Entity::Typedef(kind, _)) => Some(*kind),
        Some(Entity::Tag(kind)) => Some(*kind),
        Some(Entity::Object(_)) => None,
        Some(Entity::Function(_, _)) => None,
        Some(Entity::Constant(_)) => None,
        Some(Entity::Name(_, _)) => None,
        None => None,
    }
}

fn tag_kind(env: &Env<'_>, name: &[u8], at: u32) -> Option<Kind>
    ensures { result ≡ b.named_kind (b.entity_of_entry (b.visible (seen.env_of env.now) true name.now at)) }
{
    match visible(env, true, name, at) {
        None => None,
        Some(entry) => named_kind(Some(&entry.entity)),
    }
}

// The kind that a word stands for, where it is a typedef name or an enumeration.
#[tactic(auto, using(crate::proofs::Rows::kind_of_Enum, crate::proofs::Rows::kind_of_TagEnum))]
fn word_kind(env: &Env<'_>, word: &Spec) -> Option<Kind>
    ensures { result ≡ b.word_kind (seen.env_of env.now) (v.word word.now) }
{
    match word {
        Spec::Typedef(name, at) => named_kind(named_entity(env, name.as_bytes(), *at)),
        Spec::Tag(_, name, at) => tag_kind(env, name.as_bytes(), *at),
        Spec::Enum(_, _, constants, _, _) => Some(enum_kind(env, constants)),
        Spec::TagEnum(_, _, _, _, constants, _, _) => Some(enum_kind(env, constants)),
        Spec::Type(_, _) => None,
        Spec::Storage(_, _) => None,
        Spec::Const(_, _) => None,
        Spec::Extension(_) => None,
        Spec::Attribute(_) => None,
    }
}

fn or_kind(kind: Option<Kind>, other: Option<Kind>) -> Option<Kind>
    ensures { result ≡ b.or_kind kind other }
{
    match kind {
        Some(k) => Some(k),
        None => other,
    }
}

#[tactic(auto, using(crate::proofs::Rows::words_take, std::proofs::lemmas::List::take_all))]
fn named_in(env: &Env<'_>, words: &[Spec]) -> Option<Kind>
    ensures { result ≡ b.named_in (seen.env_of env.now) (v.words_behind t.no_words words.now) }
{
    let mut kind: Option<Kind> = None;
    for word in words {
        kind = or_kind(word_kind(env, word), kind);
    }
    kind
}

fn word_typing(word: &Spec, typing: Typing) -> Typing
    ensures { result ≡ b.word_typing (v.word word.now) typing }
{
    match word {
        Spec::Type(w, _) => match type_with(*w, typing) {
            None => typing,
            Some(known) => known,
        },
        Spec::Typedef(_, _) => typing,
        Spec::Tag(_, _, _) => typing,
        Spec::Enum(_, _, _, _, _) => typing,
        Spec::TagEnum(_, _, _, _, _, _, _) => typing,
        Spec::Storage(_, _) => typing,
        Spec::Const(_, _) => typing,
        Spec::Extension(_) => typing,
        Spec::Attribute(_) => typing,
    }
}

/// What the type words say together, in any order.
#[tactic(auto, using(crate::proofs::Rows::words_take, std::proofs::lemmas::List::take_all))]
pub fn typing_of(words: &[Spec]) -> Typing
    ensures { result ≡ b.typing_of (v.words_behind t.no_words words.now) }
{
    let mut typing = Typing::Untyped;
    for word in words {
        typing = word_typing(word, typing);
    }
    typing
}

/// The type that the words of a declaration, of a parameter, of a cast or of `sizeof` name.
pub fn words_type<'t>(env: &Env<'_>, specs: &Specs) -> ExprType<'t>
    ensures { kinds.type_of result ≡ b.words_type (seen.env_of env.now) (v.words_of specs.now) }
{
    match named_in(env, &specs.words) {
        Some(kind) => ExprType::Kind(kind),
        None => typing_type(typing_of(&specs.words)),
    }
}

fn is_const_entity(entity: Option<&Entity>) -> bool
    ensures { result ≡ b.is_const_entity (found.some_entity (option_copied entity.entry)) }
{
    match entity {
        Some(Entity::Typedef(_, is_const)) => *is_const,
        Some(Entity::Tag(_)) => false,
        Some(Entity::Object(_)) => false,
        Some(Entity::Function(_, _)) => false,
        Some(Entity::Constant(_)) => false,
        Some(Entity::Name(_, _)) => false,
        None => false,
    }
}

fn const_with(env: &Env<'_>, word: &Spec, found: bool) -> bool
    ensures { result ≡ step.const_with (seen.env_of env.now) (v.word word.now) found }
{
    match word {
        Spec::Const(_, _) => true,
        Spec::Typedef(name, at) => {
            if is_const_entity(named_entity(env, name.as_bytes(), *at)) {
                true
            } else {
                found
            }
        }
        Spec::Type(_, _) => found,
        Spec::Tag(_, _, _) => found,
        Spec::Enum(_, _, _, _, _) => found,
        Spec::TagEnum(_, _, _, _, _, _, _) => found,
        Spec::Storage(_, _) => found,
        Spec::Extension(_) => found,
        Spec::Attribute(_) => found,
    }
}

/// Whether the words say `const`, by themselves or by a typedef name.
#[tactic(auto, using(crate::proofs::Rows::const_take, std::proofs::lemmas::List::take_all))]
pub fn has_const(env: &Env<'_>, specs: &Specs) -> bool
    ensures { result ≡ b.has_const (seen.env_of env.now) (v.words_of specs.now) }
{
    let mut found = false;
    for word in &specs.words {
        found = const_with(env, word, found);
    }
    found
}

#[tactic(auto, using(crate::proofs::Rows::params_take, std::proofs::lemmas::List::take_all))]
fn kinds_of(alloc: Global, env: &Env<'_>, parameters: &[Parameter]) -> Result<Vec<Kind>, Memory>
    ensures { IfOk result (λ r. r.items ≡ b.params_kinds (seen.env_of env.now) (v.params_of parameters.now)) }
{
    let mut kinds = Vec::new(alloc);
    for parameter in parameters {
        kinds.push(kind_or_int(words_type(env, &parameter.specs)))?;
    }
    Ok(kinds)
}

/// The kinds of a function's parameters. `( )` declares none, as `( void )` does.
pub fn parameter_kinds(
    alloc: Global,
    env: &Env<'_>,
    parameters: &Parameters,
) -> Result<Vec<Kind>, Memory>
    ensures { IfOk result (λ r. r.items ≡ b.parameter_kinds (seen.env_of env.now) (v.parameters_of parameters.now)) }
{
    match parameters {
        Parameters::Some(_, list, _) => kinds_of(alloc, env, list),
        Parameters::Unknown(_, _) => Ok(Vec::new(alloc)),
        Parameters::Void(_, _, _) => Ok(Vec::new(alloc)),
    }
}
