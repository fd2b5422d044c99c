ghost use Rattle.std.specs.Prelude.{◌≡◌};
ghost use Rattle.std.specs.Option.{option_copied};
ghost use Rattle.c_meaning.specs.Bindings as b;
ghost use Rattle.type_scopes.specs.Seen as seen;
ghost use Rattle.type_scopes.specs.Found as found;

use crate::entries::{Entity, Entry, Env};

/// The declaration that a name of a token names: the last one before it in the innermost scope that has one
/// (C11 6.2.1 p4). Tags have a name space of their own.
pub fn visible<'b, 'a>(env: &'b Env<'a>, tag: bool, name: &[u8], at: u32) -> Option<&'b Entry<'a>>
    ensures { found.some_entry (option_copied result) ≡ b.visible (seen.env_of env.now) tag name.now at }
{
    env.entries.visible(tag, name, at)
}

/// What a name of a token stands for, but for tags.
pub fn named_entity<'b, 'a>(env: &'b Env<'a>, name: &[u8], at: u32) -> Option<&'b Entity>
    ensures { found.some_entity (option_copied result) ≡ b.entity_of (seen.env_of env.now) name.now at }
{
    match visible(env, false, name, at) {
        None => None,
        Some(entry) => Some(&entry.entity),
    }
}

/// What is declared where its name is this token.
pub fn declared_entity<'b, 'a>(env: &'b Env<'a>, at: u32) -> Option<&'b Entity>
    ensures { found.some_entity (option_copied result) ≡ b.declared_at (seen.env_of env.now) at }
{
    match env.entries.placed(at) {
        None => None,
        Some(entry) => Some(&entry.entity),
    }
}

/// The number of an object.
pub fn object_number(entity: Option<&Entity>) -> Option<u32>
    ensures { result ≡ b.object_number (found.some_entity (option_copied entity.entry)) }
{
    match entity {
        Some(Entity::Object(number)) => Some(*number),
        Some(Entity::Function(_, _)) => None,
        Some(Entity::Constant(_)) => None,
        Some(Entity::Typedef(_, _)) => None,
        Some(Entity::Tag(_)) => None,
        Some(Entity::Name(_, _)) => None,
        None => None,
    }
}
