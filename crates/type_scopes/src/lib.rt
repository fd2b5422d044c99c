//! What names stand for at a token of a source, and the types of words and expressions.
#![tactic(auto)]

mod collected;
mod entries;
mod expressions;
mod linked;
mod links;
mod look_ups;
mod words;

pub use collected::Declarations;
pub use entries::{
    Entity, Entry, Env, Object, Scope, What, begin_of, holds, is_file, is_same, is_tag,
};
pub use expressions::{entity_type, object_type, type_of};
pub use look_ups::{declared_entity, named_entity, object_number, visible};
pub use words::{
    constant_value, enum_kind, has_const, named_kind, parameter_kinds, typing_of, words_type,
};
