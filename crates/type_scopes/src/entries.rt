ghost use Rattle.std.specs.Prelude.{◌≡◌};
ghost use Rattle.c_meaning.specs.Scope as s;
ghost use Rattle.type_scopes.specs.Seen as seen;

use crate::collected::Declarations;
use c_tree::{Enumerator, Form, Initial, Parameters, Specs};
use lv_base::Kind;

/// Where a declaration reaches: the whole file, or what stands from one token, or from behind one, to another, by their offsets.
#[derive(Clone, Copy, Debug, PartialEq, Eq)]
pub enum Scope {
    File,
    Block(u32, u32),
    Behind(u32, u32),
}

/// What a name is declared as. An enumeration's constant has the enumerators up to it, a tag all of its list.
#[derive(Clone, Copy)]
pub enum What<'a> {
    Object(&'a Specs, &'a Form, &'a Initial),
    /// A parameter of a function with a body.
    Parameter(&'a Specs),
    /// A function, and whether it has a body here.
    Function(&'a Specs, &'a Parameters, bool),
    Typedef(&'a Specs),
    Constant(&'a [Enumerator]),
    Tag(&'a [Enumerator]),
    /// The name of a prototype's parameter.
    Name(&'a Specs),
}

/// What a name stands for.
#[derive(Drop)]
pub enum Entity {
    /// An object, by its number.
    Object(u32),
    /// A function, with the kinds of its result and its parameters.
    Function(Option<Kind>, Vec<Kind>),
    /// A constant of an enumeration.
    Constant(i128),
    /// A typedef name, and whether it is `const`.
    Typedef(Kind, bool),
    /// An enumeration.
    Tag(Kind),
    /// The name of a prototype's parameter, and whether it is `const`.
    Name(Kind, bool),
}

/// A declaration with what it declares: the name with its offset, the offset from which on it is declared, the scope, and the
/// number of the function in which it stands.
#[derive(Drop)]
pub struct Entry<'a> {
    pub name: &'a [u8],
    pub at: u32,
    pub from: u64,
    pub scope: Scope,
    pub owner: Option<u32>,
    pub what: What<'a>,
    pub entity: Entity,
}

/// An object. Its length is none of a scalar, and the number of elements of an array.
#[derive(Clone, Copy)]
pub struct Object<'a> {
    pub name: &'a [u8],
    pub at: u32,
    pub kind: Kind,
    pub length: Option<u64>,
    pub is_const: bool,
    pub owner: Option<u32>,
}

/// The declarations so far in their order, and the objects by number.
#[derive(Drop)]
pub struct Env<'a> {
    pub entries: Declarations<'a>,
    pub objects: Vec<Object<'a>>,
}

/// Whether a token stands in a scope.
pub fn holds(scope: Scope, at: u32) -> bool
    ensures { result ≡ s.holds (seen.scope_of scope) at }
{
    match scope {
        Scope::File => true,
        Scope::Block(first, last) => first <= at && at <= last,
        Scope::Behind(before, last) => before < at && at <= last,
    }
}

/// A number that is greater for a scope within another.
pub fn begin_of(scope: Scope) -> u64
    ensures { result ≡ s.begin_of (seen.scope_of scope) }
{
    match scope {
        Scope::File => 0,
        Scope::Block(first, _) => first as u64 + 1,
        Scope::Behind(before, _) => before as u64 + 2,
    }
}

/// Whether a tag is declared, which has a name space of its own.
pub fn is_tag(what: &What<'_>) -> bool
    ensures { result ≡ s.is_tag (seen.what_of what.now) }
{
    match what {
        What::Tag(_) => true,
        What::Object(_, _, _) => false,
        What::Parameter(_) => false,
        What::Function(_, _, _) => false,
        What::Typedef(_) => false,
        What::Constant(_) => false,
        What::Name(_) => false,
    }
}

// The first token of a scope that is not the file.
fn is_block(scope: Scope, first: u64, last: u32) -> bool
    ensures { result ≡ s.is_same (s.block first last) (seen.scope_of scope) }
{
    match scope {
        Scope::File => false,
        Scope::Block(begin, end) => first == begin as u64 && last == end,
        Scope::Behind(before, end) => first == before as u64 + 1 && last == end,
    }
}

/// Whether a scope is the file.
pub fn is_file(scope: Scope) -> bool
    ensures { result ≡ s.is_file (seen.scope_of scope) }
{
    match scope {
        Scope::File => true,
        Scope::Block(_, _) => false,
        Scope::Behind(_, _) => false,
    }
}

/// Whether two scopes are one.
pub fn is_same(x: Scope, y: Scope) -> bool
    ensures { result ≡ s.is_same (seen.scope_of x) (seen.scope_of y) }
{
    match x {
        Scope::File => is_file(y),
        Scope::Block(first, last) => is_block(y, first as u64, last),
        Scope::Behind(before, last) => is_block(y, before as u64 + 1, last),
    }
}
