ghost use Rattle.std.specs.Prelude.{◌≡◌, if◌then◌else◌, nat_eq, option_map, Some, map, slice_get};
ghost use Rattle.c_typed.specs.Run as run;
ghost use Rattle.c_typed.specs.View as v;
ghost use Rattle.slot_code.specs.Values as c;
ghost use Rattle.slot_values.specs.Seen as seen;

use crate::linking::Links;
use c_typed::{Function, Object};
use lv_base::Kind;

/// A function whose code stands: its number, its first place, and the slot that holds the place to return to. The two slots
/// behind that one hold what was returned, and whether a value was.
#[derive(Clone, Copy, Debug, PartialEq, Eq)]
pub struct Link {
    pub function: u32,
    pub entry: usize,
    pub slot: usize,
}

/// What the code of a value is made over: the program's objects and functions, and the functions whose code stands.
#[derive(Clone, Copy)]
pub struct Scene<'a> {
    pub objects: &'a [Object],
    pub functions: &'a [Function],
    pub links: &'a Links,
}

/// Whether a value is used. That of an expression which is a whole statement, say, is dropped.
#[derive(Clone, Copy, Debug, PartialEq, Eq)]
pub enum Usage {
    Used,
    Dropped,
}

// This link, where it is one of the function.
fn newer(found: Option<Link>, link: Link, function: u32) -> Option<Link>
    ensures { option_map seen.link_of result ≡ (if nat_eq link.function function then Some (seen.link_of link) else option_map seen.link_of found) }
{
    if link.function == function {
        Some(link)
    } else {
        found
    }
}

/// The newest link of a function.
pub fn link_of(links: &[Link], function: u32) -> Option<Link>
    ensures { option_map seen.link_of result ≡ c.link_of function (seen.links_of links.now) }
{
    let mut found = None;
    for link in links {
        found = newer(found, *link, function);
    }
    found
}

fn elements_of(object: &Object) -> usize
    ensures { result ≡ run.size_of (Some (v.object_of object.now)) }
{
    if object.length == 0 {
        1
    } else {
        object.length as usize
    }
}

/// The elements of an object, a scalar being one.
pub fn count_of(objects: &[Object], object: u32) -> usize
    ensures { result ≡ run.size_of (slice_get (map v.object_of objects.now) object) }
{
    match objects.get(object as usize) {
        None => 0,
        Some(object) => elements_of(object),
    }
}

/// The objects of a function's parameters.
pub(crate) fn parameters_of(functions: &[Function], function: u32) -> &[u32]
    ensures { result.now ≡ c.parameters_of (slice_get (map v.function_of functions.now) function) }
{
    match functions.get(function as usize) {
        None => &[],
        Some(function) => &function.parameters,
    }
}

/// Whether a call has to have a value: it is used, and the function has a result.
pub(crate) fn is_needed(usage: Usage, kind: Option<Kind>) -> bool
    ensures { result ≡ c.is_needed (seen.use_of usage) kind }
{
    match usage {
        Usage::Used => kind.is_some(),
        Usage::Dropped => false,
    }
}
