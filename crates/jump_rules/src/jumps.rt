ghost use Rattle.std.specs.Prelude.{◌≡◌, ◌<◌, ◌≤◌, IfOk, length, take, slice_index_or, true};
ghost use Rattle.c_typed.specs.Rules as r;
ghost use Rattle.jump_rules.specs.Seen as seen;

use lv_base::{Memory, Text};
use std::alloc::Global;

/// A label or a goto: its name with the offset, the offset of its first token, and the numbers of the objects in whose scope it
/// stands, the outermost first.
#[derive(Drop)]
pub struct Jump {
    pub name: Text,
    pub named_at: u32,
    pub at: u32,
    pub scope: Vec<u32>,
}

pub(crate) fn make_jump(
    alloc: Global,
    name: &Text,
    named_at: u32,
    at: u32,
    scope: &[u32],
) -> Result<Jump, Memory>
    ensures { IfOk result (λ j. seen.jump_of j ≡ r.jump name.now named_at at scope.now) }
{
    let name = Text::copy_of(alloc, name.as_bytes())?;
    let scope = scope.to_vec(alloc)?;
    Ok(Jump {
        name,
        named_at,
        at,
        scope,
    })
}

fn has(objects: &[u32], object: u32) -> bool
    ensures { result ≡ r.has objects.now object }
{
    objects.iter().any(|x| object == *x)
}

// Whether this object stands at this place.
fn is_at(objects: &[u32], place: usize, object: u32) -> bool
    ensures there { result ≡ true → place < length objects.now }
    ensures same { result ≡ true → slice_index_or objects.now place 0 ≡ object }
{
    match objects.get(place) {
        None => false,
        Some(x) => *x == object,
    }
}

// How many objects two scopes both begin with.
fn shared(start: &[u32], goal: &[u32]) -> usize
    ensures goal { result ≤ length goal.now }
    ensures same { take result start.now ≡ take result goal.now }
{
    for (i, object) in goal.iter().enumerate() {
        if !is_at(start, i, *object) {
            return i;
        }
    }
    goal.len()
}

fn any_new(start: &[u32], goal: &[u32]) -> bool
    ensures { result ≡ r.enters start.now goal.now }
{
    goal.iter().any(|object| !has(start, *object))
}

/// Whether a jump from one scope to another enters the scope of an object's declaration. Both are lists of objects. The objects
/// that both begin with are not looked for.
pub fn enters(start: &[u32], goal: &[u32]) -> bool
    ensures { result ≡ r.enters start.now goal.now }
{
    let count = shared(start, goal);
    any_new(start, &goal[count..])
}
