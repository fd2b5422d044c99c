ghost use Rattle.std.specs.Prelude.{◌≡◌, ◌+◌, IfOk, slice_get, map};
ghost use Rattle.c_typed.specs.Run as run;
ghost use Rattle.c_typed.specs.View as v;
ghost use Rattle.slot_code.specs.Statements as c;
ghost use Rattle.slot_statements.specs.Aiming as aiming;

use crate::labels::Labels;
use c_typed::Object;
use lv_base::{Kind, Memory, Model};
use slot_values::{Scene, after};

/// What the code of a function's statements is made over: the program and the functions whose code stands, the data model,
/// the function's result, and the slot of the values of its statements.
#[derive(Clone, Copy)]
pub struct Frame<'a> {
    pub scene: Scene<'a>,
    pub model: Model,
    pub result: Option<Kind>,
    pub slot: usize,
}

/// The places of a function's body: its start, the place behind it, and its labels.
#[derive(Clone, Copy)]
pub struct Exits<'a, 'm> {
    pub start: usize,
    pub end: usize,
    pub labels: &'a Labels<'m>,
}

/// Where a `break` goes, where a `continue` goes, and where the code of a statement begins.
#[derive(Clone, Copy, Debug, PartialEq, Eq)]
pub struct Aims {
    pub broke: usize,
    pub continued: usize,
    pub place: usize,
}

/// A statement that stands so many instructions behind.
pub(crate) fn beyond(aims: Aims, count: usize) -> Result<Aims, Memory>
    ensures { IfOk result (λ a. a ≡ aiming.beyond aims count) }
{
    let place = after(aims.place, count)?;
    Ok(Aims {
        broke: aims.broke,
        continued: aims.continued,
        place,
    })
}

/// The body of a loop: so many instructions stand before the loop, in its condition, in its body and in its third part.
pub(crate) fn loop_aims(
    place: usize,
    before: usize,
    test: usize,
    body: usize,
    third: usize,
) -> Result<Aims, Memory>
    ensures { IfOk result (λ a. a ≡ aiming.loop_aims place before test body third) }
{
    let entry = after(before, 1)?;
    let head = after(after(entry, test)?, 1)?;
    let foot = after(head, body)?;
    let size = after(entry, loop_size(test, body, third)?)?;
    Ok(Aims {
        broke: after(place, size)?,
        continued: after(place, foot)?,
        place: after(place, head)?,
    })
}

/// The size of a loop from its condition on.
pub(crate) fn loop_size(test: usize, body: usize, third: usize) -> Result<usize, Memory>
    ensures { IfOk result (λ n. n ≡ c.loop_size test body third) }
{
    let head = after(test, 1)?;
    after(after(after(head, body)?, third)?, 1)
}

/// The body of a switch, which has so many instructions behind so many of the switch.
pub(crate) fn switch_aims(aims: Aims, head: usize, body: usize) -> Result<Aims, Memory>
    ensures { IfOk result (λ a. a ≡ aiming.switch_aims aims head body) }
{
    let size = after(head, body)?;
    Ok(Aims {
        broke: after(aims.place, size)?,
        continued: aims.continued,
        place: after(aims.place, head)?,
    })
}

fn own_kind(object: &Object) -> Kind
    ensures { result ≡ (v.object_of object.now).kind }
{
    object.kind
}

/// The kind of an object.
pub(crate) fn kind_of(objects: &[Object], object: u32) -> Kind
    ensures { result ≡ run.kind_of (slice_get (map v.object_of objects.now) object) }
{
    match objects.get(object as usize) {
        None => Kind::Int,
        Some(object) => own_kind(object),
    }
}
