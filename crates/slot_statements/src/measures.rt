ghost use Rattle.std.specs.Prelude.{◌≡◌, IfOk};
ghost use Rattle.slot_statements.specs.Measures as me;
ghost use Rattle.slot_statements.specs.Seen as seen;

use crate::frames::loop_size;
use crate::marks::{Mark, Name, add_moved, labels_alone};
use lv_base::Memory;
use slot_values::after;
use std::alloc::Global;

/// How many instructions a statement has, and the places in it that are jumped to.
#[derive(Drop)]
pub struct Measure<'a> {
    pub size: usize,
    pub marks: Vec<Mark<'a>>,
}

/// No place is jumped to.
pub(crate) fn plain<'a>(alloc: Global, size: usize) -> Measure<'a>
    ensures { seen.measure_of result ≡ me.plain size }
{
    Measure {
        size,
        marks: Vec::new(alloc),
    }
}

/// A statement behind so many instructions.
pub(crate) fn behind<'a>(
    alloc: Global,
    count: usize,
    inner: &Measure<'a>,
) -> Result<Measure<'a>, Memory>
    ensures { IfOk result (λ m. seen.measure_of m ≡ me.behind count (seen.measure_of inner.now)) }
{
    let mut marks = Vec::new(alloc);
    add_moved(count, &inner.marks, &mut marks)?;
    let size = after(count, inner.size)?;
    Ok(Measure { size, marks })
}

/// The two statements of an `if`, whose condition has so many instructions.
pub(crate) fn chosen<'a>(
    alloc: Global,
    test: usize,
    first: &Measure<'a>,
    second: &Measure<'a>,
) -> Result<Measure<'a>, Memory>
    ensures { IfOk result (λ m. seen.measure_of m ≡ me.chosen test (seen.measure_of first.now) (seen.measure_of second.now)) }
{
    let head = after(test, 1)?;
    let middle = after(after(head, first.size)?, 1)?;
    let mut marks = Vec::new(alloc);
    add_moved(head, &first.marks, &mut marks)?;
    add_moved(middle, &second.marks, &mut marks)?;
    let size = after(middle, second.size)?;
    Ok(Measure { size, marks })
}

/// A loop with this body: so many instructions stand before it, in its condition and in its third part.
pub(crate) fn looped<'a>(
    alloc: Global,
    before: usize,
    test: usize,
    third: usize,
    body: &Measure<'a>,
) -> Result<Measure<'a>, Memory>
    ensures { IfOk result (λ m. seen.measure_of m ≡ me.looped before test third (seen.measure_of body.now)) }
{
    let entry = after(before, 1)?;
    let head = after(after(entry, test)?, 1)?;
    let mut marks = Vec::new(alloc);
    add_moved(head, &body.marks, &mut marks)?;
    let size = after(entry, loop_size(test, body.size, third)?)?;
    Ok(Measure { size, marks })
}

/// A switch with this body, behind so many instructions. Jumps into it go to labels alone.
pub(crate) fn switched<'a>(
    alloc: Global,
    head: usize,
    body: &Measure<'a>,
) -> Result<Measure<'a>, Memory>
    ensures { IfOk result (λ m. seen.measure_of m ≡ me.switched head (seen.measure_of body.now)) }
{
    let mut all = Vec::new(alloc);
    add_moved(head, &body.marks, &mut all)?;
    let marks = labels_alone(alloc, &all)?;
    let size = after(head, body.size)?;
    Ok(Measure { size, marks })
}

/// A statement that is jumped to.
pub(crate) fn named<'a>(
    alloc: Global,
    name: Name<'a>,
    inner: Measure<'a>,
) -> Result<Measure<'a>, Memory>
    ensures { IfOk result (λ m. seen.measure_of m ≡ me.named (seen.name_of name.entry) (seen.measure_of inner.entry)) }
{
    let mut marks = Vec::new(alloc);
    marks.push(Mark { name, place: 0 })?;
    marks.extend_from_slice(&inner.marks)?;
    Ok(Measure {
        size: inner.size,
        marks,
    })
}
