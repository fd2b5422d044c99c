ghost use Rattle.std.specs.Prelude.{◌≡◌, ◌++◌, [], ◌∷◌, IfOk};
ghost use Rattle.slot_code.specs.Statements as c;
ghost use Rattle.slot_statements.specs.Finding as finding;
ghost use Rattle.slot_statements.specs.Seen as seen;

use lv_base::{Memory, Text};
use slot_values::after;
use std::alloc::Global;

/// What a place in a statement is jumped to by.
#[derive(Clone, Copy)]
pub enum Name<'a> {
    Label(&'a Text),
    Case(i128),
    Default,
}

/// A place in a statement that is jumped to, counted from its start.
#[derive(Clone, Copy)]
pub struct Mark<'a> {
    pub name: Name<'a>,
    pub place: usize,
}

// A place counted from so many instructions before.
fn moved<'a>(count: usize, mark: Mark<'a>) -> Result<Mark<'a>, Memory>
    ensures { IfOk result (λ m. seen.mark_of m ∷ [] ≡ c.moved count (seen.mark_of mark.entry ∷ [])) }
{
    let place = after(count, mark.place)?;
    Ok(Mark {
        name: mark.name,
        place,
    })
}

/// These places, counted from so many instructions before, behind those that are there.
pub(crate) fn add_moved<'a>(
    count: usize,
    marks: &[Mark<'a>],
    all: &mut Vec<Mark<'a>>,
) -> Result<(), Memory>
    ensures { IfOk result (λ _. seen.marks_of all.new.items ≡ seen.marks_of all.old.items ++ c.moved count (seen.marks_of marks.now)) }
{
    for mark in marks {
        let own = moved(count, *mark)?;
        all.push(own)?;
    }
    Ok(())
}

#[tactic(auto, using(crate::proofs::Marking::marks_behind))]
fn add_label<'a>(mark: Mark<'a>, all: &mut Vec<Mark<'a>>) -> Result<(), Memory>
    ensures { IfOk result (λ _. seen.marks_of all.new.items ≡ seen.marks_of all.old.items ++ c.labels_alone (seen.mark_of mark.entry ∷ [])) }
{
    match mark.name {
        Name::Label(_) => {
            all.push(mark)?;
            Ok(())
        }
        Name::Case(_) => Ok(()),
        Name::Default => Ok(()),
    }
}

/// The labels among these places.
pub(crate) fn labels_alone<'a>(alloc: Global, marks: &[Mark<'a>]) -> Result<Vec<Mark<'a>>, Memory>
    ensures { IfOk result (λ ms. seen.marks_of ms.items ≡ c.labels_alone (seen.marks_of marks.now)) }
{
    let mut all = Vec::new(alloc);
    for mark in marks {
        add_label(*mark, &mut all)?;
    }
    Ok(all)
}

// The first of two places, where there is one.
fn first(place: Option<usize>, other: Option<usize>) -> Option<usize>
    ensures { result ≡ finding.or_else place other }
{
    match place {
        None => other,
        Some(place) => Some(place),
    }
}

// The place of a `default`, if the mark is one.
fn defaulted(mark: Mark<'_>) -> Option<usize>
    ensures { result ≡ c.default_in (seen.mark_of mark.entry ∷ []) }
{
    match mark.name {
        Name::Label(_) => None,
        Name::Case(_) => None,
        Name::Default => Some(mark.place),
    }
}

/// The place of the first `default`.
pub(crate) fn default_in(marks: &[Mark<'_>]) -> Option<usize>
    ensures { result ≡ c.default_in (seen.marks_of marks.now) }
{
    let mut found = None;
    for mark in marks {
        found = first(found, defaulted(*mark));
    }
    found
}
