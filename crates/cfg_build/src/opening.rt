//! The node at which `main` begins.

ghost use Rattle.std.specs.Prelude.{◌≡◌, ◌+◌, ◌++◌, List, IfOk, Some, slice_get, slice_index, length};
ghost use Rattle.bv_term.specs.WellFormed.{IsArray};
ghost use Rattle.lv_base.specs.Integers.{width_of};
ghost use Rattle.c_terms.specs.Shown.{Grows};
ghost use Rattle.code_layout.specs.Layout as lay;
ghost use Rattle.code_moves.specs.Setting.{setting_of, Stands};
ghost use Rattle.code_moves.specs.Deeds.{Deed, AreDeeds, Does};
ghost use Rattle.cfg_build.specs.Steps.{Built};
ghost use Rattle.cfg_build.specs.Graphs as of;
ghost use Rattle.cfg_build.specs.Openings as made;

use crate::draft::Draft;
use c_graph::{Node, Operation};
use c_terms::Words;
use c_typed::{Object, Owner};
use code_layout::elements_of;
use code_moves::Ground;
use lv_base::{Memory, Model, width};
use std::alloc::Global;

/// The node at which `main` begins, with an edge that gives each element its first value.
pub(crate) fn add_opening(
    alloc: Global,
    ground: &Ground<'_>,
    words: &mut Words,
    draft: &mut Draft,
) -> Result<(), Memory>
    ensures built { Stands (setting_of ground.now) words.old → IfOk result (λ u. Grows words.old words.new × Built draft.old draft.new (of.Opening (setting_of ground.now) words.new.terms)) }
    ensures made { IfOk result (λ u. (words.new, draft.new.nodes.items, draft.new.edges.items) ≡ made.add_opening (setting_of ground.now) words.old draft.old.nodes.items draft.old.edges.items) }
{
    let from = draft.node(Node::Plain)?;
    let ops = opening(alloc, ground, words)?;
    let to = draft.next()?;
    draft.edge(from, to, ops)?;
    Ok(())
}

// Operations that give each element its first value.
fn opening(alloc: Global, ground: &Ground<'_>, words: &mut Words) -> Result<Vec<Operation>, Memory>
    ensures does { Stands (setting_of ground.now) words.old → IfOk result (λ r. Does words.old words.new r.items (of.opens (setting_of ground.now) (length ground.now.objects.now))) }
    ensures made { IfOk result (λ r. (words.new, r.items) ≡ made.opening (setting_of ground.now) words.old) }
{
    let mut ops = Vec::new(alloc);
    for number in 0..ground.objects.len() {
        open_object(number, ground, words, &mut ops)?;
    }
    Ok(ops)
}

fn open_object(
    number: usize,
    ground: &Ground<'_>,
    words: &mut Words,
    ops: &mut Vec<Operation>,
) -> Result<(), Memory>
    ensures does { (deeds : List Deed) → Stands (setting_of ground.now) words.old → AreDeeds words.old.terms ops.old.items deeds
        → IfOk result (λ u. Does words.old words.new ops.new.items (deeds ++ of.object_opens (setting_of ground.now) (slice_get ground.now.layout.now.firsts number) (slice_get ground.now.objects.now number))) }
    ensures made { IfOk result (λ u. (words.new, ops.new.items) ≡ made.open_object (setting_of ground.now) words.old ops.old.items number) }
{
    let Ok(index) = u32::try_from(number) else {
        return Err(Memory);
    };
    match ground.layout.first(index) {
        None => Ok(()),
        Some(first) => open_at(first, number, ground, words, ops),
    }
}

// An object whose first cell is known.
fn open_at(
    first: u32,
    number: usize,
    ground: &Ground<'_>,
    words: &mut Words,
    ops: &mut Vec<Operation>,
) -> Result<(), Memory>
    ensures does { (deeds : List Deed) → Stands (setting_of ground.now) words.old → slice_get ground.now.layout.now.firsts number ≡ Some first → AreDeeds words.old.terms ops.old.items deeds
        → IfOk result (λ u. Does words.old words.new ops.new.items (deeds ++ of.object_opens (setting_of ground.now) (Some first) (slice_get ground.now.objects.now number))) }
    ensures made { IfOk result (λ u. (words.new, ops.new.items) ≡ made.open_at (setting_of ground.now) words.old ops.old.items first number) }
{
    match ground.objects.get(number) {
        None => Ok(()),
        Some(object) => open_elements(first, object, ground.model, words, ops),
    }
}

// Each element of an object, whose first cell is known, gets its first value.
fn open_elements(
    first: u32,
    object: &Object,
    model: Model,
    words: &mut Words,
    ops: &mut Vec<Operation>,
) -> Result<(), Memory>
    ensures does { (deeds : List Deed) → IsArray words.old.terms.cells first (lay.elements_of object.now) → slice_index words.old.terms.cells first ≡ width_of object.now.kind model
        → AreDeeds words.old.terms ops.old.items deeds
        → IfOk result (λ u. Does words.old words.new ops.new.items (deeds ++ of.first_sets first (width_of object.now.kind model) object.now (lay.elements_of object.now))) }
    ensures made { IfOk result (λ u. (words.new, ops.new.items) ≡ made.open_elements words.old ops.old.items first object.now model) }
{
    let bits = width(object.kind, model);
    let count = elements_of(object);
    for element in 0..count {
        let number = first_value(object, element);
        let value = words.constant_of(bits, number)?;
        let cell = cell_behind(first, element)?;
        ops.push(Operation::Set(cell, value))?;
    }
    Ok(())
}

fn cell_behind(first: u32, element: u32) -> Result<u32, Memory>
    ensures { IfOk result (λ n. n ≡ first + element) }
{
    match first.checked_add(element) {
        None => Err(Memory),
        Some(cell) => Ok(cell),
    }
}

// The value that an element of an object has before `main`.
fn first_value(object: &Object, element: u32) -> i128
    ensures { result ≡ of.first_value object.now element }
{
    match object.owner {
        Owner::Static => value_in(&object.first, element),
        Owner::Local(_) => 0,
    }
}

fn value_in(values: &[i128], element: u32) -> i128
    ensures { result ≡ of.value_in (slice_get values.now element) }
{
    match values.get(element as usize) {
        None => 0,
        Some(value) => *value,
    }
}
