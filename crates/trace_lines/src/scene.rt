ghost use Rattle.std.specs.Option.{option_copied};
ghost use Rattle.std.specs.Prelude.{◌≡◌, IfOk, option_map, slice_get, string_bytes, map};
ghost use Rattle.c_typed.specs.View.{object_of, function_of};
ghost use Rattle.slot_values.specs.Seen.{links_of};
ghost use Rattle.trace_lines.specs.Scenes as scenes;

use crate::excerpts::{behind, name_in, place_in, shown};
use c_typed::{Function, Object};
use lv_base::{Memory, Place};
use slot_code::Instruction;
use slot_compiler::Code;
use slot_values::Link;
use std::alloc::Global;
use trace_sites::Site;
use trace_texts::{element_text, front};

/// What a run is told with: the source, its objects and functions, the code, and the site of each instruction.
#[derive(Clone, Copy)]
pub struct Scene<'a> {
    pub alloc: Global,
    pub source: &'a [u8],
    pub objects: &'a [Object],
    pub functions: &'a [Function],
    pub code: &'a Code,
    pub sites: &'a [Option<Site>],
}

fn instruction_at(code: &[Instruction], place: usize) -> Option<Instruction>
    ensures { result ≡ slice_get code.now place }
{
    match code.get(place) {
        Some(instruction) => Some(*instruction),
        None => None,
    }
}

fn object_at(objects: &[Object], number: u32) -> Option<&Object>
    ensures { option_map object_of (option_copied result) ≡ slice_get (map object_of objects.entry.now) number }
{
    objects.get(number as usize)
}

fn function_at(functions: &[Function], number: u32) -> Option<&Function>
    ensures { option_map function_of (option_copied result) ≡ slice_get (map function_of functions.entry.now) number }
{
    functions.get(number as usize)
}

// The number of the function that returns by this slot, the newest one first.
#[tactic(auto, using(crate::proofs::Sites::links_last, std::proofs::lemmas::List::take_all))]
fn function_by(links: &[Link], slot: usize) -> Option<u32>
    ensures { result ≡ scenes.function_by (links_of links.now) slot }
{
    let mut left = links.len();
    'links: while left > 0 {
        let link = links[left - 1];
        if link.slot == slot {
            return Some(link.function);
        }
        left -= 1;
    }
    None
}

fn place_at(source: &[u8], at: Option<u32>) -> Option<Place>
    ensures { result ≡ scenes.place_of source.now at }
{
    match at {
        None => None,
        Some(at) => place_in(source, at as usize),
    }
}

fn name_or_mark(alloc: Global, name: &[u8]) -> Result<String, Memory>
    ensures { IfOk result (λ s. string_bytes s ≡ scenes.name_or_mark name.now) }
{
    if name.len() == 0 {
        Ok(String::from_str(alloc, "?")?)
    } else {
        shown(alloc, name)
    }
}

fn name_of_object(alloc: Global, object: Option<&Object>) -> Result<String, Memory>
    ensures { IfOk result (λ s. string_bytes s ≡ scenes.object_name (option_map object_of (option_copied object.entry))) }
{
    match object {
        None => Ok(String::from_str(alloc, "?")?),
        Some(object) => name_or_mark(alloc, object.name.as_bytes()),
    }
}

fn index_in(object: Option<&Object>, index: u128) -> Option<u128>
    ensures { result ≡ scenes.index_in (option_map object_of (option_copied object.entry)) index }
{
    match object {
        None => None,
        Some(object) => {
            if object.length == 0 {
                None
            } else {
                Some(index)
            }
        }
    }
}

fn element_of(alloc: Global, object: Option<&Object>, index: u128) -> Result<String, Memory>
    ensures { IfOk result (λ s. string_bytes s ≡ scenes.element_of (option_map object_of (option_copied object.entry)) index) }
{
    let name = name_of_object(alloc, object)?;
    element_text(alloc, name.as_str(), index_in(object, index))
}

fn name_of_function(alloc: Global, function: Option<&Function>) -> Result<String, Memory>
    ensures { IfOk result (λ s. string_bytes s ≡ scenes.name_of_function (option_map function_of (option_copied function.entry))) }
{
    match function {
        None => Ok(String::from_str(alloc, "?")?),
        Some(function) => shown(alloc, function.name.as_bytes()),
    }
}

fn name_of_number(
    alloc: Global,
    functions: &[Function],
    number: Option<u32>,
) -> Result<String, Memory>
    ensures { IfOk result (λ s. string_bytes s ≡ scenes.name_of_number (map function_of functions.now) number) }
{
    match number {
        None => Ok(String::from_str(alloc, "?")?),
        Some(number) => name_of_function(alloc, function_at(functions, number)),
    }
}

impl Scene<'_> {
    /// The instruction at a place.
    pub fn instruction(&self, place: usize) -> Option<Instruction>
        ensures { result ≡ slice_get (scenes.stage_of self.now).instructions place }
    {
        instruction_at(&self.code.instructions, place)
    }

    /// The site of the instruction at a place.
    pub fn site(&self, place: usize) -> Option<Site>
        ensures { result ≡ scenes.site_at (scenes.stage_of self.now) place }
    {
        match self.sites.get(place) {
            Some(site) => *site,
            None => None,
        }
    }

    /// What stands in front of a line on this offset.
    ///
    /// Fails with `Memory`, as all that follow do.
    pub fn front(&self, at: Option<u32>) -> Result<String, Memory>
        ensures { IfOk result (λ s. string_bytes s ≡ scenes.front (scenes.stage_of self.now) at) }
    {
        front(self.alloc, place_at(self.source, at))
    }

    /// The name at an offset.
    pub fn name(&self, at: u32) -> Result<String, Memory>
        ensures { IfOk result (λ s. string_bytes s ≡ scenes.name_at (scenes.stage_of self.now) at) }
    {
        shown(self.alloc, name_in(behind(self.source, at as usize)))
    }

    /// An object's name; that of a parameter without one is a question mark.
    pub fn object_name(&self, object: u32) -> Result<String, Memory>
        ensures { IfOk result (λ s. string_bytes s ≡ scenes.object_name (slice_get (scenes.stage_of self.now).objects object)) }
    {
        name_of_object(self.alloc, object_at(self.objects, object))
    }

    /// The offset of an object's name.
    pub fn object_at(&self, object: u32) -> Option<u32>
        ensures { result ≡ scenes.offset_of (slice_get (scenes.stage_of self.now).objects object) }
    {
        match object_at(self.objects, object) {
            Some(object) => Some(object.at),
            None => None,
        }
    }

    /// A scalar's name, or that of an array with an index.
    pub fn element(&self, object: u32, index: u128) -> Result<String, Memory>
        ensures { IfOk result (λ s. string_bytes s ≡ scenes.element (scenes.stage_of self.now) object index) }
    {
        element_of(self.alloc, object_at(self.objects, object), index)
    }

    /// The name of the function that returns by this slot.
    pub fn function_name(&self, slot: usize) -> Result<String, Memory>
        ensures { IfOk result (λ s. string_bytes s ≡ scenes.function_name (scenes.stage_of self.now) slot) }
    {
        name_of_number(
            self.alloc,
            self.functions,
            function_by(&self.code.links, slot),
        )
    }
}
