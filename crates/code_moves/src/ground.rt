//! The values of slots and elements, as terms.
ghost use Rattle.std.specs.Prelude.{◌≡◌, ◌+◌, ℕ, List, IfOk, Some};
ghost use Rattle.lv_base.specs.Integers as int;
ghost use Rattle.c_terms.specs.Shown.{Puts, Shows};
ghost use Rattle.code_moves.specs.Setting.{setting_of, site_of, Stands, room_at, room_of, IsRoom};
ghost use Rattle.code_moves.specs.Values as of;
ghost use Rattle.code_moves.specs.Made as made;

use bv_term::{Term, TermId};
use c_terms::{SLOT_WIDTH, Words, widen};
use c_typed::Object;
use code_layout::{Layout, behind, elements_of};
use lv_base::{Kind, Memory, Model};

/// What the terms of an instruction are made over: the objects of a program, its data model, and where everything lies.
#[derive(Clone, Copy)]
pub struct Ground<'a> {
    pub objects: &'a [Object],
    pub model: Model,
    pub layout: &'a Layout,
}

/// An object among the cells: its first cell, how many elements it has, their kind, and whether it is an array.
#[derive(Clone, Copy)]
pub(crate) struct Room {
    pub(crate) first: u32,
    pub(crate) length: u32,
    pub(crate) kind: Kind,
    pub(crate) is_array: bool,
}

fn room_at(object: &Object, first: u32) -> Room
    ensures { Some result ≡ room_at (Some object.now) (Some first) }
{
    Room {
        first,
        length: elements_of(object),
        kind: object.kind,
        is_array: object.length > 0,
    }
}

impl Ground<'_> {
    /// An object among the cells.
    pub(crate) fn room(&self, object: u32) -> Option<Room>
        ensures { result ≡ room_of (setting_of self.now) object }
    {
        let first = self.layout.first(object);
        match self.objects.get(object as usize) {
            None => None,
            Some(object) => match first {
                None => None,
                Some(first) => Some(room_at(object, first)),
            },
        }
    }

    /// The value of a slot. One that no instruction reads has none.
    pub fn slot(&self, words: &mut Words, slot: usize) -> Result<TermId, Memory>
        ensures shows { (store : List ℕ) → Stands (setting_of self.now) words.old
            → IfOk result (λ t. Puts words.old words.new store t 64 (of.slot_value (setting_of self.now) store slot)) }
        ensures made { IfOk result (λ t. (words.new, t) ≡ made.slot (site_of (setting_of self.now)) words.old slot) }
    {
        match self.layout.slot(slot) {
            None => words.zero(SLOT_WIDTH),
            Some(cell) => words.cell(cell),
        }
    }

    /// The value of the slot so many behind another.
    pub(crate) fn slot_behind(
        &self,
        words: &mut Words,
        slot: usize,
        steps: usize,
    ) -> Result<TermId, Memory>
        ensures shows { (store : List ℕ) → Stands (setting_of self.now) words.old
            → IfOk result (λ t. Puts words.old words.new store t 64 (of.slot_value (setting_of self.now) store (slot + steps))) }
        ensures made { IfOk result (λ t. (words.new, t) ≡ made.slot_behind (site_of (setting_of self.now)) words.old slot steps) }
    {
        let number = behind(slot, steps)?;
        self.slot(words, number)
    }

    // The bits of an object's element, whose index is a slot's value; of a scalar its only one.
    fn bits(&self, words: &mut Words, room: Room, index: TermId) -> Result<TermId, Memory>
        ensures shows { (store : List ℕ) (a : ℕ) → IsRoom self.now.model room words.old.terms.cells → Shows words.old.terms store index 64 a
            → IfOk result (λ t. Puts words.old words.new store t (int.width_of room.kind self.now.model) (of.bits_in room store a)) }
        ensures made { IfOk result (λ t. (words.new, t) ≡ made.bits (site_of (setting_of self.now)) words.old room index) }
    {
        if room.is_array {
            words.put(Term::Element(room.first, room.length, index))
        } else {
            words.cell(room.first)
        }
    }

    // The value of an element where the object is there, as a slot's.
    fn element_in(&self, words: &mut Words, room: Room, index: TermId) -> Result<TermId, Memory>
        ensures shows { (store : List ℕ) (a : ℕ) → IsRoom self.now.model room words.old.terms.cells → Shows words.old.terms store index 64 a
            → IfOk result (λ t. Puts words.old words.new store t 64 (of.element_in self.now.model (Some room) store a)) }
        ensures made { IfOk result (λ t. (words.new, t) ≡ made.element_in (site_of (setting_of self.now)) words.old room index) }
    {
        let bits = self.bits(words, room, index)?;
        widen(words, room.kind, self.model, bits)
    }

    /// The value of an object's element, whose index is a slot's value, as a slot's.
    pub(crate) fn element(
        &self,
        words: &mut Words,
        object: u32,
        index: TermId,
    ) -> Result<TermId, Memory>
        ensures shows { (store : List ℕ) (a : ℕ) → Stands (setting_of self.now) words.old → Shows words.old.terms store index 64 a
            → IfOk result (λ t. Puts words.old words.new store t 64 (of.element_value (setting_of self.now) store object a)) }
        ensures made { IfOk result (λ t. (words.new, t) ≡ made.element (site_of (setting_of self.now)) words.old object index) }
    {
        match self.room(object) {
            None => words.zero(SLOT_WIDTH),
            Some(room) => self.element_in(words, room, index),
        }
    }

    // The first element where the object is there.
    fn scalar_in(&self, words: &mut Words, room: Room) -> Result<TermId, Memory>
        ensures shows { (store : List ℕ) → IsRoom self.now.model room words.old.terms.cells
            → IfOk result (λ t. Puts words.old words.new store t 64 (of.scalar_in self.now.model (Some room) store)) }
        ensures made { IfOk result (λ t. (words.new, t) ≡ made.scalar_in (site_of (setting_of self.now)) words.old room) }
    {
        let bits = words.cell(room.first)?;
        widen(words, room.kind, self.model, bits)
    }

    /// The first element of an object, as a slot's value.
    pub(crate) fn scalar(&self, words: &mut Words, object: u32) -> Result<TermId, Memory>
        ensures shows { (store : List ℕ) → Stands (setting_of self.now) words.old
            → IfOk result (λ t. Puts words.old words.new store t 64 (of.scalar_value (setting_of self.now) store object)) }
        ensures made { IfOk result (λ t. (words.new, t) ≡ made.scalar (site_of (setting_of self.now)) words.old object) }
    {
        match self.room(object) {
            None => words.zero(SLOT_WIDTH),
            Some(room) => self.scalar_in(words, room),
        }
    }
}
