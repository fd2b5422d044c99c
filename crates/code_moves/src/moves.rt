//! What instructions do to cells.
ghost use Rattle.std.specs.Prelude.{◌≡◌, ◌+◌, ◌++◌, ◌<◌, ◌≤◌, ℕ, List, Some, IfOk, true, false, min};
ghost use Rattle.bv_term.specs.WellFormed.{Table};
ghost use Rattle.lv_base.specs.declared.kind.Model.{Model};
ghost use Rattle.c_terms.specs.declared.words.Words.{Words};
ghost use Rattle.c_terms.specs.Shown.{Puts, Shows};
ghost use Rattle.lv_base.specs.Integers as int;
ghost use Rattle.lv_base.specs.Integers.{residue};
ghost use Rattle.c_terms.specs.Numbers as word;
ghost use Rattle.c_terms.specs.Operations as by;
ghost use Rattle.code_layout.specs.Layout.{drawn_cell};
ghost use Rattle.code_layout.specs.Lies.{IsWide};
ghost use Rattle.code_moves.specs.Setting.{setting_of, site_of, Stands, room_of, IsRoom};
ghost use Rattle.code_moves.specs.Values as of;
ghost use Rattle.code_moves.specs.Made as made;
ghost use Rattle.code_moves.specs.Deeds.{Deed, AreDeeds, Tells, Does};
ghost use Rattle.code_moves.specs.Moves as m;

use crate::ground::{Ground, Room};
use bv_term::TermId;
use c_graph::Operation;
use c_terms::{SLOT_WIDTH, Words, complement, converted, is_signed, narrow, negated, widen};
use c_tree::{BinaryOp, Crement};
use code_layout::behind;
use lv_base::{Kind, Memory, width};
use slot_code::Instruction;

fn first_behind(first: u32, element: u32) -> Result<u32, Memory>
    ensures { IfOk result (λ n. n ≡ first + element) }
{
    match first.checked_add(element) {
        None => Err(Memory),
        Some(cell) => Ok(cell),
    }
}

// How many elements of an object there are to be worked on.
fn count_in(room: Room, count: usize) -> u32
    ensures { result ≡ min count room.length }
{
    match u32::try_from(count) {
        Err(_) => room.length,
        Ok(count) => count.min(room.length),
    }
}

// A value gets into a slot, where some instruction reads it.
fn fill(
    ground: &Ground<'_>,
    slot: usize,
    value: TermId,
    ops: &mut Vec<Operation>,
) -> Result<(), Memory>
    ensures does { (words : Words) (deeds : List Deed) (f : List ℕ → ℕ) → Stands (setting_of ground.now) words → AreDeeds words.terms ops.old.items deeds → Tells words.terms value 64 f
        → IfOk result (λ u. AreDeeds words.terms ops.new.items (deeds ++ m.fills (setting_of ground.now) slot f)) }
    ensures made { IfOk result (λ u. ops.new.items ≡ made.fill (site_of (setting_of ground.now)) ops.old.items slot value) }
{
    match ground.layout.slot(slot) {
        None => Ok(()),
        Some(cell) => {
            ops.push(Operation::Set(cell, value))?;
            Ok(())
        }
    }
}

// A slot's value is written into an element where the object is there.
fn write_in(
    ground: &Ground<'_>,
    words: &mut Words,
    room: Room,
    index: TermId,
    value: TermId,
    ops: &mut Vec<Operation>,
) -> Result<(), Memory>
    ensures does { (deeds : List Deed) (h f : List ℕ → ℕ) → IsRoom ground.now.model room words.old.terms.cells → AreDeeds words.old.terms ops.old.items deeds
        → Tells words.old.terms index 64 h → Tells words.old.terms value 64 f
        → IfOk result (λ u. Does words.old words.new ops.new.items (deeds ++ m.writes_in ground.now.model (Some room) h f)) }
    ensures made { IfOk result (λ u. (words.new, ops.new.items) ≡ made.write_in (site_of (setting_of ground.now)) words.old ops.old.items room index value) }
{
    let bits = narrow(words, room.kind, ground.model, value)?;
    if room.is_array {
        ops.push(Operation::SetAt(room.first, room.length, index, bits))?;
        return Ok(());
    }
    ops.push(Operation::Set(room.first, bits))?;
    Ok(())
}

// A slot's value is written into an object's element.
fn write(
    ground: &Ground<'_>,
    words: &mut Words,
    object: u32,
    index: TermId,
    value: TermId,
    ops: &mut Vec<Operation>,
) -> Result<(), Memory>
    ensures does { (deeds : List Deed) (h f : List ℕ → ℕ) → Stands (setting_of ground.now) words.old → AreDeeds words.old.terms ops.old.items deeds
        → Tells words.old.terms index 64 h → Tells words.old.terms value 64 f
        → IfOk result (λ u. Does words.old words.new ops.new.items (deeds ++ m.writes (setting_of ground.now) object h f)) }
    ensures made { IfOk result (λ u. (words.new, ops.new.items) ≡ made.write (site_of (setting_of ground.now)) words.old ops.old.items object index value) }
{
    match ground.room(object) {
        None => Ok(()),
        Some(room) => write_in(ground, words, room, index, value, ops),
    }
}

// An element of an object gets a slot's value, its number being known.
fn write_at(
    ground: &Ground<'_>,
    words: &mut Words,
    room: Room,
    element: u32,
    value: TermId,
    ops: &mut Vec<Operation>,
) -> Result<(), Memory>
    ensures does { (deeds : List Deed) (f : List ℕ → ℕ) → IsRoom ground.now.model room words.old.terms.cells → element < room.length → AreDeeds words.old.terms ops.old.items deeds
        → Tells words.old.terms value 64 f
        → IfOk result (λ u. Does words.old words.new ops.new.items (deeds ++ m.writes_at ground.now.model room element f)) }
    ensures made { IfOk result (λ u. (words.new, ops.new.items) ≡ made.write_at (site_of (setting_of ground.now)) words.old ops.old.items room element value) }
{
    let bits = narrow(words, room.kind, ground.model, value)?;
    let cell = first_behind(room.first, element)?;
    ops.push(Operation::Set(cell, bits))?;
    Ok(())
}

impl Ground<'_> {
    /// The operations of an instruction whose checks passed, behind those that are there.
    pub fn moves(
        &self,
        words: &mut Words,
        instruction: Instruction,
        ops: &mut Vec<Operation>,
    ) -> Result<(), Memory>
        ensures does { (deeds : List Deed) → Stands (setting_of self.now) words.old → AreDeeds words.old.terms ops.old.items deeds
            → IfOk result (λ u. Does words.old words.new ops.new.items (deeds ++ m.moves_of (setting_of self.now) instruction)) }
        ensures made { IfOk result (λ u. (words.new, ops.new.items) ≡ made.moves (site_of (setting_of self.now)) words.old ops.old.items instruction) }
    {
        match instruction {
            Instruction::Constant(slot, value) => self.constant(words, slot, value, ops),
            Instruction::Read(slot, object) => self.read(words, slot, object, ops),
            Instruction::Element(slot, _, object, _) => self.load(words, slot, slot, object, ops),
            Instruction::Load(slot, object) => { self.load_behind(words, slot, object, ops) }
            Instruction::Store(slot, object) => self.store(words, slot, object, ops),
            Instruction::Convert(slot, kind) => self.convert(words, slot, kind, ops),
            Instruction::Negate(slot, kind, _) => self.negate(words, slot, kind, ops),
            Instruction::Complement(slot, kind, _) => self.complement(words, slot, kind, ops),
            Instruction::Not(slot) => self.not(words, slot, ops),
            Instruction::Truth(slot) => self.convert(words, slot, Kind::Bool, ops),
            Instruction::Binary(slot, op, kind, _) => self.binary(words, slot, op, kind, ops),
            Instruction::Update(slot, op, kind, to, _, object) => {
                self.update(words, slot, op, kind, to, object, ops)
            }
            Instruction::Change(slot, is_before, by, kind, _, object) => {
                self.change(words, slot, is_before, by, kind, object, ops)
            }
            Instruction::Draw(slot, kind) => self.draw(words, slot, kind, ops),
            Instruction::Fill(object, kind, count) => self.draw_all(
                words, object, kind, count, ops,
            ),
            Instruction::Begin(slot, object, count, values) => {
                self.begin(words, slot, object, count, values, ops)
            }
            Instruction::Bind(slot, object) => self.bind(words, slot, object, ops),
            Instruction::Take(slot, _, from, needed) => {
                self.taken(words, slot, from, needed, ops)
            }
            Instruction::Locate(_, _, _, _) => Ok(()),
            Instruction::Jump(_) => Ok(()),
            Instruction::Turn(_, _) => Ok(()),
            Instruction::SkipZero(_, _) => Ok(()),
            Instruction::SkipEqual(_, _, _) => Ok(()),
            Instruction::Call(_, _, _) => Ok(()),
            Instruction::Return(_) => Ok(()),
            Instruction::Fail(_, _) => Ok(()),
            Instruction::Stop => Ok(()),
        }
    }

    fn constant(
        &self,
        words: &mut Words,
        slot: usize,
        value: i128,
        ops: &mut Vec<Operation>,
    ) -> Result<(), Memory>
        ensures does { (deeds : List Deed) → Stands (setting_of self.now) words.old → AreDeeds words.old.terms ops.old.items deeds
            → IfOk result (λ u. Does words.old words.new ops.new.items (deeds ++ m.fills (setting_of self.now) slot (λ store. residue 64 value))) }
        ensures made { IfOk result (λ u. (words.new, ops.new.items) ≡ made.constant (site_of (setting_of self.now)) words.old ops.old.items slot value) }
    {
        let value = words.constant(value)?;
        fill(self, slot, value, ops)
    }

    fn read(
        &self,
        words: &mut Words,
        slot: usize,
        object: u32,
        ops: &mut Vec<Operation>,
    ) -> Result<(), Memory>
        ensures does { (deeds : List Deed) → Stands (setting_of self.now) words.old → AreDeeds words.old.terms ops.old.items deeds
            → IfOk result (λ u. Does words.old words.new ops.new.items (deeds ++ m.fills (setting_of self.now) slot (λ store. of.scalar_value (setting_of self.now) store object))) }
        ensures made { IfOk result (λ u. (words.new, ops.new.items) ≡ made.read (site_of (setting_of self.now)) words.old ops.old.items slot object) }
    {
        let value = self.scalar(words, object)?;
        fill(self, slot, value, ops)
    }

    // The element whose index is in a slot gets into a slot.
    fn load(
        &self,
        words: &mut Words,
        slot: usize,
        to: usize,
        object: u32,
        ops: &mut Vec<Operation>,
    ) -> Result<(), Memory>
        ensures does { (deeds : List Deed) → Stands (setting_of self.now) words.old → AreDeeds words.old.terms ops.old.items deeds
            → IfOk result (λ u. Does words.old words.new ops.new.items (deeds ++ m.fills (setting_of self.now) to (m.old_value (setting_of self.now) slot object))) }
        ensures made { IfOk result (λ u. (words.new, ops.new.items) ≡ made.load (site_of (setting_of self.now)) words.old ops.old.items slot to object) }
    {
        let index = self.slot(words, slot)?;
        let value = self.element(words, object, index)?;
        fill(self, to, value, ops)
    }

    // The element whose index is in a slot gets into the slot behind it.
    fn load_behind(
        &self,
        words: &mut Words,
        slot: usize,
        object: u32,
        ops: &mut Vec<Operation>,
    ) -> Result<(), Memory>
        ensures does { (deeds : List Deed) → Stands (setting_of self.now) words.old → AreDeeds words.old.terms ops.old.items deeds
            → IfOk result (λ u. Does words.old words.new ops.new.items (deeds ++ m.fills (setting_of self.now) (slot + 1) (m.old_value (setting_of self.now) slot object))) }
        ensures made { IfOk result (λ u. (words.new, ops.new.items) ≡ made.load_behind (site_of (setting_of self.now)) words.old ops.old.items slot object) }
    {
        let to = behind(slot, 1)?;
        self.load(words, slot, to, object, ops)
    }

    fn store(
        &self,
        words: &mut Words,
        slot: usize,
        object: u32,
        ops: &mut Vec<Operation>,
    ) -> Result<(), Memory>
        ensures does { (deeds : List Deed) → Stands (setting_of self.now) words.old → AreDeeds words.old.terms ops.old.items deeds
            → IfOk result (λ u. Does words.old words.new ops.new.items (deeds ++ m.stores (setting_of self.now) slot object (m.index_value (setting_of self.now) (slot + 1)))) }
        ensures made { IfOk result (λ u. (words.new, ops.new.items) ≡ made.store (site_of (setting_of self.now)) words.old ops.old.items slot object) }
    {
        let index = self.slot(words, slot)?;
        let value = self.slot_behind(words, slot, 1)?;
        write(self, words, object, index, value, ops)?;
        fill(self, slot, value, ops)
    }

    // A value is written into the element whose index is in a slot, and gets into that slot.
    fn store_value(
        &self,
        words: &mut Words,
        slot: usize,
        object: u32,
        value: TermId,
        ops: &mut Vec<Operation>,
    ) -> Result<(), Memory>
        ensures does { (deeds : List Deed) (f : List ℕ → ℕ) → Stands (setting_of self.now) words.old → AreDeeds words.old.terms ops.old.items deeds → Tells words.old.terms value 64 f
            → IfOk result (λ u. Does words.old words.new ops.new.items (deeds ++ m.stores (setting_of self.now) slot object f)) }
        ensures made { IfOk result (λ u. (words.new, ops.new.items) ≡ made.store_value (site_of (setting_of self.now)) words.old ops.old.items slot object value) }
    {
        let index = self.slot(words, slot)?;
        write(self, words, object, index, value, ops)?;
        fill(self, slot, value, ops)
    }

    fn convert(
        &self,
        words: &mut Words,
        slot: usize,
        kind: Kind,
        ops: &mut Vec<Operation>,
    ) -> Result<(), Memory>
        ensures does { (deeds : List Deed) → Stands (setting_of self.now) words.old → AreDeeds words.old.terms ops.old.items deeds
            → IfOk result (λ u. Does words.old words.new ops.new.items (deeds ++ m.fills (setting_of self.now) slot (λ store. word.converted kind self.now.model (of.slot_value (setting_of self.now) store slot)))) }
        ensures made { IfOk result (λ u. (words.new, ops.new.items) ≡ made.convert (site_of (setting_of self.now)) words.old ops.old.items slot kind) }
    {
        let value = self.slot(words, slot)?;
        let value = converted(words, kind, self.model, value)?;
        fill(self, slot, value, ops)
    }

    fn negate(
        &self,
        words: &mut Words,
        slot: usize,
        kind: Kind,
        ops: &mut Vec<Operation>,
    ) -> Result<(), Memory>
        ensures does { (deeds : List Deed) → Stands (setting_of self.now) words.old → AreDeeds words.old.terms ops.old.items deeds
            → IfOk result (λ u. Does words.old words.new ops.new.items (deeds ++ m.fills (setting_of self.now) slot (λ store. by.negation kind self.now.model (of.slot_value (setting_of self.now) store slot)))) }
        ensures made { IfOk result (λ u. (words.new, ops.new.items) ≡ made.negate (site_of (setting_of self.now)) words.old ops.old.items slot kind) }
    {
        let operand = self.slot(words, slot)?;
        let value = negated(words, kind, self.model, operand)?;
        fill(self, slot, value, ops)
    }

    fn complement(
        &self,
        words: &mut Words,
        slot: usize,
        kind: Kind,
        ops: &mut Vec<Operation>,
    ) -> Result<(), Memory>
        ensures does { (deeds : List Deed) → Stands (setting_of self.now) words.old → AreDeeds words.old.terms ops.old.items deeds
            → IfOk result (λ u. Does words.old words.new ops.new.items (deeds ++ m.fills (setting_of self.now) slot (λ store. by.complement kind self.now.model (of.slot_value (setting_of self.now) store slot)))) }
        ensures made { IfOk result (λ u. (words.new, ops.new.items) ≡ made.complement (site_of (setting_of self.now)) words.old ops.old.items slot kind) }
    {
        let operand = self.slot(words, slot)?;
        let value = complement(words, kind, self.model, operand)?;
        fill(self, slot, value, ops)
    }

    fn not(&self, words: &mut Words, slot: usize, ops: &mut Vec<Operation>) -> Result<(), Memory>
        ensures does { (deeds : List Deed) → Stands (setting_of self.now) words.old → AreDeeds words.old.terms ops.old.items deeds
            → IfOk result (λ u. Does words.old words.new ops.new.items (deeds ++ m.fills (setting_of self.now) slot (λ store. word.zero_test (of.slot_value (setting_of self.now) store slot)))) }
        ensures made { IfOk result (λ u. (words.new, ops.new.items) ≡ made.not (site_of (setting_of self.now)) words.old ops.old.items slot) }
    {
        let operand = self.slot(words, slot)?;
        let zero = words.is_zero(operand)?;
        let value = words.truth(zero)?;
        fill(self, slot, value, ops)
    }

    fn binary(
        &self,
        words: &mut Words,
        slot: usize,
        op: BinaryOp,
        kind: Kind,
        ops: &mut Vec<Operation>,
    ) -> Result<(), Memory>
        ensures does { (deeds : List Deed) → Stands (setting_of self.now) words.old → AreDeeds words.old.terms ops.old.items deeds
            → IfOk result (λ u. Does words.old words.new ops.new.items (deeds ++ m.fills (setting_of self.now) slot (λ store. of.applied op kind self.now.model (of.slot_value (setting_of self.now) store slot) (of.slot_value (setting_of self.now) store (slot + 1))))) }
        ensures made { IfOk result (λ u. (words.new, ops.new.items) ≡ made.binary (site_of (setting_of self.now)) words.old ops.old.items slot op kind) }
    {
        let left = self.slot(words, slot)?;
        let right = self.slot_behind(words, slot, 1)?;
        let value = self.applied(words, op, kind, left, right)?;
        fill(self, slot, value, ops)
    }

    fn taken(
        &self,
        words: &mut Words,
        slot: usize,
        from: usize,
        is_needed: bool,
        ops: &mut Vec<Operation>,
    ) -> Result<(), Memory>
        ensures does { (deeds : List Deed) → Stands (setting_of self.now) words.old → AreDeeds words.old.terms ops.old.items deeds
            → IfOk result (λ u. Does words.old words.new ops.new.items (deeds ++ m.takes (setting_of self.now) slot from is_needed)) }
        ensures made { IfOk result (λ u. (words.new, ops.new.items) ≡ made.taken (site_of (setting_of self.now)) words.old ops.old.items slot from is_needed) }
    {
        if is_needed {
            self.take(words, slot, from, ops)
        } else {
            self.take_some(words, slot, from, ops)
        }
    }

    // What a call gave.
    fn take(
        &self,
        words: &mut Words,
        slot: usize,
        from: usize,
        ops: &mut Vec<Operation>,
    ) -> Result<(), Memory>
        ensures does { (deeds : List Deed) → Stands (setting_of self.now) words.old → AreDeeds words.old.terms ops.old.items deeds
            → IfOk result (λ u. Does words.old words.new ops.new.items (deeds ++ m.takes (setting_of self.now) slot from true)) }
        ensures made { IfOk result (λ u. (words.new, ops.new.items) ≡ made.take (site_of (setting_of self.now)) words.old ops.old.items slot from) }
    {
        let value = self.slot_behind(words, from, 1)?;
        fill(self, slot, value, ops)
    }

    // What a call gave, or 0 where it gave nothing.
    fn take_some(
        &self,
        words: &mut Words,
        slot: usize,
        from: usize,
        ops: &mut Vec<Operation>,
    ) -> Result<(), Memory>
        ensures does { (deeds : List Deed) → Stands (setting_of self.now) words.old → AreDeeds words.old.terms ops.old.items deeds
            → IfOk result (λ u. Does words.old words.new ops.new.items (deeds ++ m.takes (setting_of self.now) slot from false)) }
        ensures made { IfOk result (λ u. (words.new, ops.new.items) ≡ made.take_some (site_of (setting_of self.now)) words.old ops.old.items slot from) }
    {
        let value = self.slot_behind(words, from, 1)?;
        let flag = self.slot_behind(words, from, 2)?;
        let is_none = words.is_zero(flag)?;
        let zero = words.zero(SLOT_WIDTH)?;
        let chosen = words.choose(is_none, zero, value)?;
        fill(self, slot, chosen, ops)
    }

    // The value of `op=`: the old value converted to the operation's kind, the right side, and the result in the target's kind.
    fn updated(
        &self,
        words: &mut Words,
        slot: usize,
        op: BinaryOp,
        kind: Kind,
        to: Kind,
    ) -> Result<TermId, Memory>
        ensures shows { (store : List ℕ) → Stands (setting_of self.now) words.old
            → IfOk result (λ t. Puts words.old words.new store t 64 (m.updated_value (setting_of self.now) slot op kind to store)) }
        ensures made { IfOk result (λ t. (words.new, t) ≡ made.updated (site_of (setting_of self.now)) words.old slot op kind to) }
    {
        let old = self.slot_behind(words, slot, 1)?;
        let right = self.slot_behind(words, slot, 2)?;
        let left = converted(words, kind, self.model, old)?;
        let value = self.applied(words, op, kind, left, right)?;
        converted(words, to, self.model, value)
    }

    // `op=`: the index and the old value stay in their slots until the element is written.
    fn update(
        &self,
        words: &mut Words,
        slot: usize,
        op: BinaryOp,
        kind: Kind,
        to: Kind,
        object: u32,
        ops: &mut Vec<Operation>,
    ) -> Result<(), Memory>
        ensures does { (deeds : List Deed) → Stands (setting_of self.now) words.old → AreDeeds words.old.terms ops.old.items deeds
            → IfOk result (λ u. Does words.old words.new ops.new.items (deeds ++ m.stores (setting_of self.now) slot object (m.updated_value (setting_of self.now) slot op kind to))) }
        ensures made { IfOk result (λ u. (words.new, ops.new.items) ≡ made.update (site_of (setting_of self.now)) words.old ops.old.items slot op kind to object) }
    {
        let new = self.updated(words, slot, op, kind, to)?;
        self.store_value(words, slot, object, new, ops)
    }

    // One more or less than the element is written into it.
    fn step(
        &self,
        words: &mut Words,
        slot: usize,
        by: Crement,
        kind: Kind,
        object: u32,
        ops: &mut Vec<Operation>,
    ) -> Result<(), Memory>
        ensures does { (deeds : List Deed) → Stands (setting_of self.now) words.old → AreDeeds words.old.terms ops.old.items deeds
            → IfOk result (λ u. Does words.old words.new ops.new.items (deeds ++ m.step_of (setting_of self.now) slot object by kind)) }
        ensures made { IfOk result (λ u. (words.new, ops.new.items) ≡ made.step (site_of (setting_of self.now)) words.old ops.old.items slot by kind object) }
    {
        let index = self.slot(words, slot)?;
        let old = self.element(words, object, index)?;
        let new = self.stepped(words, by, kind, old)?;
        write(self, words, object, index, new, ops)
    }

    fn change(
        &self,
        words: &mut Words,
        slot: usize,
        is_before: bool,
        by: Crement,
        kind: Kind,
        object: u32,
        ops: &mut Vec<Operation>,
    ) -> Result<(), Memory>
        ensures does { (deeds : List Deed) → Stands (setting_of self.now) words.old → AreDeeds words.old.terms ops.old.items deeds
            → IfOk result (λ u. Does words.old words.new ops.new.items (deeds ++ m.changes (setting_of self.now) slot is_before by kind object)) }
        ensures made { IfOk result (λ u. (words.new, ops.new.items) ≡ made.change (site_of (setting_of self.now)) words.old ops.old.items slot is_before by kind object) }
    {
        if is_before {
            self.change_before(words, slot, by, kind, object, ops)
        } else {
            self.change_behind(words, slot, by, kind, object, ops)
        }
    }

    // `++` or `--` before an element: its value is what was written.
    fn change_before(
        &self,
        words: &mut Words,
        slot: usize,
        by: Crement,
        kind: Kind,
        object: u32,
        ops: &mut Vec<Operation>,
    ) -> Result<(), Memory>
        ensures does { (deeds : List Deed) → Stands (setting_of self.now) words.old → AreDeeds words.old.terms ops.old.items deeds
            → IfOk result (λ u. Does words.old words.new ops.new.items (deeds ++ m.changes (setting_of self.now) slot true by kind object)) }
        ensures made { IfOk result (λ u. (words.new, ops.new.items) ≡ made.change_before (site_of (setting_of self.now)) words.old ops.old.items slot by kind object) }
    {
        self.step(words, slot, by, kind, object, ops)?;
        self.load(words, slot, slot, object, ops)
    }

    // `++` or `--` behind an element: its value is what was there.
    fn change_behind(
        &self,
        words: &mut Words,
        slot: usize,
        by: Crement,
        kind: Kind,
        object: u32,
        ops: &mut Vec<Operation>,
    ) -> Result<(), Memory>
        ensures does { (deeds : List Deed) → Stands (setting_of self.now) words.old → AreDeeds words.old.terms ops.old.items deeds
            → IfOk result (λ u. Does words.old words.new ops.new.items (deeds ++ m.changes (setting_of self.now) slot false by kind object)) }
        ensures made { IfOk result (λ u. (words.new, ops.new.items) ≡ made.change_behind (site_of (setting_of self.now)) words.old ops.old.items slot by kind object) }
    {
        match self.layout.slot(slot) {
            None => self.step(words, slot, by, kind, object, ops),
            Some(cell) => self.step_behind(words, slot, cell, by, kind, object, ops),
        }
    }

    // The old value gets into the slot's cell, out of which the new one is made.
    fn step_behind(
        &self,
        words: &mut Words,
        slot: usize,
        cell: u32,
        by: Crement,
        kind: Kind,
        object: u32,
        ops: &mut Vec<Operation>,
    ) -> Result<(), Memory>
        ensures does { (deeds : List Deed) → Stands (setting_of self.now) words.old → IsWide words.old.terms.cells cell 64 → AreDeeds words.old.terms ops.old.items deeds
            → IfOk result (λ u. Does words.old words.new ops.new.items (deeds ++ m.step_behind (setting_of self.now) slot object by kind (Some cell))) }
        ensures made { IfOk result (λ u. (words.new, ops.new.items) ≡ made.step_behind (site_of (setting_of self.now)) words.old ops.old.items slot cell by kind object) }
    {
        let index = self.slot(words, slot)?;
        let old = self.element(words, object, index)?;
        let kept = self.keep(words, object, index, ops)?;
        ops.push(Operation::Set(cell, old))?;
        let was = words.cell(cell)?;
        let new = self.stepped(words, by, kind, was)?;
        write(self, words, object, kept, new, ops)
    }

    // The cell that keeps the index of an array while its slot gets a value.
    fn kept_cell(&self, object: u32) -> Option<u32>
        ensures { result ≡ m.kept_cell (setting_of self.now) object }
    {
        match self.room(object) {
            None => None,
            Some(room) => {
                if room.is_array {
                    self.layout.index()
                } else {
                    None
                }
            }
        }
    }

    // The index stays in a cell of its own.
    fn keep(
        &self,
        words: &mut Words,
        object: u32,
        index: TermId,
        ops: &mut Vec<Operation>,
    ) -> Result<TermId, Memory>
        ensures ops { (deeds : List Deed) (f : List ℕ → ℕ) → Stands (setting_of self.now) words.old → AreDeeds words.old.terms ops.old.items deeds → Tells words.old.terms index 64 f
            → IfOk result (λ t. Does words.old words.new ops.new.items (deeds ++ m.kept_deeds (m.kept_cell (setting_of self.now) object) f)) }
        ensures kept { (f : List ℕ → ℕ) (store : List ℕ) → Stands (setting_of self.now) words.old → Tells words.old.terms index 64 f
            → IfOk result (λ t. Shows words.new.terms store t 64 (m.kept_value (m.kept_cell (setting_of self.now) object) f store)) }
        ensures made { IfOk result (λ t. (words.new, ops.new.items, t) ≡ made.keep (site_of (setting_of self.now)) words.old ops.old.items object index) }
    {
        match self.kept_cell(object) {
            None => Ok(index),
            Some(cell) => {
                ops.push(Operation::Set(cell, index))?;
                words.cell(cell)
            }
        }
    }

    fn draw(
        &self,
        words: &mut Words,
        slot: usize,
        kind: Kind,
        ops: &mut Vec<Operation>,
    ) -> Result<(), Memory>
        ensures does { (deeds : List Deed) → Stands (setting_of self.now) words.old → AreDeeds words.old.terms ops.old.items deeds
            → IfOk result (λ u. Does words.old words.new ops.new.items (deeds ++ m.draws_to (setting_of self.now) slot kind (drawn_cell (setting_of self.now).lay (int.width_of kind self.now.model)))) }
        ensures made { IfOk result (λ u. (words.new, ops.new.items) ≡ made.draw (site_of (setting_of self.now)) words.old ops.old.items slot kind) }
    {
        match self.layout.drawn(width(kind, self.model)) {
            None => Ok(()),
            Some(cell) => self.draw_in(words, slot, kind, cell, ops),
        }
    }

    // The next input gets into a cell, and its value into a slot.
    fn draw_in(
        &self,
        words: &mut Words,
        slot: usize,
        kind: Kind,
        cell: u32,
        ops: &mut Vec<Operation>,
    ) -> Result<(), Memory>
        ensures does { (deeds : List Deed) → Stands (setting_of self.now) words.old → IsWide words.old.terms.cells cell (int.width_of kind self.now.model) → AreDeeds words.old.terms ops.old.items deeds
            → IfOk result (λ u. Does words.old words.new ops.new.items (deeds ++ m.draws_to (setting_of self.now) slot kind (Some cell))) }
        ensures made { IfOk result (λ u. (words.new, ops.new.items) ≡ made.draw_in (site_of (setting_of self.now)) words.old ops.old.items slot kind cell) }
    {
        ops.push(Operation::Draw(cell, is_signed(kind)))?;
        let bits = words.cell(cell)?;
        let value = widen(words, kind, self.model, bits)?;
        fill(self, slot, value, ops)
    }

    fn draw_all(
        &self,
        words: &mut Words,
        object: u32,
        kind: Kind,
        count: usize,
        ops: &mut Vec<Operation>,
    ) -> Result<(), Memory>
        ensures does { (deeds : List Deed) → Stands (setting_of self.now) words.old → AreDeeds words.old.terms ops.old.items deeds
            → IfOk result (λ u. Does words.old words.new ops.new.items (deeds ++ m.draws_in (room_of (setting_of self.now) object) kind count)) }
        ensures made { IfOk result (λ u. (words.new, ops.new.items) ≡ made.draw_all (site_of (setting_of self.now)) words.old ops.old.items object kind count) }
    {
        match self.room(object) {
            None => Ok(()),
            Some(room) => draw_first(room, kind, count_in(room, count), ops),
        }
    }

    fn begin(
        &self,
        words: &mut Words,
        slot: usize,
        object: u32,
        count: usize,
        values: usize,
        ops: &mut Vec<Operation>,
    ) -> Result<(), Memory>
        ensures does { (deeds : List Deed) → Stands (setting_of self.now) words.old → AreDeeds words.old.terms ops.old.items deeds
            → IfOk result (λ u. Does words.old words.new ops.new.items (deeds ++ m.begins_in (setting_of self.now) (room_of (setting_of self.now) object) slot count values)) }
        ensures made { IfOk result (λ u. (words.new, ops.new.items) ≡ made.begin (site_of (setting_of self.now)) words.old ops.old.items slot object count values) }
    {
        match self.room(object) {
            None => Ok(()),
            Some(room) => self.begin_first(words, slot, room, count_in(room, count), values, ops),
        }
    }

    // The first so many elements get the values of slots, and 0 behind those.
    fn begin_first(
        &self,
        words: &mut Words,
        slot: usize,
        room: Room,
        count: u32,
        values: usize,
        ops: &mut Vec<Operation>,
    ) -> Result<(), Memory>
        ensures does { (deeds : List Deed) → Stands (setting_of self.now) words.old → IsRoom self.now.model room words.old.terms.cells → count ≤ room.length
            → AreDeeds words.old.terms ops.old.items deeds
            → IfOk result (λ u. Does words.old words.new ops.new.items (deeds ++ m.begins_first (setting_of self.now) room slot values count)) }
        ensures made { IfOk result (λ u. (words.new, ops.new.items) ≡ made.begin_first (site_of (setting_of self.now)) words.old ops.old.items slot room count values) }
    {
        for element in 0..count {
            let value = self.begun(words, slot, values, element)?;
            write_at(self, words, room, element, value, ops)?;
        }
        Ok(())
    }

    // The value for an element, 0 behind the values.
    fn begun(
        &self,
        words: &mut Words,
        slot: usize,
        values: usize,
        element: u32,
    ) -> Result<TermId, Memory>
        ensures shows { (store : List ℕ) → Stands (setting_of self.now) words.old
            → IfOk result (λ t. Puts words.old words.new store t 64 (m.begun (setting_of self.now) slot values element store)) }
        ensures made { IfOk result (λ t. (words.new, t) ≡ made.begun (site_of (setting_of self.now)) words.old slot values element) }
    {
        if (element as usize) < values {
            self.slot_behind(words, slot, element as usize)
        } else {
            words.zero(SLOT_WIDTH)
        }
    }

    fn bind(
        &self,
        words: &mut Words,
        slot: usize,
        object: u32,
        ops: &mut Vec<Operation>,
    ) -> Result<(), Memory>
        ensures does { (deeds : List Deed) → Stands (setting_of self.now) words.old → AreDeeds words.old.terms ops.old.items deeds
            → IfOk result (λ u. Does words.old words.new ops.new.items (deeds ++ m.binds_in (setting_of self.now) (room_of (setting_of self.now) object) slot)) }
        ensures made { IfOk result (λ u. (words.new, ops.new.items) ≡ made.bind (site_of (setting_of self.now)) words.old ops.old.items slot object) }
    {
        match self.room(object) {
            None => Ok(()),
            Some(room) => {
                let value = self.slot(words, slot)?;
                write_at(self, words, room, 0, value, ops)
            }
        }
    }
}

// The first so many elements are drawn.
fn draw_first(room: Room, kind: Kind, count: u32, ops: &mut Vec<Operation>) -> Result<(), Memory>
    ensures does { (model : Model) (table : Table) (deeds : List Deed) → IsRoom model room table.cells → count ≤ room.length → AreDeeds table ops.old.items deeds
        → IfOk result (λ u. AreDeeds table ops.new.items (deeds ++ m.draws_first room kind count)) }
    ensures made { IfOk result (λ u. ops.new.items ≡ made.draw_first ops.old.items room kind count) }
{
    for element in 0..count {
        let cell = first_behind(room.first, element)?;
        ops.push(Operation::Draw(cell, is_signed(kind)))?;
    }
    Ok(())
}
