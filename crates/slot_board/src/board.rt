ghost use Rattle.std.specs.Prelude.{◌≡◌, ◌<◌, ◌≤◌, ◌+◌, ℕ, suc, [], ◌∷◌, length, List, ℤ, pos, max, unsigned_abs, slice_index_or, IsTrue};
ghost use Rattle.lv_base.specs.Integers as int;
ghost use Rattle.c_run.specs.Run as run;
ghost use Rattle.slot_code.specs.Slots.{get, put, slots_from, slots_of};
ghost use Rattle.slot_code.specs.Machine as code;
ghost use Rattle.slot_board.specs.Seen.{reply, seen, filled_by, size_in, element_at, index_at, fits, state_written};
ghost use Rattle.slot_board.specs.Boards.{state_of, shape_of, act_of, next_of};

use crate::row::{Row, draw};
use crate::step::Step;
use crate::values::{
    applied, chosen, convert, crement_op, guarded, is_index, is_true, is_zero, promoted, quickly,
    quickly_applied, truth,
};
use c_tree::{BinaryOp, Crement};
use lv_base::{ErrorKind, Kind, Model, Op};
use slot_code::{Ending, Instruction};

/// Where an instruction stands: its place, and the slot that it works on.
#[derive(Clone, Copy)]
pub struct Site {
    pub place: usize,
    pub slot: usize,
}

// The place behind this one.
fn behind(place: usize) -> u128
    ensures { result ≡ suc place }
{
    place as u128 + 1
}

/// A value gets into a slot.
#[tactic(auto, using(crate::proofs::Answering::set_put))]
#[inline(always)]
pub fn put_value(slots: &mut [i128], slot: usize, value: i128)
    requires { slot < length slots.old }
    ensures { slots.new ≡ put slots.old slot value }
{
    slots[slot] = value;
}

// The values of so many slots from one on.
fn slots_between(slots: &[i128], slot: usize, count: usize) -> &[i128]
    requires { slot + count ≤ length slots.now }
    ensures { result.now ≡ slots_from slots.now slot count }
{
    &slots[slot..slot + count]
}

/// What a run changes: the slots, the values of each object, the number of inputs that were drawn, and the turns that are
/// left.
#[derive(Drop)]
pub struct Board {
    pub slots: Vec<i128>,
    pub store: Vec<Row>,
    pub taken: usize,
    pub turns: u64,
}

impl Board {
    // The value of a slot.
    #[inline(always)]
    fn slot(&self, slot: usize) -> i128
        requires { slot < length self.now.slots.items }
        ensures { result ≡ get self.now.slots.items slot }
    {
        self.slots[slot]
    }

    // The value of the slot behind this one.
    #[inline(always)]
    fn second(&self, slot: usize) -> i128
        requires { suc slot < length self.now.slots.items }
        ensures { result ≡ get self.now.slots.items (suc slot) }
    {
        self.slot(slot + 1)
    }

    // The value of the second slot behind this one.
    #[inline(always)]
    fn third(&self, slot: usize) -> i128
        requires { suc (suc slot) < length self.now.slots.items }
        ensures { result ≡ get self.now.slots.items (suc (suc slot)) }
    {
        self.slot(slot + 2)
    }

    // The value of an element, and 0 where there is none.
    #[inline(always)]
    fn read(&self, object: u32, index: u128) -> i128
        ensures { result ≡ slice_index_or (run.values_of (state_of self.now) object) index (pos 0) }
    {
        match self.store.get(object as usize) {
            Some(row) => row.value_at(index),
            None => 0,
        }
    }

    // Stores a value in an element, where there is one.
    #[tactic(auto, using(crate::proofs::Shapes::lengths_set))]
    #[inline(always)]
    fn write(&mut self, object: u32, index: u128, value: i128)
        ensures state { run.Value value (state_of self.new) ≡ run.write (run.element object index) value (state_of self.old) }
        ensures slots { self.new.slots.items ≡ self.old.slots.items }
        ensures kept { shape_of self.new ≡ shape_of self.old }
    {
        if (object as usize) < self.store.len() {
            let row = &mut self.store[object as usize];
            row.set(index, value);
        }
    }

    // A value gets into a slot, and the next place follows.
    #[inline(always)]
    fn stored(&mut self, site: Site, value: i128) -> Step
        requires { site.slot < length self.old.slots.items }
        ensures next { next_of site.place result self.new ≡ code.Goes (code.machine (suc site.place) (put self.old.slots.items site.slot value) (state_of self.old)) }
        ensures kept { shape_of self.new ≡ shape_of self.old }
    {
        put_value(&mut self.slots, site.slot, value);
        Step::Next
    }

    // So does a value that may be none.
    #[inline(always)]
    fn filled(&mut self, site: Site, got: Result<i128, Ending>) -> Step
        requires { site.slot < length self.old.slots.items }
        ensures next { next_of site.place result self.new ≡ filled_by site.place self.old.slots.items site.slot (reply got (state_of self.old)) }
        ensures kept { shape_of self.new ≡ shape_of self.old }
    {
        match got {
            Ok(value) => self.stored(site, value),
            Err(ending) => Step::Over(ending),
        }
    }

    // The value of an operation at this offset, or the error that it met.
    #[inline(always)]
    fn or_error(&self, at: u32, computed: Result<i128, ErrorKind>) -> Result<i128, Ending>
        ensures { reply result (state_of self.now) ≡ seen (run.computed at computed (state_of self.now)) }
    {
        match computed {
            Ok(value) => Ok(value),
            Err(kind) => Err(Ending::Error(kind, at, self.taken)),
        }
    }

    // The value of an element whose index is tested first.
    #[tactic(auto, using(crate::proofs::Computing::element_found, crate::proofs::Computing::element_absent))]
    #[inline(always)]
    fn element(&self, at: u32, object: u32, count: usize, index: i128) -> Result<i128, Ending>
        ensures { reply result (state_of self.now) ≡ seen (element_at at object count index (state_of self.now)) }
    {
        if is_index(index, count) {
            return Ok(self.read(object, index.unsigned_abs()));
        }
        Err(Ending::Error(ErrorKind::Index, at, self.taken))
    }

    // An index that is tested.
    #[tactic(auto, using(crate::proofs::Computing::index_found, crate::proofs::Computing::index_absent))]
    #[inline(always)]
    fn index(&self, at: u32, count: usize, index: i128) -> Result<i128, Ending>
        ensures { (object : ℕ) → reply result (state_of self.now) ≡ seen (index_at at object count index (state_of self.now)) }
    {
        if is_index(index, count) {
            return Ok(index);
        }
        Err(Ending::Error(ErrorKind::Index, at, self.taken))
    }

    #[inline(always)]
    fn read_object(&mut self, site: Site, object: u32) -> Step
        requires { site.slot < length self.old.slots.items }
        ensures next { next_of site.place result self.new ≡ code.fills site.place self.old.slots.items site.slot (run.read (run.scalar object) (state_of self.old)) }
        ensures kept { shape_of self.new ≡ shape_of self.old }
    {
        let value = self.read(object, 0);
        self.stored(site, value)
    }

    #[inline(always)]
    fn read_element(&mut self, site: Site, at: u32, object: u32, count: usize) -> Step
        requires { site.slot < length self.old.slots.items }
        ensures next { next_of site.place result self.new ≡ code.fills site.place self.old.slots.items site.slot (element_at at object count (get self.old.slots.items site.slot) (state_of self.old)) }
        ensures kept { shape_of self.new ≡ shape_of self.old }
    {
        let got = self.element(at, object, count, self.slot(site.slot));
        self.filled(site, got)
    }

    #[inline(always)]
    fn locate(&mut self, site: Site, at: u32, count: usize) -> Step
        requires { site.slot < length self.old.slots.items }
        ensures next { (object : ℕ) → next_of site.place result self.new ≡ code.fills site.place self.old.slots.items site.slot (index_at at object count (get self.old.slots.items site.slot) (state_of self.old)) }
        ensures kept { shape_of self.new ≡ shape_of self.old }
    {
        let got = self.index(at, count, self.slot(site.slot));
        self.filled(site, got)
    }

    #[inline(always)]
    fn load(&mut self, site: Site, object: u32) -> Step
        requires { suc site.slot < length self.old.slots.items }
        ensures next { next_of site.place result self.new ≡ code.fills site.place self.old.slots.items (suc site.slot) (run.read (code.element_in self.old.slots.items site.slot object) (state_of self.old)) }
        ensures kept { shape_of self.new ≡ shape_of self.old }
    {
        let index = self.slot(site.slot).unsigned_abs();
        let value = self.read(object, index);
        let next = Site {
            place: site.place,
            slot: site.slot + 1,
        };
        self.stored(next, value)
    }

    #[inline(always)]
    fn store_value(&mut self, site: Site, object: u32) -> Step
        requires { suc site.slot < length self.old.slots.items }
        ensures next { next_of site.place result self.new ≡ code.fills site.place self.old.slots.items site.slot (run.write (code.element_in self.old.slots.items site.slot object) (get self.old.slots.items (suc site.slot)) (state_of self.old)) }
        ensures kept { shape_of self.new ≡ shape_of self.old }
    {
        let index = self.slot(site.slot).unsigned_abs();
        let value = self.second(site.slot);
        self.write(object, index, value);
        self.stored(site, value)
    }

    #[inline(always)]
    fn convert(&mut self, site: Site, kind: Kind, model: Model) -> Step
        requires { site.slot < length self.old.slots.items }
        ensures next { next_of site.place result self.new ≡ act_of model [] (Instruction.Convert site.slot kind) site.place self.old }
        ensures kept { shape_of self.new ≡ shape_of self.old }
    {
        let value = convert(self.slot(site.slot), kind, model);
        self.stored(site, value)
    }

    #[inline(always)]
    fn negate(&mut self, site: Site, at: u32, kind: Kind, model: Model) -> Step
        requires { site.slot < length self.old.slots.items }
        ensures next { next_of site.place result self.new ≡ act_of model [] (Instruction.Negate site.slot kind at) site.place self.old }
        ensures kept { shape_of self.new ≡ shape_of self.old }
    {
        let value = self.slot(site.slot);
        if let Some(negative) = quickly(model, Op::Sub, kind, 0, value) {
            return self.stored(site, negative);
        }
        let computed = guarded(model, Op::Sub, kind, 0, value);
        let got = self.or_error(at, computed);
        self.filled(site, got)
    }

    #[inline(always)]
    fn complement(&mut self, site: Site, at: u32, kind: Kind, model: Model) -> Step
        requires { site.slot < length self.old.slots.items }
        ensures next { next_of site.place result self.new ≡ act_of model [] (Instruction.Complement site.slot kind at) site.place self.old }
        ensures kept { shape_of self.new ≡ shape_of self.old }
    {
        let ones = convert(-1, kind, model);
        let computed = guarded(model, Op::Xor, kind, self.slot(site.slot), ones);
        let got = self.or_error(at, computed);
        self.filled(site, got)
    }

    // 1 where the operand is 0, else 0.
    #[inline(always)]
    fn negation(&mut self, site: Site) -> Step
        requires { site.slot < length self.old.slots.items }
        ensures next { next_of site.place result self.new ≡ code.fills site.place self.old.slots.items site.slot (run.Value (int.truth (int.is_zero (get self.old.slots.items site.slot))) (state_of self.old)) }
        ensures kept { shape_of self.new ≡ shape_of self.old }
    {
        let value = truth(is_zero(self.slot(site.slot)));
        self.stored(site, value)
    }

    // 0 where the operand is 0, else 1.
    #[inline(always)]
    fn truth_value(&mut self, site: Site) -> Step
        requires { site.slot < length self.old.slots.items }
        ensures next { next_of site.place result self.new ≡ code.fills site.place self.old.slots.items site.slot (run.Value (int.truth (run.is_true (get self.old.slots.items site.slot))) (state_of self.old)) }
        ensures kept { shape_of self.new ≡ shape_of self.old }
    {
        let value = truth(is_true(self.slot(site.slot)));
        self.stored(site, value)
    }

    #[inline(always)]
    fn binary(&mut self, site: Site, at: u32, op: BinaryOp, kind: Kind, model: Model) -> Step
        requires { suc site.slot < length self.old.slots.items }
        ensures next { next_of site.place result self.new ≡ act_of model [] (Instruction.Binary site.slot op kind at) site.place self.old }
        ensures kept { shape_of self.new ≡ shape_of self.old }
    {
        let left = self.slot(site.slot);
        let right = self.second(site.slot);
        if let Some(value) = quickly_applied(model, op, kind, left, right) {
            return self.stored(site, value);
        }
        let got = self.or_error(at, applied(model, op, kind, left, right));
        self.filled(site, got)
    }

    // A value is stored in an element; `give` is the value of the whole.
    #[inline(always)]
    fn rewrite(&mut self, site: Site, object: u32, index: u128, value: i128, give: i128) -> Step
        requires { site.slot < length self.old.slots.items }
        ensures next { next_of site.place result self.new ≡ code.Goes (code.machine (suc site.place) (put self.old.slots.items site.slot give) (state_written (run.element object index) value (state_of self.old))) }
        ensures kept { shape_of self.new ≡ shape_of self.old }
    {
        self.write(object, index, value);
        self.stored(site, give)
    }

    #[inline(always)]
    fn update(
        &mut self,
        site: Site,
        at: u32,
        op: BinaryOp,
        kind: Kind,
        target: Kind,
        object: u32,
        model: Model,
    ) -> Step
        requires { suc (suc site.slot) < length self.old.slots.items }
        ensures next { next_of site.place result self.new ≡ act_of model [] (Instruction.Update site.slot op kind target at object) site.place self.old }
        ensures kept { shape_of self.new ≡ shape_of self.old }
    {
        let index = self.slot(site.slot).unsigned_abs();
        let left = convert(self.second(site.slot), kind, model);
        let right = self.third(site.slot);
        if let Some(value) = quickly_applied(model, op, kind, left, right) {
            let stored = convert(value, target, model);
            return self.rewrite(site, object, index, stored, stored);
        }
        match applied(model, op, kind, left, right) {
            Ok(value) => {
                let stored = convert(value, target, model);
                self.rewrite(site, object, index, stored, stored)
            }
            Err(error) => Step::Over(Ending::Error(error, at, self.taken)),
        }
    }

    #[inline(always)]
    fn change(
        &mut self,
        site: Site,
        at: u32,
        before: bool,
        by: Crement,
        kind: Kind,
        object: u32,
        model: Model,
    ) -> Step
        requires { site.slot < length self.old.slots.items }
        ensures next { next_of site.place result self.new ≡ act_of model [] (Instruction.Change site.slot before by kind at object) site.place self.old }
        ensures kept { shape_of self.new ≡ shape_of self.old }
    {
        let index = self.slot(site.slot).unsigned_abs();
        let old = self.read(object, index);
        let wide = promoted(kind);
        let operand = convert(old, wide, model);
        if let Some(value) = quickly(model, crement_op(by), wide, operand, 1) {
            let new = convert(value, kind, model);
            return self.rewrite(site, object, index, new, chosen(before, new, old));
        }
        match guarded(model, crement_op(by), wide, operand, 1) {
            Ok(value) => {
                let new = convert(value, kind, model);
                self.rewrite(site, object, index, new, chosen(before, new, old))
            }
            Err(error) => Step::Over(Ending::Error(error, at, self.taken)),
        }
    }

    #[inline(always)]
    fn draw_value(&mut self, site: Site, kind: Kind, inputs: &[i128], model: Model) -> Step
        requires { site.slot < length self.old.slots.items }
        ensures next { next_of site.place result self.new ≡ act_of model inputs.now (Instruction.Draw site.slot kind) site.place self.old }
        ensures kept { shape_of self.new ≡ shape_of self.old }
    {
        let got = draw(&mut self.taken, inputs, model, kind);
        self.filled(site, got)
    }

    fn fill(&mut self, object: u32, kind: Kind, inputs: &[i128], model: Model) -> Step
        ensures next { (place : ℕ) → next_of place result self.new ≡ act_of model inputs.now (Instruction.Fill object kind (size_in self.old.store.items object)) place self.old }
        ensures kept { shape_of self.new ≡ shape_of self.old }
    {
        if (object as usize) >= self.store.len() {
            return Step::Next;
        }
        let row = &mut self.store[object as usize];
        match row.fill(&mut self.taken, inputs, model, kind) {
            Ok(()) => Step::Next,
            Err(ending) => Step::Over(ending),
        }
    }

    fn begin(&mut self, site: Site, object: u32, values: usize) -> Step
        requires slots { site.slot + values ≤ length self.old.slots.items }
        requires size { values ≤ size_in self.old.store.items object }
        ensures next { next_of site.place result self.new ≡ code.goes (suc site.place) self.old.slots.items (run.store_all object (run.padded (size_in self.old.store.items object) (slots_from self.old.slots.items site.slot values)) (state_of self.old)) }
        ensures kept { shape_of self.new ≡ shape_of self.old }
    {
        if (object as usize) >= self.store.len() {
            return Step::Next;
        }
        let row = &mut self.store[object as usize];
        row.begin(slots_between(&self.slots, site.slot, values));
        Step::Next
    }

    #[inline(always)]
    fn bind(&mut self, site: Site, object: u32) -> Step
        requires slot { site.slot < length self.old.slots.items }
        requires size { size_in self.old.store.items object ≡ 1 }
        ensures next { next_of site.place result self.new ≡ code.goes (suc site.place) self.old.slots.items (run.store_all object (get self.old.slots.items site.slot ∷ []) (state_of self.old)) }
        ensures kept { shape_of self.new ≡ shape_of self.old }
    {
        let value = self.slot(site.slot);
        self.write(object, 0, value);
        Step::Next
    }

    #[inline(always)]
    fn skip_zero(&self, place: usize, slot: usize, skip: u32) -> Step
        requires { slot < length self.now.slots.items }
        ensures { next_of place result self.now ≡ act_of Model.Lp64 [] (Instruction.SkipZero slot skip) place self.now }
    {
        if is_true(self.slot(slot)) {
            return Step::Next;
        }
        Step::Goes(behind(place) + skip as u128)
    }

    #[inline(always)]
    fn skip_equal(&self, place: usize, slot: usize, value: i128, skip: u32) -> Step
        requires { slot < length self.now.slots.items }
        ensures { next_of place result self.now ≡ act_of Model.Lp64 [] (Instruction.SkipEqual slot value skip) place self.now }
    {
        let found = self.slot(slot);
        if found <= value && value <= found {
            return Step::Goes(behind(place) + skip as u128);
        }
        Step::Next
    }

    #[inline(always)]
    fn turn(&mut self, goal: usize) -> Step
        ensures next { (place at : ℕ) → next_of place result self.new ≡ code.goes goal self.old.slots.items (run.turn at (state_of self.old)) }
        ensures kept { shape_of self.new ≡ shape_of self.old }
    {
        if self.turns == 0 {
            return Step::Over(Ending::Spent);
        }
        self.turns -= 1;
        Step::Goes(goal as u128)
    }

    #[inline(always)]
    fn call(&mut self, place: usize, goal: usize, slot: usize) -> Step
        requires { slot < length self.old.slots.items }
        ensures next { (at : ℕ) → next_of place result self.new ≡ code.goes goal (put self.old.slots.items slot (pos (suc place))) (run.turn at (state_of self.old)) }
        ensures kept { shape_of self.new ≡ shape_of self.old }
    {
        put_value(&mut self.slots, slot, behind(place) as i128);
        self.turn(goal)
    }

    // What a call gave, where there has to be something.
    #[inline(always)]
    fn returned(&self, at: u32, from: usize, needed: bool) -> Result<i128, Ending>
        requires { suc (suc from) < length self.now.slots.items }
        ensures { reply result (state_of self.now) ≡ seen (code.taken_of needed at (code.returned_in self.now.slots.items from) (state_of self.now)) }
    {
        if is_true(self.third(from)) {
            return Ok(self.second(from));
        }
        if needed {
            return Err(Ending::Error(ErrorKind::Missing, at, self.taken));
        }
        Ok(0)
    }

    #[inline(always)]
    fn take(&mut self, site: Site, at: u32, from: usize, needed: bool) -> Step
        requires slot { site.slot < length self.old.slots.items }
        requires from { suc (suc from) < length self.old.slots.items }
        ensures next { next_of site.place result self.new ≡ code.fills site.place self.old.slots.items site.slot (code.taken_of needed at (code.returned_in self.old.slots.items from) (state_of self.old)) }
        ensures kept { shape_of self.new ≡ shape_of self.old }
    {
        let got = self.returned(at, from, needed);
        self.filled(site, got)
    }

    #[inline(always)]
    fn return_to(&self, place: usize, slot: usize) -> Step
        requires { slot < length self.now.slots.items }
        ensures { next_of place result self.now ≡ act_of Model.Lp64 [] (Instruction.Return slot) place self.now }
    {
        Step::Goes(behind(place).max(self.slot(slot).unsigned_abs()))
    }

    /// Does the instruction at this place.
    #[inline(always)]
    pub fn act(
        &mut self,
        instruction: &Instruction,
        place: usize,
        inputs: &[i128],
        model: Model,
    ) -> Step
        requires slots { slots_of instruction.now ≤ length self.old.slots.items }
        requires sizes { IsTrue (fits self.old.store.items instruction.now) }
        ensures next { next_of place result self.new ≡ act_of model inputs.now instruction.now place self.old }
        ensures kept { shape_of self.new ≡ shape_of self.old }
    {
        match *instruction {
            Instruction::Constant(slot, value) => self.stored(Site { place, slot }, value),
            Instruction::Read(slot, object) => self.read_object(Site { place, slot }, object),
            Instruction::Element(slot, at, object, count) => {
                self.read_element(Site { place, slot }, at, object, count)
            }
            Instruction::Locate(slot, at, _, count) => self.locate(Site { place, slot }, at, count),
            Instruction::Load(slot, object) => self.load(Site { place, slot }, object),
            Instruction::Store(slot, object) => self.store_value(Site { place, slot }, object),
            Instruction::Convert(slot, kind) => self.convert(Site { place, slot }, kind, model),
            Instruction::Negate(slot, kind, at) => {
                self.negate(Site { place, slot }, at, kind, model)
            }
            Instruction::Complement(slot, kind, at) => {
                self.complement(Site { place, slot }, at, kind, model)
            }
            Instruction::Not(slot) => self.negation(Site { place, slot }),
            Instruction::Truth(slot) => self.truth_value(Site { place, slot }),
            Instruction::Binary(slot, op, kind, at) => {
                self.binary(Site { place, slot }, at, op, kind, model)
            }
            Instruction::Update(slot, op, kind, target, at, object) => {
                self.update(Site { place, slot }, at, op, kind, target, object, model)
            }
            Instruction::Change(slot, before, by, kind, at, object) => {
                self.change(Site { place, slot }, at, before, by, kind, object, model)
            }
            Instruction::Draw(slot, kind) => {
                self.draw_value(Site { place, slot }, kind, inputs, model)
            }
            Instruction::Fill(object, kind, _) => self.fill(object, kind, inputs, model),
            Instruction::Begin(slot, object, _, values) => {
                self.begin(Site { place, slot }, object, values)
            }
            Instruction::Bind(slot, object) => self.bind(Site { place, slot }, object),
            Instruction::Jump(skip) => Step::Goes(behind(place) + skip as u128),
            Instruction::SkipZero(slot, skip) => self.skip_zero(place, slot, skip),
            Instruction::SkipEqual(slot, value, skip) => self.skip_equal(place, slot, value, skip),
            Instruction::Turn(_, goal) => self.turn(goal),
            Instruction::Call(_, goal, slot) => self.call(place, goal, slot),
            Instruction::Take(slot, at, from, needed) => {
                self.take(Site { place, slot }, at, from, needed)
            }
            Instruction::Return(slot) => self.return_to(place, slot),
            Instruction::Fail(kind, at) => Step::Over(Ending::Error(kind, at, self.taken)),
            Instruction::Stop => Step::Over(Ending::Ended),
        }
    }
}
