//! The checks of instructions: at which error a run ends there.
ghost use Rattle.std.specs.Prelude.{◌≡◌, ◌+◌, ℕ, List, IfOk, pos};
ghost use Rattle.lv_base.specs.Integers as int;
ghost use Rattle.c_terms.specs.Numbers as word;
ghost use Rattle.c_terms.specs.Shown.{Finds, Puts, Shows};
ghost use Rattle.code_moves.specs.Setting.{setting_of, site_of, Stands};
ghost use Rattle.code_moves.specs.Values as of;
ghost use Rattle.code_moves.specs.Made as made;

use crate::ground::Ground;
use bv_term::TermId;
use c_terms::{Fails, Operands, Tests, Words, converted, is_signed, negation_overflows, promoted};
use c_tree::{BinaryOp, Crement};
use lv_base::{ErrorKind, Kind, Memory};
use slot_code::Instruction;

/// The operation of `++` or `--`.
pub fn operation_of(by: Crement) -> BinaryOp
    ensures { result ≡ of.operation_of by }
{
    match by {
        Crement::Increment => BinaryOp::Add,
        Crement::Decrement => BinaryOp::Subtract,
    }
}

// Whether promotion leaves a kind as it is.
fn is_promoted(kind: Kind) -> bool
    ensures { result ≡ int.is_promoted kind }
{
    match kind {
        Kind::Bool | Kind::Char | Kind::UChar | Kind::Short | Kind::UShort => false,
        Kind::Int | Kind::UInt | Kind::Long => true,
        Kind::ULong | Kind::LongLong | Kind::ULongLong => true,
    }
}

fn whole(count: usize) -> i128
    ensures { result ≡ pos count }
{
    count as i128
}

impl Ground<'_> {
    /// The value of an operation on two slots' values.
    pub(crate) fn applied(
        &self,
        words: &mut Words,
        op: BinaryOp,
        kind: Kind,
        left: TermId,
        right: TermId,
    ) -> Result<TermId, Memory>
        ensures shows { (store : List ℕ) (a b : ℕ) → Shows words.old.terms store left 64 a → Shows words.old.terms store right 64 b
            → IfOk result (λ t. Puts words.old words.new store t 64 (of.applied op kind self.now.model a b)) }
        ensures made { IfOk result (λ t. (words.new, t) ≡ made.applied (site_of (setting_of self.now)) words.old op kind left right) }
    {
        let operands = Operands::new(words, kind, self.model, left, right)?;
        operands.value(words, op)
    }

    // The tests of an operation on two slots' values.
    fn tested(
        &self,
        words: &mut Words,
        op: BinaryOp,
        kind: Kind,
        left: TermId,
        right: TermId,
    ) -> Result<Tests, Memory>
        ensures shows { (store : List ℕ) (a b : ℕ) → Shows words.old.terms store left 64 a → Shows words.old.terms store right 64 b
            → IfOk result (λ r. Finds words.old words.new store r (of.tested op kind self.now.model a b)) }
        ensures made { IfOk result (λ r. (words.new, r) ≡ made.tested (site_of (setting_of self.now)) words.old op kind left right) }
    {
        let operands = Operands::new(words, kind, self.model, left, right)?;
        operands.tests(words, op)
    }

    /// One more or less than a slot's value, in a kind.
    pub(crate) fn stepped(
        &self,
        words: &mut Words,
        by: Crement,
        kind: Kind,
        old: TermId,
    ) -> Result<TermId, Memory>
        ensures shows { (store : List ℕ) (a : ℕ) → Shows words.old.terms store old 64 a
            → IfOk result (λ t. Puts words.old words.new store t 64 (of.stepped by kind self.now.model a)) }
        ensures made { IfOk result (λ t. (words.new, t) ≡ made.stepped (site_of (setting_of self.now)) words.old by kind old) }
    {
        let wide = promoted(kind);
        let left = converted(words, wide, self.model, old)?;
        let right = words.constant(1)?;
        let value = self.applied(words, operation_of(by), wide, left, right)?;
        converted(words, kind, self.model, value)
    }

    // The tests of one more or less than a slot's value. A narrow kind is promoted to one that holds it.
    fn step_tested(
        &self,
        words: &mut Words,
        by: Crement,
        kind: Kind,
        old: TermId,
    ) -> Result<Tests, Memory>
        ensures shows { (store : List ℕ) (a : ℕ) → Shows words.old.terms store old 64 a
            → IfOk result (λ r. Finds words.old words.new store r (of.step_tested by kind self.now.model a)) }
        ensures made { IfOk result (λ r. (words.new, r) ≡ made.step_tested (site_of (setting_of self.now)) words.old by kind old) }
    {
        if !is_promoted(kind) {
            return Ok(Tests::None);
        }
        let wide = promoted(kind);
        let left = converted(words, wide, self.model, old)?;
        let right = words.constant(1)?;
        self.tested(words, operation_of(by), wide, left, right)
    }

    fn index_test(&self, words: &mut Words, slot: usize, count: usize) -> Result<Tests, Memory>
        ensures shows { (store : List ℕ) → Stands (setting_of self.now) words.old
            → IfOk result (λ r. Finds words.old words.new store r (of.index_fails count (of.slot_value (setting_of self.now) store slot))) }
        ensures made { IfOk result (λ r. (words.new, r) ≡ made.index_test (site_of (setting_of self.now)) words.old slot count) }
    {
        let index = self.slot(words, slot)?;
        let most = words.constant(whole(count))?;
        let is_there = words.less(index, most)?;
        let when = words.not(is_there)?;
        Ok(Tests::One(Fails {
            kind: ErrorKind::Index,
            when,
        }))
    }

    fn missing_test(&self, words: &mut Words, from: usize, is_needed: bool) -> Result<Tests, Memory>
        ensures shows { (store : List ℕ) → Stands (setting_of self.now) words.old
            → IfOk result (λ r. Finds words.old words.new store r (of.missing_fails is_needed (of.slot_value (setting_of self.now) store (from + 2)))) }
        ensures made { IfOk result (λ r. (words.new, r) ≡ made.missing_test (site_of (setting_of self.now)) words.old from is_needed) }
    {
        if !is_needed {
            return Ok(Tests::None);
        }
        let flag = self.slot_behind(words, from, 2)?;
        let when = words.is_zero(flag)?;
        Ok(Tests::One(Fails {
            kind: ErrorKind::Missing,
            when,
        }))
    }

    fn negation_test(&self, words: &mut Words, slot: usize, kind: Kind) -> Result<Tests, Memory>
        ensures shows { (store : List ℕ) → Stands (setting_of self.now) words.old
            → IfOk result (λ r. Finds words.old words.new store r (of.negation_fails kind self.now.model (of.slot_value (setting_of self.now) store slot))) }
        ensures made { IfOk result (λ r. (words.new, r) ≡ made.negation_test (site_of (setting_of self.now)) words.old slot kind) }
    {
        if !is_signed(kind) {
            return Ok(Tests::None);
        }
        let operand = self.slot(words, slot)?;
        let when = negation_overflows(words, kind, self.model, operand)?;
        Ok(Tests::One(Fails {
            kind: ErrorKind::Overflow,
            when,
        }))
    }

    fn binary_tests(
        &self,
        words: &mut Words,
        slot: usize,
        op: BinaryOp,
        kind: Kind,
    ) -> Result<Tests, Memory>
        ensures shows { (store : List ℕ) → Stands (setting_of self.now) words.old
            → IfOk result (λ r. Finds words.old words.new store r (of.tested op kind self.now.model (of.slot_value (setting_of self.now) store slot) (of.slot_value (setting_of self.now) store (slot + 1)))) }
        ensures made { IfOk result (λ r. (words.new, r) ≡ made.binary_tests (site_of (setting_of self.now)) words.old slot op kind) }
    {
        let left = self.slot(words, slot)?;
        let right = self.slot_behind(words, slot, 1)?;
        self.tested(words, op, kind, left, right)
    }

    fn update_tests(
        &self,
        words: &mut Words,
        slot: usize,
        op: BinaryOp,
        kind: Kind,
    ) -> Result<Tests, Memory>
        ensures shows { (store : List ℕ) → Stands (setting_of self.now) words.old
            → IfOk result (λ r. Finds words.old words.new store r (of.tested op kind self.now.model (word.converted kind self.now.model (of.slot_value (setting_of self.now) store (slot + 1))) (of.slot_value (setting_of self.now) store (slot + 2)))) }
        ensures made { IfOk result (λ r. (words.new, r) ≡ made.update_tests (site_of (setting_of self.now)) words.old slot op kind) }
    {
        let old = self.slot_behind(words, slot, 1)?;
        let right = self.slot_behind(words, slot, 2)?;
        let left = converted(words, kind, self.model, old)?;
        self.tested(words, op, kind, left, right)
    }

    fn change_tests(
        &self,
        words: &mut Words,
        slot: usize,
        by: Crement,
        kind: Kind,
        object: u32,
    ) -> Result<Tests, Memory>
        ensures shows { (store : List ℕ) → Stands (setting_of self.now) words.old
            → IfOk result (λ r. Finds words.old words.new store r (of.step_tested by kind self.now.model (of.element_value (setting_of self.now) store object (of.slot_value (setting_of self.now) store slot)))) }
        ensures made { IfOk result (λ r. (words.new, r) ≡ made.change_tests (site_of (setting_of self.now)) words.old slot by kind object) }
    {
        let index = self.slot(words, slot)?;
        let old = self.element(words, object, index)?;
        self.step_tested(words, by, kind, old)
    }

    /// The tests of an instruction: 1 where the run ends with the error, the first one where both are.
    pub fn checks(&self, words: &mut Words, instruction: Instruction) -> Result<Tests, Memory>
        ensures shows { (store : List ℕ) → Stands (setting_of self.now) words.old
            → IfOk result (λ r. Finds words.old words.new store r (of.failures_of (setting_of self.now) store instruction)) }
        ensures made { IfOk result (λ r. (words.new, r) ≡ made.checks (site_of (setting_of self.now)) words.old instruction) }
    {
        match instruction {
            Instruction::Element(slot, _, _, count) => self.index_test(words, slot, count),
            Instruction::Locate(slot, _, _, count) => self.index_test(words, slot, count),
            Instruction::Negate(slot, kind, _) => self.negation_test(words, slot, kind),
            Instruction::Binary(slot, op, kind, _) => self.binary_tests(words, slot, op, kind),
            Instruction::Update(slot, op, kind, _, _, _) => {
                self.update_tests(words, slot, op, kind)
            }
            Instruction::Change(slot, _, by, kind, _, object) => {
                self.change_tests(words, slot, by, kind, object)
            }
            Instruction::Take(_, _, from, needed) => self.missing_test(words, from, needed),
            Instruction::Constant(_, _) => Ok(Tests::None),
            Instruction::Read(_, _) => Ok(Tests::None),
            Instruction::Load(_, _) => Ok(Tests::None),
            Instruction::Store(_, _) => Ok(Tests::None),
            Instruction::Convert(_, _) => Ok(Tests::None),
            Instruction::Complement(_, _, _) => Ok(Tests::None),
            Instruction::Not(_) => Ok(Tests::None),
            Instruction::Truth(_) => Ok(Tests::None),
            Instruction::Draw(_, _) => Ok(Tests::None),
            Instruction::Fill(_, _, _) => Ok(Tests::None),
            Instruction::Begin(_, _, _, _) => Ok(Tests::None),
            Instruction::Bind(_, _) => Ok(Tests::None),
            Instruction::Jump(_) => Ok(Tests::None),
            Instruction::Turn(_, _) => Ok(Tests::None),
            Instruction::SkipZero(_, _) => Ok(Tests::None),
            Instruction::SkipEqual(_, _, _) => Ok(Tests::None),
            Instruction::Call(_, _, _) => Ok(Tests::None),
            Instruction::Return(_) => Ok(Tests::None),
            Instruction::Fail(_, _) => Ok(Tests::None),
            Instruction::Stop => Ok(Tests::None),
        }
    }
}
