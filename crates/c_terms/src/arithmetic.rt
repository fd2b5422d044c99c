//! The operations of C on two operands in a promoted kind (C11 6.5.5 to 6.5.12), as terms: their values.
ghost use Rattle.std.specs.Prelude.{◌≡◌, ◌≤◌, ◌*◌, ◌%◌, ◌^◌, ℕ, List, bit_xor, IfOk};
ghost use Rattle.bv_term.specs.Numbers.{quotient_of, remainder_of};
ghost use Rattle.c_tree.specs.declared.symbol.BinaryOp.TheVariants as BinaryOp;
ghost use Rattle.lv_base.specs.Integers as int;
ghost use Rattle.c_terms.specs.Made as made;
ghost use Rattle.c_terms.specs.Numbers as of;
ghost use Rattle.c_terms.specs.Operations as by;
ghost use Rattle.c_terms.specs.Shown.{Grows, IsPair, Puts, Shows};

use crate::values::{is_signed, narrow, widen};
use crate::words::{SLOT_WIDTH, Words};
use bv_term::TermId;
use c_tree::BinaryOp;
use lv_base::{Kind, Memory, Model, width};

/// Two operands: the kind of the operation, their low bits in it, and all of the second.
#[derive(Clone, Copy)]
pub struct Operands {
    pub(crate) kind: Kind,
    pub(crate) model: Model,
    pub(crate) left: TermId,
    pub(crate) right: TermId,
    pub(crate) whole: TermId,
}

impl Operands {
    /// The operands of two slots.
    pub fn new(
        words: &mut Words,
        kind: Kind,
        model: Model,
        left: TermId,
        right: TermId,
    ) -> Result<Operands, Memory>
        ensures grows { (store : List ℕ) (a b : ℕ) → Shows words.old.terms store left 64 a → Shows words.old.terms store right 64 b
            → IfOk result (λ o. Grows words.old words.new) }
        ensures pair { (store : List ℕ) (a b : ℕ) → Shows words.old.terms store left 64 a → Shows words.old.terms store right 64 b
            → IfOk result (λ o. IsPair words.new.terms store o (of.narrowed kind model a) (of.narrowed kind model b) b) }
        ensures kind { IfOk result (λ o. o.kind ≡ kind) }
        ensures model { IfOk result (λ o. o.model ≡ model) }
        ensures made { IfOk result (λ o. (words.new, o) ≡ made.operands words.old kind model left right) }
    {
        let low = narrow(words, kind, model, left)?;
        let second = narrow(words, kind, model, right)?;
        Ok(Operands {
            kind,
            model,
            left: low,
            right: second,
            whole: right,
        })
    }

    pub(crate) fn bits(&self) -> u32
        ensures value { result ≡ int.width_of self.now.kind self.now.model }
        ensures some { 1 ≤ result }
        ensures most { result ≤ 64 }
    {
        width(self.kind, self.model)
    }

    /// The value of a slot that the operation gives where none of its tests fails. `&&` and `||`, which are no operations on two
    /// values, give 0.
    pub fn value(&self, words: &mut Words, op: BinaryOp) -> Result<TermId, Memory>
        ensures shows { (store : List ℕ) (a b c : ℕ) → IsPair words.old.terms store self.now a b c
            → IfOk result (λ t. Puts words.old words.new store t 64 (by.operation op self.now.kind self.now.model a b)) }
        ensures made { IfOk result (λ t. (words.new, t) ≡ made.value words.old self.now op) }
    {
        match op {
            BinaryOp::OrElse => words.zero(SLOT_WIDTH),
            BinaryOp::AndAlso => words.zero(SLOT_WIDTH),
            BinaryOp::BitOr => self.either(words),
            BinaryOp::BitXor => self.differ(words),
            BinaryOp::BitAnd => self.both(words),
            BinaryOp::Equal => self.equal(words),
            BinaryOp::NotEqual => self.unequal(words),
            BinaryOp::Less => self.less(words),
            BinaryOp::Greater => self.greater(words),
            BinaryOp::LessEqual => self.at_most(words),
            BinaryOp::GreaterEqual => self.at_least(words),
            BinaryOp::ShiftLeft => self.shifted_left(words),
            BinaryOp::ShiftRight => self.shifted_right(words),
            BinaryOp::Add => self.sum(words),
            BinaryOp::Subtract => self.difference(words),
            BinaryOp::Multiply => self.product(words),
            BinaryOp::Divide => self.quotient(words),
            BinaryOp::Remainder => self.remainder(words),
        }
    }

    fn either(&self, words: &mut Words) -> Result<TermId, Memory>
        ensures shows { (store : List ℕ) (a b c : ℕ) → IsPair words.old.terms store self.now a b c
            → IfOk result (λ t. Puts words.old words.new store t 64 (by.operation BinaryOp.BitOr self.now.kind self.now.model a b)) }
        ensures made { IfOk result (λ t. (words.new, t) ≡ made.either words.old self.now) }
    {
        let bits = words.either(self.left, self.right)?;
        widen(words, self.kind, self.model, bits)
    }

    fn differ(&self, words: &mut Words) -> Result<TermId, Memory>
        ensures shows { (store : List ℕ) (a b c : ℕ) → IsPair words.old.terms store self.now a b c
            → IfOk result (λ t. Puts words.old words.new store t 64 (by.operation BinaryOp.BitXor self.now.kind self.now.model a b)) }
        ensures made { IfOk result (λ t. (words.new, t) ≡ made.differ words.old self.now) }
    {
        let bits = words.differ(self.left, self.right)?;
        widen(words, self.kind, self.model, bits)
    }

    fn both(&self, words: &mut Words) -> Result<TermId, Memory>
        ensures shows { (store : List ℕ) (a b c : ℕ) → IsPair words.old.terms store self.now a b c
            → IfOk result (λ t. Puts words.old words.new store t 64 (by.operation BinaryOp.BitAnd self.now.kind self.now.model a b)) }
        ensures made { IfOk result (λ t. (words.new, t) ≡ made.both words.old self.now) }
    {
        let bits = words.both(self.left, self.right)?;
        widen(words, self.kind, self.model, bits)
    }

    fn sum(&self, words: &mut Words) -> Result<TermId, Memory>
        ensures shows { (store : List ℕ) (a b c : ℕ) → IsPair words.old.terms store self.now a b c
            → IfOk result (λ t. Puts words.old words.new store t 64 (by.operation BinaryOp.Add self.now.kind self.now.model a b)) }
        ensures made { IfOk result (λ t. (words.new, t) ≡ made.sum words.old self.now) }
    {
        let bits = words.add(self.left, self.right)?;
        widen(words, self.kind, self.model, bits)
    }

    fn difference(&self, words: &mut Words) -> Result<TermId, Memory>
        ensures shows { (store : List ℕ) (a b c : ℕ) → IsPair words.old.terms store self.now a b c
            → IfOk result (λ t. Puts words.old words.new store t 64 (by.operation BinaryOp.Subtract self.now.kind self.now.model a b)) }
        ensures made { IfOk result (λ t. (words.new, t) ≡ made.difference words.old self.now) }
    {
        let bits = words.subtract(self.left, self.right)?;
        widen(words, self.kind, self.model, bits)
    }

    fn shifted_left(&self, words: &mut Words) -> Result<TermId, Memory>
        ensures shows { (store : List ℕ) (a b c : ℕ) → IsPair words.old.terms store self.now a b c
            → IfOk result (λ t. Puts words.old words.new store t 64 (by.operation BinaryOp.ShiftLeft self.now.kind self.now.model a b)) }
        ensures made { IfOk result (λ t. (words.new, t) ≡ made.shifted_left words.old self.now) }
    {
        let bits = words.shift_left(self.left, self.right)?;
        widen(words, self.kind, self.model, bits)
    }

    fn shifted_right(&self, words: &mut Words) -> Result<TermId, Memory>
        ensures shows { (store : List ℕ) (a b c : ℕ) → IsPair words.old.terms store self.now a b c
            → IfOk result (λ t. Puts words.old words.new store t 64 (by.operation BinaryOp.ShiftRight self.now.kind self.now.model a b)) }
        ensures made { IfOk result (λ t. (words.new, t) ≡ made.shifted_right words.old self.now) }
    {
        let bits = self.right_bits(words)?;
        widen(words, self.kind, self.model, bits)
    }

    fn product(&self, words: &mut Words) -> Result<TermId, Memory>
        ensures shows { (store : List ℕ) (a b c : ℕ) → IsPair words.old.terms store self.now a b c
            → IfOk result (λ t. Puts words.old words.new store t 64 (by.operation BinaryOp.Multiply self.now.kind self.now.model a b)) }
        ensures made { IfOk result (λ t. (words.new, t) ≡ made.product words.old self.now) }
    {
        let bits = self.product_bits(words)?;
        widen(words, self.kind, self.model, bits)
    }

    fn quotient(&self, words: &mut Words) -> Result<TermId, Memory>
        ensures shows { (store : List ℕ) (a b c : ℕ) → IsPair words.old.terms store self.now a b c
            → IfOk result (λ t. Puts words.old words.new store t 64 (by.operation BinaryOp.Divide self.now.kind self.now.model a b)) }
        ensures made { IfOk result (λ t. (words.new, t) ≡ made.quotient words.old self.now) }
    {
        let bits = self.quotient_bits(words)?;
        widen(words, self.kind, self.model, bits)
    }

    fn remainder(&self, words: &mut Words) -> Result<TermId, Memory>
        ensures shows { (store : List ℕ) (a b c : ℕ) → IsPair words.old.terms store self.now a b c
            → IfOk result (λ t. Puts words.old words.new store t 64 (by.operation BinaryOp.Remainder self.now.kind self.now.model a b)) }
        ensures made { IfOk result (λ t. (words.new, t) ≡ made.remainder words.old self.now) }
    {
        let bits = self.remainder_bits(words)?;
        widen(words, self.kind, self.model, bits)
    }

    fn equal(&self, words: &mut Words) -> Result<TermId, Memory>
        ensures shows { (store : List ℕ) (a b c : ℕ) → IsPair words.old.terms store self.now a b c
            → IfOk result (λ t. Puts words.old words.new store t 64 (by.operation BinaryOp.Equal self.now.kind self.now.model a b)) }
        ensures made { IfOk result (λ t. (words.new, t) ≡ made.equal words.old self.now) }
    {
        let is = words.equal(self.left, self.right)?;
        words.truth(is)
    }

    fn unequal(&self, words: &mut Words) -> Result<TermId, Memory>
        ensures shows { (store : List ℕ) (a b c : ℕ) → IsPair words.old.terms store self.now a b c
            → IfOk result (λ t. Puts words.old words.new store t 64 (by.operation BinaryOp.NotEqual self.now.kind self.now.model a b)) }
        ensures made { IfOk result (λ t. (words.new, t) ≡ made.unequal words.old self.now) }
    {
        let is = words.equal(self.left, self.right)?;
        let turned = words.not(is)?;
        words.truth(turned)
    }

    fn less(&self, words: &mut Words) -> Result<TermId, Memory>
        ensures shows { (store : List ℕ) (a b c : ℕ) → IsPair words.old.terms store self.now a b c
            → IfOk result (λ t. Puts words.old words.new store t 64 (by.operation BinaryOp.Less self.now.kind self.now.model a b)) }
        ensures made { IfOk result (λ t. (words.new, t) ≡ made.less words.old self.now) }
    {
        let is = self.is_less(words, self.left, self.right)?;
        words.truth(is)
    }

    fn greater(&self, words: &mut Words) -> Result<TermId, Memory>
        ensures shows { (store : List ℕ) (a b c : ℕ) → IsPair words.old.terms store self.now a b c
            → IfOk result (λ t. Puts words.old words.new store t 64 (by.operation BinaryOp.Greater self.now.kind self.now.model a b)) }
        ensures made { IfOk result (λ t. (words.new, t) ≡ made.greater words.old self.now) }
    {
        let is = self.is_less(words, self.right, self.left)?;
        words.truth(is)
    }

    fn at_most(&self, words: &mut Words) -> Result<TermId, Memory>
        ensures shows { (store : List ℕ) (a b c : ℕ) → IsPair words.old.terms store self.now a b c
            → IfOk result (λ t. Puts words.old words.new store t 64 (by.operation BinaryOp.LessEqual self.now.kind self.now.model a b)) }
        ensures made { IfOk result (λ t. (words.new, t) ≡ made.at_most words.old self.now) }
    {
        let is = self.is_less(words, self.right, self.left)?;
        let turned = words.not(is)?;
        words.truth(turned)
    }

    fn at_least(&self, words: &mut Words) -> Result<TermId, Memory>
        ensures shows { (store : List ℕ) (a b c : ℕ) → IsPair words.old.terms store self.now a b c
            → IfOk result (λ t. Puts words.old words.new store t 64 (by.operation BinaryOp.GreaterEqual self.now.kind self.now.model a b)) }
        ensures made { IfOk result (λ t. (words.new, t) ≡ made.at_least words.old self.now) }
    {
        let is = self.is_less(words, self.left, self.right)?;
        let turned = words.not(is)?;
        words.truth(turned)
    }

    fn is_less(&self, words: &mut Words, first: TermId, second: TermId) -> Result<TermId, Memory>
        ensures shows { (store : List ℕ) (a b : ℕ) → Shows words.old.terms store first (int.width_of self.now.kind self.now.model) a → Shows words.old.terms store second (int.width_of self.now.kind self.now.model) b
            → IfOk result (λ t. Puts words.old words.new store t 1 (of.less (int.is_signed self.now.kind) (int.width_of self.now.kind self.now.model) a b)) }
        ensures made { IfOk result (λ t. (words.new, t) ≡ made.is_less words.old self.now first second) }
    {
        let by_sign = is_signed(self.kind);
        if by_sign {
            words.less_signed(first, second)
        } else {
            words.less(first, second)
        }
    }

    fn right_bits(&self, words: &mut Words) -> Result<TermId, Memory>
        ensures shows { (store : List ℕ) (a b c : ℕ) → IsPair words.old.terms store self.now a b c
            → IfOk result (λ t. Puts words.old words.new store t (int.width_of self.now.kind self.now.model) (of.right_shift (int.is_signed self.now.kind) (int.width_of self.now.kind self.now.model) a b)) }
        ensures made { IfOk result (λ t. (words.new, t) ≡ made.right_bits words.old self.now) }
    {
        if is_signed(self.kind) {
            words.shift_signed(self.left, self.right)
        } else {
            words.shift_right(self.left, self.right)
        }
    }

    // The product of twice the width, of signed operands.
    pub(crate) fn exact_product(&self, words: &mut Words) -> Result<TermId, Memory>
        ensures shows { (store : List ℕ) (a b c : ℕ) → IsPair words.old.terms store self.now a b c
            → IfOk result (λ t. Puts words.old words.new store t (int.width_of self.now.kind self.now.model * 2) (of.exact_product (int.width_of self.now.kind self.now.model) a b)) }
        ensures made { IfOk result (λ t. (words.new, t) ≡ made.exact_product words.old self.now) }
    {
        let double = self.bits() * 2;
        let left = words.extend_sign(double, self.left)?;
        let right = words.extend_sign(double, self.right)?;
        words.multiply(left, right)
    }

    fn low_product(&self, words: &mut Words) -> Result<TermId, Memory>
        ensures shows { (store : List ℕ) (a b c : ℕ) → IsPair words.old.terms store self.now a b c
            → IfOk result (λ t. Puts words.old words.new store t (int.width_of self.now.kind self.now.model) (of.exact_product (int.width_of self.now.kind self.now.model) a b % 2 ^ int.width_of self.now.kind self.now.model)) }
        ensures made { IfOk result (λ t. (words.new, t) ≡ made.low_product words.old self.now) }
    {
        let bits = self.bits();
        let exact = self.exact_product(words)?;
        words.truncate(bits, exact)
    }

    fn product_bits(&self, words: &mut Words) -> Result<TermId, Memory>
        ensures shows { (store : List ℕ) (a b c : ℕ) → IsPair words.old.terms store self.now a b c
            → IfOk result (λ t. Puts words.old words.new store t (int.width_of self.now.kind self.now.model) (of.product (int.is_signed self.now.kind) (int.width_of self.now.kind self.now.model) a b)) }
        ensures made { IfOk result (λ t. (words.new, t) ≡ made.product_bits words.old self.now) }
    {
        if is_signed(self.kind) {
            self.low_product(words)
        } else {
            words.multiply(self.left, self.right)
        }
    }

    // An operand without its sign.
    fn magnitude(&self, words: &mut Words, term: TermId) -> Result<TermId, Memory>
        ensures shows { (store : List ℕ) (a : ℕ) → Shows words.old.terms store term (int.width_of self.now.kind self.now.model) a
            → IfOk result (λ t. Puts words.old words.new store t (int.width_of self.now.kind self.now.model) (of.magnitude (int.width_of self.now.kind self.now.model) a)) }
        ensures made { IfOk result (λ t. (words.new, t) ≡ made.magnitude words.old self.now term) }
    {
        let bits = self.bits();
        let zero = words.zero(bits)?;
        let opposite = words.subtract(zero, term)?;
        let sign = words.top(bits, term)?;
        words.choose(sign, opposite, term)
    }

    // A magnitude with a sign.
    fn with_sign(&self, words: &mut Words, sign: TermId, term: TermId) -> Result<TermId, Memory>
        ensures shows { (store : List ℕ) (s a : ℕ) → Shows words.old.terms store sign 1 s → Shows words.old.terms store term (int.width_of self.now.kind self.now.model) a
            → IfOk result (λ t. Puts words.old words.new store t (int.width_of self.now.kind self.now.model) (of.with_sign (int.width_of self.now.kind self.now.model) s a)) }
        ensures made { IfOk result (λ t. (words.new, t) ≡ made.with_sign words.old self.now sign term) }
    {
        let bits = self.bits();
        let zero = words.zero(bits)?;
        let opposite = words.subtract(zero, term)?;
        words.choose(sign, opposite, term)
    }

    // Whether the operands' signs differ.
    pub(crate) fn signs_differ(&self, words: &mut Words) -> Result<TermId, Memory>
        ensures shows { (store : List ℕ) (a b c : ℕ) → IsPair words.old.terms store self.now a b c
            → IfOk result (λ t. Puts words.old words.new store t 1 (bit_xor (of.top (int.width_of self.now.kind self.now.model) a) (of.top (int.width_of self.now.kind self.now.model) b))) }
        ensures made { IfOk result (λ t. (words.new, t) ≡ made.signs_differ words.old self.now) }
    {
        let bits = self.bits();
        let first = words.top(bits, self.left)?;
        let second = words.top(bits, self.right)?;
        words.differ(first, second)
    }

    fn signed_quotient(&self, words: &mut Words) -> Result<TermId, Memory>
        ensures shows { (store : List ℕ) (a b c : ℕ) → IsPair words.old.terms store self.now a b c
            → IfOk result (λ t. Puts words.old words.new store t (int.width_of self.now.kind self.now.model) (of.with_sign (int.width_of self.now.kind self.now.model) (bit_xor (of.top (int.width_of self.now.kind self.now.model) a) (of.top (int.width_of self.now.kind self.now.model) b)) (quotient_of (of.magnitude (int.width_of self.now.kind self.now.model) a) (of.magnitude (int.width_of self.now.kind self.now.model) b)))) }
        ensures made { IfOk result (λ t. (words.new, t) ≡ made.signed_quotient words.old self.now) }
    {
        let left = self.magnitude(words, self.left)?;
        let right = self.magnitude(words, self.right)?;
        let quotient = words.divide(left, right)?;
        let sign = self.signs_differ(words)?;
        self.with_sign(words, sign, quotient)
    }

    fn quotient_bits(&self, words: &mut Words) -> Result<TermId, Memory>
        ensures shows { (store : List ℕ) (a b c : ℕ) → IsPair words.old.terms store self.now a b c
            → IfOk result (λ t. Puts words.old words.new store t (int.width_of self.now.kind self.now.model) (of.quotient (int.is_signed self.now.kind) (int.width_of self.now.kind self.now.model) a b)) }
        ensures made { IfOk result (λ t. (words.new, t) ≡ made.quotient_bits words.old self.now) }
    {
        if is_signed(self.kind) {
            self.signed_quotient(words)
        } else {
            words.divide(self.left, self.right)
        }
    }

    fn signed_remainder(&self, words: &mut Words) -> Result<TermId, Memory>
        ensures shows { (store : List ℕ) (a b c : ℕ) → IsPair words.old.terms store self.now a b c
            → IfOk result (λ t. Puts words.old words.new store t (int.width_of self.now.kind self.now.model) (of.with_sign (int.width_of self.now.kind self.now.model) (of.top (int.width_of self.now.kind self.now.model) a) (remainder_of (of.magnitude (int.width_of self.now.kind self.now.model) a) (of.magnitude (int.width_of self.now.kind self.now.model) b)))) }
        ensures made { IfOk result (λ t. (words.new, t) ≡ made.signed_remainder words.old self.now) }
    {
        let bits = self.bits();
        let left = self.magnitude(words, self.left)?;
        let right = self.magnitude(words, self.right)?;
        let rest = words.remainder(left, right)?;
        let sign = words.top(bits, self.left)?;
        self.with_sign(words, sign, rest)
    }

    fn remainder_bits(&self, words: &mut Words) -> Result<TermId, Memory>
        ensures shows { (store : List ℕ) (a b c : ℕ) → IsPair words.old.terms store self.now a b c
            → IfOk result (λ t. Puts words.old words.new store t (int.width_of self.now.kind self.now.model) (of.remainder (int.is_signed self.now.kind) (int.width_of self.now.kind self.now.model) a b)) }
        ensures made { IfOk result (λ t. (words.new, t) ≡ made.remainder_bits words.old self.now) }
    {
        if is_signed(self.kind) {
            self.signed_remainder(words)
        } else {
            words.remainder(self.left, self.right)
        }
    }
}
