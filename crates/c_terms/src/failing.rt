//! Where the operations of C fail, as terms: a test for each error, in the order in which they are met.
ghost use Rattle.std.specs.Prelude.{◌≡◌, ◌-◌, ◌^◌, ◌<◌, ◌==◌, ℕ, List, bit_xor, if◌then◌else◌, IfOk};
ghost use Rattle.bv_term.specs.Numbers.{truth};
ghost use Rattle.lv_base.specs.declared.fault.ErrorKind.TheVariants as ErrorKind;
ghost use Rattle.c_tree.specs.declared.symbol.BinaryOp.TheVariants as BinaryOp;
ghost use Rattle.lv_base.specs.Integers as int;
ghost use Rattle.c_terms.specs.Made as made;
ghost use Rattle.c_terms.specs.Numbers as of;
ghost use Rattle.c_terms.specs.Operations as by;
ghost use Rattle.c_terms.specs.Shown.{Finds, IsPair, Puts, Shows};

use crate::arithmetic::Operands;
use crate::values::is_signed;
use crate::words::{SLOT_WIDTH, Words};
use bv_term::{Term, TermId};
use c_tree::BinaryOp;
use lv_base::{ErrorKind, Kind, Memory, Model};

/// A test of an operation: the error where its term is 1.
#[derive(Clone, Copy)]
pub struct Fails {
    /// The error.
    pub kind: ErrorKind,
    /// The term of width 1.
    pub when: TermId,
}

/// The tests of an operation, in their order.
#[derive(Clone, Copy)]
pub enum Tests {
    None,
    One(Fails),
    Two(Fails, Fails),
}

fn one_if(holds: bool) -> u32
    ensures { result ≡ (if holds then 1 else 0) }
{
    if holds { 1 } else { 0 }
}

/// How many tests an operation in a kind has.
pub fn tests_of(op: BinaryOp, kind: Kind) -> u32
    ensures { result ≡ by.failure_count op (int.is_signed kind) }
{
    match op {
        BinaryOp::Add => one_if(is_signed(kind)),
        BinaryOp::Subtract => one_if(is_signed(kind)),
        BinaryOp::Multiply => one_if(is_signed(kind)),
        BinaryOp::Divide => 1 + one_if(is_signed(kind)),
        BinaryOp::Remainder => 1 + one_if(is_signed(kind)),
        BinaryOp::ShiftLeft => 1,
        BinaryOp::ShiftRight => 1,
        BinaryOp::OrElse => 0,
        BinaryOp::AndAlso => 0,
        BinaryOp::BitOr => 0,
        BinaryOp::BitXor => 0,
        BinaryOp::BitAnd => 0,
        BinaryOp::Equal => 0,
        BinaryOp::NotEqual => 0,
        BinaryOp::Less => 0,
        BinaryOp::Greater => 0,
        BinaryOp::LessEqual => 0,
        BinaryOp::GreaterEqual => 0,
    }
}

impl Operands {
    /// The tests of an operation, in their order: the divisor's before the quotient's.
    pub fn tests(&self, words: &mut Words, op: BinaryOp) -> Result<Tests, Memory>
        ensures shows { (store : List ℕ) (a b c : ℕ) → IsPair words.old.terms store self.now a b c
            → IfOk result (λ r. Finds words.old words.new store r (by.failures op self.now.kind self.now.model a b c)) }
        ensures made { IfOk result (λ r. (words.new, r) ≡ made.tests words.old self.now op) }
    {
        match op {
            BinaryOp::OrElse => Ok(Tests::None),
            BinaryOp::AndAlso => Ok(Tests::None),
            BinaryOp::BitOr => Ok(Tests::None),
            BinaryOp::BitXor => Ok(Tests::None),
            BinaryOp::BitAnd => Ok(Tests::None),
            BinaryOp::Equal => Ok(Tests::None),
            BinaryOp::NotEqual => Ok(Tests::None),
            BinaryOp::Less => Ok(Tests::None),
            BinaryOp::Greater => Ok(Tests::None),
            BinaryOp::LessEqual => Ok(Tests::None),
            BinaryOp::GreaterEqual => Ok(Tests::None),
            BinaryOp::ShiftLeft => self.left_shift_test(words),
            BinaryOp::ShiftRight => self.right_shift_test(words),
            BinaryOp::Add => self.sum_test(words),
            BinaryOp::Subtract => self.difference_test(words),
            BinaryOp::Multiply => self.product_test(words),
            BinaryOp::Divide => self.division_tests(words),
            BinaryOp::Remainder => self.division_tests(words),
        }
    }

    fn sum_test(&self, words: &mut Words) -> Result<Tests, Memory>
        ensures shows { (store : List ℕ) (a b c : ℕ) → IsPair words.old.terms store self.now a b c
            → IfOk result (λ r. Finds words.old words.new store r (by.if_signed self.now.kind (by.failure ErrorKind.Overflow (of.sum_overflows (int.width_of self.now.kind self.now.model) a b)))) }
        ensures made { IfOk result (λ r. (words.new, r) ≡ made.sum_test words.old self.now) }
    {
        if !is_signed(self.kind) {
            return Ok(Tests::None);
        }
        let when = self.sum_overflows(words)?;
        Ok(Tests::One(Fails {
            kind: ErrorKind::Overflow,
            when,
        }))
    }

    fn difference_test(&self, words: &mut Words) -> Result<Tests, Memory>
        ensures shows { (store : List ℕ) (a b c : ℕ) → IsPair words.old.terms store self.now a b c
            → IfOk result (λ r. Finds words.old words.new store r (by.if_signed self.now.kind (by.failure ErrorKind.Overflow (of.difference_overflows (int.width_of self.now.kind self.now.model) a b)))) }
        ensures made { IfOk result (λ r. (words.new, r) ≡ made.difference_test words.old self.now) }
    {
        if !is_signed(self.kind) {
            return Ok(Tests::None);
        }
        let when = self.difference_overflows(words)?;
        Ok(Tests::One(Fails {
            kind: ErrorKind::Overflow,
            when,
        }))
    }

    fn product_test(&self, words: &mut Words) -> Result<Tests, Memory>
        ensures shows { (store : List ℕ) (a b c : ℕ) → IsPair words.old.terms store self.now a b c
            → IfOk result (λ r. Finds words.old words.new store r (by.if_signed self.now.kind (by.failure ErrorKind.Overflow (of.product_overflows (int.width_of self.now.kind self.now.model) a b)))) }
        ensures made { IfOk result (λ r. (words.new, r) ≡ made.product_test words.old self.now) }
    {
        if !is_signed(self.kind) {
            return Ok(Tests::None);
        }
        let when = self.product_overflows(words)?;
        Ok(Tests::One(Fails {
            kind: ErrorKind::Overflow,
            when,
        }))
    }

    // A sum overflows where the operands have one sign and the sum another.
    fn sum_overflows(&self, words: &mut Words) -> Result<TermId, Memory>
        ensures shows { (store : List ℕ) (a b c : ℕ) → IsPair words.old.terms store self.now a b c
            → IfOk result (λ t. Puts words.old words.new store t 1 (of.sum_overflows (int.width_of self.now.kind self.now.model) a b)) }
        ensures made { IfOk result (λ t. (words.new, t) ≡ made.sum_overflows words.old self.now) }
    {
        let sum = words.add(self.left, self.right)?;
        let differ = self.signs_differ(words)?;
        let turned = self.turns(words, sum)?;
        let same = words.not(differ)?;
        words.both(same, turned)
    }

    // A difference overflows where the operands' signs differ and it has not the first one's.
    fn difference_overflows(&self, words: &mut Words) -> Result<TermId, Memory>
        ensures shows { (store : List ℕ) (a b c : ℕ) → IsPair words.old.terms store self.now a b c
            → IfOk result (λ t. Puts words.old words.new store t 1 (of.difference_overflows (int.width_of self.now.kind self.now.model) a b)) }
        ensures made { IfOk result (λ t. (words.new, t) ≡ made.difference_overflows words.old self.now) }
    {
        let difference = words.subtract(self.left, self.right)?;
        let differ = self.signs_differ(words)?;
        let turned = self.turns(words, difference)?;
        words.both(differ, turned)
    }

    // Whether a result's sign is not that of the first operand.
    fn turns(&self, words: &mut Words, low: TermId) -> Result<TermId, Memory>
        ensures shows { (store : List ℕ) (a b c x : ℕ) → IsPair words.old.terms store self.now a b c → Shows words.old.terms store low (int.width_of self.now.kind self.now.model) x
            → IfOk result (λ t. Puts words.old words.new store t 1 (bit_xor (of.top (int.width_of self.now.kind self.now.model) a) (of.top (int.width_of self.now.kind self.now.model) x))) }
        ensures made { IfOk result (λ t. (words.new, t) ≡ made.turns words.old self.now low) }
    {
        let bits = self.bits();
        let first = words.top(bits, self.left)?;
        let sign = words.top(bits, low)?;
        words.differ(first, sign)
    }

    // A product overflows where it is not the extension of its low half.
    fn product_overflows(&self, words: &mut Words) -> Result<TermId, Memory>
        ensures shows { (store : List ℕ) (a b c : ℕ) → IsPair words.old.terms store self.now a b c
            → IfOk result (λ t. Puts words.old words.new store t 1 (of.product_overflows (int.width_of self.now.kind self.now.model) a b)) }
        ensures made { IfOk result (λ t. (words.new, t) ≡ made.product_overflows words.old self.now) }
    {
        let bits = self.bits();
        let exact = self.exact_product(words)?;
        let low = words.truncate(bits, exact)?;
        let extended = words.extend_sign(bits * 2, low)?;
        let same = words.equal(extended, exact)?;
        words.not(same)
    }

    fn division_tests(&self, words: &mut Words) -> Result<Tests, Memory>
        ensures shows { (store : List ℕ) (a b c : ℕ) → IsPair words.old.terms store self.now a b c
            → IfOk result (λ r. Finds words.old words.new store r (by.division_fails self.now.kind self.now.model a b)) }
        ensures made { IfOk result (λ r. (words.new, r) ≡ made.division_tests words.old self.now) }
    {
        let zero = self.divides_by_zero(words)?;
        let first = Fails {
            kind: ErrorKind::Zero,
            when: zero,
        };
        if !is_signed(self.kind) {
            return Ok(Tests::One(first));
        }
        let when = self.quotient_overflows(words)?;
        let second = Fails {
            kind: ErrorKind::Overflow,
            when,
        };
        Ok(Tests::Two(first, second))
    }

    fn divides_by_zero(&self, words: &mut Words) -> Result<TermId, Memory>
        ensures shows { (store : List ℕ) (a b c : ℕ) → IsPair words.old.terms store self.now a b c
            → IfOk result (λ t. Puts words.old words.new store t 1 (truth (b == 0))) }
        ensures made { IfOk result (λ t. (words.new, t) ≡ made.divides_by_zero words.old self.now) }
    {
        let bits = self.bits();
        let zero = words.zero(bits)?;
        words.equal(self.right, zero)
    }

    // A quotient overflows where the least value is divided by -1.
    fn quotient_overflows(&self, words: &mut Words) -> Result<TermId, Memory>
        ensures shows { (store : List ℕ) (a b c : ℕ) → IsPair words.old.terms store self.now a b c
            → IfOk result (λ t. Puts words.old words.new store t 1 (of.quotient_overflows (int.width_of self.now.kind self.now.model) a b)) }
        ensures made { IfOk result (λ t. (words.new, t) ≡ made.quotient_overflows words.old self.now) }
    {
        let bits = self.bits();
        let least = self.least(words)?;
        let minus_one = words.constant_of(bits, -1)?;
        let is_least = words.equal(self.left, least)?;
        let is_minus_one = words.equal(self.right, minus_one)?;
        words.both(is_least, is_minus_one)
    }

    // The least value of the signed kind.
    fn least(&self, words: &mut Words) -> Result<TermId, Memory>
        ensures shows { (store : List ℕ) → IfOk result (λ t. Puts words.old words.new store t (int.width_of self.now.kind self.now.model) (2 ^ (int.width_of self.now.kind self.now.model - 1))) }
        ensures made { IfOk result (λ t. (words.new, t) ≡ made.least words.old self.now) }
    {
        let bits = self.bits();
        words.put(Term::Constant(bits, power(bits - 1)))
    }

    fn left_shift_test(&self, words: &mut Words) -> Result<Tests, Memory>
        ensures shows { (store : List ℕ) (a b c : ℕ) → IsPair words.old.terms store self.now a b c
            → IfOk result (λ r. Finds words.old words.new store r (by.failures BinaryOp.ShiftLeft self.now.kind self.now.model a b c)) }
        ensures made { IfOk result (λ r. (words.new, r) ≡ made.left_shift_test words.old self.now) }
    {
        let when = self.left_shift_fails(words)?;
        Ok(Tests::One(Fails {
            kind: ErrorKind::Shift,
            when,
        }))
    }

    fn right_shift_test(&self, words: &mut Words) -> Result<Tests, Memory>
        ensures shows { (store : List ℕ) (a b c : ℕ) → IsPair words.old.terms store self.now a b c
            → IfOk result (λ r. Finds words.old words.new store r (by.failures BinaryOp.ShiftRight self.now.kind self.now.model a b c)) }
        ensures made { IfOk result (λ r. (words.new, r) ≡ made.right_shift_test words.old self.now) }
    {
        let when = self.is_far(words)?;
        Ok(Tests::One(Fails {
            kind: ErrorKind::Shift,
            when,
        }))
    }

    // A signed left side that is shifted left is not negative, and its result is held.
    fn left_shift_fails(&self, words: &mut Words) -> Result<TermId, Memory>
        ensures shows { (store : List ℕ) (a b c : ℕ) → IsPair words.old.terms store self.now a b c
            → IfOk result (λ t. Puts words.old words.new store t 1 (of.left_shift_fails (int.is_signed self.now.kind) (int.width_of self.now.kind self.now.model) a b c)) }
        ensures made { IfOk result (λ t. (words.new, t) ≡ made.left_shift_fails words.old self.now) }
    {
        let far = self.is_far(words)?;
        if !is_signed(self.kind) {
            return Ok(far);
        }
        let lost = self.shift_loses(words)?;
        words.either(far, lost)
    }

    // An amount is from 0 to below the width.
    fn is_far(&self, words: &mut Words) -> Result<TermId, Memory>
        ensures shows { (store : List ℕ) (a b c : ℕ) → IsPair words.old.terms store self.now a b c
            → IfOk result (λ t. Puts words.old words.new store t 1 (of.is_far (int.width_of self.now.kind self.now.model) c)) }
        ensures made { IfOk result (λ t. (words.new, t) ≡ made.is_far words.old self.now) }
    {
        let bits = self.bits();
        let most = words.put(Term::Constant(SLOT_WIDTH, u128::from(bits)))?;
        let is_below = words.less(self.whole, most)?;
        words.not(is_below)
    }

    fn shift_loses(&self, words: &mut Words) -> Result<TermId, Memory>
        ensures shows { (store : List ℕ) (a b c : ℕ) → IsPair words.old.terms store self.now a b c
            → IfOk result (λ t. Puts words.old words.new store t 1 (of.shift_loses (int.width_of self.now.kind self.now.model) a b)) }
        ensures made { IfOk result (λ t. (words.new, t) ≡ made.shift_loses words.old self.now) }
    {
        let bits = self.bits();
        let shifted = words.shift_left(self.left, self.right)?;
        let back = words.shift_signed(shifted, self.right)?;
        let same = words.equal(back, self.left)?;
        let lost = words.not(same)?;
        let sign = words.top(bits, self.left)?;
        words.either(sign, lost)
    }
}

fn power(exponent: u32) -> u128
    requires { exponent < 128 }
    ensures { result ≡ 2 ^ exponent }
{
    1 << exponent
}

/// Whether a minus in a signed kind overflows, as it does of the least value alone.
pub fn negation_overflows(
    words: &mut Words,
    kind: Kind,
    model: Model,
    slot: TermId,
) -> Result<TermId, Memory>
    ensures shows { (store : List ℕ) (a : ℕ) → Shows words.old.terms store slot 64 a
        → IfOk result (λ t. Puts words.old words.new store t 1 (by.negation_overflows kind model a)) }
    ensures made { IfOk result (λ t. (words.new, t) ≡ made.negation_overflows words.old kind model slot) }
{
    let zero = words.zero(SLOT_WIDTH)?;
    let operands = Operands::new(words, kind, model, zero, slot)?;
    operands.difference_overflows(words)
}
