//! Single terms of operands that stand in the table: one of the operands' width, or of width 1.
ghost use Rattle.std.specs.Prelude.{◌≡◌, ◌-◌, ◌<◌, ◌≤◌, ◌%◌, ◌^◌, ◌==◌, ℕ, List, nat_lt, bit_and, bit_or, bit_xor, if◌then◌else◌, IfOk};
ghost use Rattle.bv_term.specs.WellFormed.{IsWidth};
ghost use Rattle.bv_term.specs.Numbers.{sum_in, difference_in, product_in, quotient_of, remainder_of, complement_in, left_in, right_in, signed_right_in, raised, truth, sign_extended};
ghost use Rattle.c_terms.specs.Made as made;
ghost use Rattle.c_terms.specs.Numbers.{top};
ghost use Rattle.c_terms.specs.Shown.{Puts, Shows};

use crate::words::Words;
use bv_term::{Term, TermId};
use lv_base::Memory;

impl Words {
    /// The complement of all bits.
    pub fn not(&mut self, term: TermId) -> Result<TermId, Memory>
        ensures shows { (store : List ℕ) (w a : ℕ) → Shows self.old.terms store term w a
            → IfOk result (λ t. Puts self.old self.new store t w (complement_in w a)) }
        ensures made { IfOk result (λ t. (self.new, t) ≡ made.word_not self.old term) }
    {
        self.put(Term::Not(term))
    }

    /// The bits that both have.
    pub fn both(&mut self, first: TermId, second: TermId) -> Result<TermId, Memory>
        ensures shows { (store : List ℕ) (w a b : ℕ) → Shows self.old.terms store first w a → Shows self.old.terms store second w b
            → IfOk result (λ t. Puts self.old self.new store t w (bit_and a b)) }
        ensures made { IfOk result (λ t. (self.new, t) ≡ made.word_both self.old first second) }
    {
        self.put(Term::And(first, second))
    }

    /// The bits that either has.
    pub fn either(&mut self, first: TermId, second: TermId) -> Result<TermId, Memory>
        ensures shows { (store : List ℕ) (w a b : ℕ) → Shows self.old.terms store first w a → Shows self.old.terms store second w b
            → IfOk result (λ t. Puts self.old self.new store t w (bit_or a b)) }
        ensures made { IfOk result (λ t. (self.new, t) ≡ made.word_either self.old first second) }
    {
        self.put(Term::Or(first, second))
    }

    /// The bits that one of the two has.
    pub fn differ(&mut self, first: TermId, second: TermId) -> Result<TermId, Memory>
        ensures shows { (store : List ℕ) (w a b : ℕ) → Shows self.old.terms store first w a → Shows self.old.terms store second w b
            → IfOk result (λ t. Puts self.old self.new store t w (bit_xor a b)) }
        ensures made { IfOk result (λ t. (self.new, t) ≡ made.word_differ self.old first second) }
    {
        self.put(Term::Xor(first, second))
    }

    /// Whether both are equal, of width 1.
    pub fn equal(&mut self, first: TermId, second: TermId) -> Result<TermId, Memory>
        ensures shows { (store : List ℕ) (w a b : ℕ) → Shows self.old.terms store first w a → Shows self.old.terms store second w b
            → IfOk result (λ t. Puts self.old self.new store t 1 (truth (a == b))) }
        ensures made { IfOk result (λ t. (self.new, t) ≡ made.word_equal self.old first second) }
    {
        self.put(Term::Equal(first, second))
    }

    /// Whether the first is below the second as an unsigned number, of width 1.
    pub fn less(&mut self, first: TermId, second: TermId) -> Result<TermId, Memory>
        ensures shows { (store : List ℕ) (w a b : ℕ) → Shows self.old.terms store first w a → Shows self.old.terms store second w b
            → IfOk result (λ t. Puts self.old self.new store t 1 (truth (nat_lt a b))) }
        ensures made { IfOk result (λ t. (self.new, t) ≡ made.word_less self.old first second) }
    {
        self.put(Term::Less(first, second))
    }

    /// Whether the first is below the second as a signed number, of width 1.
    pub fn less_signed(&mut self, first: TermId, second: TermId) -> Result<TermId, Memory>
        ensures shows { (store : List ℕ) (w a b : ℕ) → Shows self.old.terms store first w a → Shows self.old.terms store second w b
            → IfOk result (λ t. Puts self.old self.new store t 1 (truth (nat_lt (raised w a) (raised w b)))) }
        ensures made { IfOk result (λ t. (self.new, t) ≡ made.word_less_signed self.old first second) }
    {
        self.put(Term::LessSigned(first, second))
    }

    /// The sum, without its carry.
    pub fn add(&mut self, first: TermId, second: TermId) -> Result<TermId, Memory>
        ensures shows { (store : List ℕ) (w a b : ℕ) → Shows self.old.terms store first w a → Shows self.old.terms store second w b
            → IfOk result (λ t. Puts self.old self.new store t w (sum_in w a b)) }
        ensures made { IfOk result (λ t. (self.new, t) ≡ made.word_add self.old first second) }
    {
        self.put(Term::Add(first, second))
    }

    /// The difference, without its borrow.
    pub fn subtract(&mut self, first: TermId, second: TermId) -> Result<TermId, Memory>
        ensures shows { (store : List ℕ) (w a b : ℕ) → Shows self.old.terms store first w a → Shows self.old.terms store second w b
            → IfOk result (λ t. Puts self.old self.new store t w (difference_in w a b)) }
        ensures made { IfOk result (λ t. (self.new, t) ≡ made.word_subtract self.old first second) }
    {
        self.put(Term::Subtract(first, second))
    }

    /// The low half of the product.
    pub fn multiply(&mut self, first: TermId, second: TermId) -> Result<TermId, Memory>
        ensures shows { (store : List ℕ) (w a b : ℕ) → Shows self.old.terms store first w a → Shows self.old.terms store second w b
            → IfOk result (λ t. Puts self.old self.new store t w (product_in w a b)) }
        ensures made { IfOk result (λ t. (self.new, t) ≡ made.word_multiply self.old first second) }
    {
        self.put(Term::Multiply(first, second))
    }

    /// The unsigned quotient, 0 where the divisor is 0.
    pub fn divide(&mut self, first: TermId, second: TermId) -> Result<TermId, Memory>
        ensures shows { (store : List ℕ) (w a b : ℕ) → Shows self.old.terms store first w a → Shows self.old.terms store second w b
            → IfOk result (λ t. Puts self.old self.new store t w (quotient_of a b)) }
        ensures made { IfOk result (λ t. (self.new, t) ≡ made.word_divide self.old first second) }
    {
        self.put(Term::Divide(first, second))
    }

    /// The unsigned remainder, 0 where the divisor is 0.
    pub fn remainder(&mut self, first: TermId, second: TermId) -> Result<TermId, Memory>
        ensures shows { (store : List ℕ) (w a b : ℕ) → Shows self.old.terms store first w a → Shows self.old.terms store second w b
            → IfOk result (λ t. Puts self.old self.new store t w (remainder_of a b)) }
        ensures made { IfOk result (λ t. (self.new, t) ≡ made.word_remainder self.old first second) }
    {
        self.put(Term::Remainder(first, second))
    }

    /// The first shifted left by the second.
    pub fn shift_left(&mut self, first: TermId, second: TermId) -> Result<TermId, Memory>
        ensures shows { (store : List ℕ) (w a b : ℕ) → Shows self.old.terms store first w a → Shows self.old.terms store second w b
            → IfOk result (λ t. Puts self.old self.new store t w (left_in w a b)) }
        ensures made { IfOk result (λ t. (self.new, t) ≡ made.word_shift_left self.old first second) }
    {
        self.put(Term::ShiftLeft(first, second))
    }

    /// The first shifted right by the second, zeros coming in.
    pub fn shift_right(&mut self, first: TermId, second: TermId) -> Result<TermId, Memory>
        ensures shows { (store : List ℕ) (w a b : ℕ) → Shows self.old.terms store first w a → Shows self.old.terms store second w b
            → IfOk result (λ t. Puts self.old self.new store t w (right_in w a b)) }
        ensures made { IfOk result (λ t. (self.new, t) ≡ made.word_shift_right self.old first second) }
    {
        self.put(Term::ShiftRight(first, second))
    }

    /// The first shifted right by the second, copies of its top bit coming in.
    pub fn shift_signed(&mut self, first: TermId, second: TermId) -> Result<TermId, Memory>
        ensures shows { (store : List ℕ) (w a b : ℕ) → Shows self.old.terms store first w a → Shows self.old.terms store second w b
            → IfOk result (λ t. Puts self.old self.new store t w (signed_right_in w a b)) }
        ensures made { IfOk result (λ t. (self.new, t) ≡ made.word_shift_signed self.old first second) }
    {
        self.put(Term::ShiftSigned(first, second))
    }

    /// The second where the first, of width 1, is 1, else the third.
    pub fn choose(&mut self, test: TermId, first: TermId, second: TermId) -> Result<TermId, Memory>
        ensures shows { (store : List ℕ) (w c a b : ℕ) → Shows self.old.terms store test 1 c → Shows self.old.terms store first w a → Shows self.old.terms store second w b
            → IfOk result (λ t. Puts self.old self.new store t w (if c == 1 then a else b)) }
        ensures made { IfOk result (λ t. (self.new, t) ≡ made.word_choose self.old test first second) }
    {
        self.put(Term::Select(test, first, second))
    }

    /// The term with zeros above it, up to a width.
    pub fn extend_zero(&mut self, width: u32, term: TermId) -> Result<TermId, Memory>
        ensures shows { (store : List ℕ) (v w a : ℕ) → width ≡ v → IsWidth v → w ≤ v → Shows self.old.terms store term w a
            → IfOk result (λ t. Puts self.old self.new store t v a) }
        ensures made { IfOk result (λ t. (self.new, t) ≡ made.word_extend_zero self.old width term) }
    {
        self.put(Term::ZeroExtend(width, term))
    }

    /// The term with copies of its top bit above it, up to a width.
    pub fn extend_sign(&mut self, width: u32, term: TermId) -> Result<TermId, Memory>
        ensures shows { (store : List ℕ) (v w a : ℕ) → width ≡ v → IsWidth v → w ≤ v → Shows self.old.terms store term w a
            → IfOk result (λ t. Puts self.old self.new store t v (sign_extended w v a)) }
        ensures made { IfOk result (λ t. (self.new, t) ≡ made.word_extend_sign self.old width term) }
    {
        self.put(Term::SignExtend(width, term))
    }

    /// The low bits of a term, as many as a width has.
    pub fn truncate(&mut self, width: u32, term: TermId) -> Result<TermId, Memory>
        ensures shows { (store : List ℕ) (v w a : ℕ) → width ≡ v → IsWidth v → v ≤ w → Shows self.old.terms store term w a
            → IfOk result (λ t. Puts self.old self.new store t v (a % 2 ^ v)) }
        ensures made { IfOk result (λ t. (self.new, t) ≡ made.word_truncate self.old width term) }
    {
        self.put(Term::Truncate(width, term))
    }

    /// The top bit of a term of a width.
    pub fn top(&mut self, width: u32, term: TermId) -> Result<TermId, Memory>
        ensures shows { (store : List ℕ) (w a : ℕ) → width ≡ w → 1 ≤ w → Shows self.old.terms store term w a
            → IfOk result (λ t. Puts self.old self.new store t 1 (top w a)) }
        ensures made { IfOk result (λ t. (self.new, t) ≡ made.word_top self.old width term) }
    {
        self.put(Term::Bit(width.saturating_sub(1), term))
    }
}
