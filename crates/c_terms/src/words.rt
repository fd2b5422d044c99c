//! The table of terms while graphs are made.
ghost use Rattle.std.specs.Prelude.{◌≡◌, ◌<◌, ◌≤◌, ℕ, List, length, slice_index, true, IfOk};
ghost use Rattle.lv_base.specs.Integers.{residue};
ghost use Rattle.bv_term.specs.WellFormed.{FitsTable};
ghost use Rattle.bv_term.specs.Laws.{Extends};
ghost use Rattle.c_terms.specs.Made as made;
ghost use Rattle.c_terms.specs.Numbers.{zero_test};
ghost use Rattle.c_terms.specs.Shown.{Gives, Puts, Shows};

use bv_term::{Term, TermId, Terms};
use lv_base::Memory;

/// The width of a slot's cell in bits: it holds the slot's value modulo two to this power.
pub const SLOT_WIDTH: u32 = 64;

/// The terms of a program's graphs while these are made.
#[derive(Drop)]
pub struct Words {
    terms: Terms,
    is_sound: bool,
}

impl Words {
    /// Over this table, whose terms stay.
    pub fn new(terms: Terms) -> Words
        ensures terms { result.terms ≡ terms }
        ensures sound { result.is_sound ≡ true }
    {
        Words {
            terms,
            is_sound: true,
        }
    }

    /// Whether each term that was put was well formed over the table. Where one was not, nothing that was made of these terms counts.
    pub fn is_sound(&self) -> bool
        ensures { result ≡ self.now.is_sound }
    {
        self.is_sound
    }

    /// The table with all that was put.
    pub fn into_terms(self) -> Terms
        ensures { result ≡ self.terms }
    {
        self.terms
    }

    /// The number of the term. One that is not well formed over the table, which none of this crate's operations makes of operands
    /// of the right widths, is not put: number 0 stands in its place, and the table is not sound from then on.
    pub fn put(&mut self, term: Term) -> Result<TermId, Memory>
        ensures extends { Extends self.old.terms self.new.terms }
        ensures sound { FitsTable self.old.terms term → self.new.is_sound ≡ self.old.is_sound }
        ensures tells { self.new.is_sound ≡ true → (self.old.is_sound ≡ true) × FitsTable self.old.terms term }
        ensures shows { (store : List ℕ) (bits number : ℕ) → Gives self.old.terms store term bits number
            → IfOk result (λ t. Puts self.old self.new store t bits number) }
        ensures made { IfOk result (λ t. (self.new, t) ≡ made.put self.old term) }
    {
        if !self.terms.fits(term) {
            self.is_sound = false;
            return Ok(TermId(0));
        }
        let outcome = self.terms.put(term);
        let _count = self.terms.count();
        outcome
    }

    /// A value of a slot, modulo two to the power of its width.
    pub fn constant(&mut self, value: i128) -> Result<TermId, Memory>
        ensures shows { (store : List ℕ) → IfOk result (λ t. Puts self.old self.new store t 64 (residue 64 value)) }
        ensures made { IfOk result (λ t. (self.new, t) ≡ made.constant self.old value) }
    {
        self.constant_of(SLOT_WIDTH, value)
    }

    /// A value modulo two to the power of a width, which is at most 64.
    pub fn constant_of(&mut self, width: u32, value: i128) -> Result<TermId, Memory>
        ensures shows { (store : List ℕ) (w : ℕ) → width ≡ w → 1 ≤ w → w ≤ 64
            → IfOk result (λ t. Puts self.old self.new store t w (residue w value)) }
        ensures made { IfOk result (λ t. (self.new, t) ≡ made.constant_of self.old width value) }
    {
        self.put(Term::Constant(width, low_bits(width, value)))
    }

    /// The number 0 in a width.
    pub fn zero(&mut self, width: u32) -> Result<TermId, Memory>
        ensures shows { (store : List ℕ) (w : ℕ) → width ≡ w → 1 ≤ w → w ≤ 128 → IfOk result (λ t. Puts self.old self.new store t w 0) }
        ensures made { IfOk result (λ t. (self.new, t) ≡ made.zero self.old width) }
    {
        self.put(Term::Constant(width, 0))
    }

    /// A cell's value.
    pub fn cell(&mut self, cell: u32) -> Result<TermId, Memory>
        ensures shows { (store : List ℕ) → cell < length self.old.terms.cells
            → IfOk result (λ t. Puts self.old self.new store t (slice_index self.old.terms.cells cell) (slice_index store cell)) }
        ensures made { IfOk result (λ t. (self.new, t) ≡ made.cell self.old cell) }
    {
        self.put(Term::Cell(cell))
    }

    /// Whether a slot's value is 0, of width 1.
    pub fn is_zero(&mut self, slot: TermId) -> Result<TermId, Memory>
        ensures shows { (store : List ℕ) (a : ℕ) → Shows self.old.terms store slot 64 a
            → IfOk result (λ t. Puts self.old self.new store t 1 (zero_test a)) }
        ensures made { IfOk result (λ t. (self.new, t) ≡ made.is_zero self.old slot) }
    {
        let zero = self.zero(SLOT_WIDTH)?;
        self.equal(slot, zero)
    }

    /// A truth of width 1 as the value of a slot.
    pub fn truth(&mut self, term: TermId) -> Result<TermId, Memory>
        ensures shows { (store : List ℕ) (a : ℕ) → Shows self.old.terms store term 1 a
            → IfOk result (λ t. Puts self.old self.new store t 64 a) }
        ensures made { IfOk result (λ t. (self.new, t) ≡ made.truth self.old term) }
    {
        self.extend_zero(SLOT_WIDTH, term)
    }
}

// The value modulo two to the power of a width of at most 64; 0 in a greater one.
fn low_bits(width: u32, value: i128) -> u128
    ensures value { width ≤ 64 → result ≡ residue width value }
    ensures made { result ≡ made.low_bits width value }
{
    if width > SLOT_WIDTH {
        return 0;
    }
    value.rem_euclid((1u128 << width) as i128) as u128
}
