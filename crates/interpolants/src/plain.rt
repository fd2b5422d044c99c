//! Formulas as terms, with nothing put where an operand is a constant, or both are equal or complements.

ghost use Rattle.std.specs.Prelude.{◌≡◌, ℕ, Bool, true, not, ◌&&◌, ◌||◌, List, Some, slice_get, if◌then◌else◌, IfOk};
ghost use Rattle.bv_term.specs.WellFormed.{FitsTable, IsTable};
ghost use Rattle.bv_term.specs.Laws.{Extends};
ghost use Rattle.formula_diagrams.specs.Shape.{IsBitIn};
ghost use Rattle.formula_diagrams.specs.Truths.{choice, is_set};
ghost use Rattle.formula_diagrams.specs.Writings.{IsOneBit, IsTruth};
ghost use Rattle.interpolants.specs.Cuts.{IsEnd};
ghost use Rattle.interpolants.specs.Merging.{IsSettled};

use bv_term::{Term, TermId, Terms};
use formula_diagrams::BitOf;
use lv_base::Memory;

/// What two joined terms are without a further one.
#[derive(Clone, Copy)]
pub enum Settled {
    Left,
    Right,
    /// The constant that swallows the other operand.
    Swallowed,
    Open,
}

// Puts a term.
fn put_term(terms: &mut Terms, term: Term) -> Result<TermId, Memory>
    requires { FitsTable terms.old term }
    ensures extends { Extends terms.old terms.new }
    ensures table { IsTable terms.new }
    ensures named { IfOk result (λ id. slice_get terms.new.terms id.0 ≡ Some term) }
{
    let outcome = terms.put(term);
    let _count = terms.count();
    outcome
}

/// The term true, or false.
pub fn put_end(terms: &mut Terms, value: bool) -> Result<TermId, Memory>
    ensures extends { Extends terms.old terms.new }
    ensures bit { IfOk result (IsOneBit terms.new) }
    ensures value { IfOk result (IsEnd terms.new (if value then 1 else 0)) }
    ensures truth { IfOk result (λ t. IsTruth terms.new t (λ store. value)) }
{
    if value {
        put_term(terms, Term::Constant(1, 1))
    } else {
        put_term(terms, Term::Constant(1, 0))
    }
}

/// The term of a bit.
pub fn put_bit(terms: &mut Terms, bit: BitOf) -> Result<TermId, Memory>
    requires { IsBitIn terms.old.cells bit }
    ensures extends { Extends terms.old terms.new }
    ensures bit { IfOk result (IsOneBit terms.new) }
    ensures truth { IfOk result (λ t. IsTruth terms.new t (λ store. is_set store bit)) }
{
    let cell = put_term(terms, Term::Cell(bit.cell))?;
    put_term(terms, Term::Bit(bit.bit, cell))
}

/// The complement of a term.
pub fn put_not(terms: &mut Terms, of: TermId) -> Result<TermId, Memory>
    requires { IsOneBit terms.old of }
    ensures extends { Extends terms.old terms.new }
    ensures bit { IfOk result (IsOneBit terms.new) }
    ensures truth { (f : List ℕ → Bool) → IsTruth terms.old of f → IfOk result (λ t. IsTruth terms.new t (λ store. not (f store))) }
{
    put_term(terms, Term::Not(of))
}

// Whether a term is this constant.
fn is_end(terms: &Terms, term: TermId, value: bool) -> bool
    requires { IsOneBit terms.now term }
    ensures { result ≡ true → (f : List ℕ → Bool) → IsTruth terms.now term f → (store : List ℕ) → f store ≡ value }
{
    let _count = terms.count();
    match terms.get(term) {
        Term::Constant(1, 1) => value,
        Term::Constant(1, 0) => !value,
        _ => false,
    }
}

// Whether a term is put as the complement of another.
fn is_complement(terms: &Terms, term: TermId, of: TermId) -> bool
    requires term { IsOneBit terms.now term }
    requires of { IsOneBit terms.now of }
    ensures { result ≡ true → (f g : List ℕ → Bool) → IsTruth terms.now term f → IsTruth terms.now of g → (store : List ℕ) → f store ≡ not (g store) }
{
    let _count = terms.count();
    match terms.get(term) {
        Term::Not(inner) => inner.0 == of.0,
        _ => false,
    }
}

// What two joined terms are without a further one, where the constant of this truth swallows all and the other nothing.
fn settle(terms: &Terms, left: TermId, right: TermId, swallows: bool) -> Settled
    requires left { IsOneBit terms.now left }
    requires right { IsOneBit terms.now right }
    ensures { (f g : List ℕ → Bool) → IsTruth terms.now left f → IsTruth terms.now right g → IsSettled swallows f g result }
{
    if left.0 == right.0 {
        return Settled::Left;
    }
    if is_end(terms, left, swallows) {
        return Settled::Left;
    }
    if is_end(terms, right, !swallows) {
        return Settled::Left;
    }
    if is_end(terms, right, swallows) {
        return Settled::Right;
    }
    if is_end(terms, left, !swallows) {
        return Settled::Right;
    }
    if is_complement(terms, left, right) {
        return Settled::Swallowed;
    }
    if is_complement(terms, right, left) {
        return Settled::Swallowed;
    }
    Settled::Open
}

/// What is true where both are.
pub fn put_both(terms: &mut Terms, left: TermId, right: TermId) -> Result<TermId, Memory>
    requires left { IsOneBit terms.old left }
    requires right { IsOneBit terms.old right }
    ensures extends { Extends terms.old terms.new }
    ensures bit { IfOk result (IsOneBit terms.new) }
    ensures truth { (f g : List ℕ → Bool) → IsTruth terms.old left f → IsTruth terms.old right g → IfOk result (λ t. IsTruth terms.new t (λ store. f store && g store)) }
{
    match settle(terms, left, right, false) {
        Settled::Left => Ok(left),
        Settled::Right => Ok(right),
        Settled::Swallowed => put_end(terms, false),
        Settled::Open => put_term(terms, Term::And(left, right)),
    }
}

/// What is true where one of them is.
pub fn put_either(terms: &mut Terms, left: TermId, right: TermId) -> Result<TermId, Memory>
    requires left { IsOneBit terms.old left }
    requires right { IsOneBit terms.old right }
    ensures extends { Extends terms.old terms.new }
    ensures bit { IfOk result (IsOneBit terms.new) }
    ensures truth { (f g : List ℕ → Bool) → IsTruth terms.old left f → IsTruth terms.old right g → IfOk result (λ t. IsTruth terms.new t (λ store. f store || g store)) }
{
    match settle(terms, left, right, true) {
        Settled::Left => Ok(left),
        Settled::Right => Ok(right),
        Settled::Swallowed => put_end(terms, true),
        Settled::Open => put_term(terms, Term::Or(left, right)),
    }
}

// What is true where both are false.
fn put_neither(terms: &mut Terms, left: TermId, right: TermId) -> Result<TermId, Memory>
    requires left { IsOneBit terms.old left }
    requires right { IsOneBit terms.old right }
    ensures extends { Extends terms.old terms.new }
    ensures bit { IfOk result (IsOneBit terms.new) }
    ensures truth { (f g : List ℕ → Bool) → IsTruth terms.old left f → IsTruth terms.old right g → IfOk result (λ t. IsTruth terms.new t (λ store. not (f store || g store))) }
{
    let one = put_either(terms, left, right)?;
    put_not(terms, one)
}

/// What is true where both have one truth, in the connectives that a formula is written with.
pub fn put_same(terms: &mut Terms, left: TermId, right: TermId) -> Result<TermId, Memory>
    requires left { IsOneBit terms.old left }
    requires right { IsOneBit terms.old right }
    ensures extends { Extends terms.old terms.new }
    ensures bit { IfOk result (IsOneBit terms.new) }
    ensures truth { (f g : List ℕ → Bool) → IsTruth terms.old left f → IsTruth terms.old right g → IfOk result (λ t. IsTruth terms.new t (λ store. choice (f store) (g store) (not (g store)))) }
{
    let both = put_both(terms, left, right)?;
    let neither = put_neither(terms, left, right)?;
    put_either(terms, both, neither)
}
