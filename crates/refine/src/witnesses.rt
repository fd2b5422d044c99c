//! Stores that kept pairs apart. A store that kept one pair apart often does so for the next, which saves a question.

ghost use Rattle.std.specs.Prelude.{◌≡◌, ◌<◌, [], IsTrue, All, length, IfOk, IfSome};
ghost use Rattle.bv_term.specs.WellFormed.{FitsTable};
ghost use Rattle.pair_query.specs.Laws.{IsStoreOf};
ghost use Rattle.refine.specs.declared.witnesses.Truth.TheVariants.{No, Yes};
ghost use Rattle.refine.specs.Witnesses.{AreKnown, IsKnown, IsSomeNo, KeepsApart, bit_known, both, differing, truth_at, truth_known, truth_of, turned};

use bv_term::{Term, TermId, Terms};
use c_graph::Store;
use lv_base::Memory;
use std::alloc::Global;
use std::marker::Model;

// So many stores are kept, the newest; more find little and cost a look at each.
const MOST_KEPT: usize = 64;

/// What is known of a term of one bit in a store.
#[derive(Clone, Copy, Debug)]
pub enum Truth {
    No,
    Yes,
    /// The term is wider, or not one of those that formulas are made of.
    Open,
}

impl Truth {
    fn of(value: bool) -> Truth
        ensures { result ≡ truth_of value }
    {
        if value { Truth::Yes } else { Truth::No }
    }

    fn not(self) -> Truth
        ensures { result ≡ turned self }
    {
        match self {
            Truth::No => Truth::Yes,
            Truth::Yes => Truth::No,
            Truth::Open => Truth::Open,
        }
    }

    fn and(self, other: Truth) -> Truth
        ensures { result ≡ both self other }
    {
        match (self, other) {
            (Truth::No, _) | (_, Truth::No) => Truth::No,
            (Truth::Yes, Truth::Yes) => Truth::Yes,
            (_, _) => Truth::Open,
        }
    }

    fn is_yes(self) -> bool
        ensures { IsTrue result → self ≡ Yes }
    {
        match self {
            Truth::Yes => true,
            Truth::No | Truth::Open => false,
        }
    }

    fn is_no(self) -> bool
        ensures { IsTrue result → self ≡ No }
    {
        match self {
            Truth::No => true,
            Truth::Yes | Truth::Open => false,
        }
    }

    fn differs(self, other: Truth) -> Truth
        ensures { result ≡ differing self other }
    {
        match (self, other) {
            (Truth::Open, _) | (_, Truth::Open) => Truth::Open,
            (Truth::No, truth) => truth,
            (Truth::Yes, truth) => truth.not(),
        }
    }
}

/// A store, with what is known of the table's first terms in it.
#[derive(Drop)]
struct Witness {
    store: Store,
    truths: Vec<Truth>,
}

impl Model for Witness {
    ghost use Rattle.refine.specs.Witnesses.{Known};

    ghost Value = { Known };

    ghost view = { λ w. record { store = w.store; truths = w.truths.items } };
}

// What is known of a term.
fn truth_at(truths: &[Truth], term: TermId) -> Truth
    ensures { result ≡ truth_at truths.now term.0 }
{
    let number = term.0 as usize;
    if number < truths.len() {
        truths[number]
    } else {
        Truth::Open
    }
}

// The truth of a bit of a term.
fn bit_truth(store: &Store, terms: &Terms, number: u32, of: TermId) -> Truth
    requires there { of.0 < length terms.now.terms }
    requires store { IsStoreOf terms.now store.now }
    ensures { result ≡ bit_known store.now terms.now.terms number of.0 }
{
    match terms.get(of) {
        Term::Cell(cell) if cell < store.cells() && number < 128 => {
            Truth::of((store.value(cell) >> number) % 2 == 1)
        }
        _ => Truth::Open,
    }
}

// The truth of a term, by those of its operands.
fn known_truth(store: &Store, truths: &[Truth], terms: &Terms, term: Term) -> Truth
    requires store { IsStoreOf terms.now store.now }
    requires fits { FitsTable terms.now term }
    ensures { result ≡ truth_known store.now terms.now.terms truths.now term }
{
    match term {
        Term::Constant(1, value) => Truth::of(value == 1),
        Term::Bit(number, of) => bit_truth(store, terms, number, of),
        Term::Not(of) => truth_at(truths, of).not(),
        Term::And(left, right) => truth_at(truths, left).and(truth_at(truths, right)),
        Term::Or(left, right) => truth_at(truths, left)
            .not()
            .and(truth_at(truths, right).not())
            .not(),
        Term::Xor(left, right) => truth_at(truths, left).differs(truth_at(truths, right)),
        _ => Truth::Open,
    }
}

impl Witness {
    // Learns the truths of the terms that the table got since.
    fn follow(&mut self, terms: &Terms) -> Result<(), Memory>
        requires known { IsKnown terms.now self.old }
        ensures known { IsKnown terms.now self.new }
        ensures store { self.new.store ≡ self.old.store }
    {
        for number in self.truths.len()..terms.count() as usize {
            let term = terms.get(TermId(number as u32));
            let truth = known_truth(&self.store, &self.truths, terms, term);
            self.truths.push(truth)?;
        }
        Ok(())
    }

    // Whether it is known that the store meets a label.
    fn meets(&self, label: &[TermId]) -> bool
        ensures { IsTrue result → All (λ t. truth_at self.now.truths t.0 ≡ Yes) label.now }
    {
        for conjunct in label {
            if !truth_at(&self.truths, *conjunct).is_yes() {
                return false;
            }
        }
        true
    }

    // Whether it is known that the store does not meet a label.
    fn misses(&self, label: &[TermId]) -> bool
        ensures { IsTrue result → IsSomeNo self.now.truths label.now }
    {
        for conjunct in label {
            if truth_at(&self.truths, *conjunct).is_no() {
                return true;
            }
        }
        false
    }
}

// Whether a store is known to meet the first label and not the second.
fn keeps_apart(
    witness: &mut Witness,
    terms: &Terms,
    left: &[TermId],
    right: &[TermId],
) -> Result<bool, Memory>
    requires known { IsKnown terms.now witness.old }
    ensures known { IsKnown terms.now witness.new }
    ensures store { witness.new.store ≡ witness.old.store }
    ensures apart { IfOk result (λ b. IsTrue b → KeepsApart terms.now left.now right.now witness.new.store) }
{
    witness.follow(terms)?;
    Ok(witness.meets(left) && witness.misses(right))
}

/// The stores that kept pairs apart last. They are of one unwinding: its table of terms may only grow.
#[derive(Drop)]
pub struct Witnesses {
    kept: Vec<Witness>,
}

impl Model for Witnesses {
    ghost use Rattle.std.specs.Prelude.{List};
    ghost use Rattle.refine.specs.Witnesses.{Known};

    ghost Value = { List Known };

    ghost view = { λ w. w.kept.items };
}

impl Witnesses {
    /// No stores. It takes no memory.
    pub fn new(alloc: Global) -> Witnesses
        ensures { result ≡ [] }
    {
        Witnesses {
            kept: Vec::new(alloc),
        }
    }

    /// A copy of the newest store that is known to meet the first label and not the second.
    pub fn find(
        &mut self,
        terms: &Terms,
        left: &[TermId],
        right: &[TermId],
    ) -> Result<Option<Store>, Memory>
        requires known { AreKnown terms.now self.old }
        ensures known { AreKnown terms.now self.new }
        ensures found { IfOk result (λ r. IfSome r (KeepsApart terms.now left.now right.now)) }
    {
        let mut number = self.kept.len();
        while number > 0 {
            number -= 1;
            if keeps_apart(&mut self.kept[number], terms, left, right)? {
                let store = self.kept[number].store.copy()?;
                return Ok(Some(store));
            }
        }
        Ok(None)
    }

    /// Keeps a store. The oldest goes where there are too many.
    pub fn keep(&mut self, alloc: Global, terms: &Terms, store: Store) -> Result<(), Memory>
        requires known { AreKnown terms.now self.old }
        requires store { IsStoreOf terms.now store }
        ensures known { AreKnown terms.now self.new }
    {
        let _cells = terms.cells();
        if self.kept.len() >= MOST_KEPT {
            let _ = self.kept.remove(0);
        }
        self.kept.push(Witness {
            store,
            truths: Vec::new(alloc),
        })?;
        Ok(())
    }
}
