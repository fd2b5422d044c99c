ghost use Rattle.std.specs.Prelude.{◌≡◌, ◌<◌, ◌↔◌, ◌∷◌, ◌++◌, [], length, slice_get, slice_index, take, Some, IsTrue, IsSome, IfOk, OnOk, OnErr, All};
ghost use Rattle.bv_term.specs.declared.term.Term.{Term};
ghost use Rattle.bv_term.specs.WellFormed.{FitsTable, IsTable, IsWidth, with_term, widths};
ghost use Rattle.bv_term.specs.Keys.{key_of, first_from, put_of};
ghost use Rattle.bv_term.specs.Values.{AreBelow, IsStore, value_in, values};
ghost use Rattle.bv_term.specs.Laws.{IsPut};

use crate::key::Key;
use crate::value::value_over;
use crate::well_formed::{fits_over, is_store, width_over};
use crate::{Term, TermId};
use lv_base::Memory;
use std::alloc::Global;
use std::collections::HashMap;
use std::marker::Model;

/// A table of terms over cells of given widths. Each term is well formed over those before it, so that numbers
/// only ever point back. Contracts see the widths of the cells and the list of the terms.
#[derive(Drop)]
pub struct Terms {
    cells: Vec<u32>,
    terms: Vec<Term>,
    widths: Vec<u32>,
    numbers: HashMap<Key, u32>,
}

impl Model for Terms {
    ghost use Rattle.bv_term.specs.WellFormed.{Table};
    ghost use Rattle.bv_term.specs.Keys.{IsKept};

    ghost Value = { Table };

    ghost view = { λ t. record { cells = t.cells.items; terms = t.terms.items } };

    ghost invariant = { λ t. IsKept t.cells.items t.terms.items t.widths.items t.numbers };
}

impl Terms {
    /// A table over cells of these widths, without a term. It takes no memory.
    pub fn new(alloc: Global, cells: Vec<u32>) -> Terms
        requires { All IsWidth cells.items }
        ensures cells { result.cells ≡ cells.items }
        ensures terms { result.terms ≡ [] }
    {
        Terms {
            cells,
            terms: Vec::new(alloc),
            widths: Vec::new(alloc),
            numbers: HashMap::new(alloc),
        }
    }

    /// The widths of the cells.
    pub fn cells(&self) -> &[u32]
        ensures value { result.now ≡ self.now.cells }
        ensures table { IsTable self.now }
    {
        &self.cells
    }

    /// How many terms there are. It takes no memory.
    pub fn count(&self) -> u32
        ensures value { result ≡ length self.now.terms }
        ensures table { IsTable self.now }
    {
        self.terms.len() as u32
    }

    /// The term of this number. It takes no memory.
    pub fn get(&self, term: TermId) -> Term
        requires { term.0 < length self.now.terms }
        ensures { slice_get self.now.terms term.0 ≡ Some result }
    {
        self.terms[term.0 as usize]
    }

    /// The width of the term of this number. It takes no memory.
    pub fn width_of(&self, term: TermId) -> u32
        requires { term.0 < length self.now.terms }
        ensures value { result ≡ slice_index (widths self.now) term.0 }
        ensures width { IsWidth result }
    {
        self.widths[term.0 as usize]
    }

    /// Whether the term is well formed over the table. It takes no memory.
    pub fn fits(&self, term: Term) -> bool
        ensures { IsTrue result ↔ FitsTable self.now term }
    {
        fits_over(&self.cells, &self.widths, term)
    }

    /// The number of an equal term that is there, else the number of this term, which then stands at the end.
    pub fn put(&mut self, term: Term) -> Result<TermId, Memory>
        requires { FitsTable self.old term }
        ensures made { IfOk result (λ id. (self.new, id) ≡ put_of self.old term) }
        ensures put { IfOk result (λ id. IsPut self.old self.new term) }
        ensures named { IfOk result (λ id. slice_get self.new.terms id.0 ≡ Some term) }
        ensures unchanged { OnErr result (self.new ≡ self.old) }
    {
        let key = Key::of(term);
        match self.numbers.get(&key).copied() {
            Some(number) => Ok(TermId(number)),
            None => self.enter(term, key),
        }
    }

    /// Appends the term, also where an equal one is there, and answers its number.
    pub fn append(&mut self, term: Term) -> Result<TermId, Memory>
        requires { FitsTable self.old term }
        ensures appended { IfOk result (λ id. self.new ≡ with_term self.old term) }
        ensures number { IfOk result (λ id. id.0 ≡ length self.old.terms) }
        ensures unchanged { OnErr result (self.new ≡ self.old) }
    {
        let key = Key::of(term);
        if self.numbers.contains_key(&key) {
            self.repeat(term)
        } else {
            self.enter(term, key)
        }
    }

    /// An equal table.
    pub fn copy(&self) -> Result<Terms, Memory>
        ensures { IfOk result (λ t. t ≡ self.now) }
    {
        let cells = copy_of_numbers(&self.cells)?;
        let terms = copy_of_terms(&self.terms)?;
        let widths = copy_of_numbers(&self.widths)?;
        let numbers = copy_of_map(&self.numbers)?;
        Ok(Terms {
            cells,
            terms,
            widths,
            numbers,
        })
    }
}

impl Terms {
    /// Appends the term, whose row no term has.
    fn enter(&mut self, term: Term, key: Key) -> Result<TermId, Memory>
        requires fits { FitsTable self.old term }
        requires key { key ≡ key_of term }
        requires fresh { first_from 0 key self.old.terms ≡ None }
        ensures appended { IfOk result (λ id. self.new ≡ with_term self.old term) }
        ensures number { IfOk result (λ id. id.0 ≡ length self.old.terms) }
        ensures unchanged { OnErr result (self.new ≡ self.old) }
    {
        let number = self.terms.len() as u32;
        if number == u32::MAX {
            return Err(Memory);
        }
        let width = width_over(&self.cells, &self.widths, term);
        push_both(&mut self.terms, &mut self.widths, term, width)?;
        if self.numbers.insert(key, number).is_err() {
            let _ = self.terms.pop();
            let _ = self.widths.pop();
            return Err(Memory);
        }
        Ok(TermId(number))
    }

    /// Appends the term, whose row an earlier term has.
    fn repeat(&mut self, term: Term) -> Result<TermId, Memory>
        requires fits { FitsTable self.old term }
        requires there { IsSome (first_from 0 (key_of term) self.old.terms) }
        ensures appended { IfOk result (λ id. self.new ≡ with_term self.old term) }
        ensures number { IfOk result (λ id. id.0 ≡ length self.old.terms) }
        ensures unchanged { OnErr result (self.new ≡ self.old) }
    {
        let number = self.terms.len() as u32;
        if number == u32::MAX {
            return Err(Memory);
        }
        let width = width_over(&self.cells, &self.widths, term);
        push_both(&mut self.terms, &mut self.widths, term, width)?;
        Ok(TermId(number))
    }
}

fn push_both(
    terms: &mut Vec<Term>,
    widths: &mut Vec<u32>,
    term: Term,
    width: u32,
) -> Result<(), Memory>
    ensures terms { OnOk result (terms.new.items ≡ terms.old.items ++ term ∷ []) }
    ensures widths { OnOk result (widths.new.items ≡ widths.old.items ++ width ∷ []) }
    ensures same_terms { OnErr result (terms.new.items ≡ terms.old.items) }
    ensures same_widths { OnErr result (widths.new.items ≡ widths.old.items) }
{
    terms.push(term)?;
    if widths.push(width).is_err() {
        let _ = terms.pop();
        return Err(Memory);
    }
    Ok(())
}

fn copy_of_numbers(numbers: &Vec<u32>) -> Result<Vec<u32>, Memory>
    ensures { IfOk result (λ v. v.items ≡ numbers.now.items) }
{
    let copy = numbers.clone()?;
    Ok(copy)
}

fn copy_of_terms(terms: &Vec<Term>) -> Result<Vec<Term>, Memory>
    ensures { IfOk result (λ v. v.items ≡ terms.now.items) }
{
    let copy = terms.clone()?;
    Ok(copy)
}

fn copy_of_map(map: &HashMap<Key, u32>) -> Result<HashMap<Key, u32>, Memory>
    ensures { IfOk result (λ m. m.entries ≡ map.now.entries) }
{
    let copy = map.clone()?;
    Ok(copy)
}

impl Terms {
    /// Whether the values are a store of the table's cells. Cells past the end of the values hold 0.
    pub fn is_store(&self, store: &[u128]) -> bool
        ensures { IsTrue result ↔ IsStore self.now.cells store.now }
    {
        is_store(&self.cells, store)
    }

    /// The value of a term in a store, the terms before it having these values. It takes no memory.
    pub fn value_after(&self, store: &[u128], before: &[u128], term: TermId) -> u128
        requires there { term.0 < length self.now.terms }
        requires count { length before.now ≡ term.0 }
        requires below { AreBelow (take term.0 (widths self.now)) before.now }
        ensures { (t : Term) → slice_get self.now.terms term.0 ≡ Some t → result ≡ value_in store.now (take term.0 (widths self.now)) before.now t }
    {
        let number = term.0 as usize;
        value_over(store, &self.widths[..number], before, self.terms[number])
    }

    /// Appends the values of the further terms to those of the first in a store of the table's cells, so that each term has
    /// its value. None that is known is computed again: it takes time in proportion to the further terms.
    pub fn values_on(&self, store: &[u128], known: &mut Vec<u128>) -> Result<(), Memory>
        requires store { IsStore self.now.cells store.now }
        requires known { known.old.items ≡ take (length known.old.items) (values self.now store.now) }
        ensures all { OnOk result (known.new.items ≡ values self.now store.now) }
        ensures first { OnErr result (known.new.items ≡ take (length known.new.items) (values self.now store.now)) }
    {
        for number in known.len()..self.terms.len() {
            let value = self.value_after(store, known, TermId(number as u32));
            known.push(value)?;
        }
        Ok(())
    }

    /// The values of all terms in a store of the table's cells, in the order of the terms. Each value is computed
    /// once, from the values of earlier terms, so that the call takes time in proportion to the table.
    pub fn values(&self, alloc: Global, store: &[u128]) -> Result<Vec<u128>, Memory>
        requires { IsStore self.now.cells store.now }
        ensures { IfOk result (λ v. v.items ≡ values self.now store.now) }
    {
        let mut known: Vec<u128> = Vec::new(alloc);
        self.values_on(store, &mut known)?;
        Ok(known)
    }
}
