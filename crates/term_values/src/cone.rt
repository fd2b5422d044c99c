ghost use Rattle.std.specs.Prelude.{◌≡◌, ◌<◌, ◌+◌, length, slice_get, slice_index, take, Some, if◌then◌else◌, nat_lt, IfOk, ℕ};
ghost use Rattle.bv_term.specs.declared.term.TermId.{TermId};
ghost use Rattle.bv_term.specs.declared.term.Term.{Term};
ghost use Rattle.bv_term.specs.WellFormed.{Table, widths};
ghost use Rattle.bv_term.specs.Values.{AreBelow, IsStore, value, value_in};
ghost use Rattle.bv_term.specs.Laws.{Extends};
ghost use Rattle.term_values.specs.Steps.{step_of};
ghost use Rattle.term_values.specs.Cones.{IsConeOf, MayRead};

use crate::part::gathered;
use crate::step::{Source, number_in};
use bv_term::{TermId, Terms};
use lv_base::Memory;
use std::alloc::Global;
use std::marker::Model;

/// A term and the terms below it, without the rest of their table. Contracts see these terms, under numbers of their own
/// so that each stands behind its operands, their widths, and the number of the term itself.
#[derive(Drop)]
pub struct ConeTerms {
    sources: Vec<Source>,
    shapes: Terms,
    top: TermId,
}

impl Model for ConeTerms {
    ghost use Rattle.std.specs.Prelude.{◌≡◌, length};
    ghost use Rattle.bv_term.specs.WellFormed.{widths};
    ghost use Rattle.term_values.specs.Cones.{Cone};
    ghost use Rattle.term_values.specs.Steps.{steps_of};

    ghost Value = { Cone };

    ghost view = { λ c. record { terms = steps_of c.sources.items c.shapes.terms; widths = widths c.shapes; top = c.top } };

    ghost invariant = { λ c. length c.sources.items ≡ length c.shapes.terms };
}

/// The number at a place, 0 past the end.
fn number_at(numbers: &[u128], at: usize) -> u128
    ensures { result ≡ slice_index numbers.now at }
{
    if at < numbers.len() { numbers[at] } else { 0 }
}

/// The value of an array's element, 0 where the index is not below the length.
fn element_at(store: &[u128], first: u32, length: u32, index: u128) -> u128
    ensures { result ≡ (if nat_lt index length then slice_index store.now (first + index) else 0) }
{
    if index < length as u128 {
        number_at(store, first as usize + index as usize)
    } else {
        0
    }
}

/// The value of the next term of a cone, those before it having these values.
fn next_value(shapes: &Terms, source: Source, store: &[u128], known: &[u128]) -> u128
    requires there { length known.now < length shapes.now.terms }
    requires below { AreBelow (take (length known.now) (widths shapes.now)) known.now }
    ensures { (shape : Term) → slice_get shapes.now.terms (length known.now) ≡ Some shape
        → result ≡ value_in store.now (take (length known.now) (widths shapes.now)) known.now (step_of source shape) }
{
    match source {
        Source::Stored(cell) => number_at(store, cell as usize),
        Source::Indexed(first, length, index) => {
            element_at(store, first, length, number_at(known, index.0 as usize))
        }
        Source::Computed => {
            let _count = shapes.count();
            shapes.value_after(store, known, TermId(known.len() as u32))
        }
    }
}

impl ConeTerms {
    /// The cone of a term of the table, and of each table that grows from it. It takes time and memory in proportion to the
    /// cone, however large the table is.
    ///
    /// Fails where memory is wanting.
    pub fn new(alloc: Global, terms: &Terms, term: TermId) -> Result<ConeTerms, Memory>
        requires { term.0 < length terms.now.terms }
        ensures cone { IfOk result (λ cone. IsConeOf terms.now term cone) }
        ensures later { IfOk result (λ cone. (later : Table) → Extends terms.now later → IsConeOf later term cone) }
    {
        let part = gathered(alloc, terms, term)?;
        let top = number_in(&part.places, term);
        Ok(ConeTerms {
            sources: part.sources,
            shapes: part.shapes,
            top,
        })
    }

    /// The value of the term in a store. It takes time and memory in proportion to the cone; of the store it reads the
    /// cells that the cone names, and of an array the element alone.
    ///
    /// Fails where memory is wanting.
    pub fn value(&self, alloc: Global, store: &[u128]) -> Result<u128, Memory>
        requires { MayRead self.now store.now }
        ensures { (table : Table) (term : TermId) → IsConeOf table term self.now → IsStore table.cells store.now
            → IfOk result (λ v. v ≡ value table store.now term) }
    {
        let mut known: Vec<u128> = Vec::with_capacity(alloc, self.sources.len())?;
        for number in 0..self.sources.len() {
            let value = next_value(&self.shapes, self.sources[number], store, &known);
            known.push(value)?;
        }
        Ok(number_at(&known, self.top.0 as usize))
    }
}
