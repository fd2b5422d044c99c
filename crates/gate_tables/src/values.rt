//! `value WIDTHS ; TERM ; CELLS = VALUE ; ..`: the term's value in the store, and what its literals are under the one
//! assignment that its clauses make of the cells' values.
ghost use Rattle.std.specs.Prelude.{IfOk};
ghost use Rattle.bit_blast.specs.Held.{IsOver};

use crate::{number_of, push_bits, settle, table_in, term_in};
use bit_blast::{Bits, blast, blast_all};
use bv_term::{TermId, Terms};
use prop::{BlastFail, Clauses, Lit};
use row_text::{RowFail, Table, fields, halves, wide, wides};
use std::alloc::Global;

/// Literals for the cells of a table.
pub(crate) fn begin(alloc: Global, terms: &Terms, clauses: &mut Clauses) -> Result<Bits, BlastFail>
    ensures { IfOk result (λ b. IsOver terms.now b) }
{
    let bits = Bits::new(alloc, clauses, terms.cells())?;
    Ok(bits)
}

// The literals of a term; where it is a truth, its one literal is asked for again.
fn lits_of(
    alloc: Global,
    terms: &Terms,
    id: TermId,
    clauses: &mut Clauses,
) -> Result<Vec<Lit>, RowFail> {
    if id.0 >= terms.count() {
        return Err(RowFail::Bad);
    }
    let mut bits = begin(alloc, terms, clauses)?;
    if terms.width_of(id) != 1 {
        return Ok(blast_all(alloc, terms, id, clauses, &mut bits)?);
    }
    let mut lits = Vec::new(alloc);
    lits.push(blast(alloc, terms, id, clauses, &mut bits)?)?;
    Ok(lits)
}

// Whether the term has this value in the store.
fn has_value(
    alloc: Global,
    terms: &Terms,
    id: TermId,
    cells: &[u128],
    wanted: u128,
) -> Result<bool, RowFail> {
    if cells.len() != terms.cells().len() || !terms.is_store(cells) {
        return Err(RowFail::Bad);
    }
    let values = terms.values(alloc, cells)?;
    let mut again = Vec::new(alloc);
    terms.values_on(cells, &mut again)?;
    Ok(
        values.get(id.0 as usize).copied() == Some(wanted)
            && again.get(id.0 as usize).copied() == Some(wanted),
    )
}

// The bits of the cells, from the first cell on.
fn inputs_of(alloc: Global, widths: &[u32], cells: &[u128]) -> Result<Vec<bool>, RowFail> {
    let mut inputs = Vec::new(alloc);
    for (width, cell) in widths.iter().zip(cells) {
        push_bits(&mut inputs, *width, *cell)?;
    }
    Ok(inputs)
}

// Whether the literals have this value where the cells' variables spell the store.
fn have_value(
    alloc: Global,
    widths: &[u32],
    clauses: &Clauses,
    lits: &[Lit],
    cells: &[u128],
    wanted: u128,
) -> Result<bool, RowFail> {
    let mut values = inputs_of(alloc, widths, cells)?;
    Ok(settle(clauses, &mut values)? && number_of(&values, lits) == wanted)
}

// Tries the row.
fn has_values(alloc: Global, rest: &str) -> Result<bool, RowFail> {
    let mut parts = rest.split(';');
    let mut terms = table_in(alloc, parts.next())?;
    let id = term_in(alloc, &mut terms, TermId(0), parts.next())?;
    let mut clauses = Clauses::new(alloc);
    let lits = lits_of(alloc, &terms, id, &mut clauses)?;
    for part in parts {
        let (store, value) = halves(part)?;
        let cells = wides(alloc, store)?;
        let wanted = wide(Some(value))?;
        if !has_value(alloc, &terms, id, &cells, wanted)?
            || !have_value(alloc, terms.cells(), &clauses, &lits, &cells, wanted)?
        {
            return Ok(false);
        }
    }
    Ok(true)
}

/// Rows of the values of terms.
#[derive(Drop)]
pub(crate) struct ValueRows;

impl Table for ValueRows {
    fn is_so(&mut self, alloc: Global, row: &str) -> Result<bool, RowFail> {
        let (kind, rest) = fields(row);
        match kind {
            "value" => has_values(alloc, rest),
            _ => Err(RowFail::Bad),
        }
    }
}
