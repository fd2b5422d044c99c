//! What the rows state, and the stores of some cells, by their numbers.

use crate::formulas::{BuildFail, Formulas};
use crate::truths::Truths;
use bv_term::{TermId, Terms, are_widths};
use formula_diagrams::{Diagrams, NodeId};
use row_text::{RowFail, Table, fields, half, halves, number, numbers};
use std::alloc::Global;

// Rows with more bits than this are not tried in all stores.
const MOST_BITS: u32 = 8;

const MOST_NODES: u32 = 100_000;

// How many bits the cells have.
fn bits_of(cells: &[u32]) -> u32 {
    let mut bits = 0u32;
    for width in cells {
        bits = bits.saturating_add(*width);
    }
    bits
}

// The lowest bits of a number as a value, and what is left of the number.
fn take(number: u32, width: u32) -> (u128, u32) {
    let mut rest = number;
    let mut value = 0u128;
    let mut weight = 1u128;
    for _ in 0..width {
        if rest % 2 == 1 {
            value = value.saturating_add(weight);
        }
        weight = weight.saturating_mul(2);
        rest /= 2;
    }
    (value, rest)
}

// The store of a number, whose low bits are the first cell's.
fn store_of(alloc: Global, cells: &[u32], number: u32) -> Result<Vec<u128>, RowFail> {
    let mut rest = number;
    let mut store = Vec::new(alloc);
    for width in cells {
        let (value, left) = take(rest, *width);
        store.push(value)?;
        rest = left;
    }
    Ok(store)
}

// No formulas over the cells of a text.
fn diagrams_in(alloc: Global, cells: &str, most: u32) -> Result<Diagrams, RowFail> {
    if most > MOST_NODES {
        return Err(RowFail::Bad);
    }
    let widths = numbers(alloc, cells)?;
    Ok(Diagrams::new(alloc, widths, most))
}

// Whether the term has in a store the truth of the text.
fn has_truth(
    alloc: Global,
    terms: &Terms,
    id: TermId,
    text: &str,
    store: &[u128],
) -> Result<bool, RowFail> {
    if !terms.is_store(store) {
        return Err(RowFail::Bad);
    }
    let values = terms.values(alloc, store)?;
    let wanted = store.truth_of(alloc, text)?;
    Ok(values.get(id.0 as usize).copied() == Some(wanted as u128))
}

// Whether the term of a formula has the truth of its text in all stores.
fn is_written(alloc: Global, diagrams: &Diagrams, id: NodeId, text: &str) -> Result<bool, RowFail> {
    let cells = diagrams.cells();
    let bits = bits_of(cells);
    if bits > MOST_BITS || id.0 >= diagrams.count() || !are_widths(cells) {
        return Err(RowFail::Bad);
    }
    let widths = Vec::from_slice(alloc, cells)?;
    let mut terms = Terms::new(alloc, widths);
    let term = diagrams.written(alloc, id, &mut terms)?;
    for number in 0..1u32 << bits {
        let store = store_of(alloc, cells, number)?;
        if !has_truth(alloc, &terms, term, text, &store)? {
            return Ok(false);
        }
    }
    Ok(true)
}

// Whether the formula has these truths in the stores, in the order of their numbers.
fn are_truths(alloc: Global, cells: &[u32], formula: &str, truths: &str) -> Result<bool, RowFail> {
    let bits = bits_of(cells);
    if bits > MOST_BITS {
        return Err(RowFail::Bad);
    }
    let mut number = 0u32;
    for wanted in truths.as_bytes() {
        let store = store_of(alloc, cells, number)?;
        if store.as_slice().truth_of(alloc, formula)? != (*wanted == b'1') {
            return Ok(false);
        }
        number = number.saturating_add(1);
    }
    Ok(number == 1u32 << bits)
}

// `CELLS ; FORMULA = TRUTHS`: the truths in all stores.
fn has_truths(alloc: Global, rest: &str) -> Result<bool, RowFail> {
    let mut parts = rest.split(';');
    let mut diagrams = diagrams_in(alloc, half(parts.next())?, MOST_NODES)?;
    let (formula, truths) = halves(half(parts.next())?)?;
    let id = diagrams.formula_of(alloc, formula)?;
    let is_so = are_truths(alloc, diagrams.cells(), formula, truths)?;
    Ok(is_so && is_written(alloc, &diagrams, id, formula)?)
}

// `CELLS ; FORMULA = FORMULA`: both get one number.
fn are_same(alloc: Global, rest: &str) -> Result<bool, RowFail> {
    let mut parts = rest.split(';');
    let mut diagrams = diagrams_in(alloc, half(parts.next())?, MOST_NODES)?;
    let (left, right) = halves(half(parts.next())?)?;
    let first = diagrams.formula_of(alloc, left)?;
    let second = diagrams.formula_of(alloc, right)?;
    if bits_of(diagrams.cells()) <= MOST_BITS
        && (!is_written(alloc, &diagrams, first, left)?
            || !is_written(alloc, &diagrams, second, right)?)
    {
        return Err(RowFail::Bad);
    }
    Ok(first.0 == second.0)
}

// `CELLS ; FORMULA = 0`: it is false; with 1, it is true.
fn is_end(alloc: Global, rest: &str) -> Result<bool, RowFail> {
    let mut parts = rest.split(';');
    let mut diagrams = diagrams_in(alloc, half(parts.next())?, MOST_NODES)?;
    let (formula, wanted) = halves(half(parts.next())?)?;
    let id = diagrams.formula_of(alloc, formula)?;
    let end = diagrams.end(wanted == "1");
    Ok(id.0 == end.0)
}

// `MOST ; CELLS ; FORMULA`: it needs more than that many nodes.
fn is_large(alloc: Global, rest: &str) -> Result<bool, RowFail> {
    let mut parts = rest.split(';');
    let most = number(Some(half(parts.next())?))?;
    let mut diagrams = diagrams_in(alloc, half(parts.next())?, most)?;
    match diagrams.formula_of(alloc, half(parts.next())?) {
        Ok(_) => Ok(false),
        Err(BuildFail::TooLarge) => Ok(true),
        Err(fail) => Err(RowFail::from(fail)),
    }
}

/// Rows of formulas.
#[derive(Drop)]
pub(crate) struct DiagramRows;

impl Table for DiagramRows {
    fn is_so(&mut self, alloc: Global, row: &str) -> Result<bool, RowFail> {
        let (kind, rest) = fields(row);
        match kind {
            "table" => has_truths(alloc, rest),
            "same" => are_same(alloc, rest),
            "other" => Ok(!are_same(alloc, rest)?),
            "end" => is_end(alloc, rest),
            "large" => is_large(alloc, rest),
            "small" => Ok(!is_large(alloc, rest)?),
            _ => Err(RowFail::Bad),
        }
    }
}
