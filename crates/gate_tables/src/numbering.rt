//! `numbers WIDTHS ; TERM = NUMBER WIDTH ; ..`: terms that are put one after another, with their numbers and widths; the
//! last of them is then appended once more, to a copy of the table.
//! `unfit WIDTHS ; TERM ; .. ; TERM`: the last term is not well formed over the others.

use crate::{table_in, term_in};
use bv_term::{TermId, Terms};
use row_text::{RowFail, Table, fields, halves, numbers, one_term};
use std::alloc::Global;

// Whether the term has this number and width.
fn has_number(alloc: Global, terms: &mut Terms, part: &str) -> Result<bool, RowFail> {
    let (text, wanted) = halves(part)?;
    let id = term_in(alloc, terms, TermId(0), Some(text))?;
    if id.0 >= terms.count() {
        return Err(RowFail::Bad);
    }
    let wanted = numbers(alloc, wanted)?;
    Ok(wanted.len() == 2 && wanted[0] == id.0 && wanted[1] == terms.width_of(id))
}

// Whether a copy has the same terms, and the last one gets a new number where it is appended once more.
fn is_appended(terms: &Terms) -> Result<bool, RowFail> {
    let mut copy = terms.copy()?;
    let count = copy.count();
    if count == 0 || count != terms.count() {
        return Ok(false);
    }
    let last = TermId(count - 1);
    let term = copy.get(last);
    if term != terms.get(last) || copy.width_of(last) != terms.width_of(last) {
        return Ok(false);
    }
    if !copy.fits(term) {
        return Ok(false);
    }
    let next = copy.append(term)?;
    Ok(next.0 == count && copy.cells() == terms.cells())
}

// Tries the row of numbers.
fn has_numbers(alloc: Global, rest: &str) -> Result<bool, RowFail> {
    let mut parts = rest.split(';');
    let mut terms = table_in(alloc, parts.next())?;
    for part in parts {
        if !has_number(alloc, &mut terms, part)? {
            return Ok(false);
        }
    }
    is_appended(&terms)
}

// Tries the row of a term that is not well formed.
fn is_unfit(alloc: Global, rest: &str) -> Result<bool, RowFail> {
    let mut parts = rest.split(';');
    let mut terms = table_in(alloc, parts.next())?;
    let mut is_last = false;
    for part in parts {
        if is_last {
            return Ok(false);
        }
        is_last = one_term(alloc, &mut terms, TermId(0), part)?.is_none();
    }
    Ok(is_last)
}

/// Rows of the numbers of terms.
#[derive(Drop)]
pub(crate) struct NumberRows;

impl Table for NumberRows {
    fn is_so(&mut self, alloc: Global, row: &str) -> Result<bool, RowFail> {
        let (kind, rest) = fields(row);
        match kind {
            "numbers" => has_numbers(alloc, rest),
            "unfit" => is_unfit(alloc, rest),
            _ => Err(RowFail::Bad),
        }
    }
}
