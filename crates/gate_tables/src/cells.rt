//! What two cells of eight bits hold.
//! `store FIRST SECOND ; INDEX VALUE ; INDEX VALUE ; FIRST SECOND`: before and after a value was stored at an index that is
//! not known, and another one, where there is one, at 1 as an index that is known, which adds no literal.
//! `rebind FIRST SECOND ; TERM ; TIMES ; FIRST SECOND`: before and after the first cell took the literals of the term so
//! many times.
ghost use Rattle.std.specs.Prelude.{◌≡◌, ◌<◌, length, All, IfOk};
ghost use Rattle.bv_term.specs.WellFormed.{IsWidth};
ghost use Rattle.bit_blast.specs.Held.{IsOver};

use crate::values::begin;
use crate::{number_of, push_bits, settle, term_in};
use bit_blast::{Bits, blast_all};
use bv_term::{TermId, Terms, are_widths};
use prop::{Clauses, Lit};
use row_text::{RowFail, Table, fields, half, number, wides};
use std::alloc::Global;

// Two numbers.
fn two_in(alloc: Global, part: Option<&str>) -> Result<(u128, u128), RowFail> {
    let found = wides(alloc, half(part)?)?;
    if found.len() == 2 {
        Ok((found[0], found[1]))
    } else {
        Err(RowFail::Bad)
    }
}

// The widths of two cells of eight bits.
fn two_bytes(alloc: Global) -> Result<Vec<u32>, RowFail>
    ensures { IfOk result (λ v. All IsWidth v.items) }
{
    let mut widths = Vec::new(alloc);
    widths.push(8)?;
    widths.push(8)?;
    if are_widths(&widths) {
        Ok(widths)
    } else {
        Err(RowFail::Bad)
    }
}

// Stores at an index among two cells of eight bits.
fn store_in_two(
    alloc: Global,
    clauses: &mut Clauses,
    bits: &mut Bits,
    index: &[Lit],
    value: &[Lit],
) -> Result<(), RowFail> {
    if index.len() > 128 || value.len() != 8 {
        return Err(RowFail::Bad);
    }
    if bits.cell(0).len() != 8 {
        return Err(RowFail::Bad);
    }
    if bits.cell(1).len() != 8 {
        return Err(RowFail::Bad);
    }
    bits.store_at(alloc, clauses, 0, 2, index, value)?;
    Ok(())
}

// The index 1, by the constant literal.
fn known_one(alloc: Global, bits: &Bits) -> Result<Vec<Lit>, RowFail> {
    let Some(one) = bits.constant() else {
        return Err(RowFail::Bad);
    };
    let mut index = Vec::new(alloc);
    index.push(one)?;
    for _ in 0..7 {
        index.push(one.negate())?;
    }
    Ok(index)
}

// Whether the cells hold these numbers, where the inputs have these values.
fn hold(
    clauses: &Clauses,
    bits: &Bits,
    inputs: &mut Vec<bool>,
    wanted: (u128, u128),
) -> Result<bool, RowFail> {
    Ok(
        settle(clauses, inputs)?
            && number_of(inputs, bits.cell(0)) == wanted.0
            && number_of(inputs, bits.cell(1)) == wanted.1,
    )
}

// The bits of words of eight bits.
fn inputs_of(alloc: Global, words: &[(u128, u128)]) -> Result<Vec<bool>, RowFail> {
    let mut inputs = Vec::new(alloc);
    for (first, second) in words {
        push_bits(&mut inputs, 8, *first)?;
        push_bits(&mut inputs, 8, *second)?;
    }
    Ok(inputs)
}

// Tries the row of a value that is stored.
fn stores(alloc: Global, rest: &str) -> Result<bool, RowFail> {
    let mut parts = rest.split(';');
    let before = two_in(alloc, parts.next())?;
    let open = two_in(alloc, parts.next())?;
    let known = two_in(alloc, parts.next())?;
    let after = two_in(alloc, parts.next())?;
    let mut clauses = Clauses::new(alloc);
    let mut bits = Bits::new(alloc, &mut clauses, &[8, 8])?;
    let index = bits.fresh(alloc, 8)?;
    let value = bits.fresh(alloc, 8)?;
    let _unused = bits.fresh(alloc, 8)?;
    let other = bits.fresh(alloc, 8)?;
    store_in_two(alloc, &mut clauses, &mut bits, &index, &value)?;
    let literals = clauses.literals();
    if known.0 == 1 {
        let one = known_one(alloc, &bits)?;
        store_in_two(alloc, &mut clauses, &mut bits, &one, &other)?;
    }
    let mut inputs = inputs_of(alloc, &[before, open, known])?;
    Ok(clauses.literals() == literals && hold(&clauses, &bits, &mut inputs, after)?)
}

// Gives the first cell, of eight bits, the literals of a term of eight bits.
fn rebind_first(
    alloc: Global,
    terms: &Terms,
    id: TermId,
    clauses: &mut Clauses,
    bits: &mut Bits,
) -> Result<(), RowFail>
    requires there { id.0 < length terms.now.terms }
    requires over { IsOver terms.now bits.old }
    ensures over { IfOk result (λ _. IsOver terms.now bits.new) }
{
    let lits = blast_all(alloc, terms, id, clauses, bits)?;
    if lits.len() != 8 || bits.cell(0).len() != 8 {
        return Err(RowFail::Bad);
    }
    bits.rebind(clauses, 0, lits)?;
    Ok(())
}

// Whether the first cell takes the term's literals so many times, each time from what the cells hold then, and by one
// constant literal.
fn takes(
    alloc: Global,
    terms: &Terms,
    id: TermId,
    times: u32,
    clauses: &mut Clauses,
    inputs: &mut Vec<bool>,
    wanted: (u128, u128),
) -> Result<bool, RowFail> {
    if id.0 >= terms.count() {
        return Err(RowFail::Bad);
    }
    let mut bits = begin(alloc, terms, clauses)?;
    let mut constant = None;
    for _i in 0..times {
        rebind_first(alloc, terms, id, clauses, &mut bits)?;
        if bits.is_done(id) || (constant.is_some() && bits.constant() != constant) {
            return Ok(false);
        }
        constant = bits.constant();
    }
    hold(clauses, &bits, inputs, wanted)
}

// Tries the row of a cell that takes other literals.
fn rebinds(alloc: Global, rest: &str) -> Result<bool, RowFail> {
    let mut parts = rest.split(';');
    let before = two_in(alloc, parts.next())?;
    let mut terms = Terms::new(alloc, two_bytes(alloc)?);
    let id = term_in(alloc, &mut terms, TermId(0), parts.next())?;
    let times = number(Some(half(parts.next())?))?;
    let after = two_in(alloc, parts.next())?;
    let mut clauses = Clauses::new(alloc);
    let mut inputs = inputs_of(alloc, &[before])?;
    takes(alloc, &terms, id, times, &mut clauses, &mut inputs, after)
}

/// Rows of cells that are stored into, or that take other literals.
#[derive(Drop)]
pub(crate) struct CellRows;

impl Table for CellRows {
    fn is_so(&mut self, alloc: Global, row: &str) -> Result<bool, RowFail> {
        let (kind, rest) = fields(row);
        match kind {
            "store" => stores(alloc, rest),
            "rebind" => rebinds(alloc, rest),
            _ => Err(RowFail::Bad),
        }
    }
}
