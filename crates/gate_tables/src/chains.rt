//! What terms cost that are blasted again.
//! `again WIDTHS ; TERM ; TIMES`: blasted so many times, the term adds its literals once.
//! `chain WIDTHS ; TERM ; ROUNDS ; STEP ; .. = LITERALS`: in each round each step makes a term of the last one, `it`; the
//! clauses of the last have so many literals more than those of the first.
//! `renew WIDTHS ; TERM = NEXT LITERALS`: the variable that is next once the term was blasted, and how many literals there
//! are; what is held begins anew then.
ghost use Rattle.bit_blast.specs.Held.{IsOver};

use crate::values::begin;
use crate::{table_in, term_in};
use bit_blast::blast_all;
use bv_term::{TermId, Terms};
use prop::Clauses;
use row_text::{RowFail, Table, fields, half, halves, number};
use std::alloc::Global;

// How many literals there are after a term was blasted so often.
fn literals_after(alloc: Global, terms: &Terms, id: TermId, times: u32) -> Result<u64, RowFail> {
    if id.0 >= terms.count() {
        return Err(RowFail::Bad);
    }
    let mut clauses = Clauses::new(alloc);
    let mut bits = begin(alloc, terms, &mut clauses)?;
    for _i in 0..times {
        blast_all(alloc, terms, id, &mut clauses, &mut bits)?;
    }
    Ok(clauses.literals())
}

// Tries the row of a term that is blasted again.
fn costs_once(alloc: Global, rest: &str) -> Result<bool, RowFail> {
    let mut parts = rest.split(';');
    let mut terms = table_in(alloc, parts.next())?;
    let id = term_in(alloc, &mut terms, TermId(0), parts.next())?;
    let times = number(Some(half(parts.next())?))?;
    let once = literals_after(alloc, &terms, id, 1)?;
    Ok(once > 0 && literals_after(alloc, &terms, id, times)? == once)
}

// The last term of a round.
fn round(alloc: Global, terms: &mut Terms, it: TermId, steps: &str) -> Result<TermId, RowFail> {
    let mut last = it;
    for step in steps.split(',') {
        last = term_in(alloc, terms, last, Some(step))?;
    }
    Ok(last)
}

// Tries the row of a chain.
fn costs(alloc: Global, rest: &str) -> Result<bool, RowFail> {
    let mut parts = rest.split(';');
    let mut terms = table_in(alloc, parts.next())?;
    let first = term_in(alloc, &mut terms, TermId(0), parts.next())?;
    let rounds = number(Some(half(parts.next())?))?;
    let (steps, literals) = halves(half(parts.next())?)?;
    let before = literals_after(alloc, &terms, first, 1)?;
    let mut last = first;
    for _ in 0..rounds {
        last = round(alloc, &mut terms, last, steps)?;
    }
    let after = literals_after(alloc, &terms, last, 1)?;
    Ok(after.checked_sub(before) == Some(u64::from(number(Some(literals))?)))
}

// Tries the row of a beginning anew.
fn renews(alloc: Global, rest: &str) -> Result<bool, RowFail> {
    let (parts, wanted) = halves(rest)?;
    let mut parts = parts.split(';');
    let mut terms = table_in(alloc, parts.next())?;
    let id = term_in(alloc, &mut terms, TermId(0), parts.next())?;
    if id.0 >= terms.count() {
        return Err(RowFail::Bad);
    }
    let mut clauses = Clauses::new(alloc);
    let mut bits = begin(alloc, &terms, &mut clauses)?;
    blast_all(alloc, &terms, id, &mut clauses, &mut bits)?;
    let was_held = bits.is_done(id) && bits.constant().is_some();
    let (next, literals) = (bits.next(), clauses.literals());
    bits.renew(&mut clauses)?;
    let is_held = bits.is_done(id) || bits.constant().is_some();
    Ok(was_held && !is_held && is_pair(wanted, next, literals)? && clauses.literals() == literals)
}

// Whether a text has these two numbers.
fn is_pair(text: &str, first: u32, second: u64) -> Result<bool, RowFail> {
    let mut words = text.split_ascii_whitespace();
    let left = number(words.next())?;
    let right = number(words.next())?;
    Ok(left == first && u64::from(right) == second && words.next().is_none())
}

/// Rows of terms that are blasted again.
#[derive(Drop)]
pub(crate) struct ChainRows;

impl Table for ChainRows {
    fn is_so(&mut self, alloc: Global, row: &str) -> Result<bool, RowFail> {
        let (kind, rest) = fields(row);
        match kind {
            "again" => costs_once(alloc, rest),
            "chain" => costs(alloc, rest),
            "renew" => renews(alloc, rest),
            _ => Err(RowFail::Bad),
        }
    }
}
