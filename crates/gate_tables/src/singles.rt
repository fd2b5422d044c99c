//! `single KIND ; LITERALS = TRUTHS ; ..`: a gate over single literals of the variables 1 to 3, and whether it holds, 0 or 1,
//! at each of their eight values, that of variable 1 going round first.

use crate::{settle, value_of};
use bit_gates::{and_gate, select_gate, xor_gate};
use prop::{Clauses, Lit};
use row_text::{RowFail, Table, fields, halves, lits_in};
use std::alloc::Global;

// The gate over two literals, which a selecting one has a third before.
fn gate_of(alloc: Global, kind: &str, clauses: &mut Clauses, lits: &[Lit]) -> Result<Lit, RowFail> {
    if lits.len() < 2 || lits[0].var > 3 || lits[1].var > 3 {
        return Err(RowFail::Bad);
    }
    let mut next = 4;
    match kind {
        "and" => Ok(and_gate(alloc, clauses, &mut next, lits[0], lits[1])?),
        "xor" => Ok(xor_gate(alloc, clauses, &mut next, lits[0], lits[1])?),
        "select" if lits.len() == 3 && lits[2].var <= 3 => {
            Ok(select_gate(alloc, clauses, &mut next, lits[0], lits[1], lits[2])?)
        }
        _ => Err(RowFail::Bad),
    }
}

// Values of the variables 0 to 3, of which 0 is false.
fn inputs_at(alloc: Global, number: u32) -> Result<Vec<bool>, RowFail> {
    let mut values = Vec::new(alloc);
    values.push(false)?;
    let mut rest = number;
    for _ in 0..3 {
        values.push(rest % 2 == 1)?;
        rest /= 2;
    }
    Ok(values)
}

// Whether the literal has these truths.
fn has_all(alloc: Global, clauses: &Clauses, out: Lit, truths: &str) -> Result<bool, RowFail> {
    let mut number = 0u32;
    for truth in truths.as_bytes() {
        let mut values = inputs_at(alloc, number)?;
        if !settle(clauses, &mut values)? || value_of(&values, out) != (*truth == b'1') {
            return Ok(false);
        }
        number = number.saturating_add(1);
    }
    Ok(number == 8)
}

// Tries the row.
fn has_truths(alloc: Global, rest: &str) -> Result<bool, RowFail> {
    let Some((kind, cases)) = rest.split_once(';') else {
        return Err(RowFail::Bad);
    };
    for case in cases.split(';') {
        let (words, truths) = halves(case)?;
        let lits = lits_in(alloc, words)?;
        let mut clauses = Clauses::new(alloc);
        let out = gate_of(alloc, kind.trim(), &mut clauses, &lits)?;
        if !has_all(alloc, &clauses, out, truths)? {
            return Ok(false);
        }
    }
    Ok(true)
}

/// Rows of gates over single literals.
#[derive(Drop)]
pub(crate) struct SingleRows;

impl Table for SingleRows {
    fn is_so(&mut self, alloc: Global, row: &str) -> Result<bool, RowFail> {
        let (kind, rest) = fields(row);
        match kind {
            "single" => has_truths(alloc, rest),
            _ => Err(RowFail::Bad),
        }
    }
}
