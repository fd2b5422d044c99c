//! Tables of terms, gates, words of literals and clauses: each row states a value, a count or a refusal. The first word of a row says
//! what it states; the tables say how it is read.
#![tactic(auto)]

mod cells;
mod chains;
mod clauses;
mod folding;
mod gates;
mod numbering;
mod singles;
mod values;

use crate::cells::CellRows;
use crate::chains::ChainRows;
use crate::clauses::ClauseRows;
use crate::folding::WordRows;
use crate::gates::GateRows;
use crate::numbering::NumberRows;
use crate::singles::SingleRows;
use crate::values::ValueRows;
use bv_term::{TermId, Terms, are_widths};
use prop::{Assignment, Clauses, Lit};
use row_text::{Library, Refusal, RowFail, Rows, Stated, Table, fields, half, numbers, one_term};
use std::alloc::Global;
use std::rt::Files;

// A table of terms over cells of these widths.
fn table_in(alloc: Global, part: Option<&str>) -> Result<Terms, RowFail> {
    let widths = numbers(alloc, half(part)?)?;
    if are_widths(&widths) {
        Ok(Terms::new(alloc, widths))
    } else {
        Err(RowFail::Bad)
    }
}

// The number of a term that has to be there; `it` stands for a given one.
fn term_in(
    alloc: Global,
    terms: &mut Terms,
    it: TermId,
    part: Option<&str>,
) -> Result<TermId, RowFail> {
    match one_term(alloc, terms, it, half(part)?)? {
        Some(id) => Ok(id),
        None => Err(RowFail::Bad),
    }
}

// Whether a literal is true; variables past the end are false.
fn value_of(values: &[bool], l: Lit) -> bool {
    values.get(l.var as usize).copied().unwrap_or(false) == l.positive
}

// What a clause says of the first variable that has no value.
enum Demand {
    // A literal is true already.
    Nothing,
    // All literals but this one, which has no value, are false.
    One(Lit),
    // All literals are false.
    Contradiction,
}

fn demand_of(values: &[bool], clause: &[Lit]) -> Demand {
    let mut open = None;
    for l in clause {
        if l.var as usize >= values.len() {
            open = Some(*l);
        } else if value_of(values, *l) {
            return Demand::Nothing;
        }
    }
    match open {
        Some(l) => Demand::One(l),
        None => Demand::Contradiction,
    }
}

// Gives each variable from `values.len()` on the value that a clause over it and earlier variables forces: the clauses of
// definitions come in the order of the variables that they define. It answers whether no clause stands against the values,
// and each was about the next variable.
fn settle(clauses: &Clauses, values: &mut Vec<bool>) -> Result<bool, RowFail> {
    for number in 0..clauses.len() {
        match demand_of(values, clauses.clause(number)) {
            Demand::Nothing => {}
            Demand::Contradiction => return Ok(false),
            Demand::One(l) => {
                if l.var as usize != values.len() {
                    return Ok(false);
                }
                values.push(l.positive)?;
            }
        }
    }
    Ok(true)
}

// Whether the values meet all clauses.
fn are_met(alloc: Global, clauses: &Clauses, values: &[bool]) -> Result<bool, RowFail> {
    let mut trues = Vec::new(alloc);
    let mut var = 0u32;
    for value in values {
        if *value {
            trues.push(var)?;
        }
        var = var.saturating_add(1);
    }
    Ok(Assignment::from_trues(trues).satisfies(clauses))
}

// The number whose bits, lowest first, are these literals.
fn number_of(values: &[bool], lits: &[Lit]) -> u128 {
    let mut sum = 0u128;
    let mut weight = 1u128;
    for l in lits {
        if value_of(values, *l) {
            sum |= weight;
        }
        weight = weight.wrapping_mul(2);
    }
    sum
}

// Appends so many bits of a number, lowest first.
fn push_bits(values: &mut Vec<bool>, width: u32, value: u128) -> Result<(), RowFail> {
    let mut rest = value;
    for _ in 0..width {
        values.push(rest % 2 == 1)?;
        rest /= 2;
    }
    Ok(())
}

// All kinds of rows.
#[derive(Drop)]
struct AllRows;

impl Table for AllRows {
    fn is_so(&mut self, alloc: Global, row: &str) -> Result<bool, RowFail> {
        match fields(row).0 {
            "value" => ValueRows.is_so(alloc, row),
            "unfit" | "numbers" => NumberRows.is_so(alloc, row),
            "again" | "chain" | "renew" => ChainRows.is_so(alloc, row),
            "store" | "rebind" => CellRows.is_so(alloc, row),
            "gate" | "size" => GateRows.is_so(alloc, row),
            "single" => SingleRows.is_so(alloc, row),
            "fold" | "numeral" | "copies" | "spelled" => WordRows.is_so(alloc, row),
            _ => ClauseRows.is_so(alloc, row),
        }
    }
}

/// Tables of terms, gates, words of literals and clauses.
#[derive(Clone, Copy)]
pub struct GateTables;

impl Library for GateTables {
    fn try_rows<R>(&mut self, rt: &R, name: &str) -> Result<u64, Refusal>
    where
        R: AllocGlobal + Files + Print + Clone + Drop,
    {
        let table = AllRows;
        Rows {
            table: Stated { table },
        }
        .try_rows(rt, name)
    }
}
