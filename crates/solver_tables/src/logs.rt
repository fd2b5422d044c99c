//! `log VERDICT ; CLAUSES ; CHAIN ; ..`: the verdict on a log of chains, each a clause's number and then pairs of a variable
//! and a clause's number: `ok`, `bad` with the number of the first chain that is not valid, or `open` where all are valid and
//! the last one does not end in the empty clause.
//! `codes CLAUSES ; VARIABLES ; VARIABLE ; CODES ; ..`: the variables of the clauses, one that is not among them, and the
//! codes of each clause.
ghost use Rattle.std.specs.Prelude.{◌≤◌, length};
ghost use Rattle.std.specs.List.Sorted.{IsStrictlyIncreasing};

use resolution_log::{Chain, Log, LogFail, Pairs, check_log, coded, number_of, variables};
use row_text::{RowFail, Table, clauses_in, fields, half, number, numbers};
use std::alloc::Global;

// The chain of a part of a row.
fn chain_in(alloc: Global, part: &str) -> Result<Chain, RowFail> {
    let found = numbers(alloc, part)?;
    if found.len() % 2 != 1 {
        return Err(RowFail::Bad);
    }
    let mut pairs = Pairs::new(alloc);
    for i in 0..found.len() / 2 {
        pairs.push(found[2 * i + 1], found[2 * i + 2])?;
    }
    Ok(Chain {
        first: found[0],
        pairs,
    })
}

// Whether a check says this.
fn is_verdict(found: &Result<(), LogFail>, verdict: &str) -> Result<bool, RowFail> {
    let (word, rest) = fields(verdict);
    match (word, found) {
        ("ok", _) => Ok(found.is_ok()),
        ("open", _) => Ok(matches!(found, Err(LogFail::NoEmpty))),
        ("bad", Err(LogFail::BadStep(n))) => Ok(*n == number(Some(rest))?),
        ("bad", _) => Ok(false),
        _ => Err(RowFail::Bad),
    }
}

// Tries the row of a log.
fn has_verdict(alloc: Global, rest: &str) -> Result<bool, RowFail> {
    let mut parts = rest.split(';');
    let verdict = half(parts.next())?;
    let clauses = clauses_in(alloc, half(parts.next())?)?;
    let mut log = Log::from_chains(Vec::new(alloc));
    for part in parts {
        log.push(chain_in(alloc, part)?)?;
    }
    is_verdict(&check_log(alloc, &clauses, &log), verdict)
}

// Whether each variable has its place as its number.
fn are_numbered(vars: &[u32]) -> bool
    requires rising { IsStrictlyIncreasing vars.now }
    requires few { length vars.now ≤ 67108864 }
{
    let mut place = 0u32;
    for var in vars {
        if number_of(vars, *var) != Some(place) {
            return false;
        }
        place = place.saturating_add(1);
    }
    true
}

// Tries the row of codes.
fn has_codes(alloc: Global, rest: &str) -> Result<bool, RowFail> {
    let mut parts = rest.split(';');
    let clauses = clauses_in(alloc, half(parts.next())?)?;
    let wanted = numbers(alloc, half(parts.next())?)?;
    let absent = number(Some(half(parts.next())?))?;
    let vars = variables(alloc, &clauses)?;
    if vars.as_slice() != wanted.as_slice()
        || !are_numbered(&vars)
        || number_of(&vars, absent).is_some()
    {
        return Ok(false);
    }
    let rows = coded(alloc, &vars, &clauses)?;
    let mut count = 0usize;
    for part in parts {
        let codes = numbers(alloc, part)?;
        if count >= rows.len() || rows.row(count) != codes.as_slice() {
            return Ok(false);
        }
        count += 1;
    }
    Ok(count == rows.len() && rows.is_empty() == (count == 0))
}

/// Rows of logs, and of the codes of clauses.
#[derive(Drop)]
pub(crate) struct LogRows;

impl Table for LogRows {
    fn is_so(&mut self, alloc: Global, row: &str) -> Result<bool, RowFail> {
        let (kind, rest) = fields(row);
        match kind {
            "log" => has_verdict(alloc, rest),
            "codes" => has_codes(alloc, rest),
            _ => Err(RowFail::Bad),
        }
    }
}
