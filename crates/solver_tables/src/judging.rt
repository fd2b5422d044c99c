//! `judge CLAUSE ; TRUES ; FALSE = FINDING`: what a clause asks for where some literals are true and one became false. Clause 0
//! has the literals 0, 2 and 4, of which it watches 0 and 2; clause 1 has the literals 1 and 4. The finding is `elsewhere`,
//! `met`, `open` with two literals, `lone` with one, or `clash`.
//! `lists LITERAL CLAUSE .. ; LITERAL = CLAUSES ; ..`: clauses are put into the lists of four literals, and taken out; what
//! was taken once is put back, and then taken again.
ghost use Rattle.std.specs.Prelude.{◌≡◌, length, IfOk};

use crate::push;
use crate::trails::is_set;
use dense_trail::{Trail, negation};
use resolution_log::Rows;
use row_text::{RowFail, Table, fields, half, halves, number, numbers};
use std::alloc::Global;
use watched_clauses::{Finding, Watch, WatchLists, judge};

// Whether a finding is the one of a text.
fn is_finding(alloc: Global, found: Finding, text: &str) -> Result<bool, RowFail> {
    let (word, rest) = fields(text);
    let codes = numbers(alloc, rest)?;
    Ok(match found {
        Finding::Elsewhere => word == "elsewhere",
        Finding::Met => word == "met",
        Finding::Open(p, q) => word == "open" && codes.as_slice() == [p, q].as_slice(),
        Finding::Lone(p) => word == "lone" && codes.as_slice() == [p].as_slice(),
        Finding::Clash => word == "clash",
    })
}

// A trail of three variables, in which these literals are true.
fn trail_of(alloc: Global, trues: &[u32]) -> Result<Trail, RowFail> {
    let mut trail = Trail::new(alloc, 3)?;
    for code in trues {
        push(&mut trail, *code, 0, None)?;
    }
    Ok(trail)
}

// What one of the two clauses asks for.
fn found_at(alloc: Global, trues: &[u32], falsified: u32, number: u32) -> Result<Finding, RowFail> {
    let trail = trail_of(alloc, trues)?;
    let mut clauses = Rows::new(alloc);
    clauses.push(&[0, 2, 4])?;
    clauses.push(&[1, 4])?;
    let watches = [
        Watch {
            first: 0,
            second: 2,
            pair: false,
        },
        Watch {
            first: 1,
            second: 4,
            pair: true,
        },
    ];
    if number >= 2 || trail.truth.len() != 6 || !is_set(&trail.truth, negation(falsified)) {
        return Err(RowFail::Bad);
    }
    Ok(judge(&clauses, &watches, &trail, falsified, number))
}

// Tries the row of what a clause asks for.
fn finds(alloc: Global, rest: &str) -> Result<bool, RowFail> {
    let (inputs, wanted) = halves(rest)?;
    let mut parts = inputs.split(';');
    let clause = number(Some(half(parts.next())?))?;
    let trues = numbers(alloc, half(parts.next())?)?;
    let falsified = number(Some(half(parts.next())?))?;
    let found = found_at(alloc, &trues, falsified, clause)?;
    is_finding(alloc, found, wanted)
}

// Lists by four literals, into which each second number is put at the one before it.
fn lists_of(alloc: Global, puts: &[u32]) -> Result<WatchLists, RowFail>
    ensures { IfOk result (λ l. length l ≡ 4) }
{
    let mut lists = WatchLists::new(alloc, 4)?;
    for i in 0..puts.len() / 2 {
        let code = puts[2 * i];
        if code >= 4 {
            return Err(RowFail::Bad);
        }
        lists.push(code, puts[2 * i + 1])?;
    }
    Ok(lists)
}

// Whether a literal has these clauses, which are taken out and put back.
fn is_list(lists: &mut WatchLists, code: u32, wanted: &[u32]) -> bool
    requires { length lists.old ≡ 4 }
    ensures { length lists.new ≡ 4 }
{
    if code >= 4 {
        return false;
    }
    let taken = lists.take(code);
    let left = lists.take(code);
    let is_taken = taken.as_slice() == wanted && left.is_empty();
    lists.put(code, taken);
    is_taken
}

// Tries the row of lists.
fn has_lists(alloc: Global, rest: &str) -> Result<bool, RowFail> {
    let Some((puts, cases)) = rest.split_once(';') else {
        return Err(RowFail::Bad);
    };
    let mut lists = lists_of(alloc, &numbers(alloc, puts)?)?;
    for case in cases.split(';') {
        let (code, wanted) = halves(case)?;
        let code = number(Some(code))?;
        if !is_list(&mut lists, code, &numbers(alloc, wanted)?) {
            return Ok(false);
        }
    }
    Ok(true)
}

/// Rows of watched clauses, and of lists of them.
#[derive(Drop)]
pub(crate) struct WatchRows;

impl Table for WatchRows {
    fn is_so(&mut self, alloc: Global, row: &str) -> Result<bool, RowFail> {
        let (kind, rest) = fields(row);
        match kind {
            "judge" => finds(alloc, rest),
            "lists" => has_lists(alloc, rest),
            _ => Err(RowFail::Bad),
        }
    }
}
