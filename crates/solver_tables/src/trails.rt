//! `trail VARIABLES ; STEP ; ..`: steps over a trail. `push CODE LEVEL REASON` makes a literal true, by a clause or, where the
//! reason is `none`, as a decision; `pop = CODE`, or `= none`; `true CODES` and `false CODES`; `level VARIABLE = LEVEL`;
//! `reason VARIABLE = CLAUSE`, or `= none`; `negation CODE = CODE`.
ghost use Rattle.std.specs.Prelude.{◌≡◌};
ghost use Rattle.dense_trail.specs.Dense.{is_true};

use crate::push;
use dense_trail::{Trail, negation};
use row_text::{RowFail, Table, fields, half, halves, number, numbers};
use std::alloc::Global;

// Whether a literal is true; those past the end are not.
pub(crate) fn is_set(truth: &[bool], code: u32) -> bool
    ensures { result ≡ is_true truth.now code }
{
    if (code as usize) < truth.len() {
        truth[code as usize]
    } else {
        false
    }
}

// The number of a word, or none.
fn option_in(word: &str) -> Result<Option<u32>, RowFail> {
    if word == "none" {
        Ok(None)
    } else {
        Ok(Some(number(Some(word))?))
    }
}

fn push_in(trail: &mut Trail, rest: &str) -> Result<bool, RowFail> {
    let mut words = rest.split_ascii_whitespace();
    let code = number(words.next())?;
    let level = number(words.next())?;
    let reason = option_in(half(words.next())?)?;
    push(trail, code, level, reason)?;
    Ok(true)
}

// Whether each of these literals is true, or each is not.
fn are_set(alloc: Global, trail: &Trail, rest: &str, wanted: bool) -> Result<bool, RowFail> {
    for code in &numbers(alloc, rest)? {
        if is_set(&trail.truth, *code) != wanted {
            return Ok(false);
        }
    }
    Ok(true)
}

fn has_level(trail: &Trail, rest: &str) -> Result<bool, RowFail> {
    let (var, wanted) = halves(rest)?;
    let found = trail.levels.get(number(Some(var))? as usize).copied();
    Ok(found == Some(number(Some(wanted))?))
}

fn has_reason(trail: &Trail, rest: &str) -> Result<bool, RowFail> {
    let (var, wanted) = halves(rest)?;
    let found = trail.reasons.get(number(Some(var))? as usize).copied();
    Ok(found == Some(option_in(wanted)?))
}

fn step(alloc: Global, trail: &mut Trail, part: &str) -> Result<bool, RowFail> {
    let (word, rest) = fields(part);
    match word {
        "push" => push_in(trail, rest),
        "pop" => {
            let (_, wanted) = halves(rest)?;
            Ok(trail.pop() == option_in(wanted)?)
        }
        "true" => are_set(alloc, trail, rest, true),
        "false" => are_set(alloc, trail, rest, false),
        "level" => has_level(trail, rest),
        "reason" => has_reason(trail, rest),
        "negation" => {
            let (code, wanted) = halves(rest)?;
            Ok(negation(number(Some(code))?) == number(Some(wanted))?)
        }
        _ => Err(RowFail::Bad),
    }
}

// Tries the row.
fn goes(alloc: Global, rest: &str) -> Result<bool, RowFail> {
    let mut parts = rest.split(';');
    let vars = number(Some(half(parts.next())?))? as usize;
    if vars > 1000 {
        return Err(RowFail::Bad);
    }
    let mut trail = Trail::new(alloc, vars)?;
    for part in parts {
        if !step(alloc, &mut trail, part)? {
            return Ok(false);
        }
    }
    Ok(true)
}

/// Rows of trails.
#[derive(Drop)]
pub(crate) struct TrailRows;

impl Table for TrailRows {
    fn is_so(&mut self, alloc: Global, row: &str) -> Result<bool, RowFail> {
        let (kind, rest) = fields(row);
        match kind {
            "trail" => goes(alloc, rest),
            _ => Err(RowFail::Bad),
        }
    }
}
