//! `journey LAST ; STEP ; ..`: steps over an unwinding of a loop: a cell x is set to 0; at node 1 there is an error where x is
//! not 0; else a second cell is drawn, and the loop goes back to node 1 where it is not 0, and to node LAST where it is. The
//! labels' terms are 2, that x is 0, 3, true, and 4, false. `expand VERTEX`; `refine VERTEX SPARE`, by x = 0 above an error as
//! long as at most so many edges that ask for it are passed; `cover VERTEX VERTEX`; `part VERTEX VERTEX VALUE`, by a store with
//! this x: each answers whether it is legal. Other words ask. Behind `not` the answer is to be no.

use crate::ask;
use loop_journey::Journey;
use row_text::{RowFail, Table, fields, half, number, numbers, wide};
use std::alloc::Global;

// Keeps two vertices apart by a value of x.
fn part_by(alloc: Global, journey: &mut Journey, rest: &str) -> Result<bool, RowFail> {
    let mut words = rest.split_ascii_whitespace();
    let v = number(words.next())?;
    let w = number(words.next())?;
    Ok(journey.part(alloc, v, w, wide(words.next())?)?)
}

// Makes a unit of two numbers.
fn unit_of_two(
    alloc: Global,
    journey: &mut Journey,
    word: &str,
    rest: &str,
) -> Result<bool, RowFail> {
    let found = numbers(alloc, rest)?;
    if found.len() != 2 {
        return Err(RowFail::Bad);
    }
    if word == "cover" {
        Ok(journey.cover(alloc, found[0], found[1])?)
    } else {
        Ok(journey.refine(alloc, found[0], found[1])?)
    }
}

// Makes the step of a word, or answers it.
fn act(alloc: Global, journey: &mut Journey, word: &str, rest: &str) -> Result<bool, RowFail> {
    match word {
        "expand" => Ok(journey.expand(alloc, number(Some(rest))?)?),
        "refine" | "cover" => unit_of_two(alloc, journey, word, rest),
        "part" => part_by(alloc, journey, rest),
        _ => ask(alloc, journey.graph(), journey.unwinding(), word, rest),
    }
}

// Makes a step, whose answer is to be yes, or no behind `not`.
fn step(alloc: Global, journey: &mut Journey, part: &str) -> Result<bool, RowFail> {
    let (word, rest) = fields(part);
    if word == "not" {
        let (word, rest) = fields(rest);
        return Ok(!act(alloc, journey, word, rest)?);
    }
    act(alloc, journey, word, rest)
}

// Tries the row.
fn goes(alloc: Global, rest: &str) -> Result<bool, RowFail> {
    let mut parts = rest.split(';');
    let last = number(Some(half(parts.next())?))?;
    let Some(mut journey) = Journey::new(alloc, last)? else {
        return Err(RowFail::Bad);
    };
    for part in parts {
        if !step(alloc, &mut journey, part)? {
            return Ok(false);
        }
    }
    Ok(true)
}

/// Rows of journeys through the graph of a loop.
#[derive(Drop)]
pub(crate) struct JourneyRows;

impl Table for JourneyRows {
    fn is_so(&mut self, alloc: Global, row: &str) -> Result<bool, RowFail> {
        let (kind, rest) = fields(row);
        match kind {
            "journey" => goes(alloc, rest),
            _ => Err(RowFail::Bad),
        }
    }
}
