//! `notes STEP ; ..`: steps over the notes of a conflict at level 2, where the variables 0 to 3 are false at the levels 1, 2,
//! 2 and 0. `note BUT CODES`: the literals of a clause join, but one; those of level 2 are counted, and others are listed, each
//! once. `clear`; `learnt CODES`: what is listed; `here COUNT`: how many were counted.
ghost use Rattle.std.specs.Prelude.{IsTrue};
ghost use Rattle.resolution_log.specs.Codes.{AllBelow};

use crate::push;
use conflict_analysis::Notes;
use dense_trail::Trail;
use row_text::{RowFail, Table, fields, number, numbers};
use std::alloc::Global;

// The trail.
fn trail_of_four(alloc: Global) -> Result<Trail, RowFail> {
    let mut trail = Trail::new(alloc, 4)?;
    push(&mut trail, 1, 1, None)?;
    push(&mut trail, 3, 2, None)?;
    push(&mut trail, 5, 2, None)?;
    push(&mut trail, 7, 0, None)?;
    Ok(trail)
}

// Whether each code is below a bound.
fn are_below(bound: u32, codes: &[u32]) -> bool
    ensures { IsTrue result → AllBelow bound codes.now }
{
    match codes.split_first() {
        None => true,
        Some((first, rest)) => *first < bound && are_below(bound, rest),
    }
}

fn note(alloc: Global, trail: &Trail, notes: &mut Notes, rest: &str) -> Result<bool, RowFail> {
    let (but, codes) = fields(rest);
    let but = number(Some(but))?;
    let row = numbers(alloc, codes)?;
    if trail.levels.len() != 4 || notes.stamps.len() != 4 || notes.here > 1000 {
        return Err(RowFail::Bad);
    }
    if !are_below(8, &row) {
        return Err(RowFail::Bad);
    }
    notes.note(trail, 2, &row, but)?;
    Ok(true)
}

fn step(alloc: Global, trail: &Trail, notes: &mut Notes, part: &str) -> Result<bool, RowFail> {
    let (word, rest) = fields(part);
    match word {
        "note" => note(alloc, trail, notes, rest),
        "clear" => {
            notes.clear()?;
            Ok(true)
        }
        "learnt" => Ok(notes.learnt.as_slice() == numbers(alloc, rest)?.as_slice()),
        "here" => Ok(notes.here == number(Some(rest))? as usize),
        _ => Err(RowFail::Bad),
    }
}

// Tries the row.
fn goes(alloc: Global, rest: &str) -> Result<bool, RowFail> {
    let trail = trail_of_four(alloc)?;
    let mut notes = Notes::new(alloc, 4)?;
    notes.clear()?;
    for part in rest.split(';') {
        if !step(alloc, &trail, &mut notes, part)? {
            return Ok(false);
        }
    }
    Ok(true)
}

/// Rows of the notes of a conflict.
#[derive(Drop)]
pub(crate) struct NoteRows;

impl Table for NoteRows {
    fn is_so(&mut self, alloc: Global, row: &str) -> Result<bool, RowFail> {
        let (kind, rest) = fields(row);
        match kind {
            "notes" => goes(alloc, rest),
            _ => Err(RowFail::Bad),
        }
    }
}
