//! Whole texts of witnesses.

ghost use Rattle.std.specs.Prelude.{IfOk};
ghost use Rattle.moment_text.specs.Moments.{IsMoment};

use crate::other_text;
use hex::FromHex;
use lv_base::{Place, Text};
use moment_text::moment_text;
use std::alloc::Global;
use table_rows::{Fields, Flaw, Table, other_than, text_of};
use witness_yaml::{Invariant, Metadata, correctness, violation};

const LAST: i128 = 253_370_764_799;

fn moment(columns: &mut Fields<'_>) -> Result<i64, Flaw>
    ensures { IfOk result IsMoment }
{
    let number = columns.number()?;
    if number < 0 || number > LAST {
        return Err(Flaw::Form);
    }
    Ok(number as i64)
}

// What came of a moment's text, where it is another.
fn time_other(alloc: Global, mut columns: Fields<'_>) -> Result<Option<String>, Flaw> {
    let moment = moment(&mut columns)?;
    let wanted = columns.next()?;
    columns.end()?;
    Ok(other_than(wanted, moment_text(alloc, moment)?))
}

fn metadata(alloc: Global, columns: &mut Fields<'_>) -> Result<Metadata, Flaw>
    ensures { IfOk result (λ m. IsMoment m.moment) }
{
    let name = Text::new(text_of(alloc, columns.next()?)?);
    let Ok(hash) = <[u8; 32] as FromHex>::from_hex(columns.next()?) else {
        return Err(Flaw::Form);
    };
    let model = columns.model()?;
    let moment = moment(columns)?;
    let Ok(random) = <[u8; 16] as FromHex>::from_hex(columns.next()?) else {
        return Err(Flaw::Form);
    };
    Ok(Metadata {
        name,
        hash,
        model,
        moment,
        random,
    })
}

fn place_of(line: &str, column: &str) -> Result<Place, Flaw> {
    match (line.parse::<u32>(), column.parse::<u32>()) {
        (Ok(line), Ok(column)) => Ok(Place { line, column }),
        _ => Err(Flaw::Form),
    }
}

// What came of the witness of a violation, where it is another.
fn violation_other(alloc: Global, mut columns: Fields<'_>) -> Result<Option<String>, Flaw> {
    let metadata = metadata(alloc, &mut columns)?;
    let line = columns.next()?;
    let place = place_of(line, columns.next()?)?;
    let function = columns.next()?;
    let came = violation(alloc, &metadata, place, function.as_bytes())?;
    other_text(alloc, &mut columns, &came)
}

fn invariant_of(alloc: Global, written: &str) -> Result<Invariant, Flaw> {
    let mut parts = Fields::parts(written, ",");
    let line = parts.next()?;
    let place = place_of(line, parts.next()?)?;
    let expression = Text::copy_of(alloc, parts.next()?.as_bytes())?;
    parts.end()?;
    Ok(Invariant { place, expression })
}

fn invariants_of(alloc: Global, written: &str) -> Result<Vec<Invariant>, Flaw> {
    let mut invariants = Vec::new(alloc);
    if written.is_empty() {
        return Ok(invariants);
    }
    for part in written.split(";") {
        invariants.push(invariant_of(alloc, part)?)?;
    }
    Ok(invariants)
}

// What came of the witness of correctness, where it is another.
fn correctness_other(alloc: Global, mut columns: Fields<'_>) -> Result<Option<String>, Flaw> {
    let metadata = metadata(alloc, &mut columns)?;
    let invariants = invariants_of(alloc, columns.next()?)?;
    let came = correctness(alloc, &metadata, &invariants)?;
    other_text(alloc, &mut columns, &came)
}

/// Rows of moments and of whole witnesses.
#[derive(Clone, Copy)]
pub(crate) struct TextRows;

impl Table for TextRows {
    fn other(&mut self, alloc: Global, row: &str) -> Result<Option<String>, Flaw> {
        let mut columns = Fields::columns(row);
        match columns.next()? {
            "time" => time_other(alloc, columns),
            "violation" => violation_other(alloc, columns),
            "correctness" => correctness_other(alloc, columns),
            _ => Err(Flaw::Form),
        }
    }
}
