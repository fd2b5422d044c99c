//! Run files: read, refused, and written.

ghost use Rattle.std.specs.Prelude.{IfOk};
ghost use Rattle.stored_text.specs.RunText.{AreShort};

use std::alloc::Global;
use stored_text::{StoredFail, read_run, write_run};
use table_rows::{Fields, Flaw, Table, list_of, other_than, text_of};

const BEYOND: u128 = 100_000_000_000_000_000_000;

// The same values, where none has more than twenty digits.
#[tactic(auto, using(stored_text::proofs::Written::short_more))]
fn short_values(alloc: Global, numbers: &[i128]) -> Result<Vec<i128>, Flaw>
    ensures { IfOk result (λ values. AreShort values.items) }
{
    let mut values = Vec::new(alloc);
    for number in numbers {
        if number.unsigned_abs() >= BEYOND {
            return Err(Flaw::Form);
        }
        values.push(*number)?;
    }
    Ok(values)
}

fn next_values(alloc: Global, columns: &mut Fields<'_>) -> Result<Vec<i128>, Flaw> {
    let text = text_of(alloc, columns.next()?)?;
    list_of(alloc, &text)
}

// Why a file is not read, or values are not written.
fn failed(alloc: Global, fail: StoredFail) -> Result<String, Flaw> {
    match fail {
        StoredFail::Format(at) => Ok(format!(in alloc; "byte {at}")?),
        StoredFail::Over(limit, count) => Ok(format!(in alloc; "limit {limit} {count}")?),
        StoredFail::Memory => Err(Flaw::Memory),
    }
}

// What came of the file's values, where they are others.
fn read_other(alloc: Global, bytes: &[u8], values: &[i128]) -> Result<Option<String>, Flaw> {
    match read_run(alloc, bytes) {
        Ok(got) if got.as_slice() == values => Ok(None),
        Ok(_) => Ok(Some(String::from_str(alloc, "other values")?)),
        Err(fail) => Ok(Some(failed(alloc, fail)?)),
    }
}

// What came of the values' file, where it is another one.
fn written_other(alloc: Global, bytes: &[u8], values: &[i128]) -> Result<Option<String>, Flaw> {
    let values = short_values(alloc, values)?;
    match write_run(alloc, &values) {
        Ok(file) if file.as_slice() == bytes => Ok(None),
        Ok(_) => Ok(Some(String::from_str(alloc, "another file")?)),
        Err(fail) => Ok(Some(failed(alloc, fail)?)),
    }
}

// What came of a run file that is read and written back, where it is something else.
fn file_other(alloc: Global, mut columns: Fields<'_>) -> Result<Option<String>, Flaw> {
    let bytes = text_of(alloc, columns.next()?)?;
    let values = next_values(alloc, &mut columns)?;
    columns.end()?;
    match read_other(alloc, &bytes, &values)? {
        Some(other) => Ok(Some(other)),
        None => written_other(alloc, &bytes, &values),
    }
}

// What came of a file that is no run file, where it is refused in another way.
fn refused_other(alloc: Global, mut columns: Fields<'_>) -> Result<Option<String>, Flaw> {
    let bytes = text_of(alloc, columns.next()?)?;
    let wanted = columns.next()?;
    columns.end()?;
    match read_run(alloc, &bytes) {
        Ok(_) => Ok(Some(String::from_str(alloc, "it is read")?)),
        Err(fail) => Ok(other_than(wanted, failed(alloc, fail)?)),
    }
}

// What came of values that have no run file, where they are refused in another way.
fn unwritten_other(alloc: Global, mut columns: Fields<'_>) -> Result<Option<String>, Flaw> {
    let values = next_values(alloc, &mut columns)?;
    let wanted = columns.next()?;
    columns.end()?;
    let values = short_values(alloc, &values)?;
    match write_run(alloc, &values) {
        Ok(_) => Ok(Some(String::from_str(alloc, "it is written")?)),
        Err(fail) => Ok(other_than(wanted, failed(alloc, fail)?)),
    }
}

/// Rows of run files.
#[derive(Clone, Copy)]
pub(crate) struct RunFileRows;

impl Table for RunFileRows {
    fn other(&mut self, alloc: Global, row: &str) -> Result<Option<String>, Flaw> {
        let mut columns = Fields::columns(row);
        match columns.next()? {
            "file" => file_other(alloc, columns),
            "refused" => refused_other(alloc, columns),
            "unwritten" => unwritten_other(alloc, columns),
            _ => Err(Flaw::Form),
        }
    }
}
