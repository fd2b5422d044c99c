//! Tables are files of rows, one a line. Lines that begin with `#`, and empty ones, are left out.

ghost use Rattle.std.specs.Prelude.{◌≡◌, ◌≢◌, MatchOption, string_bytes};

use crate::{Flaw, Refusal, load};
use std::alloc::Global;
use std::rt::Files;
use std::str;

/// What tries a row.
pub trait Table {
    /// What came where it is not as the row says; none where it is.
    ///
    /// Fails with `Form` where it is no row, and with `Memory`.
    fn other(&mut self, alloc: Global, row: &str) -> Result<Option<String>, Flaw>;
}

/// What tries the rows of files.
pub trait Library {
    /// Tries the rows of the table in the file of this name. It prints what came of each row that is not so, and how many rows there
    /// are; how many are not so.
    fn try_rows<R>(&mut self, rt: &R, name: &str) -> Result<u64, Refusal>
    where
        R: AllocGlobal + Files + Print + Clone + Drop;
}

/// What came, where it is another text than is wanted.
pub fn other_than(wanted: &str, came: String) -> Option<String>
    ensures { MatchOption result (string_bytes came ≡ wanted.now) (λ other. (other ≡ came) × (string_bytes came ≢ wanted.now)) }
{
    if came.as_str() == wanted {
        None
    } else {
        Some(came)
    }
}

// How many rows there were, and how many of them are not so.
#[derive(Clone, Copy)]
struct Tried {
    rows: u64,
    others: u64,
}

// Tries a row, and prints what came where it is not so.
fn is_so<R: Print, T: Table>(
    alloc: Global,
    rt: &R,
    table: &mut T,
    line: u32,
    row: &str,
) -> Result<bool, Refusal> {
    let said = match table.other(alloc, row) {
        Ok(None) => return Ok(true),
        Ok(Some(other)) => println!(rt; "line {line}: {other}"),
        Err(Flaw::Form) => println!(rt; "line {line} is no row"),
        Err(Flaw::Memory) => return Err(Refusal::Memory),
    };
    match said {
        Ok(()) => Ok(false),
        Err(_) => Err(Refusal::Output),
    }
}

// Tries the rows of a table.
fn try_all<R: Print, T: Table>(
    alloc: Global,
    rt: &R,
    table: &mut T,
    bytes: &[u8],
) -> Result<Tried, Refusal> {
    let Ok(text) = str::from_utf8(bytes) else {
        return Err(Refusal::Text);
    };
    let mut tried = Tried { rows: 0, others: 0 };
    let mut line = 0u32;
    for row in text.lines() {
        line = line.saturating_add(1);
        if row.is_empty() || row.starts_with("#") {
            continue;
        }
        tried.rows = tried.rows.saturating_add(1);
        if !is_so(alloc, rt, table, line, row)? {
            tried.others = tried.others.saturating_add(1);
        }
    }
    Ok(tried)
}

/// The rows that a table tries.
#[derive(Drop)]
pub struct Rows<T> {
    pub table: T,
}

impl<T: Table> Library for Rows<T> {
    fn try_rows<R>(&mut self, rt: &R, name: &str) -> Result<u64, Refusal>
    where
        R: AllocGlobal + Files + Print + Clone + Drop,
    {
        let alloc = rt.alloc();
        let bytes = load(alloc, rt, name)?;
        let Tried { rows, others } = try_all(alloc, rt, &mut self.table, &bytes)?;
        match println!(rt; "{name}: {rows} rows") {
            Ok(()) => Ok(others),
            Err(_) => Err(Refusal::Output),
        }
    }
}
