//! The sources of seeds.

use std::alloc::Global;
use table_rows::{Fields, Flaw, Table, text_of};
use task_gen::generate;

fn next_seed(columns: &mut Fields<'_>) -> Result<u32, Flaw> {
    match columns.next()?.parse::<u32>() {
        Ok(seed) => Ok(seed),
        Err(_) => Err(Flaw::Form),
    }
}

/// Rows of seeds.
#[derive(Clone, Copy)]
pub(crate) struct SeedRows;

impl Table for SeedRows {
    fn other(&mut self, alloc: Global, row: &str) -> Result<Option<String>, Flaw> {
        let mut columns = Fields::columns(row);
        columns.next()?;
        let seed = next_seed(&mut columns)?;
        let wanted = text_of(alloc, columns.next()?)?;
        columns.end()?;
        let source = generate(alloc, seed)?;
        if source.as_slice() == wanted.as_slice() {
            return Ok(None);
        }
        Ok(Some(String::from_str(alloc, "another source")?))
    }
}
