//! Tables whose rows state something.

use crate::fails::RowFail;
use std::alloc::Global;
use table_rows::Flaw;

/// What tries a row.
pub trait Table {
    /// Whether what the row states is so.
    ///
    /// Fails with `Bad` where it is no row, and with `Memory`.
    fn is_so(&mut self, alloc: Global, row: &str) -> Result<bool, RowFail>;
}

/// A table of statements as one of which is told what came: the row itself, where it is not so.
#[derive(Drop)]
pub struct Stated<T> {
    pub table: T,
}

impl<T: Table> table_rows::Table for Stated<T> {
    fn other(&mut self, alloc: Global, row: &str) -> Result<Option<String>, Flaw> {
        match self.table.is_so(alloc, row) {
            Ok(true) => Ok(None),
            Ok(false) => Ok(Some(format!(in alloc; "not so: {row}")?)),
            Err(RowFail::Bad) => Err(Flaw::Form),
            Err(RowFail::Memory) => Err(Flaw::Memory),
        }
    }
}
