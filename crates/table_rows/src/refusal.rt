use lv_base::{Memory, SourceFail};
use std::alloc::{AllocError, AllocFailed};
use std::fmt;

/// Why a row is not tried.
#[derive(Clone, Copy, Drop)]
pub enum Flaw {
    /// The line is no row.
    Form,
    /// Memory ran out.
    Memory,
}

impl From<AllocError> for Flaw {
    fn from(_: AllocError) -> Flaw {
        Flaw::Memory
    }
}

impl<T: Drop> From<AllocFailed<T>> for Flaw {
    fn from(_: AllocFailed<T>) -> Flaw {
        Flaw::Memory
    }
}

impl From<Memory> for Flaw {
    fn from(_: Memory) -> Flaw {
        Flaw::Memory
    }
}

impl From<SourceFail> for Flaw {
    fn from(fail: SourceFail) -> Flaw {
        match fail {
            SourceFail::Memory => Flaw::Memory,
            _ => Flaw::Form,
        }
    }
}

/// Why a table is not tried to its end.
#[derive(Clone, Copy, Debug, Drop, PartialEq)]
pub enum Refusal {
    /// A file could not be read.
    File,
    /// A file is longer than a mebibyte.
    Long,
    /// A file is no text.
    Text,
    /// The line of this number, counted from 1, is no row.
    Row(u32),
    /// Memory ran out.
    Memory,
    /// A line could not be printed.
    Output,
}

impl From<AllocError> for Refusal {
    fn from(_: AllocError) -> Refusal {
        Refusal::Memory
    }
}

impl fmt::Display for Refusal {
    fn fmt<W: fmt::Write>(&self, f: &mut fmt::Formatter<W>) -> fmt::Result {
        match self {
            Refusal::File => write!(f, "a file could not be read"),
            Refusal::Long => write!(f, "a file is longer than a mebibyte"),
            Refusal::Text => write!(f, "a file is no text"),
            Refusal::Row(line) => write!(f, "line {line} is no row"),
            Refusal::Memory => write!(f, "out of memory"),
            Refusal::Output => write!(f, "a line could not be printed"),
        }
    }
}
