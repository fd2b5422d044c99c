use lv_base::Memory;
use prop::BlastFail;
use std::alloc::{AllocError, AllocFailed};

/// Why a row is not tried.
#[derive(Clone, Copy, Debug, Drop, PartialEq)]
pub enum RowFail {
    /// It is not what a row is to be.
    Bad,
    /// Memory ran out.
    Memory,
}

impl From<AllocError> for RowFail {
    fn from(_: AllocError) -> RowFail {
        RowFail::Memory
    }
}

impl<T: Drop> From<AllocFailed<T>> for RowFail {
    fn from(_: AllocFailed<T>) -> RowFail {
        RowFail::Memory
    }
}

impl From<Memory> for RowFail {
    fn from(_: Memory) -> RowFail {
        RowFail::Memory
    }
}

impl From<BlastFail> for RowFail {
    fn from(fail: BlastFail) -> RowFail {
        match fail {
            BlastFail::Over(_) => RowFail::Bad,
            BlastFail::Memory => RowFail::Memory,
        }
    }
}
