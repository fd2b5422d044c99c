ghost use Rattle.std.specs.Prelude.{◌≡◌};

use crate::SourceFault;
use std::alloc::{AllocError, AllocFailed};

/// Want of memory.
#[derive(Clone, Copy, Debug, PartialEq, Eq)]
pub struct Memory;

impl From<AllocError> for Memory {
    fn from(_: AllocError) -> Self {
        Memory
    }
}

impl<T: Drop> From<AllocFailed<T>> for Memory {
    fn from(_: AllocFailed<T>) -> Self {
        Memory
    }
}

/// Why a source is refused.
#[derive(Clone, Copy, Debug, PartialEq, Eq)]
pub enum SourceFail {
    /// A fault, with its offset in bytes from 0.
    Fault(SourceFault, u32),
    /// A limit by its number, with the count that passed it.
    Over(u8, u64),
    /// Want of memory.
    Memory,
}

impl From<AllocError> for SourceFail {
    ghost use Rattle.lv_base.specs.declared.fail.SourceFail.TheVariants.{Memory};

    ghost from_gives = { λ _ e. e ≡ Memory };

    fn from(_: AllocError) -> Self {
        SourceFail::Memory
    }
}

impl<T: Drop> From<AllocFailed<T>> for SourceFail {
    ghost use Rattle.lv_base.specs.declared.fail.SourceFail.TheVariants.{Memory};

    ghost from_gives = { λ _ e. e ≡ Memory };

    fn from(_: AllocFailed<T>) -> Self {
        SourceFail::Memory
    }
}

impl From<Memory> for SourceFail {
    ghost use Rattle.lv_base.specs.declared.fail.SourceFail.TheVariants.{Memory};

    ghost from_gives = { λ _ e. e ≡ Memory };

    fn from(_: Memory) -> Self {
        SourceFail::Memory
    }
}
