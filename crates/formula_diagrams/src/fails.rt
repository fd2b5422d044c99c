ghost use Rattle.std.specs.Prelude.{◌≡◌};

use lv_base::Memory;
use std::alloc::{AllocError, AllocFailed};

/// Why there is no diagram of a formula.
#[derive(Clone, Copy)]
pub enum DiagramFail {
    /// The arena would get more nodes than it may have.
    TooLarge,
    /// Memory ran out.
    Memory,
}

impl From<AllocError> for DiagramFail {
    ghost use Rattle.formula_diagrams.specs.declared.fails.DiagramFail.TheVariants.{Memory};

    ghost from_gives = { λ _ e. e ≡ Memory };

    fn from(_: AllocError) -> Self {
        DiagramFail::Memory
    }
}

impl<T: Drop> From<AllocFailed<T>> for DiagramFail {
    ghost use Rattle.formula_diagrams.specs.declared.fails.DiagramFail.TheVariants.{Memory};

    ghost from_gives = { λ _ e. e ≡ Memory };

    fn from(_: AllocFailed<T>) -> Self {
        DiagramFail::Memory
    }
}

impl From<Memory> for DiagramFail {
    ghost use Rattle.formula_diagrams.specs.declared.fails.DiagramFail.TheVariants.{Memory};

    ghost from_gives = { λ _ e. e ≡ Memory };

    fn from(_: Memory) -> Self {
        DiagramFail::Memory
    }
}
