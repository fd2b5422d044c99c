//! Why a certificate is not accepted.
ghost use Rattle.std.specs.Prelude.{◌≡◌};

use lv_base::Memory;
use std::alloc::{AllocError, AllocFailed};

/// What of a map does not fit the graph.
#[derive(Clone, Copy, PartialEq, Eq, Debug)]
pub enum MapFault {
    /// The layout: that of the certificate, and that of this graph.
    Layout(u32, u32),
    /// The number of formulas: that of the certificate, and the graph's number of nodes.
    Nodes(u32, u32),
    /// The first term that is not well formed over the graph's cells and the terms before it.
    Term(u32),
    /// The first node whose formula is no term of width 1.
    Formula(u32),
}

/// Why a certificate is not accepted.
#[derive(Clone, Copy, PartialEq, Eq, Debug)]
pub enum CheckFail {
    /// The map does not fit.
    WrongMap(MapFault),
    /// The number of logs: that of the certificate, and the graph's number of obligations.
    Count(u32, u32),
    /// A step of an obligation's log is not valid: the obligation, and the first such chain.
    BadStep(u32, u32),
    /// The steps of this obligation's log are valid, and do not end with the empty clause.
    NoEmpty(u32),
    /// The literals of an obligation's clauses pass the limit; this is how many there are up to the first clause that passes it.
    Over(u64),
    /// Memory ran out.
    Memory,
}

impl From<Memory> for CheckFail {
    ghost use Rattle.cert_check.specs.declared.fails.CheckFail.TheVariants.{Memory};

    ghost from_gives = { λ _ e. e ≡ Memory };

    fn from(_: Memory) -> Self {
        CheckFail::Memory
    }
}

impl From<AllocError> for CheckFail {
    ghost use Rattle.cert_check.specs.declared.fails.CheckFail.TheVariants.{Memory};

    ghost from_gives = { λ _ e. e ≡ Memory };

    fn from(_: AllocError) -> Self {
        CheckFail::Memory
    }
}

impl<T: Drop> From<AllocFailed<T>> for CheckFail {
    ghost use Rattle.cert_check.specs.declared.fails.CheckFail.TheVariants.{Memory};

    ghost from_gives = { λ _ e. e ≡ Memory };

    fn from(_: AllocFailed<T>) -> Self {
        CheckFail::Memory
    }
}
