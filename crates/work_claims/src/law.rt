//! The rule of the two words, and what each kind of step tells the claimer that made it.
use crate::knowledge::{Hand, Terms};
use atomic_table::{Join, Play, Split, TableRule};

/// The rule of the two words.
pub struct Law;

impl TableRule<(), Hand, Terms> for Law {
    ghost use Rattle.work_claims.specs.Hands.{fresh};
    ghost use Rattle.work_claims.specs.Rule.{Kept};

    ghost holds = { Kept };

    ghost first = { λ k. fresh k.total k.workers };
}

// A number is taken, or the claimer finishes.
pub(crate) struct Take;

impl Play<(), Hand> for Take {
    ghost use Rattle.work_claims.specs.Rule.{Takes};

    ghost then = { Takes };
}

// A number is reported.
pub(crate) struct Tell;

impl Play<(), Hand> for Tell {
    ghost use Rattle.work_claims.specs.Rule.{Tells};

    ghost then = { Tells };
}

// The lowest report is looked at.
pub(crate) struct Look;

impl Play<(), Hand> for Look {
    ghost use Rattle.work_claims.specs.Rule.{Looks};

    ghost then = { Looks };
}

// A claimer's seat is made: it gets one part.
pub(crate) struct Deal;

impl Split<Hand> for Deal {
    ghost use Rattle.work_claims.specs.Hands.{one_less, fresh};

    ghost left = { one_less };

    ghost right = { λ v. fresh v.total 1 };
}

// A claimer hands what it knows to the seat that stays.
pub(crate) struct Gather;

impl Join<Hand> for Gather {
    ghost use Rattle.work_claims.specs.Hands.{both, spent};

    ghost both = { both };

    ghost spent = { spent };
}
