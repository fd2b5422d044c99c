//! The formulas of the labels, and which of them follows from which along an edge of the loop.
ghost use Rattle.std.specs.Prelude.{◌≡◌};
ghost use Rattle.loop_journey.specs.Loop.{is_followed, term_of};

use bv_term::TermId;

/// A formula of a label.
#[derive(Clone, Copy, Debug, PartialEq, Eq)]
pub enum Formula {
    /// True in each store.
    Always,
    /// True where the first cell is 0.
    IsZero,
    /// True in no store.
    Never,
}

impl Formula {
    /// Its number in the table of the labels' terms.
    pub fn term(self) -> TermId
        ensures { result ≡ term_of self }
    {
        match self {
            Formula::IsZero => TermId(2),
            Formula::Always => TermId(3),
            Formula::Never => TermId(4),
        }
    }

    /// Whether this formula, with the edge of the number, implies the other, as far as the loop is known.
    pub fn is_followed(self, edge: u32, other: Formula) -> bool
        ensures { result ≡ is_followed self edge other }
    {
        match (self, other) {
            (Formula::Always, Formula::Always) => true,
            (Formula::Always, Formula::IsZero) => edge == 0 || edge == 2,
            (Formula::IsZero, Formula::IsZero) => 2 <= edge && edge <= 5,
            (Formula::IsZero, Formula::Never) => edge == 1,
            _ => false,
        }
    }
}
