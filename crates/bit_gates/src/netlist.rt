ghost use Rattle.std.specs.Prelude.{◌≡◌, ℕ, ◌+◌, ◌<◌, ◌≤◌, length, List, [], ◌∷◌, ◌++◌, IfOk, MatchResult, true, false};
ghost use Rattle.prop.specs.Logic.{positive_of};
ghost use Rattle.bit_gates.specs.Cut.{Grew};

use prop::Lit;
use std::alloc::{AllocError, AllocFailed, Global};

/// What defines one new variable, as a function of literals of earlier variables.
#[derive(Clone, Copy, PartialEq, Eq, Debug)]
pub enum Def {
    /// Both literals.
    And(Lit, Lit),
    /// Exactly one of them.
    Xor(Lit, Lit),
    /// The second where the first is true, else the third.
    Select(Lit, Lit, Lit),
    /// An odd number of them.
    Sum(Lit, Lit, Lit),
    /// At least two of them.
    Carry(Lit, Lit, Lit),
    /// The first, and the second and third being alike.
    Same(Lit, Lit, Lit),
    /// A constant.
    Fixed(bool),
}

/// No memory, or no variable, was left. A net is of no further use then.
#[derive(Clone, Copy, PartialEq, Eq, Debug)]
pub struct NoRoom;

impl From<AllocError> for NoRoom {
    fn from(_: AllocError) -> NoRoom {
        NoRoom
    }
}

impl From<AllocFailed<Lit>> for NoRoom {
    fn from(_: AllocFailed<Lit>) -> NoRoom {
        NoRoom
    }
}

impl From<AllocFailed<Def>> for NoRoom {
    fn from(_: AllocFailed<Def>) -> NoRoom {
        NoRoom
    }
}

// Whether no variable is left behind the one with this number.
fn is_full(next: u32) -> bool
    ensures full { result ≡ true → 4294967295 ≤ next }
    ensures room { result ≡ false → next < 4294967295 }
{
    next == u32::MAX
}

/// Definitions of the variables from `start` up to below `next`.
#[derive(Drop)]
pub struct Net {
    pub start: u32,
    pub next: u32,
    pub defs: Vec<Def>,
    ghost room: { start + length defs.items ≡ next },
}

impl Net {
    /// A net without definitions, whose first variable will be `start`.
    pub fn new(alloc: Global, start: u32) -> Net
        ensures { (result.start ≡ start) × (result.next ≡ start) × (result.defs.items ≡ []) }
    {
        Net {
            start,
            next: start,
            defs: Vec::new(alloc),
        }
    }

    /// Appends a definition of the next variable, and answers its positive literal.
    pub fn define(&mut self, def: Def) -> Result<Lit, NoRoom>
        ensures start { self.new.start ≡ self.old.start }
        ensures grew { IfOk result (λ l. (l ≡ positive_of self.old.next)
            × Grew self.old.next self.old.defs.items self.new.next self.new.defs.items (def ∷ [])) }
    {
        if is_full(self.next) {
            return Err(NoRoom);
        }
        self.defs.push(def)?;
        let var = self.next;
        self.next += 1;
        Ok(Lit {
            var,
            positive: true,
        })
    }
}
