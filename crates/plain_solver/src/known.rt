//! The clauses that are known: those given, and those learned after them.

ghost use Rattle.std.specs.Prelude.{◌≡◌, ℕ, ◌+◌, ◌<◌, ◌≤◌, List, [], ◌∷◌, ◌++◌, length, ◌↔◌, true, IfOk, OnErr, Some, slice_get};
ghost use Rattle.prop.specs.Pieces.{pieces, Rising, start_of};

use prop::Lit;
use std::alloc::{AllocError, Global};

/// Clauses in one flat array, each reached by its number in constant time. Contracts see the list of clauses.
#[derive(Drop)]
pub struct Known {
    items: Vec<Lit>,
    ends: Vec<usize>,
}

impl std::marker::Model for Known {
    ghost use Rattle.std.specs.Prelude.{List, length};
    ghost use Rattle.prop.specs.Pieces.{pieces, Rising};
    ghost use Rattle.prop.specs.declared.Lit.{Lit};

    ghost Value = { List (List Lit) };

    ghost view = { λ s. pieces 0 s.ends.items s.items.items };

    ghost invariant = { λ s. Rising 0 s.ends.items (length s.items.items) };
}

// Where the piece with this number begins.
#[inline]
fn start_of_piece(ends: &[usize], at: usize) -> usize
    requires { at < length ends.now }
    ensures { result ≡ start_of 0 ends.now at }
{
    if at == 0 { 0 } else { ends[at - 1] }
}

// The piece with this number.
#[inline]
fn piece<'a>(ends: &[usize], items: &'a [Lit], at: usize) -> &'a [Lit]
    requires rising { Rising 0 ends.now (length items.now) }
    requires at { at < length ends.now }
    ensures { slice_get (pieces 0 ends.now items.now) at ≡ Some result.now }
{
    let start = start_of_piece(ends, at);
    let end = ends[at];
    &items[start..end]
}

impl Known {
    /// No clause. It takes no memory.
    pub fn new(alloc: Global) -> Known
        ensures { result ≡ [] }
    {
        Known {
            items: Vec::new(alloc),
            ends: Vec::new(alloc),
        }
    }

    /// How many clauses there are.
    pub fn len(&self) -> usize
        ensures { result ≡ length self.now }
    {
        self.ends.len()
    }

    /// Whether there is no clause.
    pub fn is_empty(&self) -> bool
        ensures { result ≡ true ↔ (length self.now ≡ 0) }
    {
        self.len() == 0
    }

    /// The clause with this number.
    pub fn clause(&self, number: usize) -> &[Lit]
        requires { number < length self.now }
        ensures { slice_get self.now number ≡ Some result.now }
    {
        piece(self.ends.as_slice(), self.items.as_slice(), number)
    }

    /// Adds a clause at the end. Where memory runs out nothing has changed.
    pub fn push(&mut self, clause: &[Lit]) -> Result<(), AllocError>
        ensures pushed { IfOk result (λ _. self.new ≡ self.old ++ clause.now ∷ []) }
        ensures kept { OnErr result (self.new ≡ self.old) }
    {
        self.items.extend_from_slice(clause)?;
        let end = self.items.len();
        if self.ends.push(end).is_err() {
            self.items.truncate(end - clause.len());
            return Err(AllocError);
        }
        Ok(())
    }
}
