//! Lists of small numbers in one flat array.

ghost use Rattle.std.specs.Prelude.{◌≡◌, ℕ, ◌+◌, ◌<◌, ◌≤◌, List, [], ◌∷◌, ◌++◌, length, ◌↔◌, true, IfOk, OnErr, Some, slice_get};
ghost use Rattle.prop.specs.Pieces.{pieces, Rising, start_of};

use std::alloc::{AllocError, Global};

/// Lists of 32-bit numbers, as clauses of literals' codes, in one flat array: a list is reached by its number in
/// constant time. Contracts see the list of lists.
#[derive(Drop)]
pub struct Rows {
    items: Vec<u32>,
    ends: Vec<usize>,
}

impl std::marker::Model for Rows {
    ghost use Rattle.std.specs.Prelude.{ℕ, List, length};
    ghost use Rattle.prop.specs.Pieces.{pieces, Rising};

    ghost Value = { List (List ℕ) };

    ghost view = { λ s. pieces 0 s.ends.items s.items.items };

    ghost invariant = { λ s. Rising 0 s.ends.items (length s.items.items) };
}

// Where the piece with this number begins.
#[inline]
fn start_of_piece(ends: &[usize], at: usize) -> usize
    requires { at < length ends.now }
    ensures { result ≡ start_of 0 ends.now at }
{
    if at == 0 { 0 } else { ends[at - 1] }
}

// The piece with this number.
#[inline]
fn piece<'a>(ends: &[usize], items: &'a [u32], at: usize) -> &'a [u32]
    requires rising { Rising 0 ends.now (length items.now) }
    requires at { at < length ends.now }
    ensures { slice_get (pieces 0 ends.now items.now) at ≡ Some result.now }
{
    let start = start_of_piece(ends, at);
    let end = ends[at];
    &items[start..end]
}

impl Rows {
    /// No list. It takes no memory.
    pub fn new(alloc: Global) -> Rows
        ensures { result ≡ [] }
    {
        Rows {
            items: Vec::new(alloc),
            ends: Vec::new(alloc),
        }
    }

    /// How many lists there are.
    pub fn len(&self) -> usize
        ensures { result ≡ length self.now }
    {
        self.ends.len()
    }

    /// Whether there is no list.
    pub fn is_empty(&self) -> bool
        ensures { result ≡ true ↔ (length self.now ≡ 0) }
    {
        self.len() == 0
    }

    /// The list with this number.
    pub fn row(&self, number: usize) -> &[u32]
        requires { number < length self.now }
        ensures { slice_get self.now number ≡ Some result.now }
    {
        piece(self.ends.as_slice(), self.items.as_slice(), number)
    }

    /// Adds a list at the end. Where memory runs out nothing has changed.
    pub fn push(&mut self, row: &[u32]) -> Result<(), AllocError>
        ensures pushed { IfOk result (λ _. self.new ≡ self.old ++ row.now ∷ []) }
        ensures kept { OnErr result (self.new ≡ self.old) }
    {
        self.items.extend_from_slice(row)?;
        let end = self.items.len();
        if self.ends.push(end).is_err() {
            self.items.truncate(end - row.len());
            return Err(AllocError);
        }
        Ok(())
    }
}
