//! For each literal the numbers of the clauses that watch it.

ghost use Rattle.std.specs.Prelude.{◌≡◌, ℕ, ◌+◌, ◌<◌, List, [], ◌∷◌, ◌++◌, length, IfOk, slice_set, slice_index_or};

use std::alloc::{AllocError, Global};
use std::mem;

/// A list of clauses' numbers for each literal's code, and where the last search of a clause ended. Contracts see the list of
/// lists.
#[derive(Drop)]
pub struct WatchLists {
    lists: Vec<Vec<u32>>,
    places: Vec<usize>,
}

impl std::marker::Model for WatchLists {
    ghost use Rattle.std.specs.Prelude.{ℕ, List};
    ghost use Rattle.watched_clauses.specs.Contents.{contents};

    ghost Value = { List (List ℕ) };

    ghost view = { λ s. contents s.lists.items };
}

impl WatchLists {
    /// So many empty lists.
    pub fn new(alloc: Global, count: usize) -> Result<WatchLists, AllocError>
        ensures len { IfOk result (λ r. length r ≡ count) }
        ensures empty { IfOk result (λ r. (code : ℕ) → slice_index_or r code [] ≡ []) }
    {
        let mut lists = Vec::new(alloc);
        for _code in 0..count {
            lists.push(Vec::new(alloc))?;
        }
        Ok(WatchLists {
            lists,
            places: Vec::new(alloc),
        })
    }

    /// Takes the list of a literal away, and leaves it empty.
    #[inline]
    pub fn take(&mut self, code: u32) -> Vec<u32>
        requires { code < length self.old }
        ensures list { result.items ≡ slice_index_or self.old code [] }
        ensures left { self.new ≡ slice_set self.old code [] }
    {
        let alloc = *self.lists.allocator();
        mem::replace(&mut self.lists[code as usize], Vec::new(alloc))
    }

    /// Puts the list of a literal back.
    #[inline]
    pub fn put(&mut self, code: u32, list: Vec<u32>)
        requires { code < length self.old }
        ensures { self.new ≡ slice_set self.old code list.items }
    {
        self.lists[code as usize] = list;
    }

    /// Adds a clause to the list of a literal.
    #[inline]
    pub fn push(&mut self, code: u32, clause: u32) -> Result<(), AllocError>
        requires { code < length self.old }
        ensures { IfOk result (λ _. self.new ≡ slice_set self.old code (slice_index_or self.old code [] ++ clause ∷ [])) }
    {
        self.lists[code as usize].push(clause)?;
        Ok(())
    }

    /// Where the last searches of clauses ended, by their numbers.
    #[inline]
    pub fn places(&self) -> &[usize] {
        self.places.as_slice()
    }

    /// Writes down where the search of a clause ended.
    #[inline]
    pub fn keep_place(&mut self, clause: u32, place: usize) -> Result<(), AllocError>
        ensures { IfOk result (λ _. self.new ≡ self.old) }
    {
        let at = clause as usize;
        if at >= self.places.len() {
            self.places.resize(at + 1, 0)?;
        }
        self.places[at] = place;
        Ok(())
    }
}
