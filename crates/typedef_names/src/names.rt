ghost use Rattle.std.specs.Prelude.{◌≡◌, ◌⊎◌, ℕ, ◌-◌, ◌∷◌, ◌++◌, [], length, take, bytes_eq, get_or, IfOk, OnOk, OnErr};
ghost use Rattle.c_tree.specs.Shape.{has};

use crate::buckets::{BUCKETS, bucket_of};
use lv_base::{Memory, Text};
use std::alloc::{AllocError, Global};
use std::marker::Model;

/// A declared name. `older` is one more than the place of the last name before it in its bucket, and 0 where there is none.
#[derive(Drop)]
pub(crate) struct Entry {
    name: Text,
    older: usize,
}

/// The typedef names in scope, the first declared first.
///
/// `newest` has for each bucket one more than the place of its last name, and 0 where there is none; before the first name is
/// declared it is empty. So a name is looked for among those of its bucket alone, the newest first.
#[derive(Drop)]
pub struct Names {
    entries: Vec<Entry>,
    newest: Vec<usize>,
}

impl Model for Names {
    ghost use Rattle.std.specs.Prelude.{ℕ, List};
    ghost use Rattle.typedef_names.specs.Chains.{IsKept, names_of};

    ghost Value = { List (List ℕ) };

    ghost view = { λ n. names_of n.entries.items };

    ghost invariant = { λ n. IsKept n.entries.items n.newest.items };
}

/// Whether the text has these bytes.
fn is_same(text: &Text, bytes: &[u8]) -> bool
    ensures { result ≡ bytes_eq text.now bytes.now }
{
    text.as_bytes() == bytes
}

impl Names {
    /// No names.
    pub fn new(alloc: Global) -> Names
        ensures { result ≡ [] }
    {
        Names {
            entries: Vec::new(alloc),
            newest: Vec::new(alloc),
        }
    }

    /// The same names.
    pub fn copy(&self, alloc: Global) -> Result<Names, Memory>
        ensures { IfOk result (λ n. n ≡ self.now) }
    {
        let mut copied = Names::new(alloc);
        let mut rest = self.entries.as_slice();
        'entries: while let Some((entry, behind)) = rest.split_first() {
            copied.declare(Text::copy_of(alloc, entry.name.as_bytes())?)?;
            rest = behind;
        }
        Ok(copied)
    }

    /// Whether this is one of them.
    pub fn has(&self, name: &Text) -> bool
        ensures { result ≡ has self.now name.now }
    {
        let bytes = name.as_bytes();
        let mut left = newest_in(&self.newest, bucket_of(bytes));
        'chain: while left > 0 {
            let entry = &self.entries[left - 1];
            if is_same(&entry.name, bytes) {
                return true;
            }
            left = entry.older;
        }
        false
    }

    /// How many there are.
    pub fn count(&self) -> usize
        ensures { result ≡ length self.now }
    {
        self.entries.len()
    }

    /// One name more.
    pub fn declare(&mut self, name: Text) -> Result<(), AllocError>
        ensures { IfOk result (λ _. self.new ≡ self.old ++ name ∷ []) }
    {
        open(&mut self.newest)?;
        let bucket = bucket_of(name.as_bytes());
        let older = self.newest[bucket];
        self.entries.push(Entry { name, older })?;
        self.newest[bucket] = self.entries.len();
        Ok(())
    }

    /// Keeps the first so many.
    pub fn leave(&mut self, count: usize)
        ensures { self.new ≡ take count self.old }
    {
        'names: while self.count() > count {
            self.forget();
        }
    }

    /// All but the last.
    fn forget(&mut self)
        ensures { self.new ≡ take (length self.old - 1) self.old }
    {
        if let Some(entry) = self.entries.pop() {
            let bucket = bucket_of(entry.name.as_bytes());
            self.newest[bucket] = entry.older;
        }
    }
}

/// Takes the table, where it was not taken yet.
fn open(newest: &mut Vec<usize>) -> Result<(), AllocError>
    requires { (newest.old.items ≡ []) ⊎ (length newest.old.items ≡ 65521) }
    ensures taken { OnOk result (length newest.new.items ≡ 65521) }
    ensures same { OnOk result ((b : ℕ) → get_or newest.new.items b 0 ≡ get_or newest.old.items b 0) }
    ensures unchanged { OnErr result (newest.new.items ≡ newest.old.items) }
{
    if newest.is_empty() {
        newest.resize(BUCKETS, 0)?;
    }
    Ok(())
}

/// What the table has for the bucket; where it was not taken yet, no name.
fn newest_in(newest: &[usize], bucket: usize) -> usize
    ensures { result ≡ get_or newest.now bucket 0 }
{
    match newest.get(bucket) {
        Some(left) => *left,
        None => 0,
    }
}
