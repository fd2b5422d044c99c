//! Propositional logic: literals, clauses, assignments, and one step of resolution.
//!
//! Every question that lazic asks is a list of clauses, and every proof that it stores is a list of resolution
//! steps over them. Both are defined here, once, for all crates above.
#![tactic(auto)]

ghost use Rattle.std.specs.Prelude.{◌≡◌, ◌↔◌, true, false, ℕ, ◌+◌, ◌*◌, ◌<◌, ◌≤◌, length, List, [], ◌∷◌, ◌++◌, MatchResult, Some, slice_get};
ghost use Rattle.prop.specs.Logic.{negated, count, OnFail};
ghost use Rattle.prop.specs.Pieces.{pieces, Rising, start_of};

mod assignment;
mod step;

pub use assignment::Assignment;
use std::alloc::Global;
pub use step::{contains, resolve_on};

/// A variable, or its negation. Each number of 32 bits is a variable like any other.
#[derive(Clone, Copy, PartialEq, Eq, Debug)]
pub struct Lit {
    /// The variable.
    pub var: u32,
    /// Whether the literal is the variable itself; otherwise it is the negation.
    pub positive: bool,
}

impl Lit {
    /// The same variable with the other sign.
    #[inline]
    pub fn negate(self) -> Lit
        ensures { result ≡ negated self }
    {
        Lit {
            var: self.var,
            positive: !self.positive,
        }
    }
}

/// Why a clause was not added.
#[derive(Clone, Copy, PartialEq, Eq, Debug)]
pub enum BlastFail {
    /// The literals would pass [`MOST_LITERALS`]; this is how many there would be.
    Over(u64),
    /// Memory ran out, or a number of 32 bits does.
    Memory,
}

/// The most literals that one list of clauses may have, over all of its clauses.
pub const MOST_LITERALS: u64 = 67_108_864;

/// There are fewer clauses than this, so that each is named by 32 bits.
const MOST_CLAUSES: usize = 0xffff_ffff;

// Whether no number of 32 bits is left for one clause more.
fn is_full(clauses: usize) -> bool
    ensures full { result ≡ true → 4294967295 ≤ clauses }
    ensures room { result ≡ false → clauses < 4294967295 }
{
    clauses >= MOST_CLAUSES
}

/// A list of clauses, each a list of literals. All literals lie in one flat array, so a clause is reached by its
/// number in constant time and takes four bytes beside its literals.
#[derive(Drop)]
pub struct Clauses {
    lits: Vec<Lit>,
    ends: Vec<u32>,
}

impl std::marker::Model for Clauses {
    ghost use Rattle.std.specs.Prelude.{List, length, ◌≤◌, ◌<◌};
    ghost use Rattle.prop.specs.declared.Lit.{Lit};
    ghost use Rattle.prop.specs.Pieces.{pieces, Rising};

    ghost Value = { List (List Lit) };

    ghost view = { λ s. pieces 0 s.ends.items s.lits.items };

    ghost invariant = { λ s. Rising 0 s.ends.items (length s.lits.items) × (length s.lits.items ≤ 67108864) × (length s.ends.items < 4294967296) };
}

// Where the piece with this number begins.
#[inline]
fn start_of_piece(ends: &[u32], at: usize) -> usize
    requires { at < length ends.now }
    ensures { result ≡ start_of 0 ends.now at }
{
    if at == 0 { 0 } else { ends[at - 1] as usize }
}

// The piece with this number.
#[inline]
fn piece<'a>(ends: &[u32], lits: &'a [Lit], at: usize) -> &'a [Lit]
    requires rising { Rising 0 ends.now (length lits.now) }
    requires at { at < length ends.now }
    ensures { slice_get (pieces 0 ends.now lits.now) at ≡ Some result.now }
{
    let start = start_of_piece(ends, at);
    let end = ends[at] as usize;
    &lits[start..end]
}

impl Clauses {
    /// No clause. It takes no memory.
    pub fn new(alloc: Global) -> Clauses
        ensures { result ≡ [] }
    {
        Clauses {
            lits: Vec::new(alloc),
            ends: Vec::new(alloc),
        }
    }

    /// How many literals all clauses have together.
    pub fn literals(&self) -> u64
        ensures value { result ≡ count self.now }
        ensures within { count self.now ≤ 67108864 }
    {
        self.lits.len() as u64
    }

    /// How many clauses there are.
    pub fn len(&self) -> u32
        ensures value { result ≡ length self.now }
        ensures within { length self.now < 4294967296 }
    {
        self.ends.len() as u32
    }

    /// Whether there is no clause.
    pub fn is_empty(&self) -> bool
        ensures { result ≡ true ↔ (self.now ≡ []) }
    {
        self.ends.is_empty()
    }

    /// The clause with this number, in constant time; clauses are numbered from 0 in the order of their pushes.
    pub fn clause(&self, number: u32) -> &[Lit]
        requires { number < length self.now }
        ensures { slice_get self.now number ≡ Some result.now }
    {
        piece(self.ends.as_slice(), self.lits.as_slice(), number as usize)
    }

    /// Adds a clause at the end. After a refusal nothing has changed.
    pub fn push(&mut self, clause: &[Lit]) -> Result<(), BlastFail>
        ensures { MatchResult result
            (λ _. (count self.old + length clause.now ≤ 67108864) × (self.new ≡ self.old ++ clause.now ∷ []))
            (λ e. OnFail e (67108864 < count self.old + length clause.now) (count self.old + length clause.now) × (self.new ≡ self.old)) }
    {
        let total = self.lits.len() as u64 + clause.len() as u64;
        if total > MOST_LITERALS {
            return Err(BlastFail::Over(total));
        }
        if is_full(self.ends.len()) || self.ends.push(total as u32).is_err() {
            return Err(BlastFail::Memory);
        }
        if self.lits.extend_from_slice(clause).is_err() {
            let _ = self.ends.pop();
            return Err(BlastFail::Memory);
        }
        Ok(())
    }

    /// The allocator of its lists.
    pub fn allocator(&self) -> Global {
        *self.lits.allocator()
    }
}
