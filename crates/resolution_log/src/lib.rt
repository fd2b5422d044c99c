//! Refutations: logs of resolution steps, their checker, and what makes a learned clause worth its place.
//!
//! A SAFE answer rests on refutations that anyone may have made; [`check_log`] accepts exactly those that are valid.
//! The definitions of new logs and lean refutations, and their laws, are those that the solver's answers cite.
#![tactic(auto)]

ghost use Rattle.std.specs.Prelude.{◌≡◌, ◌↔◌, true, ℕ, ◌+◌, ◌<◌, ◌≤◌, ◌^◌, List, [], ◌∷◌, ◌++◌, length, false, IfOk, OnErr, MatchResult};

mod check;
pub mod laws;
mod marks;
mod numbering;
mod rows;

pub use check::check_log;
pub use numbering::{code, coded, number_of, variables};
pub use rows::Rows;
use std::alloc::{AllocError, Global};
use thiserror::Error;

/// The pairs of a chain in order: a pivot variable, and the number of the clause to resolve with. Contracts see the
/// list.
#[derive(Drop)]
pub struct Pairs {
    items: Vec<(u32, u32)>,
}

impl std::marker::Model for Pairs {
    ghost use Rattle.std.specs.Prelude.{ℕ, List};

    ghost Value = { List (ℕ × ℕ) };

    ghost view = { λ s. s.items.items };
}

impl Pairs {
    /// No pair. It takes no memory.
    pub fn new(alloc: Global) -> Pairs
        ensures { result ≡ [] }
    {
        Pairs {
            items: Vec::new(alloc),
        }
    }

    /// Adds a pair at the end.
    pub fn push(&mut self, pivot: u32, clause: u32) -> Result<(), AllocError>
        ensures pushed { IfOk result (λ _. self.new ≡ self.old ++ (pivot, clause) ∷ []) }
        ensures kept { OnErr result (self.new ≡ self.old) }
    {
        self.items.push((pivot, clause))?;
        Ok(())
    }

    /// Gives back the memory that is not used.
    pub fn fit(&mut self)
        ensures { self.new ≡ self.old }
    {
        self.items.shrink_to_fit();
    }

    /// How many pairs there are.
    pub fn len(&self) -> usize
        ensures value { result ≡ length self.now }
        ensures fits { length self.now < 2 ^ 63 }
    {
        self.items.len()
    }

    /// Whether there is no pair.
    pub fn is_empty(&self) -> bool
        ensures { result ≡ true ↔ (length self.now ≡ 0) }
    {
        self.len() == 0
    }

    /// The pairs.
    pub fn as_slice(&self) -> &[(u32, u32)]
        ensures { result.now ≡ self.now }
    {
        self.items.as_slice()
    }
}

/// A chain of resolution steps: the clause with the number `first` is resolved with the clause of each pair in turn,
/// on the pair's pivot. Clauses are numbered from 0: first those that are given, then the results of the chains.
#[derive(Drop)]
pub struct Chain {
    /// The clause to begin with.
    pub first: u32,
    /// The steps.
    pub pairs: Pairs,
}

// Whether no number of 32 bits is left for one chain more.
fn is_full(chains: usize) -> bool
    ensures full { result ≡ true → 4294967295 ≤ chains }
    ensures room { result ≡ false → chains < 4294967295 }
{
    chains >= 0xffff_ffff
}

/// A list of chains, fewer than 2^32. Contracts see the list.
#[derive(Drop)]
pub struct Log {
    chains: Vec<Chain>,
}

impl std::marker::Model for Log {
    ghost use Rattle.std.specs.Prelude.{List, length, ◌<◌};
    ghost use Rattle.resolution_log.specs.declared.Chain.{Chain};

    ghost Value = { List Chain };

    ghost view = { λ s. s.chains.items };

    ghost invariant = { λ s. length s.chains.items < 4294967296 };
}

impl Log {
    /// No chain. It takes no memory.
    pub fn new(alloc: Global) -> Log
        ensures { result ≡ [] }
    {
        Log {
            chains: Vec::new(alloc),
        }
    }

    /// The log of these chains. It takes no memory.
    pub fn from_chains(chains: Vec<Chain>) -> Log
        requires { length chains.items < 4294967296 }
        ensures { result ≡ chains.items }
    {
        Log { chains }
    }

    /// Adds a chain at the end, in no more memory than its pairs need. It fails where memory runs out, or a number of 32
    /// bits for the chain does.
    pub fn push(&mut self, chain: Chain) -> Result<(), AllocError>
        ensures pushed { IfOk result (λ _. self.new ≡ self.old ++ chain ∷ []) }
        ensures kept { OnErr result (self.new ≡ self.old) }
    {
        if is_full(self.chains.len()) {
            return Err(AllocError);
        }
        let Chain { first, mut pairs } = chain;
        pairs.fit();
        self.chains.push(Chain { first, pairs })?;
        Ok(())
    }

    /// How many chains there are.
    pub fn len(&self) -> u32
        ensures { result ≡ length self.now }
    {
        self.chains.len() as u32
    }

    /// Whether there is no chain.
    pub fn is_empty(&self) -> bool
        ensures { result ≡ true ↔ (length self.now ≡ 0) }
    {
        self.len() == 0
    }

    /// The chains.
    pub fn chains(&self) -> &[Chain]
        ensures value { result.now ≡ self.now }
        ensures few { length self.now < 4294967296 }
    {
        self.chains.as_slice()
    }

    /// The chains, to be taken apart. It takes no memory.
    pub fn into_chains(self) -> Vec<Chain>
        ensures value { result.items ≡ self }
        ensures few { length self < 4294967296 }
    {
        self.chains
    }
}

/// Why a log is not accepted.
#[derive(Debug, Drop, Error)]
pub enum LogFail {
    /// The chain with this number, counted from 0, is the first that is not valid.
    #[error("chain {0} is not valid")]
    BadStep(u32),
    /// All chains are valid, and there is none or the last result is not empty.
    #[error("the last result is not the empty clause")]
    NoEmpty,
    /// Memory ran out.
    #[error("out of memory")]
    Memory,
}
