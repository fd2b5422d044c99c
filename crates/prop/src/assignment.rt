//! Truth values.

ghost use Rattle.std.specs.Prelude.{◌≡◌, ℕ, Bool, List, []};
ghost use Rattle.prop.specs.Logic.{lit_value, clause_holds, all_hold};
ghost use Rattle.prop.specs.Trues.{listed};

use crate::{Clauses, Lit};
use std::alloc::Global;

/// A truth value for each variable: it keeps the variables that are true, and all others are false. Contracts see
/// the list of the true variables.
#[derive(Drop)]
pub struct Assignment {
    trues: Vec<u32>,
}

impl std::marker::Model for Assignment {
    ghost use Rattle.std.specs.Prelude.{ℕ, List};
    ghost use Rattle.std.specs.List.Sorted.{IsNonDecreasing};

    ghost Value = { List ℕ };

    ghost view = { λ s. s.trues.items };

    ghost invariant = { λ s. IsNonDecreasing s.trues.items };
}

impl Assignment {
    /// All variables are false.
    pub fn new(alloc: Global) -> Assignment
        ensures { result ≡ [] }
    {
        Assignment {
            trues: Vec::new(alloc),
        }
    }

    /// The listed variables are true; their order and number do not matter. It takes no memory.
    pub fn from_trues(trues: Vec<u32>) -> Assignment
        ensures { (var : ℕ) → listed result var ≡ listed trues.items var }
    {
        let mut sorted = trues;
        sorted.sort_unstable();
        Assignment { trues: sorted }
    }

    /// The value of a variable, by binary search.
    pub fn value(&self, var: u32) -> bool
        ensures { result ≡ listed self.now var }
    {
        self.trues.binary_search(&var).is_ok()
    }

    /// The value of a literal.
    pub fn literal(&self, l: Lit) -> bool
        ensures { result ≡ lit_value (listed self.now) l }
    {
        self.value(l.var) == l.positive
    }

    /// Whether some literal of the clause is true.
    pub fn clause(&self, c: &[Lit]) -> bool
        ensures { result ≡ clause_holds (listed self.now) c.now }
    {
        for l in c {
            if self.literal(*l) {
                return true;
            }
        }
        false
    }

    /// Whether every clause is true.
    pub fn satisfies(&self, clauses: &Clauses) -> bool
        ensures { result ≡ all_hold (listed self.now) clauses.now }
    {
        for number in 0..clauses.len() {
            if !self.clause(clauses.clause(number)) {
                return false;
            }
        }
        true
    }

    /// The variables that are true, rising.
    pub fn trues(&self) -> &[u32]
        ensures { result.now ≡ self.now }
    {
        self.trues.as_slice()
    }
}
