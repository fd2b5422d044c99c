//! The trail: the literals that are true, in the order in which they became so, with values and levels by variable.

ghost use Rattle.std.specs.Prelude.{◌≡◌, ℕ, ◌+◌, ◌*◌, ◌++◌, ◌∷◌, [], ◌<◌, ◌≤◌, ◌^◌, length, IfOk, OnErr, Some, None, List, vec_len, option_to_list, MatchOption, true, false, cond};
ghost use Rattle.std.specs.List.Sorted.{IsStrictlyIncreasing};
ghost use Rattle.prop.specs.Logic.{negated};
ghost use Rattle.prop.specs.Trues.{listed};
ghost use Rattle.clause_learning.specs.Trail.{set_in, set_at, Set};
ghost use Rattle.plain_solver.specs.Scan.{look_of, scan_of};
ghost use Rattle.clause_learning.specs.Covers.{Valued, Levelled, IsCovered, distinct};

use crate::Known;
use clause_learning::Entry;
use prop::Lit;
use resolution_log::number_of;
use std::alloc::{AllocError, Global};

/// The trail. Values and levels are kept by the numbers of the variables, so a look at a literal is one read.
#[derive(Drop)]
pub struct Trail {
    /// The variables that occur, rising; a variable's number is its place.
    pub vars: Vec<u32>,
    /// The entries in order.
    pub entries: Vec<Entry>,
    /// Whether a literal is true, by its code.
    pub truth: Vec<bool>,
    /// The level of a variable that has a value, by its number.
    pub levels: Vec<usize>,
    pub ghost rising: { IsStrictlyIncreasing vars.items },
    pub ghost few: { length vars.items ≤ 67108864 },
    pub ghost wide: { length truth.items ≡ 2 * length vars.items },
    pub ghost long: { length levels.items ≡ length vars.items },
    pub ghost valued: { Valued vars.items truth.items entries.items },
    pub ghost levelled: { Levelled vars.items levels.items entries.items },
    pub ghost covered: { IsCovered vars.items entries.items },
    pub ghost distinct: { distinct entries.items ≡ true },
}

/// What a clause is under a trail.
#[derive(Clone, Copy)]
pub enum Look {
    /// All literals are false.
    AllFalse,
    /// All literals but this one are false, and it has no value.
    Lone(Lit),
    /// Some literal is true.
    Satisfied,
    /// Two different literals have no value; this is one of them.
    Open(Lit),
}

/// What a scan of all clauses finds.
#[derive(Clone, Copy)]
pub enum Found {
    /// All literals of the clause with this number are false.
    Conflict(u32),
    /// The clause with this number makes the literal true.
    Implied(u32, Lit),
    /// Propagation is at its end, and this literal has no value.
    Free(Lit),
    /// Every clause has a true literal.
    Done,
}

// The code of a literal with this number.
#[inline]
fn code_at(number: u32, positive: bool) -> usize
    requires { number < 67108864 }
    ensures { result ≡ 2 * number + cond positive 0 1 }
{
    2 * number as usize + if positive { 0 } else { 1 }
}

impl Trail {
    /// Whether a literal is true.
    #[inline]
    pub fn is_true(&self, l: Lit) -> bool
        ensures { result ≡ set_in self.now.entries.items l }
    {
        match number_of(self.vars.as_slice(), l.var) {
            Some(number) => self.truth[code_at(number, l.positive)],
            None => false,
        }
    }

    /// Whether a literal is true, and became so at this level or below.
    pub fn is_true_at(&self, level: usize, l: Lit) -> bool
        ensures { result ≡ set_at level self.now.entries.items l }
    {
        match number_of(self.vars.as_slice(), l.var) {
            Some(number) => {
                self.truth[code_at(number, l.positive)] && self.levels[number as usize] <= level
            }
            None => false,
        }
    }

    /// Adds an entry for a literal whose variable has no value.
    pub fn push(&mut self, e: Entry) -> Result<(), AllocError>
        requires listed { listed self.old.vars.items e.lit.var ≡ true }
        requires free { Set self.old.entries.items e.lit → ⊥ }
        requires free_not { Set self.old.entries.items (negated e.lit) → ⊥ }
        ensures vars { self.new.vars.items ≡ self.old.vars.items }
        ensures entries { IfOk result (λ _. self.new.entries.items ≡ self.old.entries.items ++ e ∷ []) }
    {
        self.entries.push(e)?;
        let Some(number) = number_of(self.vars.as_slice(), e.lit.var) else {
            unreachable!()
        };
        self.truth[code_at(number, e.lit.positive)] = true;
        self.levels[number as usize] = e.level;
        Ok(())
    }

    /// Takes the last entry away.
    pub fn pop(&mut self) -> Option<Entry>
        ensures vars { self.new.vars.items ≡ self.old.vars.items }
        ensures entries { self.old.entries.items ≡ self.new.entries.items ++ option_to_list result }
        ensures ended { MatchOption result (self.old.entries.items ≡ []) (λ _. Unit {0}) }
    {
        let e = self.entries.pop()?;
        if let Some(number) = number_of(self.vars.as_slice(), e.lit.var) {
            self.truth[code_at(number, e.lit.positive)] = false;
        }
        Some(e)
    }
}
