//! The trail over dense codes: which literals are true, in what order they became so, at which level and why.
//!
//! The variables that occur are numbered from 0; a literal's code is twice its variable's number, and one more where it
//! is negative. So each look at a literal is one read. Contracts see the fields; the entries that the laws of clause
//! learning speak of are computed from them.
#![tactic(auto)]

ghost use Rattle.std.specs.Prelude.{◌≡◌, ℕ, ◌+◌, ◌*◌, ◌/◌, ◌++◌, ◌∷◌, [], ◌<◌, ◌≤◌, length, IfOk, MatchOption, List, option_to_list, false, true, slice_set};
ghost use Rattle.dense_trail.specs.Dense.{negation, is_true, Valued, Quiet, distinct, falses};

use std::alloc::{AllocError, Global};

/// The code of the same variable with the other sign.
#[inline]
pub fn negation(code: u32) -> u32
    ensures { result ≡ negation code }
{
    if code % 2 == 0 { code + 1 } else { code - 1 }
}

/// The trail. Levels and reasons are kept by the numbers of the variables, and count for those that have a value.
#[derive(Drop)]
pub struct Trail {
    /// The codes of the literals that are true, in the order in which they became so.
    pub codes: Vec<u32>,
    /// Whether a literal is true, by its code.
    pub truth: Vec<bool>,
    /// The level at which a variable got its value: how many decisions stood then, itself included.
    pub levels: Vec<u32>,
    /// The number of the clause that gave a variable its value, or none for a decision.
    pub reasons: Vec<Option<u32>>,
    pub ghost wide: { length truth.items ≡ 2 * length levels.items },
    pub ghost long: { length reasons.items ≡ length levels.items },
    pub ghost few: { length levels.items ≤ 67108864 },
    pub ghost valued: { Valued truth.items codes.items },
    pub ghost quiet: { Quiet truth.items },
    pub ghost distinct: { distinct codes.items ≡ true },
    pub ghost counted: { length codes.items + falses truth.items ≡ length truth.items },
}

impl Trail {
    /// No literal is true; `vars` is how many variables there are.
    pub fn new(alloc: Global, vars: usize) -> Result<Trail, AllocError>
        requires { vars ≤ 67108864 }
        ensures codes { IfOk result (λ t. t.codes.items ≡ []) }
        ensures vars { IfOk result (λ t. length t.levels.items ≡ vars) }
    {
        let truth = vec![in alloc; false; 2 * vars]?;
        let levels = vec![in alloc; 0u32; vars]?;
        let reasons = vec![in alloc; None; vars]?;
        Ok(Trail {
            codes: Vec::new(alloc),
            truth,
            levels,
            reasons,
        })
    }

    /// Makes a literal true whose variable has no value.
    pub fn push(&mut self, code: u32, level: u32, reason: Option<u32>) -> Result<(), AllocError>
        requires below { code < length self.old.truth.items }
        requires free { is_true self.old.truth.items code ≡ false }
        requires free_not { is_true self.old.truth.items (negation code) ≡ false }
        ensures codes { IfOk result (λ _. self.new.codes.items ≡ self.old.codes.items ++ code ∷ []) }
        ensures truth { IfOk result (λ _. self.new.truth.items ≡ slice_set self.old.truth.items code true) }
        ensures levels { IfOk result (λ _. self.new.levels.items ≡ slice_set self.old.levels.items (code / 2) level) }
        ensures reasons { IfOk result (λ _. self.new.reasons.items ≡ slice_set self.old.reasons.items (code / 2) reason) }
    {
        self.codes.push(code)?;
        let number = (code / 2) as usize;
        self.truth[code as usize] = true;
        self.levels[number] = level;
        self.reasons[number] = reason;
        Ok(())
    }

    /// Takes the value of the last literal away. Its level and its reason can still be read.
    pub fn pop(&mut self) -> Option<u32>
        ensures codes { self.old.codes.items ≡ self.new.codes.items ++ option_to_list result }
        ensures truth { MatchOption result (self.old.codes.items ≡ []) (λ code. self.new.truth.items ≡ slice_set self.old.truth.items code false) }
        ensures levels { self.new.levels.items ≡ self.old.levels.items }
        ensures reasons { self.new.reasons.items ≡ self.old.reasons.items }
    {
        let code = self.codes.pop()?;
        self.truth[code as usize] = false;
        Some(code)
    }
}
