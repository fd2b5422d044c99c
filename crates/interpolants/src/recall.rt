//! What a walk over a log found clauses to be.

ghost use Rattle.std.specs.Prelude.{◌≡◌, ◌≤◌, Some, length, slice_get, slice_set, IfOk, IfSome, IfNone, All};
ghost use Rattle.interpolants.specs.declared.items.Formula.{Formula};
ghost use Rattle.interpolants.specs.Memos.{IsBlank};

use crate::items::{Formula, Mark};
use lv_base::Memory;
use std::alloc::Global;
use std::marker::Model;

/// Formulas of clauses, by the clauses' numbers. A mark counts only in its epoch, so that one table serves all walks without being
/// cleared. Contracts see the formulas that count.
#[derive(Drop)]
pub struct Memo {
    marks: Vec<Mark>,
    epoch: u32,
}

impl Model for Memo {
    ghost use Rattle.std.specs.Prelude.{ℕ, List, Option, All, map, ◌≤◌};
    ghost use Rattle.interpolants.specs.declared.items.Formula.{Formula};
    ghost use Rattle.interpolants.specs.Memos.{shown};

    ghost Value = { List (Option Formula) };

    ghost view = { λ m. map (shown m.epoch) m.marks.items };

    ghost invariant = { λ m. All (λ k. k.epoch ≤ m.epoch) m.marks.items };
}

// Takes all marks back into the first epoch, in which none counts.
fn take_back(marks: &mut [Mark])
    ensures { All (λ m. m.epoch ≤ 0) marks.new }
{
    for mark in marks.iter_mut() {
        *mark = Mark {
            epoch: 0,
            formula: mark.formula,
        };
    }
}

impl Memo {
    /// A table for so many clauses, without a formula.
    pub fn new(alloc: Global, count: usize) -> Result<Memo, Memory>
        ensures { IfOk result (λ m. length m ≡ count) }
    {
        let blank = Mark {
            epoch: 0,
            formula: Formula(0),
        };
        let marks = vec![in alloc; blank; count]?;
        Ok(Memo { marks, epoch: 0 })
    }

    /// Forgets all formulas. It takes no memory.
    pub fn forget(&mut self)
        ensures blank { IsBlank self.new }
        ensures long { length self.new ≡ length self.old }
    {
        if self.epoch == u32::MAX {
            take_back(&mut self.marks);
            self.epoch = 1;
            return;
        }
        self.epoch += 1;
    }

    /// The formula of a clause, if there is one. It takes no memory.
    pub fn find(&self, at: usize) -> Option<Formula>
        ensures found { IfSome result (λ f. slice_get self.now at ≡ Some (Some f)) }
        ensures none { IfNone result ((f : Formula) → slice_get self.now at ≡ Some (Some f) → ⊥) }
    {
        if at < self.marks.len() && self.marks[at].epoch == self.epoch {
            return Some(self.marks[at].formula);
        }
        None
    }

    /// Writes a clause's formula down, if the table has the number. It takes no memory.
    pub fn set(&mut self, at: usize, formula: Formula)
        ensures { self.new ≡ slice_set self.old at (Some formula) }
    {
        if at < self.marks.len() {
            self.marks[at] = Mark {
                epoch: self.epoch,
                formula,
            };
        }
    }
}
