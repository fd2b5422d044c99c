//! The clause so far, and how the literals of another one join it.

ghost use Rattle.std.specs.Prelude.{◌≡◌, ℕ, ◌+◌, ◌*◌, ◌/◌, ◌<◌, ◌≤◌, ◌||◌, length, IfOk, OnErr, List, [], nat_eq};
ghost use Rattle.resolution_log.specs.Codes.{AllBelow};
ghost use Rattle.resolution_log.specs.Marks.{is_marked, AtMost};
ghost use Rattle.conflict_analysis.specs.Notes.{note_stamps, note_learnt, note_here, is_noted};

use dense_trail::Trail;
use std::alloc::{AllocError, Global};

/// The clause so far. It is cleared by a new epoch.
#[derive(Drop)]
pub struct Notes {
    /// A variable is marked where its stamp is the epoch.
    pub stamps: Vec<u32>,
    /// The epoch, which no stamp passes.
    pub epoch: u32,
    /// The literals of lower levels.
    pub learnt: Vec<u32>,
    /// How many literals are of the current level.
    pub here: usize,
    pub ghost most: { AtMost epoch stamps.items },
}

/// Whether a literal does not join: it is left out, or its variable is marked.
#[inline]
pub fn stays_out(stamps: &[u32], epoch: u32, but: u32, code: u32) -> bool
    requires { code / 2 < length stamps.now }
    ensures { result ≡ is_noted epoch stamps.now but code }
{
    code == but || stamps[(code / 2) as usize] == epoch
}

impl Notes {
    /// No literal; `vars` is how many variables there are.
    pub fn new(alloc: Global, vars: usize) -> Result<Notes, AllocError>
        ensures { IfOk result (λ s. length s.stamps.items ≡ vars) }
    {
        let stamps = vec![in alloc; 0u32; vars]?;
        Ok(Notes {
            stamps,
            epoch: 0,
            learnt: Vec::new(alloc),
            here: 0,
        })
    }

    /// Takes all literals away. It fails where the epochs of 32 bits run out.
    pub fn clear(&mut self) -> Result<(), AllocError>
        ensures epoch { IfOk result (λ _. self.new.epoch ≡ self.old.epoch + 1) }
        ensures stamps { IfOk result (λ _. self.new.stamps.items ≡ self.old.stamps.items) }
        ensures learnt { IfOk result (λ _. self.new.learnt.items ≡ []) }
        ensures here { IfOk result (λ _. self.new.here ≡ 0) }
        ensures cause { OnErr result (4294967295 ≤ self.old.epoch) }
    {
        if self.epoch >= 0xffff_ffff {
            return Err(AllocError);
        }
        self.epoch += 1;
        self.learnt.clear();
        self.here = 0;
        Ok(())
    }

    /// Adds the literals of a clause but one. New ones of lower levels are listed, new ones of the current level counted.
    pub fn note(
        &mut self,
        trail: &Trail,
        level: u32,
        row: &[u32],
        but: u32,
    ) -> Result<(), AllocError>
        requires stamps { length self.old.stamps.items ≡ length trail.now.levels.items }
        requires below { AllBelow (2 * length trail.now.levels.items) row.now }
        requires few { self.old.here ≤ 134217728 }
        ensures stamps { IfOk result (λ _. self.new.stamps.items ≡ note_stamps self.old.epoch but self.old.stamps.items row.now) }
        ensures learnt { IfOk result (λ _. self.new.learnt.items ≡ note_learnt self.old.epoch but level trail.now.levels.items self.old.stamps.items self.old.learnt.items row.now) }
        ensures here { IfOk result (λ _. self.new.here ≡ note_here self.old.epoch but level trail.now.levels.items self.old.stamps.items self.old.here row.now) }
        ensures epoch { IfOk result (λ _. self.new.epoch ≡ self.old.epoch) }
    {
        for code in row {
            if stays_out(self.stamps.as_slice(), self.epoch, but, *code) {
                continue;
            }
            let number = (*code / 2) as usize;
            self.stamps[number] = self.epoch;
            if trail.levels[number] == level {
                self.here += 1;
                continue;
            }
            self.learnt.push(*code)?;
        }
        Ok(())
    }
}
