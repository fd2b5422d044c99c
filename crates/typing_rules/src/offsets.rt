//! Offsets of tokens in a list, of which each is found at once.
ghost use Rattle.std.specs.Prelude.{◌≡◌, ℕ, cond, true, nat_eq, IfOk};
ghost use Rattle.std.specs.HashSet.{contains};
ghost use Rattle.typing_rules.specs.Summed.{is_again};

use lv_base::Memory;
use std::alloc::Global;
use std::collections::HashSet;
use std::marker::Model;

/// Offsets of tokens, in the order in which they were listed. The set has the same ones.
#[derive(Drop)]
pub struct Offsets {
    listed: Vec<u32>,
    set: HashSet<u32>,
}

impl Model for Offsets {
    ghost use Rattle.std.specs.Prelude.{◌≡◌, ℕ, List, nat_eq};
    ghost use Rattle.std.specs.HashSet.{contains};
    ghost use Rattle.typing_rules.specs.Summed.{is_again};

    ghost Value = { List ℕ };

    ghost view = { λ s. s.listed.items };

    ghost invariant = { λ s. (at : ℕ) → contains nat_eq s.set at ≡ is_again s.listed.items at };
}

fn put(set: &mut HashSet<u32>, at: u32) -> Result<(), Memory>
    ensures { IfOk result (λ _. (k : ℕ) → contains nat_eq set.new k ≡ cond (nat_eq at k) true (contains nat_eq set.old k)) }
{
    set.insert(at)?;
    Ok(())
}

fn set_of(alloc: Global, list: &[u32]) -> Result<HashSet<u32>, Memory>
    ensures { IfOk result (λ r. (k : ℕ) → contains nat_eq r k ≡ is_again list.now k) }
{
    let mut set = HashSet::new(alloc);
    for at in list {
        put(&mut set, *at)?;
    }
    Ok(set)
}

impl Offsets {
    /// These offsets.
    ///
    /// Fails with `Memory`.
    pub fn of(alloc: Global, listed: Vec<u32>) -> Result<Offsets, Memory>
        ensures { IfOk result (λ r. r ≡ listed.items) }
    {
        let set = set_of(alloc, &listed)?;
        Ok(Offsets { listed, set })
    }

    /// Whether the offset is one of them.
    pub fn holds(&self, at: u32) -> bool
        ensures { result ≡ is_again self.now at }
    {
        self.set.contains(&at)
    }
}
