ghost use Rattle.std.specs.Prelude.{◌≡◌, ◌<◌, ◌∷◌, [], ℕ, None, length, slice_index_or, IfOk, option_map};
ghost use Rattle.slot_code.specs.Values as c;
ghost use Rattle.slot_values.specs.Seen as seen;

use crate::scene::Link;
use lv_base::Memory;
use std::alloc::Global;
use std::marker::Model;

/// The functions whose code stands. Contracts see their links, the newest first.
#[derive(Drop)]
pub struct Links {
    all: Vec<Link>,
    newest: Vec<Option<Link>>,
}

impl Model for Links {
    ghost use Rattle.std.specs.Prelude.{List};
    ghost use Rattle.slot_code.specs.Values.{Link};
    ghost use Rattle.slot_values.specs.Linked.{links_of, IsIndexed};

    ghost Value = { List Link };

    ghost view = { λ l. links_of l.all.items };

    ghost invariant = { λ l. IsIndexed l.newest.items l.all.items };
}

// A number has a place in the table; those that get one have no link.
fn reach(newest: &mut Vec<Option<Link>>, number: usize) -> Result<(), Memory>
    ensures same { IfOk result (λ _. (f : ℕ) → slice_index_or newest.new.items f None ≡ slice_index_or newest.old.items f None) }
    ensures there { IfOk result (λ _. number < length newest.new.items) }
{
    while newest.len() <= number {
        newest.push(None)?;
    }
    Ok(())
}

impl Links {
    /// No code stands.
    pub fn new(alloc: Global) -> Links
        ensures { result ≡ [] }
    {
        Links {
            all: Vec::new(alloc),
            newest: Vec::new(alloc),
        }
    }

    /// The newest link of a function.
    pub fn find(&self, function: u32) -> Option<Link>
        ensures { option_map seen.link_of result ≡ c.link_of function self.now }
    {
        match self.newest.get(function as usize) {
            None => None,
            Some(link) => *link,
        }
    }

    /// One link more, the newest.
    ///
    /// Fails with `Memory` where there is no more memory.
    pub fn with(self, link: Link) -> Result<Links, Memory>
        ensures { IfOk result (λ links. links ≡ seen.link_of link ∷ self) }
    {
        let Links { all, newest } = self;
        let mut all = all;
        let mut newest = newest;
        let number = link.function as usize;
        reach(&mut newest, number)?;
        newest[number] = Some(link);
        all.push(link)?;
        Ok(Links { all, newest })
    }

    /// The links, the newest last. It takes no memory.
    pub fn into_vec(self) -> Vec<Link>
        ensures { seen.links_of result.items ≡ self }
    {
        let Links { all, newest: _ } = self;
        all
    }
}
