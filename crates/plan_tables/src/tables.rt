//! Tables by number that answer for every number.

ghost use Rattle.std.specs.Prelude.{◌≡◌, IfOk};
ghost use Rattle.plan_tables.specs.Tables.{flag_at};
ghost use Rattle.plan_tables.specs.Made.{count_at, counts_add, counts_new, counts_take, flags_new, flags_set, link_at, links_new, links_set};

use lv_base::Memory;
use std::alloc::Global;
use std::marker::Model;

/// A count as a number, if 32 bits hold it.
pub fn number_of(count: usize) -> Result<u32, Memory>
    ensures made { IfOk result (λ n. n ≡ count) }
{
    match u32::try_from(count) {
        Ok(number) => Ok(number),
        Err(_) => Err(Memory),
    }
}

/// A truth for each number; false past the end. Contracts see the list of them.
#[derive(Drop)]
pub struct Flags {
    items: Vec<bool>,
}

impl Model for Flags {
    ghost use Rattle.std.specs.Prelude.{List, Bool};

    ghost Value = { List Bool };

    ghost view = { λ t. t.items.items };
}

impl Flags {
    /// So many, from 0 on.
    pub fn new(alloc: Global, count: usize) -> Result<Flags, Memory>
        ensures made { IfOk result (λ t. t ≡ flags_new count) }
    {
        let items = vec![in alloc; false; count]?;
        Ok(Flags { items })
    }

    /// The truth of a number.
    pub fn get(&self, number: u32) -> bool
        ensures { result ≡ flag_at self.now number }
    {
        match self.items.get(number as usize) {
            None => false,
            Some(flag) => *flag,
        }
    }

    /// Makes a number's truth true, past the end nothing.
    pub fn set(&mut self, number: u32)
        ensures made { self.new ≡ flags_set self.old number }
    {
        if (number as usize) < self.items.len() {
            self.items[number as usize] = true;
        }
    }
}

/// A number for each number, if there is one. Contracts see the list of them.
#[derive(Drop)]
pub struct Links {
    items: Vec<Option<u32>>,
}

impl Model for Links {
    ghost use Rattle.std.specs.Prelude.{List, Option, ℕ};

    ghost Value = { List (Option ℕ) };

    ghost view = { λ t. t.items.items };
}

impl Links {
    /// So many, from 0 on.
    pub fn new(alloc: Global, count: usize) -> Result<Links, Memory>
        ensures made { IfOk result (λ t. t ≡ links_new count) }
    {
        let items = vec![in alloc; None; count]?;
        Ok(Links { items })
    }

    /// The number of a number, none past the end.
    pub fn get(&self, number: u32) -> Option<u32>
        ensures made { result ≡ link_at self.now number }
    {
        match self.items.get(number as usize) {
            None => None,
            Some(link) => *link,
        }
    }

    /// Gives a number a number or none, past the end nothing.
    pub fn set(&mut self, number: u32, link: Option<u32>)
        ensures made { self.new ≡ links_set self.old number link }
    {
        if (number as usize) < self.items.len() {
            self.items[number as usize] = link;
        }
    }
}

/// A count for each number. Contracts see the list of them.
#[derive(Drop)]
pub struct Counts {
    items: Vec<u32>,
}

impl Model for Counts {
    ghost use Rattle.std.specs.Prelude.{List, ℕ};

    ghost Value = { List ℕ };

    ghost view = { λ t. t.items.items };
}

impl Counts {
    /// So many, from 0 on.
    pub fn new(alloc: Global, count: usize) -> Result<Counts, Memory>
        ensures made { IfOk result (λ t. t ≡ counts_new count) }
    {
        let items = vec![in alloc; 0u32; count]?;
        Ok(Counts { items })
    }

    /// The count of a number, 0 past the end.
    pub fn get(&self, number: u32) -> u32
        ensures made { result ≡ count_at self.now number }
    {
        match self.items.get(number as usize) {
            None => 0,
            Some(count) => *count,
        }
    }

    /// One more.
    pub fn add(&mut self, number: u32)
        ensures made { self.new ≡ counts_add self.old number }
    {
        if (number as usize) < self.items.len() {
            let count = self.items[number as usize];
            self.items[number as usize] = count.saturating_add(1);
        }
    }

    /// One less.
    pub fn take(&mut self, number: u32)
        ensures made { self.new ≡ counts_take self.old number }
    {
        if (number as usize) < self.items.len() {
            let count = self.items[number as usize];
            self.items[number as usize] = count.saturating_sub(1);
        }
    }
}
