//! What a log's chains come from, and which of them the last one comes from.

ghost use Rattle.std.specs.Prelude.{◌≡◌, ◌≤◌, ◌<◌, ◌-◌, ◌↔◌, ℕ, Bool, true, false, [], Some, length, slice_get, slice_index_or, IfOk, IsTrue};
ghost use Rattle.resolution_log.specs.declared.Chain.{Chain};
ghost use Rattle.interpolants.specs.Sources.{IsCone, IsMet, IsNeeded, Names, chain_low, low_of, lower, lows_after};

use lv_base::Memory;
use resolution_log::Chain;
use std::alloc::Global;

/// For each chain of a log the lowest clause that it comes from, and whether the last chain comes from it.
#[derive(Drop)]
pub struct Cone {
    clauses: u32,
    lows: Vec<u32>,
    needed: Vec<bool>,
}

// The lowest clause that the clause of a number comes from. A number that names no earlier clause stands in no valid log; nothing is known
// of what it comes from, so it may be the first clause.
fn low_of(clauses: u32, lows: &[u32], number: u32) -> u32
    ensures { result ≡ low_of clauses lows.now number }
{
    if number < clauses {
        return number;
    }
    let place = (number - clauses) as usize;
    if place < lows.len() { lows[place] } else { 0 }
}

fn lower(one: u32, other: u32) -> u32
    ensures { result ≡ lower one other }
{
    if other < one { other } else { one }
}

// The lowest clause that a chain comes from.
fn low_of_chain(clauses: u32, lows: &[u32], chain: &Chain) -> u32
    ensures { result ≡ chain_low clauses lows.now chain.now }
{
    let mut low = low_of(clauses, lows, chain.first);
    for pair in chain.pairs.as_slice() {
        low = lower(low, low_of(clauses, lows, pair.1));
    }
    low
}

fn lows_of(alloc: Global, clauses: u32, chains: &[Chain]) -> Result<Vec<u32>, Memory>
    ensures length { IfOk result (λ lows. length lows.items ≡ length chains.now) }
    ensures lows { IfOk result (λ lows. lows.items ≡ lows_after clauses [] chains.now) }
{
    let mut lows = Vec::new(alloc);
    for chain in chains {
        let low = low_of_chain(clauses, &lows, chain);
        lows.push(low)?;
    }
    Ok(lows)
}

// Marks the chain whose result has this number, if one has.
fn mark(needed: &mut [bool], clauses: u32, number: u32) {
    if number < clauses {
        return;
    }
    let place = (number - clauses) as usize;
    if place < needed.len() {
        needed[place] = true;
    }
}

// Marks the chains that a chain names.
fn mark_named(needed: &mut [bool], clauses: u32, chain: &Chain) {
    mark(needed, clauses, chain.first);
    for pair in chain.pairs.as_slice() {
        mark(needed, clauses, pair.1);
    }
}

// Marks all chains that marked ones come from.
fn mark_below(needed: &mut [bool], clauses: u32, chains: &[Chain])
    requires { length needed.old ≡ length chains.now }
{
    for back in 0..chains.len() {
        let place = chains.len() - 1 - back;
        if needed[place] {
            mark_named(needed, clauses, &chains[place]);
        }
    }
}

// Whether the chain of a number's result is marked, if one has it.
fn is_marked(needed: &[bool], clauses: u32, number: u32) -> bool
    ensures { result ≡ true → IsNeeded clauses needed.now number }
{
    if number < clauses {
        return true;
    }
    let place = (number - clauses) as usize;
    if place >= needed.len() {
        return true;
    }
    needed[place]
}

// Whether all chains that a chain names are marked.
fn are_marked(needed: &[bool], clauses: u32, chain: &Chain) -> bool
    ensures { result ≡ true → (m : ℕ) → Names chain.now m → IsNeeded clauses needed.now m }
{
    if !is_marked(needed, clauses, chain.first) {
        return false;
    }
    for pair in chain.pairs.as_slice() {
        if !is_marked(needed, clauses, pair.1) {
            return false;
        }
    }
    true
}

// Whether all chains that marked ones name are marked.
fn is_closed(needed: &[bool], clauses: u32, chains: &[Chain]) -> bool
    requires { length needed.now ≡ length chains.now }
    ensures { result ≡ true → (k : ℕ) (ch : Chain) (m : ℕ) → slice_get chains.now k ≡ Some ch → slice_index_or needed.now k false ≡ true → Names ch m → IsNeeded clauses needed.now m }
{
    for place in 0..chains.len() {
        if needed[place] && !are_marked(needed, clauses, &chains[place]) {
            return false;
        }
    }
    true
}

// Whether the marks are those of a cone.
fn is_cone(needed: &[bool], clauses: u32, chains: &[Chain]) -> bool
    requires { length needed.now ≡ length chains.now }
    ensures { result ≡ true → IsCone clauses needed.now chains.now }
{
    if chains.is_empty() {
        return true;
    }
    if !needed[chains.len() - 1] {
        return false;
    }
    is_closed(needed, clauses, chains)
}

// Marks the last chain, and all that it comes from. In a log whose chains name earlier ones alone, the marks are those of a cone; of any
// other log all are needed.
fn needed_of(alloc: Global, clauses: u32, chains: &[Chain]) -> Result<Vec<bool>, Memory>
    ensures length { IfOk result (λ needed. length needed.items ≡ length chains.now) }
    ensures cone { IfOk result (λ needed. IsCone clauses needed.items chains.now) }
{
    let mut needed = vec![in alloc; false; chains.len()]?;
    if let Some(last) = needed.last_mut() {
        *last = true;
    }
    mark_below(&mut needed, clauses, chains);
    if is_cone(&needed, clauses, chains) {
        return Ok(needed);
    }
    let all = vec![in alloc; true; chains.len()]?;
    Ok(all)
}

impl Cone {
    /// The cone of a log over so many clauses.
    pub fn new(alloc: Global, clauses: u32, chains: &[Chain]) -> Result<Cone, Memory>
        ensures clauses { IfOk result (λ c. c.clauses ≡ clauses) }
        ensures lows { IfOk result (λ c. length c.lows.items ≡ length chains.now) }
        ensures needed { IfOk result (λ c. length c.needed.items ≡ length chains.now) }
        ensures sources { IfOk result (λ c. c.lows.items ≡ lows_after clauses [] chains.now) }
        ensures cone { IfOk result (λ c. IsCone clauses c.needed.items chains.now) }
    {
        let lows = lows_of(alloc, clauses, chains)?;
        let needed = needed_of(alloc, clauses, chains)?;
        Ok(Cone {
            clauses,
            lows,
            needed,
        })
    }

    /// Whether all clauses that the clause of a number comes from have this number or a greater one. It takes no memory.
    pub fn is_behind(&self, number: u32, edge: u32) -> bool
        ensures { IsTrue result ↔ (edge ≤ low_of self.now.clauses self.now.lows.items number) }
    {
        low_of(self.clauses, &self.lows, number) >= edge
    }

    /// Whether the last chain comes from the chain at a place, and that one from a clause below this number. It takes no memory.
    pub fn is_met(&self, place: usize, edge: u32) -> bool
        ensures { IsTrue result ↔ IsMet self.now.lows.items self.now.needed.items place edge }
    {
        place < self.needed.len()
            && place < self.lows.len()
            && self.needed[place]
            && self.lows[place] < edge
    }
}
