ghost use Rattle.std.specs.Prelude.{◌≡◌, ◌<◌, ◌++◌, ◌∷◌, [], ℕ, length, map, nat_eq, slice_index_or, Some, IfOk, OnErr, IfSome, IfNone, false, if◌then◌else◌};
ghost use Rattle.std.specs.HashMap.{get};
ghost use Rattle.bit_blast.specs.declared.done.Done.{Done};
ghost use Rattle.bit_blast.specs.Done.{lits_of, is_done, Placed};
ghost use Rattle.bit_blast.specs.Places.{known};

use bit_gates::NoRoom;
use prop::Lit;
use std::alloc::Global;
use std::collections::HashMap;
use std::marker::Model;

/// A term that is done, and its literals, lowest bit first.
#[derive(Drop)]
pub struct Done {
    pub term: u32,
    pub lits: Vec<Lit>,
}

/// Terms that count as done. A map has the place of each term that was named since there is this list; a place counts only
/// where the term there points back to it, so that all terms are forgotten in the time of dropping their literals.
#[derive(Drop)]
pub struct DoneTerms {
    places: HashMap<u32, usize>,
    done: Vec<Done>,
}

impl Model for DoneTerms {
    ghost use Rattle.std.specs.Prelude.{List, map, nat_eq};
    ghost use Rattle.std.specs.HashMap.{get};
    ghost use Rattle.bit_blast.specs.Done.{Known, Placed};
    ghost use Rattle.bit_blast.specs.Places.{known};

    ghost Value = { List Known };

    ghost view = { λ s. map known s.done.items };

    ghost invariant = { λ s. Placed (get nat_eq s.places) 0 (map known s.done.items) };
}

// Notes the place of a term.
fn put_place(places: &mut HashMap<u32, usize>, term: u32, at: usize) -> Result<(), NoRoom>
    ensures found { IfOk result (λ _. (k : ℕ) → get nat_eq places.new k ≡ (if nat_eq term k then Some at else get nat_eq places.old k)) }
    ensures same { OnErr result ((k : ℕ) → get nat_eq places.new k ≡ get nat_eq places.old k) }
{
    match places.insert(term, at) {
        Ok(_) => Ok(()),
        Err(_) => Err(NoRoom),
    }
}

// Appends a term.
fn push_done(done: &mut Vec<Done>, one: Done) -> Result<(), NoRoom>
    ensures items { IfOk result (λ _. done.new.items ≡ done.old.items ++ one ∷ []) }
    ensures same { OnErr result (done.new.items ≡ done.old.items) }
{
    match done.push(one) {
        Ok(()) => Ok(()),
        Err(_) => Err(NoRoom),
    }
}

// Adds a term that is not done, with its place.
fn enter(
    places: &mut HashMap<u32, usize>,
    done: &mut Vec<Done>,
    term: u32,
    lits: Vec<Lit>,
) -> Result<(), NoRoom>
    requires fresh { is_done (map known done.old.items) term ≡ false }
    requires placed { Placed (get nat_eq places.old) 0 (map known done.old.items) }
    ensures placed { Placed (get nat_eq places.new) 0 (map known done.new.items) }
    ensures done { IfOk result (λ _. map known done.new.items ≡ map known done.old.items ++ record { term = term; lits = lits.items } ∷ []) }
{
    let at = done.len();
    put_place(places, term, at)?;
    push_done(done, Done { term, lits })?;
    Ok(())
}

// Where a term stands among those that are done.
fn place_of(places: &HashMap<u32, usize>, done: &[Done], term: u32) -> Option<usize>
    ensures found { IfSome result (λ k. (k < length done.now) × (get nat_eq places.now term ≡ Some k)
        × ((d : Done) → (slice_index_or done.now k d).term ≡ term)) }
    ensures none { IfNone result ((k : ℕ) (d : Done) → get nat_eq places.now term ≡ Some k → k < length done.now
        → (slice_index_or done.now k d).term ≡ term → ⊥) }
{
    let Some(place) = places.get(&term).copied() else {
        return None;
    };
    if place >= done.len() {
        return None;
    }
    if done[place].term != term {
        return None;
    }
    Some(place)
}

impl DoneTerms {
    /// No term. It takes no memory.
    pub fn new(alloc: Global) -> DoneTerms
        ensures { result ≡ [] }
    {
        DoneTerms {
            places: HashMap::new(alloc),
            done: Vec::new(alloc),
        }
    }

    /// Whether a term is done.
    pub fn has(&self, term: u32) -> bool
        ensures { result ≡ is_done self.now term }
    {
        match place_of(&self.places, &self.done, term) {
            Some(_) => true,
            None => false,
        }
    }

    /// The literals of a term, none where it is not done.
    pub fn lits(&self, term: u32) -> &[Lit]
        ensures { result.now ≡ lits_of self.now term }
    {
        match place_of(&self.places, &self.done, term) {
            Some(place) => &self.done[place].lits,
            None => &[],
        }
    }

    /// Adds a term that is not done.
    pub fn push(&mut self, term: u32, lits: Vec<Lit>) -> Result<(), NoRoom>
        requires { is_done self.old term ≡ false }
        ensures { IfOk result (λ _. self.new ≡ self.old ++ record { term = term; lits = lits.items } ∷ []) }
    {
        enter(&mut self.places, &mut self.done, term, lits)
    }

    /// Forgets all terms.
    pub fn clear(&mut self)
        ensures { self.new ≡ [] }
    {
        self.done.clear();
    }
}
