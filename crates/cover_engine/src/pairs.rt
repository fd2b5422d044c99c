//! The pairs of an unwinding. Beside them stands how many there are onto each vertex, so that a unit looks through the pairs
//! only where one of them falls.
ghost use Rattle.std.specs.Prelude.{ℕ, ◌≡◌, ◌+◌, ◌<◌, ◌≤◌, ◌++◌, ◌∷◌, [], List, length, slice_index, IfOk, OnOk, OnErr};
ghost use Rattle.cover_engine.specs.Unwindings.{Pair};
ghost use Rattle.cover_engine.specs.Units.{pairs_but_onto, pairs_but_under};
ghost use Rattle.cover_engine.specs.Caches.{AreInside, IsFamily, below, lead_onto, pairs_onto, pairs_under, rights, times};

use crate::look_up::above_at;
use crate::refinement::has_number;
use lv_base::Memory;
use reach_tree::{Vertex, VertexId};
use std::alloc::Global;
use std::marker::Model;

/// Pairs in the order in which they came. Contracts see the list of them.
#[derive(Drop)]
pub struct Pairs {
    items: Vec<(VertexId, VertexId)>,
    /// For each number of a vertex how many pairs have it as their right side; past the end none.
    onto: Vec<u32>,
}

impl Model for Pairs {
    ghost use Rattle.std.specs.Prelude.{List};
    ghost use Rattle.cover_engine.specs.Unwindings.{Pair};
    ghost use Rattle.cover_engine.specs.Caches.{AreOnto};

    ghost Value = { List Pair };

    ghost view = { λ p. p.items.items };

    ghost invariant = { λ p. AreOnto p.items.items p.onto.items };
}

impl Pairs {
    /// No pairs. It takes no memory.
    pub fn new(alloc: Global) -> Pairs
        ensures { result ≡ [] }
    {
        Pairs {
            items: Vec::new(alloc),
            onto: Vec::new(alloc),
        }
    }

    /// The pairs, the left side of each before its right side.
    pub fn as_slice(&self) -> &[(VertexId, VertexId)]
        ensures { result.now ≡ self.now }
    {
        &self.items
    }

    /// How many pairs are onto the vertex of a number.
    fn count_onto(&self, number: u32) -> u32
        ensures { result ≡ times number (rights self.now) }
    {
        match self.onto.get(number as usize) {
            Some(count) => *count,
            None => 0,
        }
    }

    /// Whether some pair is onto one of these vertices.
    fn lead_onto(&self, numbers: &[u32]) -> bool
        ensures { result ≡ lead_onto self.now numbers.now }
    {
        for number in numbers {
            if self.count_onto(*number) > 0 {
                return true;
            }
        }
        false
    }

    /// The pairs onto the vertex and onto those below it, where these are given. They are looked for only where there are
    /// any.
    pub fn fallen_under(
        &self,
        alloc: Global,
        vertices: &[Vertex],
        v: VertexId,
        under: &[u32],
    ) -> Result<Vec<(VertexId, VertexId)>, Memory>
        requires family { IsFamily vertices.now }
        requires inside { AreInside vertices.now self.now }
        requires vertex { v.0 < length vertices.now }
        requires under { under.now ≡ below vertices.now v.0 }
        ensures { IfOk result (λ r. r.items ≡ pairs_under vertices.now v self.now) }
    {
        if !self.lead_onto(under) {
            return Ok(Vec::new(alloc));
        }
        pairs_fallen_under(alloc, vertices, v, &self.items)
    }

    /// The pairs onto these vertices. They are looked for only where there are any.
    pub fn fallen_onto(
        &self,
        alloc: Global,
        numbers: &[u32],
    ) -> Result<Vec<(VertexId, VertexId)>, Memory>
        ensures { IfOk result (λ r. r.items ≡ pairs_onto numbers.now self.now) }
    {
        if !self.lead_onto(numbers) {
            return Ok(Vec::new(alloc));
        }
        pairs_fallen_onto(alloc, numbers, &self.items)
    }

    /// Appends a pair.
    pub fn push(&mut self, v: VertexId, w: VertexId) -> Result<(), Memory>
        requires { length self.old < 4294967295 }
        ensures pushed { OnOk result (self.new ≡ self.old ++ (v, w) ∷ []) }
        ensures unchanged { OnErr result (self.new ≡ self.old) }
    {
        grow(&mut self.onto, w.0 as usize)?;
        self.items.push((v, w))?;
        self.onto[w.0 as usize] += 1;
        Ok(())
    }

    /// Takes the last pair away.
    pub fn pop(&mut self)
        ensures { (ps : List Pair) (p : Pair) → self.old ≡ ps ++ p ∷ [] → self.new ≡ ps }
    {
        match self.items.pop() {
            None => {}
            Some(pair) => self.onto[pair.1.0 as usize] -= 1,
        }
    }

    /// Takes away the pairs onto the vertex and onto those below it, which are given. It takes no memory.
    pub fn drop_under(&mut self, vertices: &[Vertex], v: VertexId, fallen: &[(VertexId, VertexId)])
        requires family { IsFamily vertices.now }
        requires inside { AreInside vertices.now self.old }
        requires fallen { fallen.now ≡ pairs_under vertices.now v self.old }
        ensures { self.new ≡ pairs_but_under vertices.now v self.old }
    {
        if fallen.is_empty() {
            return;
        }
        lower_onto(&mut self.onto, fallen);
        keep_others_under(&mut self.items, vertices, v);
    }

    /// Takes away the pairs onto these vertices, which are given. It takes no memory.
    pub fn drop_onto(&mut self, numbers: &[u32], fallen: &[(VertexId, VertexId)])
        requires { fallen.now ≡ pairs_onto numbers.now self.old }
        ensures { self.new ≡ pairs_but_onto numbers.now self.old }
    {
        if fallen.is_empty() {
            return;
        }
        lower_onto(&mut self.onto, fallen);
        keep_others_onto(&mut self.items, numbers);
    }
}

/// Appends zeros until the number is one of the counts.
fn grow(counts: &mut Vec<u32>, number: usize) -> Result<(), Memory>
    ensures same { (z : ℕ) → slice_index counts.new.items z ≡ slice_index counts.old.items z }
    ensures there { OnOk result (number < length counts.new.items) }
{
    while counts.len() <= number {
        counts.push(0)?;
    }
    Ok(())
}

/// Lowers the count of the right side of each pair by one.
fn lower_onto(counts: &mut Vec<u32>, pairs: &[(VertexId, VertexId)])
    requires { (z : ℕ) → times z (rights pairs.now) ≤ slice_index counts.old.items z }
    ensures { (z : ℕ) → slice_index counts.new.items z + times z (rights pairs.now) ≡ slice_index counts.old.items z }
{
    for pair in pairs {
        counts[pair.1.0 as usize] -= 1;
    }
}

/// The pairs whose right side is the vertex or below it.
fn pairs_fallen_under(
    alloc: Global,
    vertices: &[Vertex],
    v: VertexId,
    pairs: &[(VertexId, VertexId)],
) -> Result<Vec<(VertexId, VertexId)>, Memory>
    requires family { IsFamily vertices.now }
    requires inside { AreInside vertices.now pairs.now }
    ensures { IfOk result (λ r. r.items ≡ pairs_under vertices.now v pairs.now) }
{
    let mut fallen = Vec::new(alloc);
    for pair in pairs {
        if above_at(vertices, v.0 as usize, pair.1.0 as usize) {
            fallen.push(*pair)?;
        }
    }
    Ok(fallen)
}

/// The pairs whose right side is one of these vertices.
fn pairs_fallen_onto(
    alloc: Global,
    numbers: &[u32],
    pairs: &[(VertexId, VertexId)],
) -> Result<Vec<(VertexId, VertexId)>, Memory>
    ensures { IfOk result (λ r. r.items ≡ pairs_onto numbers.now pairs.now) }
{
    let mut fallen = Vec::new(alloc);
    for pair in pairs {
        if has_number(numbers, pair.1.0) {
            fallen.push(*pair)?;
        }
    }
    Ok(fallen)
}

/// Keeps the pairs whose right side is neither the vertex nor below it, moved to the front.
fn keep_others_under(pairs: &mut Vec<(VertexId, VertexId)>, vertices: &[Vertex], v: VertexId)
    requires family { IsFamily vertices.now }
    requires inside { AreInside vertices.now pairs.old.items }
    ensures { pairs.new.items ≡ pairs_but_under vertices.now v pairs.old.items }
{
    let mut kept = 0;
    let mut at = 0;
    while at < pairs.len() {
        let pair = pairs[at];
        at += 1;
        if !above_at(vertices, v.0 as usize, pair.1.0 as usize) {
            pairs[kept] = pair;
            kept += 1;
        }
    }
    pairs.truncate(kept);
}

/// Keeps the pairs whose right side is none of these vertices, moved to the front.
fn keep_others_onto(pairs: &mut Vec<(VertexId, VertexId)>, numbers: &[u32])
    ensures { pairs.new.items ≡ pairs_but_onto numbers.now pairs.old.items }
{
    let mut kept = 0;
    let mut at = 0;
    while at < pairs.len() {
        let pair = pairs[at];
        at += 1;
        if !has_number(numbers, pair.1.0) {
            pairs[kept] = pair;
            kept += 1;
        }
    }
    pairs.truncate(kept);
}
