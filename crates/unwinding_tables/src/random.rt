//! `random SEED ROUNDS UNITS TOTAL EACH`: in each round up to so many random legal units over the graph of a loop that ends, or
//! in every second round goes back two ways. What the unwinding has and answers behind each unit, of each vertex, of all, and of
//! some pairs, is what a plain replay of its journal says; there are so many units in all at least, and so many of each kind.
//!
//! The plain replay makes labels, pairs and settled pairs as the units of a journal say, one after another. Of the unwinding itself it
//! reads the journal and whose child each vertex is.

use crate::{is_covered, settles};
use c_graph::Node;
use cover_engine::{UnitDone, Unwinding};
use loop_journey::Journey;
use lv_base::Memory;
use rand_core::{Rng, SeedableRng};
use rand_xoshiro::Xoshiro256PlusPlus;
use reach_tree::{Vertex, VertexId};
use row_text::{RowFail, Table, fields, numbers};
use std::alloc::Global;

// How many units of each kind there are.
#[derive(Clone, Copy, Debug, Drop)]
struct Kinds {
    expands: u32,
    refines: u32,
    covers: u32,
    parts: u32,
}

impl Kinds {
    // None.
    fn none() -> Kinds {
        Kinds {
            expands: 0,
            refines: 0,
            covers: 0,
            parts: 0,
        }
    }

    // Counts one more.
    fn add(&mut self, unit: &UnitDone) {
        match unit {
            UnitDone::Expand(_) => self.expands = self.expands.saturating_add(1),
            UnitDone::Refine(_, _) => self.refines = self.refines.saturating_add(1),
            UnitDone::CoverYes(_, _) => self.covers = self.covers.saturating_add(1),
            UnitDone::CoverNo(_, _, _) => self.parts = self.parts.saturating_add(1),
        }
    }

    // Counts the units of a journal too.
    fn add_all(&mut self, journal: &[UnitDone]) {
        for unit in journal {
            self.add(unit);
        }
    }

    // How many there are of all kinds.
    fn total(self) -> u32 {
        self.expands
            .saturating_add(self.refines)
            .saturating_add(self.covers)
            .saturating_add(self.parts)
    }

    // Whether there are so many of each kind.
    fn has_each(self, least: u32) -> bool {
        self.expands >= least
            && self.refines >= least
            && self.covers >= least
            && self.parts >= least
    }
}

// The terms true and false among those of the labels.
const TRUE: u32 = 3;

const FALSE: u32 = 4;

// Two vertices that a store kept apart, with how many conjuncts their labels had then. Labels only grow.
#[derive(Clone, Copy, Debug)]
struct Apart {
    left: u32,
    right: u32,
    lengths: (usize, usize),
}

// What the units of a journal have made.
#[derive(Drop)]
struct Replay {
    // Each conjunct of a label with its vertex, as they came.
    conjuncts: Vec<(u32, u32)>,
    // The pairs.
    pairs: Vec<(u32, u32)>,
    // What was covered behind the last Refine.
    covered: Vec<(u32, u32)>,
    // What was kept apart.
    parted: Vec<Apart>,
}

// How many vertices there are.
fn count_of(unwinding: &Unwinding) -> u32 {
    u32::try_from(unwinding.vertices().len()).unwrap_or(u32::MAX)
}

// The vertex above this one.
fn parent_of(vertices: &[Vertex], v: u32) -> Option<u32> {
    let vertex = vertices.get(v as usize)?;
    let parent = vertex.parent?;
    Some(parent.0)
}

// Whether the first vertex is the second or an ancestor of it.
fn is_above(vertices: &[Vertex], u: u32, v: u32) -> bool {
    let mut at = v;
    for _ in 0..vertices.len() {
        if at == u {
            return true;
        }
        match parent_of(vertices, at) {
            Some(parent) => at = parent,
            None => return false,
        }
    }
    false
}

// The vertices from the root to this one.
fn path_to(alloc: Global, vertices: &[Vertex], v: u32) -> Result<Vec<u32>, Memory> {
    let mut path = Vec::new(alloc);
    let mut at = Some(v);
    for _ in 0..vertices.len() {
        let Some(here) = at else {
            break;
        };
        path.push(here)?;
        at = parent_of(vertices, here);
    }
    path.reverse();
    Ok(path)
}

impl Replay {
    // The replay of a whole journal.
    fn of(alloc: Global, unwinding: &Unwinding) -> Result<Replay, Memory> {
        let mut replay = Replay {
            conjuncts: Vec::new(alloc),
            pairs: Vec::new(alloc),
            covered: Vec::new(alloc),
            parted: Vec::new(alloc),
        };
        for unit in unwinding.journal() {
            replay.make(alloc, unwinding.vertices(), unit)?;
        }
        Ok(replay)
    }

    // Makes one unit.
    fn make(&mut self, alloc: Global, vertices: &[Vertex], unit: &UnitDone) -> Result<(), Memory> {
        match unit {
            UnitDone::Expand(_) => Ok(()),
            UnitDone::Refine(v, formulas) => {
                let path = path_to(alloc, vertices, v.0)?;
                for (at, term) in path.iter().zip(formulas.as_slice()) {
                    self.strengthen(alloc, *at, term.0)?;
                }
                self.covered = Vec::new(alloc);
                Ok(())
            }
            UnitDone::CoverYes(v, w) => self.cover(alloc, vertices, v.0, w.0),
            UnitDone::CoverNo(v, w, _) => self.part(v.0, w.0),
        }
    }

    // Makes a label stronger by a term that is neither true nor a conjunct of it; then the pairs onto its vertex fall.
    fn strengthen(&mut self, alloc: Global, v: u32, term: u32) -> Result<(), Memory> {
        if term == TRUE || self.has_conjunct(v, term) {
            return Ok(());
        }
        self.conjuncts.push((v, term))?;
        let mut kept = Vec::new(alloc);
        for pair in &self.pairs {
            if pair.1 != v {
                kept.push(*pair)?;
            }
        }
        self.pairs = kept;
        Ok(())
    }

    // Covers the first vertex by the second; the pairs onto the first and what is below it fall.
    fn cover(&mut self, alloc: Global, vertices: &[Vertex], v: u32, w: u32) -> Result<(), Memory> {
        let mut kept = Vec::new(alloc);
        for pair in &self.pairs {
            if !is_above(vertices, v, pair.1) {
                kept.push(*pair)?;
            }
        }
        kept.push((v, w))?;
        self.pairs = kept;
        self.covered.push((v, w))?;
        Ok(())
    }

    // Keeps the two apart as long as their labels stay as they are.
    fn part(&mut self, v: u32, w: u32) -> Result<(), Memory> {
        let lengths = (self.length_of(v), self.length_of(w));
        self.parted.push(Apart {
            left: v,
            right: w,
            lengths,
        })?;
        Ok(())
    }

    // Whether the term is a conjunct of the vertex's label.
    fn has_conjunct(&self, v: u32, term: u32) -> bool {
        self.conjuncts.iter().any(|one| one.0 == v && one.1 == term)
    }

    // How many conjuncts the vertex's label has.
    fn length_of(&self, v: u32) -> usize {
        self.conjuncts.iter().filter(|one| one.0 == v).count()
    }

    // Whether the unwinding has these pairs in this order.
    fn has_pairs_of(&self, unwinding: &Unwinding) -> bool {
        let pairs = unwinding.pairs();
        let same = |(one, other): (&(u32, u32), &(VertexId, VertexId))| one.0 == other.0.0
            && one.1 == other.1.0;
        pairs.len() == self.pairs.len() && self.pairs.iter().zip(pairs).all(same)
    }

    // Whether the vertex's label has these conjuncts and no more.
    fn has_label_of(&self, vertex: &Vertex, v: u32) -> bool {
        let label = vertex.label.as_slice();
        label.len() == self.length_of(v) && label.iter().all(|term| self.has_conjunct(v, term.0))
    }

    // Whether the left side of some pair is the vertex or an ancestor of it.
    fn is_covered(&self, vertices: &[Vertex], v: u32) -> bool {
        self.pairs.iter().any(|pair| is_above(vertices, pair.0, v))
    }

    // Whether the pair was kept apart and no label of the two has changed since then.
    fn stays_apart(&self, v: u32, w: u32) -> bool {
        let lengths = (self.length_of(v), self.length_of(w));
        self.parted.iter().any(|one| one.left == v && one.right == w && one.lengths == lengths)
    }

    // Whether the pair may be settled.
    fn may_settle(&self, vertices: &[Vertex], v: u32, w: u32) -> bool {
        let (Some(left), Some(right)) = (vertices.get(v as usize), vertices.get(w as usize)) else {
            return false;
        };
        v != w
            && left.node == right.node
            && !self.is_covered(vertices, v)
            && !self.is_covered(vertices, w)
            && !is_above(vertices, v, w)
            && !self.covered.iter().any(|pair| pair.0 == v && pair.1 == w)
            && !self.stays_apart(v, w)
    }

    // Whether the vertex is an open leaf: uncovered, without children, not at an end, and without false in its label.
    fn is_open(&self, journey: &Journey, v: u32) -> bool {
        let vertices = journey.unwinding().vertices();
        let Some(vertex) = vertices.get(v as usize) else {
            return false;
        };
        let node = journey.graph().nodes().get(vertex.node.0 as usize);
        let ends = matches!(node, Some(Node::End));
        vertex.children.as_slice().is_empty()
            && !ends
            && !self.has_conjunct(v, FALSE)
            && !self.is_covered(vertices, v)
    }

    // Whether no vertex is an open leaf.
    fn is_complete(&self, journey: &Journey) -> bool {
        for v in 0..count_of(journey.unwinding()) {
            if self.is_open(journey, v) {
                return false;
            }
        }
        true
    }
}

// A random number below the count, 0 where that is 0.
fn below(rng: &mut Xoshiro256PlusPlus, count: u32) -> u32 {
    if count == 0 {
        0
    } else {
        rng.next_u32() % count
    }
}

// Tries one unit at random vertices, and answers whether it was legal.
fn try_unit(
    alloc: Global,
    journey: &mut Journey,
    rng: &mut Xoshiro256PlusPlus,
) -> Result<bool, Memory> {
    let count = count_of(journey.unwinding());
    let v = below(rng, count);
    let w = below(rng, count);
    let choice = below(rng, 4);
    match choice {
        0 => journey.expand(alloc, v),
        1 => journey.refine(alloc, v, below(rng, 3)),
        2 => journey.cover(alloc, v, w),
        _ => Ok(journey.part(alloc, v, w, 1)? || journey.part(alloc, v, w, 0)?),
    }
}

// Whether the labels, and what is covered, are those of the replay.
fn has_labels(unwinding: &Unwinding, replay: &Replay) -> Result<bool, RowFail> {
    let mut v = 0u32;
    for vertex in unwinding.vertices() {
        if !replay.has_label_of(vertex, v)
            || is_covered(unwinding, v)? != replay.is_covered(unwinding.vertices(), v)
        {
            return Ok(false);
        }
        v = v.saturating_add(1);
    }
    Ok(true)
}

// Whether some random pairs may be settled just where the replay says so.
fn settles_alike(
    unwinding: &Unwinding,
    replay: &Replay,
    rng: &mut Xoshiro256PlusPlus,
) -> Result<bool, RowFail> {
    let count = count_of(unwinding);
    for _ in 0..20 {
        let v = below(rng, count);
        let w = below(rng, count);
        if settles(unwinding, v, w)? != replay.may_settle(unwinding.vertices(), v, w) {
            return Ok(false);
        }
    }
    Ok(true)
}

// Whether the unwinding has and answers what a plain replay of its journal says.
fn is_replayed(
    alloc: Global,
    journey: &Journey,
    rng: &mut Xoshiro256PlusPlus,
) -> Result<bool, RowFail> {
    let unwinding = journey.unwinding();
    let replay = Replay::of(alloc, unwinding)?;
    Ok(
        replay.has_pairs_of(unwinding)
            && has_labels(unwinding, &replay)?
            && unwinding.complete(journey.graph()) == replay.is_complete(journey)
            && settles_alike(unwinding, &replay, rng)?,
    )
}

// Makes up to so many random units, and answers whether each was replayed.
fn travels(
    alloc: Global,
    journey: &mut Journey,
    units: usize,
    rng: &mut Xoshiro256PlusPlus,
) -> Result<bool, RowFail> {
    for _ in 0..20_000 {
        if journey.unwinding().journal().len() >= units {
            break;
        }
        if try_unit(alloc, journey, rng)? && !is_replayed(alloc, journey, rng)? {
            return Ok(false);
        }
    }
    Ok(true)
}

// Makes a journey of a round, and counts its units.
fn round(
    alloc: Global,
    number: u32,
    units: usize,
    kinds: &mut Kinds,
    rng: &mut Xoshiro256PlusPlus,
) -> Result<bool, RowFail> {
    let last = if number % 2 == 0 { 5 } else { 1 };
    let Some(mut journey) = Journey::new(alloc, last)? else {
        return Err(RowFail::Bad);
    };
    let is_so = travels(alloc, &mut journey, units, rng)?;
    kinds.add_all(journey.unwinding().journal());
    Ok(is_so)
}

// Tries the row.
fn agrees(alloc: Global, rest: &str) -> Result<bool, RowFail> {
    let found = numbers(alloc, rest)?;
    if found.len() != 5 {
        return Err(RowFail::Bad);
    }
    let mut rng = Xoshiro256PlusPlus::seed_from_u64(u64::from(found[0]));
    let mut kinds = Kinds::none();
    for number in 0..found[1] {
        if !round(alloc, number, found[2] as usize, &mut kinds, &mut rng)? {
            return Ok(false);
        }
    }
    Ok(kinds.total() >= found[3] && kinds.has_each(found[4]))
}

/// Rows of random journeys.
#[derive(Drop)]
pub(crate) struct RandomRows;

impl Table for RandomRows {
    fn is_so(&mut self, alloc: Global, row: &str) -> Result<bool, RowFail> {
        let (kind, rest) = fields(row);
        match kind {
            "random" => agrees(alloc, rest),
            _ => Err(RowFail::Bad),
        }
    }
}
