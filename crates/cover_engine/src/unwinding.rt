ghost use Rattle.std.specs.Prelude.{◌≡◌, ◌<◌, ◌∷◌, ◌++◌, [], false, true, length, replicate, reverse, slice_get, IfOk, OnOk, OnErr, Some};
ghost use Rattle.std.specs.HashMap.{Updates, get};
ghost use Rattle.bv_term.specs.WellFormed.{FitsTable};
ghost use Rattle.bv_term.specs.Laws.{Extends, IsPut};
ghost use Rattle.term_copy.specs.Copies.{AreCopies};
ghost use Rattle.reach_tree.specs.Trees.{AreLabelled, IsLabel, MayExpand, expanded, vertex_at};
ghost use Rattle.cover_engine.specs.declared.settling.Sides.{Sides};
ghost use Rattle.cover_engine.specs.declared.unit.UnitDone.TheVariants.{Expand};
ghost use Rattle.cover_engine.specs.Unwindings.{is_complete, is_covered, is_open_leaf, may_pair, may_settle, path_of, stays_apart, vertices_named, yes_since};
ghost use Rattle.cover_engine.specs.Settlings.{same_sides};
ghost use Rattle.cover_engine.specs.Openings.{IsHighestLeaf};
ghost use Rattle.cover_engine.specs.Units.{CanCover, CanExpand, CanPart, CanRefine, Legal, after_cover, after_expand, after_part, after_refine, edges_to, start};

use crate::covering::{below_lefts_of, below_of, lower, raise};
use crate::look_up::{above_at, closed_at, entry_of};
use crate::pairs::Pairs;
use crate::paths::{Path, path_down};
use crate::refinement::{labelled_by, labels_along, path_to};
use crate::settling::{Settling, Sides, apart_since, apart_with, covered_now, covered_since};
use crate::unit::{Apart, FormulaList, UnitDone};
use crate::waiting::{
    Found, are_ends, highest_by_number, highest_waiting, wait_for, wait_for_leaves, wait_from,
};
use bv_term::{Term, TermId, Terms};
use c_graph::{Graph, Store};
use lv_base::Memory;
use reach_tree::{Tree, Vertex, VertexId};
use std::alloc::Global;
use std::collections::{BTreeSet, HashMap};
use std::marker::Model;

/// A tree of paths whose vertices cover each other, with the units that made it.
///
/// Beside these it keeps what its look-ups answer from: `covers` has for each vertex how many left sides stand on its
/// path; `settled` tells of each pair how it was settled last; `refines` counts the Refines; `waiting` has each vertex that
/// may be an open leaf, but for those at a node of `ends`.
#[derive(Drop)]
pub struct Unwinding {
    tree: Tree,
    pairs: Pairs,
    journal: Vec<UnitDone>,
    apart: Vec<Apart>,
    covers: Vec<u32>,
    settled: HashMap<Sides, Settling>,
    refines: u32,
    waiting: BTreeSet<u32>,
    ends: Vec<u32>,
}

impl Model for Unwinding {
    ghost use Rattle.cover_engine.specs.Unwindings.{Unwound};
    ghost use Rattle.cover_engine.specs.Keeping.{IsKept};
    ghost use Rattle.cover_engine.specs.Openings.{AreWaiting};

    ghost Value = { Unwound };

    ghost view = { λ u. record {
      vertices = u.tree.vertices;
      terms = u.tree.terms;
      pairs = u.pairs;
      journal = u.journal.items;
      apart = u.apart.items;
    } };

    ghost invariant = { λ u. IsKept u.tree.vertices u.pairs u.journal.items u.apart.items u.covers.items u.refines u.settled
        × AreWaiting u.tree.vertices u.tree.terms u.covers.items u.ends.items u.waiting };
}

impl Unwinding {
    /// The unwinding of one vertex at the graph's entry, without a unit.
    pub fn new(alloc: Global, graph: &Graph) -> Result<Unwinding, Memory>
        ensures start { IfOk result (λ u. u ≡ start graph.now u.terms) }
        ensures terms { IfOk result (λ u. u.terms.terms ≡ []) }
        ensures legal { IfOk result (λ u. Legal graph.now u) }
    {
        let tree = Tree::new(alloc, graph)?;
        let covers = [0].to_vec(alloc)?;
        let mut waiting = BTreeSet::new(alloc);
        wait_for(&mut waiting, 0)?;
        Ok(Unwinding {
            tree,
            pairs: Pairs::new(alloc),
            journal: Vec::new(alloc),
            apart: Vec::new(alloc),
            covers,
            settled: HashMap::new(alloc),
            refines: 0,
            waiting,
            ends: Vec::new(alloc),
        })
    }

    /// The tree: the vertices, and the table of the terms of their labels.
    pub fn tree(&self) -> &Tree
        ensures vertices { result.now.vertices ≡ self.now.vertices }
        ensures terms { result.now.terms ≡ self.now.terms }
    {
        &self.tree
    }

    /// The vertices, by number.
    pub fn vertices(&self) -> &[Vertex]
        ensures value { result.now ≡ self.now.vertices }
        ensures labelled { AreLabelled self.now.terms self.now.vertices }
    {
        self.tree.vertices()
    }

    /// How many vertices there are. It takes no memory.
    pub fn count(&self) -> u32
        ensures { result ≡ length self.now.vertices }
    {
        self.tree.vertices().len() as u32
    }

    /// The table of the terms of the labels.
    pub fn terms(&self) -> &Terms
        ensures { result.now ≡ self.now.terms }
    {
        self.tree.terms()
    }

    /// The conjuncts of a vertex's label.
    pub fn label(&self, v: VertexId) -> &[TermId]
        requires { v.0 < length self.now.vertices }
        ensures value { result.now ≡ (vertex_at self.now.vertices v.0).label }
        ensures terms { IsLabel self.now.terms result.now }
    {
        self.tree.vertices()[v.0 as usize].label.as_slice()
    }

    /// The pairs, the left side of each covered by its right side.
    pub fn pairs(&self) -> &[(VertexId, VertexId)]
        ensures { result.now ≡ self.now.pairs }
    {
        self.pairs.as_slice()
    }

    /// The units that made it, in order.
    pub fn journal(&self) -> &[UnitDone]
        ensures { result.now ≡ self.now.journal }
    {
        &self.journal
    }

    /// The path of a vertex: its vertices from the root down, and the edges between them.
    pub fn path_to(&self, alloc: Global, v: VertexId) -> Result<Path, Memory>
        ensures vertices { IfOk result (λ p. p.vertices ≡ vertices_named (reverse (path_of self.now.vertices v))) }
        ensures edges { IfOk result (λ p. p.edges ≡ edges_to self.now.vertices (reverse (path_of self.now.vertices v))) }
    {
        let vertices = self.tree.vertices();
        let upwards = path_to(alloc, vertices, v)?;
        path_down(alloc, vertices, &upwards)
    }

    /// Whether the vertex or an ancestor is the left side of a pair. It takes no memory.
    pub fn covered(&self, v: VertexId) -> bool
        requires { v.0 < length self.now.vertices }
        ensures { result ≡ is_covered self.now v }
    {
        self.covers[v.0 as usize] > 0
    }

    /// Whether the pair may be settled: both are uncovered vertices of one node, the first no ancestor of the second, no
    /// CoverYes of the pair stands since the last Refine, and no CoverNo with both labels as they are. It takes no memory.
    pub fn may_settle(&self, v: VertexId, w: VertexId) -> bool
        requires left { v.0 < length self.now.vertices }
        requires right { w.0 < length self.now.vertices }
        ensures { result ≡ may_settle self.now v w }
    {
        self.may_be_pair(v, w) && !self.stays_apart(v, w)
    }

    /// The conditions of a covering but for the implication.
    fn may_be_pair(&self, v: VertexId, w: VertexId) -> bool
        requires left { v.0 < length self.now.vertices }
        requires right { w.0 < length self.now.vertices }
        ensures { result ≡ may_pair self.now v w }
    {
        let vertices = self.tree.vertices();
        v.0 != w.0
            && vertices[v.0 as usize].node.0 == vertices[w.0 as usize].node.0
            && !self.covered(v)
            && !self.covered(w)
            && !above_at(vertices, v.0 as usize, w.0 as usize)
            && !self.stands_covered(v, w)
    }

    /// Whether a CoverYes of the pair stands since the last Refine.
    fn stands_covered(&self, v: VertexId, w: VertexId) -> bool
        ensures { result ≡ yes_since false self.now.journal v w }
    {
        covered_since(self.settled.get(&Sides::of(v, w)).copied(), self.refines)
    }

    /// Whether the pair was kept apart, with both labels as they are.
    fn stays_apart(&self, v: VertexId, w: VertexId) -> bool
        requires left { v.0 < length self.now.vertices }
        requires right { w.0 < length self.now.vertices }
        ensures { result ≡ stays_apart self.now.apart self.now.vertices v w }
    {
        let entry = entry_of(self.tree.vertices(), v, w);
        let known = self.settled.get(&Sides::of(v, w)).copied();
        apart_since(known, entry.left_version, entry.right_version)
    }

    /// Whether the vertex is uncovered, without children, and neither closed nor at an end. It takes no memory.
    pub fn open_leaf(&self, graph: &Graph, v: VertexId) -> bool
        requires { v.0 < length self.now.vertices }
        ensures { result ≡ is_open_leaf graph.now self.now v }
    {
        let vertex = &self.tree.vertices()[v.0 as usize];
        vertex.children.as_slice().is_empty()
            && !closed_at(graph.nodes(), self.tree.terms(), vertex)
            && !self.covered(v)
    }

    /// Whether no vertex is an open leaf. It takes no memory.
    pub fn complete(&self, graph: &Graph) -> bool
        ensures { result ≡ is_complete graph.now self.now }
    {
        let mut left = self.tree.vertices().len();
        while left > 0 {
            left -= 1;
            if self.open_leaf(graph, VertexId(left as u32)) {
                return false;
            }
        }
        true
    }

    /// The open leaf of highest number; there is none where the unwinding is complete. It looks only at vertices that may be
    /// open leaves, and at no other above the highest, but where memory for their nodes is wanting or the ends of the graph
    /// are others than those of an earlier call.
    pub fn highest_open(&mut self, graph: &Graph) -> Option<VertexId>
        ensures highest { IsHighestLeaf graph.now self.old result }
        ensures unchanged { self.new ≡ self.old }
    {
        let nodes = graph.nodes();
        if !are_ends(nodes, &self.ends) {
            return highest_by_number(nodes, &self.tree, &self.covers);
        }
        let found = highest_waiting(
            &mut self.waiting,
            &mut self.ends,
            nodes,
            &self.tree,
            &self.covers,
        );
        match found {
            Found::Known(leaf) => leaf,
            Found::Unknown => highest_by_number(nodes, &self.tree, &self.covers),
        }
    }

    /// Gives an open leaf at a plain node one child for each edge that leads from it, in the order of the edges.
    pub fn expanded(&mut self, alloc: Global, graph: &Graph, v: VertexId) -> Result<(), Memory>
        requires { CanExpand graph.now self.old v }
        ensures done { OnOk result (self.new ≡ after_expand graph.now self.old v) }
        ensures legal { Legal graph.now self.old → Legal graph.now self.new }
        ensures unchanged { OnErr result (self.new ≡ self.old) }
    {
        if self.journal.len() >= u32::MAX as usize {
            return Err(Memory);
        }
        let edges = graph.outs(alloc, self.tree.vertices()[v.0 as usize].node)?;
        let first = self.tree.vertices().len();
        let born = edges.len();
        if born > u32::MAX as usize - first {
            return Err(Memory);
        }
        wait_from(&mut self.waiting, first as u32, born as u32)?;
        let above = self.covers[v.0 as usize];
        let count = self.covers.len();
        let mut covers = filled(alloc, above, born)?;
        self.covers.append(&mut covers)?;
        match expand_both(alloc, graph, &mut self.tree, &mut self.journal, v) {
            Ok(()) => Ok(()),
            Err(end) => {
                self.covers.truncate(count);
                Err(end)
            }
        }
    }

    /// Strengthens the path of a vertex by formulas, one for each of its vertices from the root on. A vertex is strengthened
    /// exactly where its formula is neither true nor already a conjunct of its label; the pairs onto those that are
    /// strengthened go. The unit is legal where the vertex is an open leaf at an error and the formulas are a chain from true
    /// to false.
    pub fn refined(
        &mut self,
        alloc: Global,
        graph: &Graph,
        v: VertexId,
        formulas: FormulaList,
    ) -> Result<(), Memory>
        requires vertex { v.0 < length self.old.vertices }
        requires terms { IsLabel self.old.terms formulas }
        ensures done { OnOk result (self.new ≡ after_refine self.old v formulas) }
        ensures legal { Legal graph.now self.old → CanRefine graph.now self.old v formulas → Legal graph.now self.new }
        ensures unchanged { OnErr result (self.new ≡ self.old) }
    {
        let _ = graph.entry();
        if self.journal.len() >= u32::MAX as usize {
            return Err(Memory);
        }
        let labels = labels_along(alloc, &self.tree, v, formulas.as_slice())?;
        let strengthened = labelled_by(alloc, &labels)?;
        let fallen = self.pairs.fallen_onto(alloc, &strengthened)?;
        let lowered = below_lefts_of(alloc, self.tree.vertices(), &fallen)?;
        wait_for_leaves(&mut self.waiting, self.tree.vertices(), &lowered)?;
        self.journal.push(UnitDone::Refine(v, formulas))?;
        lower(&mut self.covers, &lowered);
        self.tree.relabel(labels);
        self.pairs.drop_onto(&strengthened, &fallen);
        self.refines += 1;
        Ok(())
    }

    /// Puts a term into the table of the labels' terms. It makes no unit: vertices, pairs and journal stay.
    pub fn put(&mut self, term: Term) -> Result<TermId, Memory>
        requires { FitsTable self.old.terms term }
        ensures put { IfOk result (λ id. IsPut self.old.terms self.new.terms term) }
        ensures named { IfOk result (λ id. slice_get self.new.terms.terms id.0 ≡ Some term) }
        ensures others { self.new ≡ record self.old { terms = self.new.terms } }
        ensures unchanged { OnErr result (self.new ≡ self.old) }
    {
        self.tree.put(term)
    }

    /// Puts all terms of another table over the same cells into the table of the labels' terms, and answers their new numbers.
    /// It makes no unit: vertices, pairs and journal stay. After a failure some of the terms may stand there.
    pub fn take_terms(&mut self, alloc: Global, from: &Terms) -> Result<Vec<TermId>, Memory>
        requires { self.old.terms.cells ≡ from.now.cells }
        ensures extends { Extends self.old.terms self.new.terms }
        ensures count { IfOk result (λ to. length to.items ≡ length from.now.terms) }
        ensures copies { IfOk result (λ to. AreCopies from.now self.new.terms to.items) }
        ensures others { self.new ≡ record self.old { terms = self.new.terms } }
    {
        self.tree.take_terms(alloc, from)
    }

    /// Covers the first vertex by the second. The pairs onto it and onto those below it go. The unit is legal where the first
    /// label implies the second.
    pub fn cover_yes(
        &mut self,
        alloc: Global,
        graph: &Graph,
        v: VertexId,
        w: VertexId,
    ) -> Result<(), Memory>
        requires left { v.0 < length self.old.vertices }
        requires right { w.0 < length self.old.vertices }
        requires pair { may_pair self.old v w ≡ true }
        ensures done { OnOk result (self.new ≡ after_cover self.old v w) }
        ensures legal { Legal graph.now self.old → CanCover graph.now self.old v w → Legal graph.now self.new }
        ensures unchanged { OnErr result (self.new ≡ self.old) }
    {
        let _ = graph.entry();
        if self.journal.len() >= u32::MAX as usize {
            return Err(Memory);
        }
        let vertices = self.tree.vertices();
        let raised = below_of(alloc, vertices, v.0)?;
        let fallen = self.pairs.fallen_under(alloc, vertices, v, &raised)?;
        let lowered = below_lefts_of(alloc, vertices, &fallen)?;
        wait_for_leaves(&mut self.waiting, vertices, &lowered)?;
        let sides = Sides::of(v, w);
        let settling = covered_now(self.settled.get(&sides).copied(), self.refines);
        let unit = UnitDone::CoverYes(v, w);
        self.pairs.push(v, w)?;
        match note(&mut self.journal, &mut self.settled, unit, sides, settling) {
            Ok(()) => {
                lower(&mut self.covers, &lowered);
                raise(&mut self.covers, &raised);
                self.pairs.drop_under(self.tree.vertices(), v, &fallen);
                Ok(())
            }
            Err(end) => {
                self.pairs.pop();
                Err(end)
            }
        }
    }

    /// Keeps the pair apart by a store. The unit is legal where the pair may be settled and the store meets the first
    /// vertex's label and not the second's.
    pub fn cover_no(
        &mut self,
        graph: &Graph,
        v: VertexId,
        w: VertexId,
        store: Store,
    ) -> Result<(), Memory>
        requires left { v.0 < length self.old.vertices }
        requires right { w.0 < length self.old.vertices }
        ensures done { OnOk result (self.new ≡ after_part self.old v w store) }
        ensures legal { Legal graph.now self.old → CanPart graph.now self.old v w store → Legal graph.now self.new }
        ensures unchanged { OnErr result (self.new ≡ self.old) }
    {
        let _ = graph.entry();
        if self.journal.len() >= u32::MAX as usize {
            return Err(Memory);
        }
        let entry = entry_of(self.tree.vertices(), v, w);
        let sides = Sides::of(v, w);
        let versions = (entry.left_version, entry.right_version);
        let settling = apart_with(self.settled.get(&sides).copied(), versions);
        self.apart.push(entry)?;
        let unit = UnitDone::CoverNo(v, w, store);
        match note(&mut self.journal, &mut self.settled, unit, sides, settling) {
            Ok(()) => Ok(()),
            Err(end) => {
                let _ = self.apart.pop();
                Err(end)
            }
        }
    }
}

/// So many times the value.
fn filled(alloc: Global, value: u32, count: usize) -> Result<Vec<u32>, Memory>
    ensures { IfOk result (λ v. v.items ≡ replicate count value) }
{
    let values = vec![in alloc; value; count]?;
    Ok(values)
}

/// Gives a vertex its children, with the unit in the journal, or leaves both.
fn expand_both(
    alloc: Global,
    graph: &Graph,
    tree: &mut Tree,
    journal: &mut Vec<UnitDone>,
    v: VertexId,
) -> Result<(), Memory>
    requires { MayExpand graph.now tree.old v }
    ensures vertices { OnOk result (tree.new.vertices ≡ expanded graph.now tree.old.vertices v) }
    ensures terms { tree.new.terms ≡ tree.old.terms }
    ensures journal { OnOk result (journal.new.items ≡ journal.old.items ++ Expand v ∷ []) }
    ensures same_tree { OnErr result (tree.new ≡ tree.old) }
    ensures same_journal { OnErr result (journal.new.items ≡ journal.old.items) }
{
    journal.push(UnitDone::Expand(v))?;
    if tree.expand(alloc, graph, v).is_err() {
        let _ = journal.pop();
        return Err(Memory);
    }
    Ok(())
}

/// Puts the unit into the journal and how it settled its pair into the map, or leaves both.
fn note(
    journal: &mut Vec<UnitDone>,
    settled: &mut HashMap<Sides, Settling>,
    unit: UnitDone,
    sides: Sides,
    settling: Settling,
) -> Result<(), Memory>
    ensures journal { OnOk result (journal.new.items ≡ journal.old.items ++ unit ∷ []) }
    ensures settled { OnOk result (Updates same_sides settled.old settled.new sides (Some settling)) }
    ensures same_journal { OnErr result (journal.new.items ≡ journal.old.items) }
    ensures same_settled { OnErr result ((q : Sides) → get same_sides settled.new q ≡ get same_sides settled.old q) }
{
    journal.push(unit)?;
    if settled.insert(sides, settling).is_err() {
        let _ = journal.pop();
        return Err(Memory);
    }
    Ok(())
}
