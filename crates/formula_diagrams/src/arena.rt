ghost use Rattle.std.specs.Prelude.{◌≡◌, ◌≢◌, ◌+◌, ◌^◌, ◌<◌, ◌≤◌, ◌↔◌, ◌∷◌, ◌++◌, [], length, slice_get, Some, IsTrue, List, ℕ, IsErrOf, IfSome, IfOk, OnErr, not, ◌&&◌, ◌||◌};
ghost use Rattle.bv_term.specs.Laws.{Extends};
ghost use Rattle.formula_diagrams.specs.Joins.{joined};
ghost use Rattle.formula_diagrams.specs.Writings.{IsTruth};
ghost use Rattle.formula_diagrams.specs.Shape.{Arena, IsArena, IsBitIn, FitsNode, Grown, count, with_node};
ghost use Rattle.formula_diagrams.specs.Truths.{Tells, choice, holds, is_set};

use crate::fails::DiagramFail;
use crate::items::{BitOf, Node, NodeId};
use crate::pairs::{Join, Pair};
use crate::steps::join;
use crate::writing::write_node;
use bv_term::{TermId, Terms};
use lv_base::Memory;
use std::alloc::Global;
use std::collections::HashMap;
use std::marker::Model;

/// Formulas over bits of cells, each with a number. Contracts see the arena of their nodes, each over those before it; where a
/// node stands is kept as a hint.
#[derive(Drop)]
pub struct Diagrams {
    cells: Vec<u32>,
    most: u32,
    nodes: Vec<Node>,
    places: HashMap<Node, usize>,
}

impl Model for Diagrams {
    ghost use Rattle.formula_diagrams.specs.Shape.{Arena, IsArena};

    ghost Value = { Arena };

    ghost view = { λ n. record { cells = n.cells.items; most = n.most; nodes = n.nodes.items } };

    ghost invariant = { λ n. IsArena (record { cells = n.cells.items; most = n.most; nodes = n.nodes.items }) };
}

impl Diagrams {
    /// No formulas but true and false, over cells of these widths; `most` is how many nodes there may be. It takes no memory.
    pub fn new(alloc: Global, cells: Vec<u32>, most: u32) -> Diagrams
        requires { most ≤ 2 ^ 31 }
        ensures cells { result.cells ≡ cells.items }
        ensures most { result.most ≡ most }
        ensures nodes { result.nodes ≡ [] }
    {
        Diagrams {
            cells,
            most,
            nodes: Vec::new(alloc),
            places: HashMap::new(alloc),
        }
    }

    /// The widths of the cells.
    pub fn cells(&self) -> &[u32]
        ensures { result.now ≡ self.now.cells }
    {
        &self.cells
    }

    /// How many numbers there are, true and false among them. It takes no memory.
    pub fn count(&self) -> u32
        ensures { result ≡ count self.now }
    {
        self.nodes.len() as u32 + 2
    }

    /// Whether the bit is one of a cell's. It takes no memory.
    pub fn fits(&self, bit: BitOf) -> bool
        ensures { IsTrue result ↔ IsBitIn self.now.cells bit }
    {
        let cell = bit.cell as usize;
        cell < self.cells.len() && bit.bit < self.cells[cell]
    }

    // The nodes, in their order.
    pub(crate) fn nodes(&self) -> &[Node]
        ensures value { result.now ≡ self.now.nodes }
        ensures arena { IsArena self.now }
    {
        &self.nodes
    }

    // The node at a place, as it stands there.
    fn read(&self, place: usize) -> Node
        requires { place < length self.now.nodes }
        ensures at { slice_get self.now.nodes place ≡ Some result }
        ensures arena { IsArena self.now }
    {
        self.nodes[place]
    }

    // The node at a place.
    pub(crate) fn at(&self, place: usize) -> Node
        requires { place < length self.now.nodes }
        ensures at { slice_get self.now.nodes place ≡ Some result }
        ensures fits { FitsNode self.now.cells (place + 2) result }
        ensures told { (store : List ℕ) → holds self.now store (place + 2) ≡ choice (is_set store result.top) (holds self.now store result.high.0) (holds self.now store result.low.0) }
    {
        self.read(place)
    }

    // The node of a number that is no end.
    pub(crate) fn get(&self, id: NodeId) -> Node
        requires inner { 2 ≤ id.0 }
        requires there { id.0 < count self.now }
        ensures fits { FitsNode self.now.cells id.0 result }
        ensures told { (store : List ℕ) → holds self.now store id.0 ≡ choice (is_set store result.top) (holds self.now store result.high.0) (holds self.now store result.low.0) }
    {
        self.at(id.0 as usize - 2)
    }

    // The place of a node, if it stands where it is looked for.
    fn find(&self, node: Node) -> Option<usize>
        ensures at { IfSome result (λ k. slice_get self.now.nodes k ≡ Some node) }
        ensures arena { IsArena self.now }
    {
        let place = self.places.get(&node).copied()?;
        if place < self.nodes.len() && self.nodes[place] == node {
            return Some(place);
        }
        None
    }

    // Puts a node at the end.
    fn enter(&mut self, node: Node) -> Result<NodeId, DiagramFail>
        requires { FitsNode self.old.cells (count self.old) node }
        ensures entered { IfOk result (λ r. self.new ≡ with_node self.old node) }
        ensures number { IfOk result (λ r. r.0 ≡ count self.old) }
        ensures unchanged { OnErr result (self.new ≡ self.old) }
        ensures full { IsErrOf result DiagramFail.TooLarge → length self.new.nodes ≡ self.new.most }
    {
        let place = self.nodes.len();
        if place >= self.most as usize {
            return Err(DiagramFail::TooLarge);
        }
        if self.places.insert(node, place).is_err() || self.nodes.push(node).is_err() {
            return Err(DiagramFail::Memory);
        }
        Ok(NodeId(place as u32 + 2))
    }

    // The number of a choice between two formulas.
    pub(crate) fn make(
        &mut self,
        top: BitOf,
        low: NodeId,
        high: NodeId,
    ) -> Result<NodeId, DiagramFail>
        requires top { IsBitIn self.old.cells top }
        requires low { low.0 < count self.old }
        requires high { high.0 < count self.old }
        ensures grown { Grown self.old self.new }
        ensures made { IfOk result (λ r. Tells self.new r (λ store. choice (is_set store top) (holds self.old store high.0) (holds self.old store low.0))) }
        ensures full { IsErrOf result DiagramFail.TooLarge → length self.new.nodes ≡ self.new.most }
    {
        if low.0 == high.0 {
            return Ok(low);
        }
        let node = Node { top, low, high };
        match self.find(node) {
            Some(place) => Ok(NodeId(place as u32 + 2)),
            None => self.enter(node),
        }
    }
}

impl Diagrams {
    /// The number of true, or of false. It takes no memory.
    pub fn end(&self, value: bool) -> NodeId
        ensures { Tells self.now result (λ store. value) }
    {
        if value { NodeId(1) } else { NodeId(0) }
    }

    /// The number of a bit.
    pub fn bit(&mut self, bit: BitOf) -> Result<NodeId, DiagramFail>
        requires { IsBitIn self.old.cells bit }
        ensures grown { Grown self.old self.new }
        ensures made { IfOk result (λ n. Tells self.new n (λ store. is_set store bit)) }
        ensures full { IsErrOf result DiagramFail.TooLarge → length self.new.nodes ≡ self.new.most }
    {
        self.make(bit, NodeId(0), NodeId(1))
    }

    /// The number of what is false where this is true.
    pub fn negated(&mut self, alloc: Global, of: NodeId) -> Result<NodeId, DiagramFail>
        requires { of.0 < count self.old }
        ensures grown { Grown self.old self.new }
        ensures made { IfOk result (λ n. Tells self.new n (λ store. not (holds self.old store of.0))) }
        ensures full { IsErrOf result DiagramFail.TooLarge → length self.new.nodes ≡ self.new.most }
    {
        self.joined(alloc, Join::Same, NodeId(0), of)
    }

    /// The number of what is true where both are.
    pub fn both(
        &mut self,
        alloc: Global,
        left: NodeId,
        right: NodeId,
    ) -> Result<NodeId, DiagramFail>
        requires left { left.0 < count self.old }
        requires right { right.0 < count self.old }
        ensures grown { Grown self.old self.new }
        ensures made { IfOk result (λ n. Tells self.new n (λ store. holds self.old store left.0 && holds self.old store right.0)) }
        ensures full { IsErrOf result DiagramFail.TooLarge → length self.new.nodes ≡ self.new.most }
    {
        self.joined(alloc, Join::Both, left, right)
    }

    /// The number of what is true where one of them is.
    pub fn either(
        &mut self,
        alloc: Global,
        left: NodeId,
        right: NodeId,
    ) -> Result<NodeId, DiagramFail>
        requires left { left.0 < count self.old }
        requires right { right.0 < count self.old }
        ensures grown { Grown self.old self.new }
        ensures made { IfOk result (λ n. Tells self.new n (λ store. holds self.old store left.0 || holds self.old store right.0)) }
        ensures full { IsErrOf result DiagramFail.TooLarge → length self.new.nodes ≡ self.new.most }
    {
        self.joined(alloc, Join::Either, left, right)
    }

    /// The number of what is true where both have one truth.
    pub fn same(
        &mut self,
        alloc: Global,
        left: NodeId,
        right: NodeId,
    ) -> Result<NodeId, DiagramFail>
        requires left { left.0 < count self.old }
        requires right { right.0 < count self.old }
        ensures grown { Grown self.old self.new }
        ensures made { IfOk result (λ n. Tells self.new n (λ store. choice (holds self.old store left.0) (holds self.old store right.0) (not (holds self.old store right.0)))) }
        ensures full { IsErrOf result DiagramFail.TooLarge → length self.new.nodes ≡ self.new.most }
    {
        self.joined(alloc, Join::Same, left, right)
    }

    // The number of two formulas joined.
    fn joined(
        &mut self,
        alloc: Global,
        how: Join,
        left: NodeId,
        right: NodeId,
    ) -> Result<NodeId, DiagramFail>
        requires left { left.0 < count self.old }
        requires right { right.0 < count self.old }
        ensures grown { Grown self.old self.new }
        ensures made { IfOk result (λ n. Tells self.new n (λ store. joined how (holds self.old store left.0) (holds self.old store right.0))) }
        ensures full { IsErrOf result DiagramFail.TooLarge → length self.new.nodes ≡ self.new.most }
    {
        join(alloc, self, how, Pair { left, right })
    }

    /// Puts a formula into a table over the same cells, and answers its term: bits of cells, `&`, `o` and `~`, a constant for
    /// true and false alone. Each node below is written once.
    pub fn written(&self, alloc: Global, node: NodeId, terms: &mut Terms) -> Result<TermId, Memory>
        requires there { node.0 < count self.now }
        requires cells { terms.old.cells ≡ self.now.cells }
        ensures extends { Extends terms.old terms.new }
        ensures truth { IfOk result (λ t. IsTruth terms.new t (λ store. holds self.now store node.0)) }
    {
        write_node(alloc, self, node, terms)
    }
}
