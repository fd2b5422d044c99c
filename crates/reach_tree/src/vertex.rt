ghost use Rattle.std.specs.Prelude.{◌≡◌, ◌∷◌, ◌++◌, [], OnOk, OnErr};

use bv_term::TermId;
use c_graph::{EdgeId, NodeId};
use lv_base::Memory;
use std::alloc::Global;
use std::marker::Model;

/// The number of a vertex in its tree.
#[derive(Clone, Copy, Debug, PartialEq, Eq)]
pub struct VertexId(pub u32);

/// A label: the conjunction of its terms, which is true where there are none. Contracts see the list of them.
#[derive(Drop)]
pub struct Label {
    conjuncts: Vec<TermId>,
}

impl Model for Label {
    ghost use Rattle.std.specs.Prelude.{List};
    ghost use Rattle.bv_term.specs.declared.term.TermId.{TermId};

    ghost Value = { List TermId };

    ghost view = { λ l. l.conjuncts.items };
}

impl Label {
    /// The label of these conjuncts. It takes no memory.
    pub fn new(conjuncts: Vec<TermId>) -> Label
        ensures { result ≡ conjuncts.items }
    {
        Label { conjuncts }
    }

    /// The conjuncts in the order in which they came.
    pub fn as_slice(&self) -> &[TermId]
        ensures { result.now ≡ self.now }
    {
        &self.conjuncts
    }

    /// Appends a conjunct.
    pub fn push(&mut self, conjunct: TermId) -> Result<(), Memory>
        ensures added { OnOk result (self.new ≡ self.old ++ conjunct ∷ []) }
        ensures unchanged { OnErr result (self.new ≡ self.old) }
    {
        self.conjuncts.push(conjunct)?;
        Ok(())
    }
}

/// The children of a vertex, in the order of their edges. Contracts see the list of them.
#[derive(Drop)]
pub struct Children {
    numbers: Vec<VertexId>,
}

impl Model for Children {
    ghost use Rattle.std.specs.Prelude.{List};
    ghost use Rattle.reach_tree.specs.declared.vertex.VertexId.{VertexId};

    ghost Value = { List VertexId };

    ghost view = { λ c. c.numbers.items };
}

impl Children {
    /// The children of these numbers. It takes no memory.
    pub fn new(numbers: Vec<VertexId>) -> Children
        ensures { result ≡ numbers.items }
    {
        Children { numbers }
    }

    /// Their numbers.
    pub fn as_slice(&self) -> &[VertexId]
        ensures { result.now ≡ self.now }
    {
        &self.numbers
    }
}

/// A vertex of a tree: a path through the graph, with what is known at its end.
#[derive(Drop)]
pub struct Vertex {
    /// The vertex before it on its path; the root has none.
    pub parent: Option<VertexId>,
    /// The edge that leads to it from its parent.
    pub by: Option<EdgeId>,
    /// Its node.
    pub node: NodeId,
    /// What holds at it.
    pub label: Label,
    /// How often its label was strengthened.
    pub version: u32,
    /// The vertices after it.
    pub children: Children,
}

/// A label that a vertex is to get, with its version then.
#[derive(Drop)]
pub struct NewLabel {
    /// The vertex.
    pub vertex: VertexId,
    /// What is to hold at it.
    pub label: Label,
    /// How often its label was strengthened then.
    pub version: u32,
}
