ghost use Rattle.std.specs.Prelude.{◌≡◌};

use bv_term::TermId;
use lv_base::ErrorKind;
use std::marker::Model;

/// The number of a node in its graph.
#[derive(Clone, Copy, Debug, PartialEq, Eq)]
pub struct NodeId(pub u32);

/// The number of an edge in its graph.
#[derive(Clone, Copy, Debug, PartialEq, Eq)]
pub struct EdgeId(pub u32);

/// A node of a graph.
#[derive(Clone, Copy, Debug, PartialEq, Eq)]
pub enum Node {
    /// A node from which edges lead on.
    Plain,
    /// A node at which a run ends with an error: its kind, and its offset in the source.
    Error(ErrorKind, u32),
    /// A node at which a run ends without an error.
    End,
    /// The call of a function, by its number, that goes on at a node. Only function graphs have such nodes.
    Call(u32, NodeId),
}

/// One step of an edge.
#[derive(Clone, Copy, Debug, PartialEq, Eq)]
pub enum Operation {
    /// Goes on where the term is 1.
    Assume(TermId),
    /// Stores the term's value in the cell.
    Set(u32, TermId),
    /// Stores an element of an array: the first cell, the length, the term that is the index, and that of the value.
    /// It stores nothing where the index is not below the length.
    SetAt(u32, u32, TermId, TermId),
    /// Stores the next input in the cell, which is any value of the cell's width; whether that range is signed.
    Draw(u32, bool),
}

/// Where a cell comes from.
#[derive(Clone, Copy, Debug, PartialEq, Eq)]
pub enum Origin {
    /// An element of an object: the object's number, and the element's.
    Element(u32, u32),
    /// A saved operand.
    Saved,
}

/// A cell of the store.
#[derive(Clone, Copy, Debug, PartialEq, Eq)]
pub struct Cell {
    /// Its width in bits, 1 to 128.
    pub width: u32,
    /// Where it comes from.
    pub origin: Origin,
}

/// The node at which each visit of a loop stands.
#[derive(Clone, Copy, Debug, PartialEq, Eq)]
pub struct LoopAt {
    /// The offset of the loop's keyword in the source.
    pub at: u32,
    /// Its node.
    pub node: NodeId,
}

/// The operations of an edge, in order. Contracts see the list of them.
#[derive(Drop)]
pub struct Operations {
    items: Vec<Operation>,
}

impl Model for Operations {
    ghost use Rattle.std.specs.Prelude.{List};
    ghost use Rattle.c_graph.specs.declared.graph.Operation.{Operation};

    ghost Value = { List Operation };

    ghost view = { λ o. o.items.items };
}

impl Operations {
    /// The operations of a list. It takes no memory.
    pub fn new(items: Vec<Operation>) -> Operations
        ensures { result ≡ items.items }
    {
        Operations { items }
    }

    /// The operations in order.
    pub fn as_slice(&self) -> &[Operation]
        ensures { result.now ≡ self.now }
    {
        &self.items
    }
}

/// An edge of a graph.
#[derive(Drop)]
pub struct Edge {
    /// The node from which it leads.
    pub from: NodeId,
    /// The node to which it leads.
    pub to: NodeId,
    /// What is done on the way.
    pub ops: Operations,
}
