ghost use Rattle.std.specs.Prelude.{◌≡◌};
ghost use Rattle.c_graph.specs.Functions.{AreFlows, Flows, FnFlow};

use crate::graph::{Cell, Edge, LoopAt, Node, NodeId};
use bv_term::Terms;
use std::marker::Model;

/// The graph of one function. A node may call another function; it stands for that function's graph.
#[derive(Drop)]
pub struct FnGraph {
    nodes: Vec<Node>,
    edges: Vec<Edge>,
    entry: NodeId,
    loops: Vec<LoopAt>,
}

impl Model for FnGraph {
    ghost use Rattle.c_graph.specs.Functions.{FnFlow};

    ghost Value = { FnFlow };

    ghost view = { λ g. record { nodes = g.nodes.items; edges = g.edges.items; entry = g.entry; loops = g.loops.items } };
}

impl FnGraph {
    /// The function graph of these parts. It takes no memory.
    pub fn new(nodes: Vec<Node>, edges: Vec<Edge>, entry: NodeId, loops: Vec<LoopAt>) -> FnGraph
        ensures { result ≡ record { nodes = nodes.items; edges = edges.items; entry = entry; loops = loops.items } }
    {
        FnGraph {
            nodes,
            edges,
            entry,
            loops,
        }
    }

    /// The nodes, by number.
    pub fn nodes(&self) -> &[Node]
        ensures { result.now ≡ self.now.nodes }
    {
        &self.nodes
    }

    /// The edges, by number.
    pub fn edges(&self) -> &[Edge]
        ensures { result.now ≡ self.now.edges }
    {
        &self.edges
    }

    /// The node at which the function begins.
    pub fn entry(&self) -> NodeId
        ensures { result ≡ self.now.entry }
    {
        self.entry
    }

    /// The nodes of loops.
    pub fn loops(&self) -> &[LoopAt]
        ensures { result.now ≡ self.now.loops }
    {
        &self.loops
    }
}

/// The graphs of a program's functions, over one list of cells and terms. Its type keeps of each what [`Graph`](crate::Graph)
/// keeps, but that nodes may call; and that each function has an exit, and that called functions are there.
#[derive(Drop)]
pub struct FnGraphs {
    graphs: Vec<FnGraph>,
    cells: Vec<Cell>,
    terms: Terms,
    exits: Vec<NodeId>,
    main: u32,
}

impl Model for FnGraphs {
    ghost use Rattle.c_graph.specs.Functions.{AreFlows, Flows};

    ghost Value = { Flows };

    ghost view = { λ g. record { graphs = g.graphs.items; cells = g.cells.items; terms = g.terms; exits = g.exits.items; main = g.main } };

    ghost invariant = { λ g. AreFlows (record { graphs = g.graphs.items; cells = g.cells.items; terms = g.terms; exits = g.exits.items; main = g.main }) };
}

impl FnGraphs {
    /// The function graphs of these parts. It takes no memory.
    pub fn new(
        graphs: Vec<FnGraph>,
        cells: Vec<Cell>,
        terms: Terms,
        exits: Vec<NodeId>,
        main: u32,
    ) -> FnGraphs
        requires { AreFlows (record { graphs = graphs.items; cells = cells.items; terms = terms; exits = exits.items; main = main }) }
        ensures { result ≡ record { graphs = graphs.items; cells = cells.items; terms = terms; exits = exits.items; main = main } }
    {
        FnGraphs {
            graphs,
            cells,
            terms,
            exits,
            main,
        }
    }

    /// The graph of each function, by number.
    pub fn graphs(&self) -> &[FnGraph]
        ensures value { result.now ≡ self.now.graphs }
        ensures flows { AreFlows self.now }
    {
        &self.graphs
    }

    /// The cells, by number.
    pub fn cells(&self) -> &[Cell]
        ensures value { result.now ≡ self.now.cells }
        ensures flows { AreFlows self.now }
    {
        &self.cells
    }

    /// The terms of the operations.
    pub fn terms(&self) -> &Terms
        ensures value { result.now ≡ self.now.terms }
        ensures flows { AreFlows self.now }
    {
        &self.terms
    }

    /// For each function the end node at which it returns.
    pub fn exits(&self) -> &[NodeId]
        ensures value { result.now ≡ self.now.exits }
        ensures flows { AreFlows self.now }
    {
        &self.exits
    }

    /// The number of `main`.
    pub fn main(&self) -> u32
        ensures value { result ≡ self.now.main }
        ensures flows { AreFlows self.now }
    {
        self.main
    }
}
