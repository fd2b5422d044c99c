//! The graph of one function while it is made: nodes in the order of their numbers, and the edges from each as soon as it stands.

ghost use Rattle.std.specs.Prelude.{◌≡◌, ◌∷◌, [], IfOk};
ghost use Rattle.c_graph.specs.declared.graph.Node.TheVariants as Node;
ghost use Rattle.cfg_build.specs.Steps.{Adds, IsEmpty, edge, node_id, next_of};

use c_graph::{Edge, FnGraph, LoopAt, Node, NodeId, Operation, Operations};
use lv_base::{ErrorKind, Memory};
use std::alloc::Global;

#[derive(Drop)]
pub(crate) struct Draft {
    alloc: Global,
    pub(crate) nodes: Vec<Node>,
    pub(crate) edges: Vec<Edge>,
}

impl Draft {
    /// The graph of the function, which begins at its first node and has these loops.
    pub(crate) fn into_graph(self, loops: Vec<LoopAt>) -> FnGraph
        ensures { result ≡ record { nodes = self.nodes.items; edges = self.edges.items; entry = node_id 0; loops = loops.items } }
    {
        let Draft {
            alloc: _,
            nodes,
            edges,
        } = self;
        FnGraph::new(nodes, edges, NodeId(0), loops)
    }

    pub(crate) fn new(alloc: Global) -> Draft
        ensures { IsEmpty result }
    {
        Draft {
            alloc,
            nodes: Vec::new(alloc),
            edges: Vec::new(alloc),
        }
    }

    /// The number of the next node.
    pub(crate) fn next(&self) -> Result<NodeId, Memory>
        ensures { IfOk result (λ n. n ≡ node_id (next_of self.now)) }
    {
        match u32::try_from(self.nodes.len()) {
            Err(_) => Err(Memory),
            Ok(number) => Ok(NodeId(number)),
        }
    }

    pub(crate) fn node(&mut self, node: Node) -> Result<NodeId, Memory>
        ensures number { IfOk result (λ n. n ≡ node_id (next_of self.old)) }
        ensures adds { IfOk result (λ n. Adds self.old self.new (node ∷ []) []) }
    {
        let number = self.next()?;
        self.nodes.push(node)?;
        Ok(number)
    }

    pub(crate) fn edge(
        &mut self,
        from: NodeId,
        to: NodeId,
        ops: Vec<Operation>,
    ) -> Result<(), Memory>
        ensures { IfOk result (λ u. Adds self.old self.new [] (edge from to ops.items ∷ [])) }
    {
        self.edges.push(Edge {
            from,
            to,
            ops: Operations::new(ops),
        })?;
        Ok(())
    }

    /// An edge that does nothing.
    pub(crate) fn plain_edge(&mut self, from: NodeId, to: NodeId) -> Result<(), Memory>
        ensures { IfOk result (λ u. Adds self.old self.new [] (edge from to [] ∷ [])) }
    {
        let ops = Vec::new(self.alloc);
        self.edge(from, to, ops)?;
        Ok(())
    }

    /// An edge that does this first.
    pub(crate) fn edge_if(
        &mut self,
        from: NodeId,
        to: NodeId,
        first: Operation,
    ) -> Result<(), Memory>
        ensures { IfOk result (λ u. Adds self.old self.new [] (edge from to (first ∷ []) ∷ [])) }
    {
        let mut ops = Vec::new(self.alloc);
        ops.push(first)?;
        self.edge(from, to, ops)?;
        Ok(())
    }

    /// The node of an error, to which an edge leads from a node where an operation goes on.
    pub(crate) fn error(
        &mut self,
        from: NodeId,
        first: Operation,
        kind: ErrorKind,
        at: u32,
    ) -> Result<(), Memory>
        ensures { IfOk result (λ u. Adds self.old self.new (Node.Error kind at ∷ []) (edge from (node_id (next_of self.old)) (first ∷ []) ∷ [])) }
    {
        let error = self.node(Node::Error(kind, at))?;
        self.edge_if(from, error, first)?;
        Ok(())
    }
}
