//! The graph of blocks while it is made: nodes, edges, saved cells, and the places that wait.
ghost use Rattle.std.specs.Prelude.{◌≡◌, ◌≤◌, IfOk, length};
ghost use Rattle.block_emission.specs.Putting as made;
ghost use Rattle.block_emission.specs.Putting.{sketch_of};

use crate::terms::{Test, Truths, complement, either, put, select, term_of};
use bv_term::{Term, TermId};
use c_graph::{Edge, Node, NodeId, Operation, Operations};
use lv_base::Memory;
use plan_tables::number_of;
use std::alloc::Global;

/// A check that may have failed: the cell that says so, and the error.
#[derive(Clone, Copy)]
pub(crate) struct Check {
    pub(crate) cell: u32,
    pub(crate) error: NodeId,
}

/// A place that waits, and the cell that is 1 where the run waits there; without a cell it surely does.
#[derive(Clone, Copy)]
pub(crate) struct Waiting {
    pub(crate) node: NodeId,
    pub(crate) guard: Option<u32>,
}

/// The graph of blocks while it is made.
#[derive(Drop)]
pub(crate) struct Draft {
    pub(crate) alloc: Global,
    pub(crate) nodes: Vec<Node>,
    pub(crate) edges: Vec<Edge>,
    pub(crate) truths: Truths,
    // the first saved cell of blocks, and how many a block has used at most
    pub(crate) first: u32,
    pub(crate) used: u32,
    // of the block that is made
    pub(crate) taken: u32,
    pub(crate) free: Vec<NodeId>,
    pub(crate) from: NodeId,
    pub(crate) ops: Vec<Operation>,
    pub(crate) checks: Vec<Check>,
    // in the order of numbers
    pub(crate) waiting: Vec<Waiting>,
    pub(crate) is_lost: bool,
}

impl Draft {
    pub(crate) fn new(alloc: Global, nodes: Vec<Node>, truths: Truths, first: u32) -> Draft
        ensures made { sketch_of result ≡ made.sketch_new nodes.items truths first }
    {
        Draft {
            alloc,
            nodes,
            edges: Vec::new(alloc),
            truths,
            first,
            used: 0,
            taken: 0,
            free: Vec::new(alloc),
            from: NodeId(0),
            ops: Vec::new(alloc),
            checks: Vec::new(alloc),
            waiting: Vec::new(alloc),
            is_lost: false,
        }
    }

    /// The block that begins at a node.
    pub(crate) fn begin(&mut self, start: NodeId) -> Result<(), Memory>
        ensures made { IfOk result (λ u. sketch_of self.new ≡ made.begin (sketch_of self.old) start) }
    {
        self.clear(start);
        self.wait(start, None)
    }

    /// Nothing of a block that begins at this node.
    fn clear(&mut self, start: NodeId)
        ensures made { sketch_of self.new ≡ made.cleared (sketch_of self.old) start }
    {
        self.taken = 0;
        self.free.clear();
        self.from = start;
        self.ops.clear();
        self.checks.clear();
        self.waiting.clear();
        self.is_lost = false;
    }

    /// A saved cell of one bit.
    fn cell(&mut self) -> u32
        ensures made { (sketch_of self.new, result) ≡ made.cell (sketch_of self.old) }
    {
        let cell = self.first.saturating_add(self.taken);
        self.taken = self.taken.saturating_add(1);
        cell
    }

    pub(crate) fn put_in(&mut self, term: Term) -> Result<TermId, Memory>
        ensures made { IfOk result (λ t. (sketch_of self.new, t) ≡ made.put_in (sketch_of self.old) term) }
    {
        put(&mut self.truths, term)
    }

    pub(crate) fn read(&mut self, cell: u32) -> Result<TermId, Memory>
        ensures made { IfOk result (λ t. (sketch_of self.new, t) ≡ made.read (sketch_of self.old) cell) }
    {
        self.put_in(Term::Cell(cell))
    }

    pub(crate) fn term_in(&mut self, test: Test) -> Result<TermId, Memory>
        ensures made { IfOk result (λ t. (sketch_of self.new, t) ≡ made.term_in (sketch_of self.old) test) }
    {
        term_of(&mut self.truths, test)
    }

    pub(crate) fn complement_in(&mut self, term: TermId) -> Result<TermId, Memory>
        ensures made { IfOk result (λ t. (sketch_of self.new, t) ≡ made.complement_in (sketch_of self.old) term) }
    {
        complement(&mut self.truths, term)
    }

    pub(crate) fn either_in(&mut self, first: TermId, second: TermId) -> Result<TermId, Memory>
        ensures made { IfOk result (λ t. (sketch_of self.new, t) ≡ made.either_in (sketch_of self.old) first second) }
    {
        either(&mut self.truths, first, second)
    }

    pub(crate) fn select_in(
        &mut self,
        test: TermId,
        first: TermId,
        second: TermId,
    ) -> Result<TermId, Memory>
        ensures made { IfOk result (λ t. (sketch_of self.new, t) ≡ made.select_in (sketch_of self.old) test first second) }
    {
        select(&mut self.truths, test, first, second)
    }

    /// A node for a branch: the number of a place that the block took in, or a new one.
    pub(crate) fn node(&mut self) -> Result<NodeId, Memory>
        ensures made { IfOk result (λ v. (sketch_of self.new, v) ≡ made.node (sketch_of self.old)) }
    {
        match self.free.pop() {
            Some(node) => Ok(node),
            None => self.new_node(),
        }
    }

    fn new_node(&mut self) -> Result<NodeId, Memory>
        ensures made { IfOk result (λ v. (sketch_of self.new, v) ≡ made.new_node (sketch_of self.old)) }
    {
        let node = NodeId(number_of(self.nodes.len())?);
        self.nodes.push(Node::Plain)?;
        Ok(node)
    }

    pub(crate) fn edge(
        &mut self,
        from: NodeId,
        to: NodeId,
        ops: Vec<Operation>,
    ) -> Result<(), Memory>
        ensures made { IfOk result (λ u. sketch_of self.new ≡ made.edge (sketch_of self.old) from to ops.items) }
    {
        self.edges.push(Edge {
            from,
            to,
            ops: Operations::new(ops),
        })?;
        Ok(())
    }

    pub(crate) fn edge_if(&mut self, from: NodeId, to: NodeId, test: TermId) -> Result<(), Memory>
        ensures made { IfOk result (λ u. sketch_of self.new ≡ made.edge_if (sketch_of self.old) from to test) }
    {
        let mut ops = Vec::new(self.alloc);
        ops.push(Operation::Assume(test))?;
        self.edge(from, to, ops)
    }

    pub(crate) fn operate(&mut self, operation: Operation) -> Result<(), Memory>
        ensures made { IfOk result (λ u. sketch_of self.new ≡ made.operate (sketch_of self.old) operation) }
    {
        self.ops.push(operation)?;
        Ok(())
    }

    /// The operations so far become an edge to this node.
    pub(crate) fn close(&mut self, to: NodeId) -> Result<(), Memory>
        ensures made { IfOk result (λ u. sketch_of self.new ≡ made.close (sketch_of self.old) to) }
    {
        let fresh = Vec::new(self.alloc);
        let ops = std::mem::replace(&mut self.ops, fresh);
        let from = self.from;
        self.edge(from, to, ops)?;
        self.from = to;
        Ok(())
    }

    /// A node at which the operations so far are done.
    pub(crate) fn branch_node(&mut self) -> Result<NodeId, Memory>
        ensures made { IfOk result (λ v. (sketch_of self.new, v) ≡ made.branch_node (sketch_of self.old)) }
    {
        if self.ops.is_empty() {
            Ok(self.from)
        } else {
            self.closed_node()
        }
    }

    fn closed_node(&mut self) -> Result<NodeId, Memory>
        ensures made { IfOk result (λ v. (sketch_of self.new, v) ≡ made.closed_node (sketch_of self.old)) }
    {
        let node = self.node()?;
        self.close(node)?;
        Ok(node)
    }

    /// A test's truth in a cell of its own, which later operations don't change.
    pub(crate) fn saved(&mut self, test: Test) -> Result<u32, Memory>
        ensures made { IfOk result (λ c. (sketch_of self.new, c) ≡ made.saved (sketch_of self.old) test) }
    {
        let term = self.term_in(test)?;
        let cell = self.cell();
        self.operate(Operation::Set(cell, term))?;
        Ok(cell)
    }

    /// The guard of a place that waits.
    pub(crate) fn waits(&self, node: NodeId) -> Option<Option<u32>>
        ensures made { result ≡ made.waits self.now.waiting.items node }
    {
        for number in 0..self.waiting.len() {
            let place = self.waiting[number];
            if place.node.0 == node.0 {
                return Some(place.guard);
            }
        }
        None
    }

    /// Before how many of the places that wait a node stands.
    fn place_among(&self, node: NodeId) -> usize
        ensures within { result ≤ length self.now.waiting.items }
        ensures made { result ≡ made.place_among self.now.waiting.items node }
    {
        for number in 0..self.waiting.len() {
            if node.0 < self.waiting[number].node.0 {
                return number;
            }
        }
        self.waiting.len()
    }

    pub(crate) fn wait(&mut self, node: NodeId, guard: Option<u32>) -> Result<(), Memory>
        ensures made { IfOk result (λ u. sketch_of self.new ≡ made.wait (sketch_of self.old) node guard) }
    {
        let at = self.place_among(node);
        self.waiting.insert(at, Waiting { node, guard })?;
        Ok(())
    }

    /// A place does not wait any more; each waits once.
    pub(crate) fn leave_out(&mut self, node: NodeId)
        ensures made { sketch_of self.new ≡ made.leave_out (sketch_of self.old) node }
    {
        without(&mut self.waiting, node);
    }

    /// One more way to a place that waits in a cell.
    pub(crate) fn add_to(&mut self, cell: u32, test: Test) -> Result<(), Memory>
        ensures made { IfOk result (λ u. sketch_of self.new ≡ made.add_to (sketch_of self.old) cell test) }
    {
        let was = self.read(cell)?;
        let more = self.term_in(test)?;
        let now = self.either_in(was, more)?;
        self.operate(Operation::Set(cell, now))
    }

    /// Where nothing else waits, and no run was lost with a check open, the run is surely here.
    pub(crate) fn arrive(&mut self, guard: Option<u32>) -> Result<Option<u32>, Memory>
        ensures made { IfOk result (λ g. (sketch_of self.new, g) ≡ made.arrive (sketch_of self.old) guard) }
    {
        if self.is_open() {
            return Ok(guard);
        }
        self.assume_on(guard)?;
        Ok(None)
    }

    /// Whether something else waits, or a run was lost with a check open.
    fn is_open(&self) -> bool
        ensures made { result ≡ made.is_open (sketch_of self.now) }
    {
        !self.waiting.is_empty() || (self.is_lost && !self.checks.is_empty())
    }

    /// Where a run may have been lost, it goes on only where the guard is 1.
    pub(crate) fn assume_on(&mut self, guard: Option<u32>) -> Result<(), Memory>
        ensures made { IfOk result (λ u. sketch_of self.new ≡ made.assume_on (sketch_of self.old) guard) }
    {
        if self.is_lost {
            self.assume_cell(guard)?;
        }
        self.is_lost = false;
        Ok(())
    }

    fn assume_cell(&mut self, guard: Option<u32>) -> Result<(), Memory>
        ensures made { IfOk result (λ u. sketch_of self.new ≡ made.assume_cell (sketch_of self.old) guard) }
    {
        match guard {
            None => Ok(()),
            Some(cell) => self.assume_read(cell),
        }
    }

    fn assume_read(&mut self, cell: u32) -> Result<(), Memory>
        ensures made { IfOk result (λ u. sketch_of self.new ≡ made.assume_read (sketch_of self.old) cell) }
    {
        let test = self.read(cell)?;
        self.operate(Operation::Assume(test))
    }
}

/// Takes the first of these places at a node away.
fn without(waiting: &mut Vec<Waiting>, node: NodeId)
    ensures made { waiting.new.items ≡ made.without waiting.old.items node }
{
    for number in 0..waiting.len() {
        if waiting[number].node.0 == node.0 {
            let _gone = waiting.remove(number);
            return;
        }
    }
}
