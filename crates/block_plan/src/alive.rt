//! Which nodes matter: those that are reached from the entry, and from which an error or a listed loop's node is reached.

ghost use Rattle.std.specs.Prelude.{◌≡◌, length, slice_get, IfOk, OnOk};
ghost use Rattle.block_plan.specs.Made.{alive, alive_begun, all_chained, chained, edges_backward, enter, enter_chain, enter_error, enter_errors, enter_loops, enter_source, enter_sources, enter_target, enter_targets, gone_on, next_waiting, reach_begun, reach_from, reached, search_new, without_next};

use c_graph::{Edge, EdgeId, Graph, LoopAt, Node, NodeId};
use lv_base::Memory;
use plan_tables::{Flags, Links, number_of};
use std::alloc::Global;
use std::marker::Model;

/// A search over nodes: those that were found, and those of them from which it has not gone on.
#[derive(Drop)]
struct Searching {
    found: Flags,
    waiting: Vec<NodeId>,
}

impl Model for Searching {
    ghost use Rattle.block_plan.specs.Made.{Search};

    ghost Value = { Search };

    ghost view = { λ s. record { found = s.found; waiting = s.waiting.items } };
}

impl Searching {
    fn new(alloc: Global, count: usize) -> Result<Searching, Memory>
        ensures made { IfOk result (λ s. s ≡ search_new count) }
    {
        let found = Flags::new(alloc, count)?;
        Ok(Searching {
            found,
            waiting: Vec::new(alloc),
        })
    }

    // A node that was not found yet.
    fn enter(&mut self, node: NodeId) -> Result<(), Memory>
        ensures made { OnOk result (self.new ≡ enter node self.old) }
    {
        if !self.found.get(node.0) {
            self.found.set(node.0);
            self.waiting.push(node)?;
        }
        Ok(())
    }

    // The node from which the search goes on.
    fn next(&mut self) -> Option<NodeId>
        ensures made { result ≡ next_waiting self.old }
        ensures rest { self.new ≡ without_next self.old }
    {
        self.waiting.pop()
    }

    fn into_found(self) -> Flags
        ensures made { result ≡ self.found }
    {
        self.found
    }
}

/// The nodes that are reached from the entry.
pub fn reached(alloc: Global, graph: &Graph) -> Result<Flags, Memory>
    ensures made { IfOk result (λ f. f ≡ reached graph.now) }
{
    let begun = reach_begun(alloc, graph)?;
    go_on(alloc, graph, begun)
}

fn reach_begun(alloc: Global, graph: &Graph) -> Result<Searching, Memory>
    ensures made { IfOk result (λ s. s ≡ reach_begun graph.now) }
{
    let mut found = Flags::new(alloc, graph.nodes().len())?;
    found.set(graph.entry().0);
    let mut waiting = Vec::new(alloc);
    waiting.push(graph.entry())?;
    Ok(Searching { found, waiting })
}

fn go_on(alloc: Global, graph: &Graph, begun: Searching) -> Result<Flags, Memory>
    ensures made { IfOk result (λ f. f ≡ (gone_on (reach_from graph.now) (length graph.now.nodes) begun).found) }
{
    let mut search = begun;
    for turn in 0..graph.nodes().len() {
        let Some(node) = search.next() else {
            return Ok(search.into_found());
        };
        reach_from(alloc, graph, node, &mut search)?;
    }
    Ok(search.into_found())
}

// The nodes to which edges lead from a node.
fn reach_from(
    alloc: Global,
    graph: &Graph,
    node: NodeId,
    search: &mut Searching,
) -> Result<(), Memory>
    ensures made { OnOk result (search.new ≡ reach_from graph.now node search.old) }
{
    let outs = graph.outs(alloc, node)?;
    enter_targets(graph, outs.as_slice(), search)
}

fn enter_targets(graph: &Graph, outs: &[EdgeId], search: &mut Searching) -> Result<(), Memory>
    ensures made { OnOk result (search.new ≡ enter_targets graph.now.edges outs.now search.old) }
{
    for number in 0..outs.len() {
        enter_target(graph, outs[number], search)?;
    }
    Ok(())
}

fn enter_target(graph: &Graph, number: EdgeId, search: &mut Searching) -> Result<(), Memory>
    ensures made { OnOk result (search.new ≡ enter_target (slice_get graph.now.edges number.0) search.old) }
{
    match graph.edges().get(number.0 as usize) {
        None => Ok(()),
        Some(edge) => search.enter(edge.to),
    }
}

/// The edges by the node that they lead to: a chain of edges for each node.
#[derive(Drop)]
struct Backward {
    first: Links,
    next: Links,
}

fn edges_backward(alloc: Global, graph: &Graph) -> Result<Backward, Memory>
    ensures made { IfOk result (λ c. c ≡ edges_backward graph.now) }
{
    let mut chains = Backward {
        first: Links::new(alloc, graph.nodes().len())?,
        next: Links::new(alloc, graph.edges().len())?,
    };
    chain_all(graph.edges(), &mut chains)?;
    Ok(chains)
}

fn chain_all(edges: &[Edge], chains: &mut Backward) -> Result<(), Memory>
    ensures made { OnOk result (chains.new ≡ all_chained chains.old 0 edges.now) }
{
    for number in 0..edges.len() {
        chain(number, edges[number].to, chains)?;
    }
    Ok(())
}

// Puts an edge behind the edges before it that lead to the same node.
fn chain(number: usize, to: NodeId, chains: &mut Backward) -> Result<(), Memory>
    ensures made { OnOk result (chains.new ≡ chained chains.old number to.0) }
{
    let number = number_of(number)?;
    let last = chains.first.get(to.0);
    chains.next.set(number, last);
    chains.first.set(to.0, Some(number));
    Ok(())
}

/// The nodes from which an error or a listed loop's node is reached.
pub fn alive(alloc: Global, graph: &Graph) -> Result<Flags, Memory>
    ensures made { IfOk result (λ f. f ≡ alive graph.now) }
{
    let begun = alive_begun(alloc, graph)?;
    let chains = edges_backward(alloc, graph)?;
    go_back(graph, &chains, begun)
}

fn alive_begun(alloc: Global, graph: &Graph) -> Result<Searching, Memory>
    ensures made { IfOk result (λ s. s ≡ alive_begun graph.now) }
{
    let mut search = Searching::new(alloc, graph.nodes().len())?;
    enter_errors(graph.nodes(), &mut search)?;
    enter_loops(graph.loops(), &mut search)?;
    Ok(search)
}

fn enter_errors(nodes: &[Node], search: &mut Searching) -> Result<(), Memory>
    ensures made { OnOk result (search.new ≡ enter_errors 0 nodes.now search.old) }
{
    for number in 0..nodes.len() {
        enter_error(number, nodes[number], search)?;
    }
    Ok(())
}

fn enter_error(number: usize, node: Node, search: &mut Searching) -> Result<(), Memory>
    ensures made { OnOk result (search.new ≡ enter_error number node search.old) }
{
    match node {
        Node::Error(_, _) => {
            let number = number_of(number)?;
            search.enter(NodeId(number))
        }
        Node::Plain | Node::End | Node::Call(_, _) => Ok(()),
    }
}

fn enter_loops(loops: &[LoopAt], search: &mut Searching) -> Result<(), Memory>
    ensures made { OnOk result (search.new ≡ enter_loops loops.now search.old) }
{
    for number in 0..loops.len() {
        search.enter(loops[number].node)?;
    }
    Ok(())
}

fn go_back(graph: &Graph, chains: &Backward, begun: Searching) -> Result<Flags, Memory>
    ensures made { IfOk result (λ f. f ≡ (gone_on (enter_sources graph.now chains.now) (length graph.now.nodes) begun).found) }
{
    let mut search = begun;
    for turn in 0..graph.nodes().len() {
        let Some(node) = search.next() else {
            return Ok(search.into_found());
        };
        enter_sources(graph, chains, node, &mut search)?;
    }
    Ok(search.into_found())
}

// The nodes from which an edge leads to this one.
fn enter_sources(
    graph: &Graph,
    chains: &Backward,
    node: NodeId,
    search: &mut Searching,
) -> Result<(), Memory>
    ensures made { OnOk result (search.new ≡ enter_sources graph.now chains.now node search.old) }
{
    let first = chains.first.get(node.0);
    enter_chain(graph, &chains.next, first, search)
}

fn enter_chain(
    graph: &Graph,
    next: &Links,
    first: Option<u32>,
    search: &mut Searching,
) -> Result<(), Memory>
    ensures made { OnOk result (search.new ≡ enter_chain graph.now.edges next.now (length graph.now.edges) first search.old) }
{
    let mut at = first;
    for turn in 0..graph.edges().len() {
        let Some(number) = at else {
            return Ok(());
        };
        enter_source(graph, number, search)?;
        at = next.get(number);
    }
    Ok(())
}

fn enter_source(graph: &Graph, number: u32, search: &mut Searching) -> Result<(), Memory>
    ensures made { OnOk result (search.new ≡ enter_source (slice_get graph.now.edges number) search.old) }
{
    match graph.edges().get(number as usize) {
        None => Ok(()),
        Some(edge) => search.enter(edge.from),
    }
}
