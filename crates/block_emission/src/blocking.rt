//! The graph of a graph's blocks, by a plan.
ghost use Rattle.std.specs.Prelude.{◌≡◌, IfOk};
ghost use Rattle.block_plan.specs.Made as planned;
ghost use Rattle.block_emission.specs.Blocking as made;
ghost use Rattle.block_emission.specs.Emitting.{scheme_of};
ghost use Rattle.block_emission.specs.Putting.{sketch_of};

use crate::copies::{all_cells, copied, copied_edge, widths_of, with_cells};
use crate::draft::Draft;
use crate::members::room_for;
use crate::terms::Truths;
use crate::whole::graph_of;
use block_plan::{Blocks, Live, Units, Ways, begins, number_of, ways_at};
use c_graph::{Edge, EdgeId, Graph, Node, NodeId};
use lv_base::Memory;
use std::alloc::Global;

/// What the blocks are made from.
#[derive(Clone, Copy)]
pub struct Plan<'a> {
    /// The graph.
    pub graph: &'a Graph,
    /// Its cut points and blocks.
    pub blocks: &'a Blocks,
    /// The units of its cells.
    pub units: &'a Units,
    /// The units that are read from each node on.
    pub live: &'a Live,
}

/// The graph of blocks with these places: the edges of each block, and those of nodes that keep theirs.
pub fn blocked(alloc: Global, plan: Plan<'_>, members: &[Vec<NodeId>]) -> Result<Graph, Memory>
    ensures made { IfOk result (λ g. g ≡ made.blocked (scheme_of plan.entry) (made.places_of members.now)) }
{
    let graph = plan.graph;
    let first = number_of(graph.cells().len())?;
    let truths = with_cells(alloc, graph, room_for(members))?;
    let nodes = graph.nodes().to_vec(alloc)?;
    let mut draft = Draft::new(alloc, nodes, truths, first);
    emit_all(alloc, plan, members, &mut draft)?;
    end_where_nothing_matters(alloc, graph, plan.blocks, &mut draft)?;
    finish(alloc, graph, draft)
}

fn emit_all(
    alloc: Global,
    plan: Plan<'_>,
    members: &[Vec<NodeId>],
    draft: &mut Draft,
) -> Result<(), Memory>
    ensures made { IfOk result (λ u. sketch_of draft.new ≡ made.emit_all (scheme_of plan.entry) (sketch_of draft.old) 0 (made.places_of members.now)) }
{
    for number in 0..members.len() {
        emit(alloc, plan, number, &members[number], draft)?;
    }
    Ok(())
}

/// The edges of one block, or those of a node that keeps its edges.
fn emit(
    alloc: Global,
    plan: Plan<'_>,
    number: usize,
    places: &[NodeId],
    draft: &mut Draft,
) -> Result<(), Memory>
    ensures made { IfOk result (λ u. sketch_of draft.new ≡ made.emit (scheme_of plan.entry) (sketch_of draft.old) number places.now) }
{
    let node = NodeId(number_of(number)?);
    if begins(plan.graph, plan.blocks, node) {
        draft.block(plan, places)
    } else {
        keep_edges(alloc, plan.graph, plan.blocks, node, draft)
    }
}

/// A node that keeps its edges, but for those to nodes that do not matter.
fn keep_edges(
    alloc: Global,
    graph: &Graph,
    blocks: &Blocks,
    node: NodeId,
    draft: &mut Draft,
) -> Result<(), Memory>
    ensures made { IfOk result (λ u. sketch_of draft.new ≡ made.keep_edges graph.now blocks.now node (sketch_of draft.old)) }
{
    if !keeps(blocks, node) {
        return Ok(());
    }
    let outs = graph.outs(alloc, node)?;
    keep_all(alloc, graph, blocks, &outs, draft)
}

/// Whether a node that matters keeps its edges.
fn keeps(blocks: &Blocks, node: NodeId) -> bool
    ensures made { result ≡ made.keeps blocks.now node }
{
    if !blocks.matters.get(node.0) || !blocks.cuts.get(node.0) {
        return false;
    }
    match ways_at(&blocks.ways, node) {
        Ways::Kept => true,
        Ways::One(_) | Ways::Two(_, _) => false,
    }
}

fn keep_all(
    alloc: Global,
    graph: &Graph,
    blocks: &Blocks,
    outs: &[EdgeId],
    draft: &mut Draft,
) -> Result<(), Memory>
    ensures made { IfOk result (λ u. sketch_of draft.new ≡ made.keep_all graph.now blocks.now (sketch_of draft.old) outs.now) }
{
    for number in 0..outs.len() {
        keep_one(alloc, graph, blocks, outs[number], draft)?;
    }
    Ok(())
}

fn keep_one(
    alloc: Global,
    graph: &Graph,
    blocks: &Blocks,
    edge: EdgeId,
    draft: &mut Draft,
) -> Result<(), Memory>
    ensures made { IfOk result (λ u. sketch_of draft.new ≡ made.keep_one graph.now blocks.now (sketch_of draft.old) edge) }
{
    match graph.edges().get(edge.0 as usize) {
        None => Ok(()),
        Some(edge) => keep_edge(alloc, blocks, edge, draft),
    }
}

fn keep_edge(alloc: Global, blocks: &Blocks, edge: &Edge, draft: &mut Draft) -> Result<(), Memory>
    ensures made { IfOk result (λ u. sketch_of draft.new ≡ made.keep_edge blocks.now (sketch_of draft.old) edge.now) }
{
    if !blocks.matters.get(edge.to.0) {
        return Ok(());
    }
    draft.edges.push(copied_edge(alloc, edge)?)?;
    Ok(())
}

/// Where neither an error nor a loop's node is reached, one edge leads from the entry to an end.
fn end_where_nothing_matters(
    alloc: Global,
    graph: &Graph,
    blocks: &Blocks,
    draft: &mut Draft,
) -> Result<(), Memory>
    ensures made { IfOk result (λ u. sketch_of draft.new ≡ made.end_where_nothing_matters graph.now blocks.now (sketch_of draft.old)) }
{
    let entry = graph.entry();
    if blocks.matters.get(entry.0) || !is_plain(graph, entry) {
        return Ok(());
    }
    let end = last_end(entry, graph.nodes())?;
    draft.edge(entry, end, Vec::new(alloc))
}

fn is_plain(graph: &Graph, node: NodeId) -> bool
    ensures made { result ≡ planned.is_plain graph.now node }
{
    match graph.nodes().get(node.0 as usize) {
        Some(Node::Plain) => true,
        _ => false,
    }
}

/// The last end among these nodes, or the entry.
fn last_end(entry: NodeId, nodes: &[Node]) -> Result<NodeId, Memory>
    ensures made { IfOk result (λ v. v ≡ made.last_end entry 0 nodes.now) }
{
    let mut end = entry;
    for number in 0..nodes.len() {
        end = end_at(end, number, nodes[number])?;
    }
    Ok(end)
}

fn end_at(end: NodeId, number: usize, node: Node) -> Result<NodeId, Memory>
    ensures made { IfOk result (λ v. v ≡ made.end_at end number node) }
{
    match node {
        Node::End => Ok(NodeId(number_of(number)?)),
        Node::Plain | Node::Error(_, _) | Node::Call(_, _) => Ok(end),
    }
}

/// The graph of the blocks that were made.
fn finish(alloc: Global, graph: &Graph, draft: Draft) -> Result<Graph, Memory>
    ensures made { IfOk result (λ g. g ≡ made.finish graph.now (sketch_of draft)) }
{
    let Draft {
        alloc: _,
        nodes,
        edges,
        truths,
        used,
        ..
    } = draft;
    let cells = all_cells(alloc, graph, used)?;
    let last = copied(alloc, &truths.terms, widths_of(alloc, &cells)?)?;
    let nodes = sound_nodes(alloc, truths.is_sound, last.is_sound, nodes);
    let loops = graph.loops().to_vec(alloc)?;
    let Truths { terms, is_sound: _ } = last;
    graph_of(alloc, nodes, edges, cells, terms, graph.entry(), loops)
}

/// Nodes over terms that are not well formed count for nothing: without a node the parts make no graph.
fn sound_nodes(alloc: Global, first: bool, last: bool, nodes: Vec<Node>) -> Vec<Node>
    ensures made { result.items ≡ made.sound_nodes first last nodes.items }
{
    if first && last {
        nodes
    } else {
        Vec::new(alloc)
    }
}
