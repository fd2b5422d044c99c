//! Which cells are read before they are set from a node on. Of a graph with too many nodes and units every unit counts as read
//! everywhere.

ghost use Rattle.std.specs.Prelude.{◌≡◌, ◌+◌, ◌%◌, ◌^◌, length, slice_get, IfOk, OnOk};
ghost use Rattle.block_plan.specs.Made.{begun, clear, flow_all, flow_from, flow_on, flow_some, flowing_new, live_units, mark, mark_one, over_operation, over_operations, pass, pass_over, passes};

use crate::blocks::Blocks;
use c_graph::{Edge, EdgeId, Graph, NodeId, Operation};
use lv_base::Memory;
use plan_tables::{Live, Reads, Units, number_of};
use std::alloc::Global;
use std::marker::Model;

/// The most words of 64 units for all nodes together.
const MOST_WORDS: usize = 1 << 22;

/// What is read from each node on, words to work on, and whether a pass changed something.
#[derive(Drop)]
struct Passing {
    live: Live,
    scratch: Vec<u64>,
    has_changed: bool,
}

impl Model for Passing {
    ghost use Rattle.block_plan.specs.Made.{Flowing};

    ghost Value = { Flowing };

    ghost view = { λ p. record { live = p.live; scratch = p.scratch.items; changed = p.has_changed } };
}

impl Passing {
    fn new(alloc: Global, count: usize, words: usize) -> Result<Passing, Memory>
        ensures made { IfOk result (λ p. p ≡ flowing_new count words) }
    {
        let live = Live::empty(alloc, count, words)?;
        let scratch = vec![in alloc; 0u64; words]?;
        Ok(Passing {
            live,
            scratch,
            has_changed: false,
        })
    }

    fn begin(&mut self)
        ensures made { self.new ≡ begun self.old }
    {
        self.has_changed = false;
    }

    fn is_changed(&self) -> bool
        ensures made { result ≡ self.now.changed }
    {
        self.has_changed
    }

    fn into_live(self) -> Live
        ensures made { result ≡ self.live }
    {
        self.live
    }

    // What is read before an edge is added to what is read from its node on.
    fn flow(&mut self, edge: &Edge, units: &Units, reads: &Reads)
        ensures made { self.new ≡ flow_on units.now reads.now edge.now self.old }
    {
        self.live.load(edge.to.0, &mut self.scratch);
        over_operations(edge.ops.as_slice(), units, reads, &mut self.scratch);
        let grows = self.live.join(edge.from.0, self.scratch.as_slice());
        self.has_changed = self.has_changed || grows;
    }
}

/// The units that are read from each node on, so far as edges lead to nodes that matter; also from nodes that are not reached.
pub fn live_units(
    alloc: Global,
    graph: &Graph,
    blocks: &Blocks,
    units: &Units,
    reads: &Reads,
) -> Result<Live, Memory>
    ensures made { IfOk result (λ l. l ≡ live_units graph.now blocks.now units.now reads.now 4194304) }
{
    let nodes = graph.nodes().len();
    let words = units.count() / 64 + 1;
    if nodes >= MOST_WORDS / words {
        return Ok(Live::unknown(alloc));
    }
    let begun = Passing::new(alloc, nodes, words)?;
    passes(alloc, graph, blocks, units, reads, begun)
}

// Passes until nothing changes, at most one more than there are nodes.
fn passes(
    alloc: Global,
    graph: &Graph,
    blocks: &Blocks,
    units: &Units,
    reads: &Reads,
    begun: Passing,
) -> Result<Live, Memory>
    ensures made { IfOk result (λ l. l ≡ passes graph.now blocks.now units.now reads.now (length graph.now.nodes + 1) begun) }
{
    let mut passing = begun;
    for turn in 0..graph.nodes().len() + 1 {
        pass(alloc, graph, blocks, units, reads, &mut passing)?;
        if !passing.is_changed() {
            return Ok(passing.into_live());
        }
    }
    Ok(passing.into_live())
}

// One pass from the highest node down.
fn pass(
    alloc: Global,
    graph: &Graph,
    blocks: &Blocks,
    units: &Units,
    reads: &Reads,
    passing: &mut Passing,
) -> Result<(), Memory>
    ensures made { OnOk result (passing.new ≡ pass graph.now blocks.now units.now reads.now passing.old) }
{
    passing.begin();
    pass_over(alloc, graph, blocks, units, reads, passing)
}

fn pass_over(
    alloc: Global,
    graph: &Graph,
    blocks: &Blocks,
    units: &Units,
    reads: &Reads,
    passing: &mut Passing,
) -> Result<(), Memory>
    ensures made { OnOk result (passing.new ≡ pass_over graph.now blocks.now units.now reads.now passing.old (length graph.now.nodes)) }
{
    for behind in 0..graph.nodes().len() {
        let number = number_of(graph.nodes().len() - 1 - behind)?;
        flow_from(alloc, graph, blocks, units, reads, NodeId(number), passing)?;
    }
    Ok(())
}

// The edges from a node that is alive.
fn flow_from(
    alloc: Global,
    graph: &Graph,
    blocks: &Blocks,
    units: &Units,
    reads: &Reads,
    node: NodeId,
    passing: &mut Passing,
) -> Result<(), Memory>
    ensures made { OnOk result (passing.new ≡ flow_from graph.now blocks.now units.now reads.now node passing.old) }
{
    if !blocks.alive.get(node.0) {
        return Ok(());
    }
    let outs = graph.outs(alloc, node)?;
    flow_all(graph, blocks, units, reads, outs.as_slice(), passing);
    Ok(())
}

fn flow_all(
    graph: &Graph,
    blocks: &Blocks,
    units: &Units,
    reads: &Reads,
    outs: &[EdgeId],
    passing: &mut Passing,
)
    ensures made { passing.new ≡ flow_all graph.now blocks.now units.now reads.now outs.now passing.old }
{
    for number in 0..outs.len() {
        flow_some(graph, blocks, units, reads, outs[number], passing);
    }
}

fn flow_some(
    graph: &Graph,
    blocks: &Blocks,
    units: &Units,
    reads: &Reads,
    number: EdgeId,
    passing: &mut Passing,
)
    ensures made { passing.new ≡ flow_some blocks.now units.now reads.now (slice_get graph.now.edges number.0) passing.old }
{
    if let Some(edge) = graph.edges().get(number.0 as usize) {
        if blocks.matters.get(edge.to.0) {
            passing.flow(edge, units, reads);
        }
    }
}

// What is read before operations, the last one first.
fn over_operations(ops: &[Operation], units: &Units, reads: &Reads, scratch: &mut Vec<u64>)
    ensures made { scratch.new.items ≡ over_operations units.now reads.now ops.now scratch.old.items }
{
    for behind in 0..ops.len() {
        over_operation(ops[ops.len() - 1 - behind], units, reads, scratch);
    }
}

fn over_operation(operation: Operation, units: &Units, reads: &Reads, scratch: &mut Vec<u64>)
    ensures made { scratch.new.items ≡ over_operation units.now reads.now operation scratch.old.items }
{
    match operation {
        Operation::Assume(term) => mark(scratch, reads.of(term)),
        Operation::Set(cell, term) => {
            clear(scratch, units, units.of(cell));
            mark(scratch, reads.of(term));
        }
        Operation::SetAt(_, _, index, term) => {
            mark(scratch, reads.of(index));
            mark(scratch, reads.of(term));
        }
        Operation::Draw(cell, _) => clear(scratch, units, units.of(cell)),
    }
}

fn mark(scratch: &mut Vec<u64>, units: &[u32])
    ensures made { scratch.new.items ≡ mark scratch.old.items units.now }
{
    for number in 0..units.len() {
        mark_one(scratch, units[number]);
    }
}

// The bit of a unit in its word.
fn bit_of(unit: u32) -> u64
    ensures made { result ≡ 2 ^ (unit % 64) }
{
    1u64 << (unit % 64)
}

fn mark_one(scratch: &mut Vec<u64>, unit: u32)
    ensures made { scratch.new.items ≡ mark_one scratch.old.items unit }
{
    let word = unit as usize / 64;
    if word < scratch.len() {
        scratch[word] |= bit_of(unit);
    }
}

fn clear(scratch: &mut Vec<u64>, units: &Units, unit: u32)
    ensures made { scratch.new.items ≡ clear scratch.old.items units.now unit }
{
    if !units.is_single(unit) {
        return;
    }
    let word = unit as usize / 64;
    if word < scratch.len() {
        scratch[word] &= !bit_of(unit);
    }
}
