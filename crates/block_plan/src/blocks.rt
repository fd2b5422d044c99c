//! Cut points and the blocks between them: each place that is no cut point belongs to the block of the places that lead to it.

ghost use Rattle.std.specs.Prelude.{◌≡◌, slice_get, IfOk, OnOk};
ghost use Rattle.plan_tables.specs.Made.{link_at};
ghost use Rattle.block_plan.specs.Made.{Planning, all_ways, arrive, before, befores_from, befores_new, befores_of, begins, block_before, block_of, blocks_before, blocks_of, both, came_all, came_from, came_none, cut_end, cut_off, cut_target, ends, ends_cut, first_cuts, gone_if, gone_through, go_through, is_cut, is_error, is_kept, is_plain, is_sure, is_way_up, leave, leave_all, listed_nodes, loops_listed, node_draws, note, nothing_pending, or_node, plan_begun, plan_over, put_in, settle_pending, settle_plan, taken, taken_all, targets_cut, way_draws, ways_at, ways_if};

use crate::alive::{alive, reached};
use crate::regular::{Way, Ways, draws, is_error, ways_of};
use c_graph::{Edge, Graph, LoopAt, Node, NodeId};
use lv_base::Memory;
use plan_tables::{Counts, Flags, Links, number_of};
use std::alloc::Global;
use std::marker::Model;

/// What is known of the places of a graph.
#[derive(Drop)]
pub struct Blocks {
    /// The ways out of each node that matters; those of others are kept.
    pub ways: Vec<Ways>,
    /// Nodes that are reached from the entry.
    pub reached: Flags,
    /// Nodes from which an error or a listed loop's node is reached.
    pub alive: Flags,
    /// Nodes that are reached and alive.
    pub matters: Flags,
    /// Cut points.
    pub cuts: Flags,
    /// Places at which each run through their block is that got so far.
    pub sure: Flags,
    /// The cut point at which a place's block begins; of a cut point itself.
    pub starts: Links,
}

impl Model for Blocks {
    ghost use Rattle.block_plan.specs.Plans.{Plan};

    ghost Value = { Plan };

    ghost view = { λ b. record {
      ways = b.ways.items;
      reached = b.reached;
      alive = b.alive;
      matters = b.matters;
      cuts = b.cuts;
      sure = b.sure;
      starts = b.starts;
    } };
}

/// What is counted while the places are gone through from the lowest up.
#[derive(Drop)]
struct Pending {
    /// How many edges from a block's places lead to places that were not gone through.
    ahead: Counts,
    /// Blocks with a way out.
    left: Flags,
}

impl Pending {
    fn new(alloc: Global, count: usize) -> Result<Pending, Memory>
        ensures made { IfOk result (λ p. p ≡ nothing_pending count) }
    {
        let ahead = Counts::new(alloc, count)?;
        let left = Flags::new(alloc, count)?;
        Ok(Pending { ahead, left })
    }
}

/// What the ways to a place tell.
#[derive(Clone, Copy)]
struct Came {
    /// A block that leads to it.
    start: Option<u32>,
    /// Whether no other block does.
    is_one: bool,
}

fn is_plain(graph: &Graph, node: NodeId) -> bool
    ensures made { result ≡ is_plain graph.now node }
{
    match graph.nodes().get(node.0 as usize) {
        None => false,
        Some(node) => !ends(*node),
    }
}

// Whether runs end at a node.
fn ends(node: Node) -> bool
    ensures made { result ≡ ends node }
{
    match node {
        Node::Plain => false,
        Node::Error(_, _) | Node::End | Node::Call(_, _) => true,
    }
}

/// The blocks of a graph.
pub fn blocks_of(alloc: Global, graph: &Graph) -> Result<Blocks, Memory>
    ensures made { IfOk result (λ b. b ≡ blocks_of graph.now) }
{
    let count = graph.nodes().len();
    let mut blocks = plan_begun(alloc, graph)?;
    let mut pending = Pending::new(alloc, count)?;
    let befores = befores_of(alloc, graph, &blocks.matters)?;
    let end = number_of(count)?;
    go_through_all(graph, &befores, end, &mut blocks, &mut pending);
    Ok(blocks)
}

// A plan without blocks.
fn plan_begun(alloc: Global, graph: &Graph) -> Result<Blocks, Memory>
    ensures made { IfOk result (λ b. b ≡ plan_begun graph.now) }
{
    let reached = reached(alloc, graph)?;
    let alive = alive(alloc, graph)?;
    let matters = both(alloc, graph.nodes().len(), &reached, &alive)?;
    let ways = all_ways(alloc, graph, &matters)?;
    plan_over(alloc, graph, reached, alive, matters, ways)
}

fn plan_over(
    alloc: Global,
    graph: &Graph,
    reached: Flags,
    alive: Flags,
    matters: Flags,
    ways: Vec<Ways>,
) -> Result<Blocks, Memory>
    ensures made { IfOk result (λ b. b ≡ plan_over graph.now reached alive matters ways.items) }
{
    let count = graph.nodes().len();
    let cuts = first_cuts(alloc, graph, ways.as_slice(), &matters)?;
    let sure = Flags::new(alloc, count)?;
    let starts = Links::new(alloc, count)?;
    Ok(Blocks {
        ways,
        reached,
        alive,
        matters,
        cuts,
        sure,
        starts,
    })
}

fn go_through_all(
    graph: &Graph,
    befores: &Befores,
    count: u32,
    blocks: &mut Blocks,
    pending: &mut Pending,
)
    ensures made { ◌≡◌ {A = Planning} (record { plan = blocks.new; pending = pending.new }) (gone_through graph.now befores.now (record { plan = blocks.old; pending = pending.old }) count) }
{
    for number in 0..count {
        go_if(graph, befores, NodeId(number), blocks, pending);
    }
}

// Goes through a place that matters.
fn go_if(graph: &Graph, befores: &Befores, node: NodeId, blocks: &mut Blocks, pending: &mut Pending)
    ensures made { ◌≡◌ {A = Planning} (record { plan = blocks.new; pending = pending.new }) (gone_if graph.now befores.now node (record { plan = blocks.old; pending = pending.old })) }
{
    if blocks.matters.get(node.0) {
        go_through(graph, befores, node, blocks, pending);
    }
}

fn go_through(
    graph: &Graph,
    befores: &Befores,
    node: NodeId,
    blocks: &mut Blocks,
    pending: &mut Pending,
)
    ensures made { ◌≡◌ {A = Planning} (record { plan = blocks.new; pending = pending.new }) (go_through graph.now befores.now node (record { plan = blocks.old; pending = pending.old })) }
{
    arrive(graph, befores, node, blocks, pending);
    leave(graph, node, blocks, pending);
}

fn both(alloc: Global, count: usize, first: &Flags, second: &Flags) -> Result<Flags, Memory>
    ensures made { IfOk result (λ f. f ≡ both count first.now second.now) }
{
    let mut found = Flags::new(alloc, count)?;
    for number in 0..number_of(count)? {
        if first.get(number) && second.get(number) {
            found.set(number);
        }
    }
    Ok(found)
}

fn all_ways(alloc: Global, graph: &Graph, matters: &Flags) -> Result<Vec<Ways>, Memory>
    ensures made { IfOk result (λ w. w.items ≡ all_ways graph.now matters.now) }
{
    let mut ways = Vec::new(alloc);
    for number in 0..number_of(graph.nodes().len())? {
        let found = ways_if(alloc, graph, matters, NodeId(number))?;
        ways.push(found)?;
    }
    Ok(ways)
}

// The ways out of a node that matters.
fn ways_if(alloc: Global, graph: &Graph, matters: &Flags, node: NodeId) -> Result<Ways, Memory>
    ensures made { IfOk result (λ w. w ≡ ways_if graph.now matters.now node.0) }
{
    if matters.get(node.0) {
        ways_of(alloc, graph, node)
    } else {
        Ok(Ways::Kept)
    }
}

/// The ways out of a node.
pub fn ways_at(ways: &[Ways], node: NodeId) -> Ways
    ensures made { result ≡ ways_at ways.now node }
{
    match ways.get(node.0 as usize) {
        None => Ways::Kept,
        Some(ways) => *ways,
    }
}

fn is_kept(ways: Ways) -> bool
    ensures made { result ≡ is_kept ways }
{
    match ways {
        Ways::Kept => true,
        Ways::One(_) | Ways::Two(_, _) => false,
    }
}

// Cut points that no block decides: the entry, targets of edges that do not go up, listed loops' nodes, nodes at which runs end, and
// nodes that keep their edges, with those to which these lead.
fn first_cuts(alloc: Global, graph: &Graph, ways: &[Ways], matters: &Flags) -> Result<Flags, Memory>
    ensures made { IfOk result (λ f. f ≡ first_cuts graph.now ways.now matters.now) }
{
    let mut cuts = listed_nodes(alloc, graph, graph.nodes().len())?;
    cut_ends(graph.nodes(), ways, &mut cuts)?;
    cut_targets(graph.edges(), ways, matters, &mut cuts);
    Ok(cuts)
}

/// The entry and the nodes of loops, among so many nodes.
pub fn listed_nodes(alloc: Global, graph: &Graph, count: usize) -> Result<Flags, Memory>
    ensures made { IfOk result (λ f. f ≡ listed_nodes graph.now count) }
{
    let mut listed = Flags::new(alloc, count)?;
    listed.set(graph.entry().0);
    list_loops(graph.loops(), &mut listed);
    Ok(listed)
}

fn list_loops(loops: &[LoopAt], listed: &mut Flags)
    ensures made { listed.new ≡ loops_listed listed.old loops.now }
{
    for number in 0..loops.len() {
        listed.set(loops[number].node.0);
    }
}

// Cuts off nodes at which runs end, and those that keep their edges.
fn cut_ends(nodes: &[Node], ways: &[Ways], cuts: &mut Flags) -> Result<(), Memory>
    ensures made { OnOk result (cuts.new ≡ ends_cut ways.now cuts.old 0 nodes.now) }
{
    for number in 0..nodes.len() {
        cut_end(number, nodes[number], ways, cuts)?;
    }
    Ok(())
}

fn cut_end(number: usize, node: Node, ways: &[Ways], cuts: &mut Flags) -> Result<(), Memory>
    ensures made { OnOk result (cuts.new ≡ cut_end ways.now cuts.old number node) }
{
    let number = number_of(number)?;
    if is_kept(ways_at(ways, NodeId(number))) || ends(node) {
        cuts.set(number);
    }
    Ok(())
}

// Cuts off targets of edges that do not go up, and of those that are kept.
fn cut_targets(edges: &[Edge], ways: &[Ways], matters: &Flags, cuts: &mut Flags)
    ensures made { cuts.new ≡ targets_cut ways.now matters.now cuts.old edges.now }
{
    for number in 0..edges.len() {
        cut_target(&edges[number], ways, matters, cuts);
    }
}

fn cut_target(edge: &Edge, ways: &[Ways], matters: &Flags, cuts: &mut Flags)
    ensures made { cuts.new ≡ cut_target ways.now matters.now cuts.old edge.now }
{
    if !matters.get(edge.from.0) {
        return;
    }
    if is_kept(ways_at(ways, edge.from)) || edge.to.0 <= edge.from.0 {
        cuts.set(edge.to.0);
    }
}

/// The ways that lead up to each node, from nodes that matter: a chain for each node.
#[derive(Drop)]
struct Befores {
    first: Links,
    next: Vec<Option<u32>>,
    from: Vec<NodeId>,
}

impl Model for Befores {
    ghost use Rattle.block_plan.specs.Plans.{WayChains};

    ghost Value = { WayChains };

    ghost view = { λ b. record { first = b.first; next = b.next.items; from = b.from.items } };
}

impl Befores {
    fn new(alloc: Global, count: usize) -> Result<Befores, Memory>
        ensures made { IfOk result (λ b. b ≡ befores_new count) }
    {
        let first = Links::new(alloc, count)?;
        Ok(Befores {
            first,
            next: Vec::new(alloc),
            from: Vec::new(alloc),
        })
    }

    // A further edge.
    fn push(&mut self, number: usize, edge: &Edge, matters: &Flags) -> Result<(), Memory>
        ensures made { OnOk result (self.new ≡ before matters.now self.old number edge.now) }
    {
        self.from.push(edge.from)?;
        if is_way_up(edge, matters) {
            self.next.push(self.first.get(edge.to.0))?;
            self.first.set(edge.to.0, Some(number_of(number)?));
        } else {
            self.next.push(None)?;
        }
        Ok(())
    }

    fn first_of(&self, node: NodeId) -> Option<u32>
        ensures made { result ≡ link_at self.now.first node.0 }
    {
        self.first.get(node.0)
    }

    fn behind(&self, number: u32) -> Option<u32>
        ensures made { result ≡ link_at self.now.next number }
    {
        match self.next.get(number as usize) {
            None => None,
            Some(next) => *next,
        }
    }

    // The node from which a way leads, another one where there is no such way.
    fn source(&self, number: u32, node: NodeId) -> NodeId
        ensures made { result ≡ or_node (slice_get self.now.from number) node }
    {
        match self.from.get(number as usize) {
            None => node,
            Some(from) => *from,
        }
    }
}

fn is_way_up(edge: &Edge, matters: &Flags) -> bool
    ensures made { result ≡ is_way_up matters.now edge.now }
{
    matters.get(edge.from.0) && edge.from.0 < edge.to.0
}

fn befores_of(alloc: Global, graph: &Graph, matters: &Flags) -> Result<Befores, Memory>
    ensures made { IfOk result (λ b. b ≡ befores_of graph.now matters.now) }
{
    let mut befores = Befores::new(alloc, graph.nodes().len())?;
    push_all(graph.edges(), matters, &mut befores)?;
    Ok(befores)
}

fn push_all(edges: &[Edge], matters: &Flags, befores: &mut Befores) -> Result<(), Memory>
    ensures made { OnOk result (befores.new ≡ befores_from matters.now befores.old 0 edges.now) }
{
    for number in 0..edges.len() {
        befores.push(number, &edges[number], matters)?;
    }
    Ok(())
}

// Finds the block of a place, and whether the place is sure.
fn arrive(
    graph: &Graph,
    befores: &Befores,
    node: NodeId,
    blocks: &mut Blocks,
    pending: &mut Pending,
)
    ensures made { ◌≡◌ {A = Planning} (record { plan = blocks.new; pending = pending.new }) (arrive graph.now befores.now node (record { plan = blocks.old; pending = pending.old })) }
{
    let came = come(graph, befores, node, &blocks.starts, pending);
    settle(graph, befores, node, came, blocks, pending);
}

// Goes through the ways to a place.
fn come(
    graph: &Graph,
    befores: &Befores,
    node: NodeId,
    starts: &Links,
    pending: &mut Pending,
) -> Came
    ensures made { result ≡ came_all (blocks_before graph.now befores.now node starts.now) came_none }
    ensures taken { pending.new ≡ taken_all (is_error graph.now node) (blocks_before graph.now befores.now node starts.now) pending.old }
{
    let is_end = is_error(graph, node);
    let mut came = Came {
        start: None,
        is_one: true,
    };
    let mut at = befores.first_of(node);
    for turn in 0..graph.edges().len() {
        let Some(number) = at else {
            return came;
        };
        let block = block_before(befores, starts, node, number);
        take(is_end, block, pending);
        came = came_from(came, block);
        at = befores.behind(number);
    }
    came
}

// The block of a place, the place itself where it has none.
fn block_of(starts: &Links, node: NodeId) -> u32
    ensures made { result ≡ block_of starts.now node }
{
    match starts.get(node.0) {
        None => node.0,
        Some(start) => start,
    }
}

// The block from which a way leads.
fn block_before(befores: &Befores, starts: &Links, node: NodeId, number: u32) -> u32
    ensures made { result ≡ block_before befores.now starts.now node number }
{
    let from = befores.source(number, node);
    block_of(starts, from)
}

// A way from a block was gone through; ways to an error do not count.
fn take(is_end: bool, block: u32, pending: &mut Pending)
    ensures made { pending.new ≡ taken is_end pending.old block }
{
    if !is_end {
        pending.ahead.take(block);
    }
}

// A further way, from a block.
fn came_from(came: Came, block: u32) -> Came
    ensures made { result ≡ came_from came block }
{
    let is_same = match came.start {
        None => true,
        Some(start) => start == block,
    };
    Came {
        start: Some(block),
        is_one: came.is_one && is_same,
    }
}

// A place is cut off where it has to be, or else stands in the block that leads to it.
fn settle(
    graph: &Graph,
    befores: &Befores,
    node: NodeId,
    came: Came,
    blocks: &mut Blocks,
    pending: &mut Pending,
)
    ensures plan { blocks.new ≡ settle_plan graph.now node blocks.old came pending.old }
    ensures pending { pending.new ≡ settle_pending graph.now befores.now node blocks.old came pending.old }
{
    if is_cut(graph, node, blocks, came, pending) {
        blocks.cut_off(node);
        if !is_error(graph, node) {
            leave_all(graph, befores, node, &blocks.starts, pending);
        }
    } else {
        blocks.put_in(node, came.start, is_sure(pending, came.start));
    }
}

// Whether no way of a block is open, and none leads out of it.
fn is_sure(pending: &Pending, start: Option<u32>) -> bool
    ensures made { result ≡ is_sure pending.now start }
{
    match start {
        None => false,
        Some(block) => pending.ahead.get(block) == 0 && !pending.left.get(block),
    }
}

// Whether a place has to be cut off.
fn is_cut(graph: &Graph, node: NodeId, blocks: &Blocks, came: Came, pending: &Pending) -> bool
    ensures made { result ≡ is_cut graph.now node blocks.now came pending.now }
{
    if blocks.cuts.get(node.0) {
        return true;
    }
    if came.start.is_none() {
        return true;
    }
    if !came.is_one {
        return true;
    }
    if is_sure(pending, came.start) {
        return false;
    }
    node_draws(graph, &blocks.ways, node)
}

impl Blocks {
    // A place becomes a cut point.
    fn cut_off(&mut self, node: NodeId)
        ensures made { self.new ≡ cut_off self.old node }
    {
        self.cuts.set(node.0);
        self.sure.set(node.0);
        self.starts.set(node.0, Some(node.0));
    }

    // A place belongs to a block.
    fn put_in(&mut self, node: NodeId, start: Option<u32>, is_sure: bool)
        ensures made { self.new ≡ put_in self.old node start is_sure }
    {
        self.starts.set(node.0, start);
        if is_sure {
            self.sure.set(node.0);
        }
    }
}

// The blocks that lead to a cut point have a way out.
fn leave_all(graph: &Graph, befores: &Befores, node: NodeId, starts: &Links, pending: &mut Pending)
    ensures made { pending.new ≡ leave_all graph.now befores.now node starts.now pending.old }
{
    let mut at = befores.first_of(node);
    for turn in 0..graph.edges().len() {
        let Some(number) = at else {
            return;
        };
        let block = block_before(befores, starts, node, number);
        pending.left.set(block);
        at = befores.behind(number);
    }
}

fn way_draws(graph: &Graph, way: Way) -> bool
    ensures made { result ≡ way_draws graph.now way }
{
    match graph.edges().get(way.edge.0 as usize) {
        None => false,
        Some(edge) => draws(edge),
    }
}

fn node_draws(graph: &Graph, ways: &[Ways], node: NodeId) -> bool
    ensures made { result ≡ node_draws graph.now ways.now node }
{
    match ways_at(ways, node) {
        Ways::Kept => false,
        Ways::One(way) => way_draws(graph, way),
        Ways::Two(first, second) => way_draws(graph, first) || way_draws(graph, second),
    }
}

// Notes where the ways out of a place lead.
fn leave(graph: &Graph, node: NodeId, blocks: &Blocks, pending: &mut Pending)
    ensures made { pending.new ≡ leave graph.now node blocks.now pending.old }
{
    match ways_at(&blocks.ways, node) {
        Ways::Kept => {}
        Ways::One(way) => note(graph, node, way, blocks, pending),
        Ways::Two(first, second) => {
            note(graph, node, first, blocks, pending);
            note(graph, node, second, blocks, pending);
        }
    }
}

fn note(graph: &Graph, node: NodeId, way: Way, blocks: &Blocks, pending: &mut Pending)
    ensures made { pending.new ≡ note graph.now node way blocks.now pending.old }
{
    if !blocks.matters.get(way.to.0) {
        return;
    }
    if is_error(graph, way.to) {
        return;
    }
    let block = block_of(&blocks.starts, node);
    if way.to.0 <= node.0 {
        pending.left.set(block);
    } else {
        pending.ahead.add(block);
    }
}

/// Whether a node is a cut point from which a block begins: one that matters and is not kept.
pub fn begins(graph: &Graph, blocks: &Blocks, node: NodeId) -> bool
    ensures made { result ≡ begins graph.now blocks.now node }
{
    if !blocks.matters.get(node.0) {
        return false;
    }
    if !blocks.cuts.get(node.0) {
        return false;
    }
    is_plain(graph, node) && !is_kept(ways_at(&blocks.ways, node))
}
