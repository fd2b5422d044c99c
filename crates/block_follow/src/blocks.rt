//! Whether each cut point has a block by the rule, or the edges that it had.
ghost use Rattle.std.specs.Prelude.{ℕ, ◌≡◌, ◌<◌, ◌≤◌, false, IfOk, IfSome, IsTrue, length, slice_index};
ghost use Rattle.c_graph.specs.Shape.{IsFlow};
ghost use Rattle.truth_terms.specs.Truths.{Grew};
ghost use Rattle.program_graphs.specs.Weighing.{total};
ghost use Rattle.block_rule.specs.Blocked.{IsBlocked};
ghost use Rattle.block_rule.specs.Plans.{ArePlaces};
ghost use Rattle.block_rule.specs.Plans as rule;
ghost use Rattle.block_edges.specs.Exact.{AllLed};
ghost use Rattle.block_edges.specs.Weights.{IsExact};
ghost use Rattle.walk_states.specs.Known.{plan_of};
ghost use Rattle.walk_states.specs.Walks.{places_of};
ghost use Rattle.block_follow.specs.Following.{AreInside, AreOver, Follows, HasBlockOf, IsFirst};
ghost use Rattle.block_places.specs.Made as places;
ghost use Rattle.block_follow.specs.Made as made;

use crate::growth::grows;
use crate::keeping::keeps;
use crate::outs::are_over;
use crate::sizes::{are_few, size_at};
use block_places::places_of_nodes;
use block_steps::{Cursor, are_sides, leads_from};
use block_walk::block;
use c_graph::{Graph, NodeId};
use lv_base::Memory;
use plan_tests::is_plan;
use std::alloc::Global;
use walk_states::{Known, Place, Stop, matters};

/// Whether the second graph has for each cut point of the first a block by the rule, or the edges that it had, and no more. What is
/// known of the first graph is tested too. The members of each node are a guess of the places of its block, the node itself first, and
/// no node is a member of two; a node whose members have no regular ways out has to keep its edges.
pub fn follows_rule(
    alloc: Global,
    old: &Graph,
    new: &Graph,
    known: &Known,
    members: &[Vec<NodeId>],
) -> Result<bool, Memory>
    ensures blocked { IfOk result (λ b. IsTrue b → IsBlocked old.now new.now (plan_of known.now)) }
    ensures exact { IfOk result (λ b. IsTrue b → IsExact old.now new.now (plan_of known.now)) }
    ensures made { IfOk result (λ b. b ≡ made.follows_rule old.now new.now known.now (made.lists_of members.now)) }
{
    if !grows(old, new) {
        return Ok(false);
    }
    if !is_plan(old, known) {
        return Ok(false);
    }
    let over = ends_where_nothing_matters(alloc, old, new, known)?;
    if !over {
        return Ok(false);
    }
    let sizes = sizes_of(alloc, members)?;
    all_follow(alloc, old, new, known, members, &sizes)
}

// How many members each node has.
fn sizes_of(alloc: Global, members: &[Vec<NodeId>]) -> Result<Vec<usize>, Memory>
    ensures made { IfOk result (λ v. v.items ≡ made.sizes_of (made.lists_of members.now)) }
{
    let mut sizes = Vec::new(alloc);
    for nodes in members {
        sizes.push(nodes.len())?;
    }
    Ok(sizes)
}

/// Whether the entry matters, or each edge from it leads to an end or back to it.
fn ends_where_nothing_matters(
    alloc: Global,
    old: &Graph,
    new: &Graph,
    known: &Known,
) -> Result<bool, Memory>
    ensures tells { IfOk result (λ b. IsTrue b → rule.matters (plan_of known.now) old.now.entry.0 ≡ false → AreOver new.now new.now.entry.0) }
    ensures made { IfOk result (λ b. b ≡ made.ends_where_nothing_matters old.now new.now known.now) }
{
    if matters(known, old.entry().0) {
        return Ok(true);
    }
    are_over(alloc, new, new.entry().0)
}

/// Whether each cut point that matters has a block of no more places than its size, or the edges that it had, and all sizes together are
/// no more than the first graph has nodes.
fn all_follow(
    alloc: Global,
    old: &Graph,
    new: &Graph,
    known: &Known,
    members: &[Vec<NodeId>],
    sizes: &[usize],
) -> Result<bool, Memory>
    requires { Grew old.now.terms new.now.terms }
    ensures flow { IsFlow old.now }
    ensures follow { IfOk result (λ b. IsTrue b → (v : ℕ) → v < length old.now.nodes → Follows old.now new.now (plan_of known.now) (slice_index sizes.now) v) }
    ensures few { IfOk result (λ b. IsTrue b → total (slice_index sizes.now) (length new.now.nodes) ≤ length old.now.nodes) }
    ensures made { IfOk result (λ b. b ≡ made.all_follow old.now new.now known.now (made.lists_of members.now) sizes.now) }
{
    let count = count_nodes(old);
    let all = count_nodes(new);
    if !are_few(sizes, all as usize, count as usize) {
        return Ok(false);
    }
    let firsts = first_edges(alloc, new)?;
    nodes_follow(alloc, old, new, known, members, &firsts, sizes, count)
}

/// Whether so many nodes follow the rule.
fn nodes_follow(
    alloc: Global,
    old: &Graph,
    new: &Graph,
    known: &Known,
    members: &[Vec<NodeId>],
    firsts: &[usize],
    sizes: &[usize],
    count: u32,
) -> Result<bool, Memory>
    requires { Grew old.now.terms new.now.terms }
    ensures follow { IfOk result (λ b. IsTrue b → (v : ℕ) → v < count → Follows old.now new.now (plan_of known.now) (slice_index sizes.now) v) }
    ensures made { IfOk result (λ b. b ≡ made.nodes_follow old.now new.now known.now (made.lists_of members.now) firsts.now sizes.now count) }
{
    for node in 0..count {
        if !follows(alloc, old, new, known, members, firsts, sizes, node)? {
            return Ok(false);
        }
    }
    Ok(true)
}

fn count_nodes(graph: &Graph) -> u32
    ensures value { result ≡ length graph.now.nodes }
    ensures flow { IsFlow graph.now }
{
    graph.nodes().len() as u32
}

fn count_cells(graph: &Graph) -> u32
    ensures { result ≡ length graph.now.cells }
{
    graph.cells().len() as u32
}

// The first edge that leads from each node, the number of all where there is none.
fn first_edges(alloc: Global, graph: &Graph) -> Result<Vec<usize>, Memory>
    ensures made { IfOk result (λ v. v.items ≡ made.first_edges graph.now) }
{
    let edges = graph.edges();
    let mut firsts = vec![in alloc; edges.len(); graph.nodes().len()]?;
    for number in 0..edges.len() {
        note_first(
            &mut firsts,
            edges.len(),
            number,
            edges[number].from.0 as usize,
        );
    }
    Ok(firsts)
}

// Notes the first edge of a node where none was, the number of all standing for none.
fn note_first(firsts: &mut Vec<usize>, all: usize, number: usize, from: usize)
    ensures made { firsts.new.items ≡ made.with_first firsts.old.items all number from }
{
    if from < firsts.len() && firsts[from] == all {
        firsts[from] = number;
    }
}

/// The first edge of a node, the highest number past the end.
fn first_at(firsts: &[usize], node: u32) -> usize
    ensures made { result ≡ made.first_at firsts.now node }
{
    match firsts.get(node as usize) {
        None => usize::MAX,
        Some(number) => *number,
    }
}

/// Whether a node, if it is a cut point that matters, has a block by the rule of no more places than its size, or the edges that it had.
fn follows(
    alloc: Global,
    old: &Graph,
    new: &Graph,
    known: &Known,
    members: &[Vec<NodeId>],
    firsts: &[usize],
    sizes: &[usize],
    node: u32,
) -> Result<bool, Memory>
    requires { Grew old.now.terms new.now.terms }
    ensures tells { IfOk result (λ b. IsTrue b → Follows old.now new.now (plan_of known.now) (slice_index sizes.now) node) }
    ensures made { IfOk result (λ b. b ≡ made.follows old.now new.now known.now (made.lists_of members.now) firsts.now sizes.now node) }
{
    if !known.cuts.get(node) {
        return Ok(true);
    }
    if !matters(known, node) {
        return Ok(true);
    }
    let size = size_at(sizes, node as usize);
    if size == 0 {
        return Ok(false);
    }
    let first = first_at(firsts, node);
    match places_at(alloc, old, known, members, node)? {
        None => keeps(alloc, old, new, known, node, first),
        Some(places) => begins(alloc, old, new, known, &places, size, node, first),
    }
}

/// The places of a node's members, where each has regular ways out.
fn places_at(
    alloc: Global,
    old: &Graph,
    known: &Known,
    members: &[Vec<NodeId>],
    node: u32,
) -> Result<Option<Vec<Place>>, Memory>
    ensures places { IfOk result (λ o. IfSome o (λ ps. ArePlaces old.now (plan_of known.now) (length old.now.cells) (places_of old.now ps.items))) }
    ensures led { IfOk result (λ o. IfSome o (λ ps. AllLed old.now (places_of old.now ps.items))) }
    ensures made { IfOk result (λ o. places.items_of o ≡ made.places_at old.now known.now (made.lists_of members.now) node) }
{
    match members.get(node as usize) {
        None => Ok(None),
        Some(nodes) => places_of_nodes(alloc, old, known, nodes),
    }
}

/// Whether a node has the block of these places, which are no more than so many, from the edge of a number on, and no other edge than that.
fn begins(
    alloc: Global,
    old: &Graph,
    new: &Graph,
    known: &Known,
    places: &[Place],
    size: usize,
    node: u32,
    first: usize,
) -> Result<bool, Memory>
    requires grew { Grew old.now.terms new.now.terms }
    requires places { ArePlaces old.now (plan_of known.now) (length old.now.cells) (places_of old.now places.now) }
    requires led { AllLed old.now (places_of old.now places.now) }
    ensures tells { IfOk result (λ b. IsTrue b → HasBlockOf old.now new.now (plan_of known.now) size node) }
    ensures made { IfOk result (λ b. b ≡ made.begins old.now new.now known.now places.now size node first) }
{
    if places.len() > size || !is_first(places, node) {
        return Ok(false);
    }
    if !are_inside(known, places) {
        return Ok(false);
    }
    if !leads_from(new, first, node) {
        return Ok(false);
    }
    if !are_sides(alloc, new, node, first, first)? {
        return Ok(false);
    }
    let cursor = Cursor {
        edge_at: first,
        op_at: 0,
    };
    match block(alloc, old, new, known, places, count_cells(old), cursor) {
        Ok(_) => Ok(true),
        Err(Stop::Differs) => Ok(false),
        Err(Stop::Memory) => Err(Memory),
    }
}

/// Whether the first place is the node's.
fn is_first(places: &[Place], node: u32) -> bool
    ensures tells { IsTrue result → IsFirst places.now node }
    ensures made { result ≡ made.is_first places.now node }
{
    if places.is_empty() {
        return false;
    }
    places[0].node == node
}

/// Whether no place but the first is a cut point.
fn are_inside(known: &Known, places: &[Place]) -> bool
    ensures tells { IsTrue result → AreInside (plan_of known.now) places.now }
    ensures made { result ≡ made.are_inside known.now places.now }
{
    for number in 0..places.len() {
        if !is_inside(known, &places[number], number) {
            return false;
        }
    }
    true
}

/// Whether the node of the place of a number is no cut point, if it is not the first.
fn is_inside(known: &Known, place: &Place, number: usize) -> bool
    ensures tells { IsTrue result → 0 < number → (plan_of known.now).cuts place.now.node ≡ false }
    ensures made { result ≡ made.is_inside known.now number place.now }
{
    number == 0 || !known.cuts.get(place.node)
}
