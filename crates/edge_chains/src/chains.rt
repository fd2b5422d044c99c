ghost use Rattle.std.specs.Prelude.{◌≡◌, ◌<◌, false, IfOk, IfSome, IsTrue, Some, length, slice_get, slice_set};
ghost use Rattle.std.specs.Option.{option_map};
ghost use Rattle.c_graph.specs.declared.graph.Edge.{Edge};
ghost use Rattle.edge_chains.specs.Joining.{Extends, IsJoined};
ghost use Rattle.edge_chains.specs.Made as made;
ghost use Rattle.edge_chains.specs.Links.{Adds, AreClear, AreJoined, AreKept, AreLinked, IsKept, IsLinked, IsNext, flag_at, link_at};

use crate::tables::{flag, link};
use c_graph::{Edge, LoopAt, Node, NodeId, Operation, Operations};
use lv_base::Memory;
use std::alloc::Global;

/// The edges of the nodes that are kept, each with all that follows it along nodes that are not.
pub fn join_chains(
    alloc: Global,
    nodes: &[Node],
    edges: Vec<Edge>,
    entry: NodeId,
    loops: &[LoopAt],
) -> Result<Vec<Edge>, Memory>
    ensures joined { IfOk result (λ r. IsJoined nodes.now loops.now entry edges.items r.items) }
    ensures made { IfOk result (λ r. r.items ≡ made.join_chains nodes.now edges.items entry loops.now) }
{
    let inner = inner_nodes(alloc, nodes.len(), &edges, entry, loops)?;
    let links = links_of(alloc, nodes.len(), &edges)?;
    match tested(alloc, nodes, &edges, entry, loops, &inner, &links)? {
        Some(found) => Ok(found),
        None => Ok(edges),
    }
}

/// The joined edges, if the tables pass the tests and each chain ends.
fn tested(
    alloc: Global,
    nodes: &[Node],
    edges: &[Edge],
    entry: NodeId,
    loops: &[LoopAt],
    inner: &[bool],
    links: &[Option<u32>],
) -> Result<Option<Vec<Edge>>, Memory>
    ensures joined { IfOk result (λ o. IfSome o (λ r. IsJoined nodes.now loops.now entry edges.now r.items)) }
    ensures made { IfOk result (λ o. option_map (λ r. r.items) o ≡ made.tested nodes.now edges.now entry loops.now inner.now links.now) }
{
    if flag(inner, entry.0) || !are_kept(nodes, inner) || !are_linked(inner, links, edges) {
        return Ok(None);
    }
    if !are_clear(inner, loops) {
        return Ok(None);
    }
    followed_all(alloc, edges, inner, links)
}

/// Whether no error node gives its edge away.
fn are_kept(nodes: &[Node], inner: &[bool]) -> bool
    ensures kept { IsTrue result → AreKept nodes.now inner.now }
    ensures made { result ≡ made.are_kept nodes.now inner.now }
{
    for number in 0..nodes.len() {
        if !is_kept(nodes[number], inner, number) {
            return false;
        }
    }
    true
}

/// Whether a node that is an error does not give its edge away.
fn is_kept(node: Node, inner: &[bool], number: usize) -> bool
    ensures kept { IsTrue result → IsKept node (flag_at inner.now number) }
    ensures made { result ≡ made.is_kept node (flag_at inner.now number) }
{
    match node {
        Node::Error(_, _) => match inner.get(number) {
            None => true,
            Some(flag) => !*flag,
        },
        Node::Plain | Node::End | Node::Call(_, _) => true,
    }
}

/// Whether no loop's node gives its edge away.
fn are_clear(inner: &[bool], loops: &[LoopAt]) -> bool
    ensures clear { IsTrue result → AreClear inner.now loops.now }
    ensures made { result ≡ made.are_clear inner.now loops.now }
{
    for number in 0..loops.len() {
        if flag(inner, loops[number].node.0) {
            return false;
        }
    }
    true
}

/// Whether each node that gives its edge away is linked to each edge that leads from it.
fn are_linked(inner: &[bool], links: &[Option<u32>], edges: &[Edge]) -> bool
    ensures linked { IsTrue result → AreLinked inner.now links.now edges.now }
    ensures made { result ≡ made.are_linked inner.now links.now edges.now }
{
    for number in 0..edges.len() {
        if !is_linked(inner, links, edges[number].from.0, number) {
            return false;
        }
    }
    true
}

fn is_linked(inner: &[bool], links: &[Option<u32>], node: u32, number: usize) -> bool
    ensures linked { IsTrue result → IsLinked inner.now links.now node number }
    ensures made { result ≡ made.is_linked inner.now links.now node number }
{
    if !flag(inner, node) {
        return true;
    }
    match link(links, node) {
        None => false,
        Some(link) => link as usize == number,
    }
}

/// Each edge of a node that is kept, with all that follows it; nothing where a chain has no end.
fn followed_all(
    alloc: Global,
    edges: &[Edge],
    inner: &[bool],
    links: &[Option<u32>],
) -> Result<Option<Vec<Edge>>, Memory>
    requires { AreLinked inner.now links.now edges.now }
    ensures joined { IfOk result (λ o. IfSome o (λ r. AreJoined inner.now edges.now (length edges.now) r.items)) }
    ensures made { IfOk result (λ o. option_map (λ r. r.items) o ≡ made.followed_all edges.now inner.now links.now) }
{
    let mut found = Vec::new(alloc);
    for number in 0..edges.len() {
        if !add(alloc, edges, inner, links, &edges[number], &mut found)? {
            return Ok(None);
        }
    }
    Ok(Some(found))
}

/// Adds an edge with all that follows it, if its node is kept; whether its chain ends.
fn add(
    alloc: Global,
    edges: &[Edge],
    inner: &[bool],
    links: &[Option<u32>],
    edge: &Edge,
    found: &mut Vec<Edge>,
) -> Result<bool, Memory>
    requires { AreLinked inner.now links.now edges.now }
    ensures adds { IfOk result (λ b. IsTrue b → Adds inner.now edges.now edge.now found.old.items found.new.items) }
    ensures made { IfOk result (λ b. (b, found.new.items) ≡ made.add edges.now inner.now links.now edge.now found.old.items) }
{
    if flag(inner, edge.from.0) {
        return Ok(true);
    }
    match followed(alloc, edges, inner, links, edge)? {
        None => Ok(false),
        Some(joined) => {
            found.push(joined)?;
            Ok(true)
        }
    }
}

/// An edge with all that follows it up to the next node that is kept.
fn followed(
    alloc: Global,
    edges: &[Edge],
    inner: &[bool],
    links: &[Option<u32>],
    edge: &Edge,
) -> Result<Option<Edge>, Memory>
    requires { AreLinked inner.now links.now edges.now }
    ensures extends { IfOk result (λ o. IfSome o (λ f. Extends (flag_at inner.now) edges.now edge.now f)) }
    ensures made { IfOk result (λ o. o ≡ made.followed edges.now inner.now links.now edge.now) }
{
    let mut ops: Vec<Operation> = edge.ops.as_slice().to_vec(alloc)?;
    let mut to: NodeId = edge.to;
    for _turn in 0..edges.len() {
        let Some(next) = next_of(edges, inner, links, to) else {
            return Ok(ended(inner, edge.from, to, ops));
        };
        ops.extend_from_slice(edges[next].ops.as_slice())?;
        to = edges[next].to;
    }
    Ok(None)
}

/// The number of the only edge from a node that gives its edge away.
fn next_of(edges: &[Edge], inner: &[bool], links: &[Option<u32>], node: NodeId) -> Option<usize>
    requires { AreLinked inner.now links.now edges.now }
    ensures next { IfSome result (λ k. IsNext inner.now edges.now node k) }
    ensures made { result ≡ made.next_of edges.now inner.now links.now node }
{
    if !flag(inner, node.0) {
        return None;
    }
    match link(links, node.0) {
        None => None,
        Some(number) => leading_from(edges, node, number as usize),
    }
}

/// The number, if an edge of this number leads from the node.
fn leading_from(edges: &[Edge], node: NodeId, number: usize) -> Option<usize>
    ensures leads { IfSome result (λ k. (k ≡ number) × (k < length edges.now) × ((e : Edge) → slice_get edges.now k ≡ Some e → e.from ≡ node)) }
    ensures made { result ≡ made.leading_from edges.now node number }
{
    if number < edges.len() && edges[number].from.0 == node.0 {
        Some(number)
    } else {
        None
    }
}

/// The edge, if it ends at a node that is kept.
fn ended(inner: &[bool], from: NodeId, to: NodeId, ops: Vec<Operation>) -> Option<Edge>
    ensures ends { IfSome result (λ f. (flag_at inner.now to.0 ≡ false) × (f ≡ record { from = from; to = to; ops = ops.items })) }
    ensures made { result ≡ made.ended inner.now from to ops.items }
{
    if flag(inner, to.0) {
        None
    } else {
        Some(Edge {
            from,
            to,
            ops: Operations::new(ops),
        })
    }
}

/// The last edge that leads from each of so many nodes.
fn links_of(alloc: Global, nodes: usize, edges: &[Edge]) -> Result<Vec<Option<u32>>, Memory>
    ensures made { IfOk result (λ r. r.items ≡ made.links_of nodes edges.now) }
{
    let mut links = vec![in alloc; None; nodes]?;
    for number in 0..edges.len() {
        link_to(&mut links, edges[number].from, number);
    }
    Ok(links)
}

/// Links a node to the edge of this number.
fn link_to(links: &mut Vec<Option<u32>>, node: NodeId, number: usize)
    ensures made { links.new.items ≡ slice_set links.old.items node.0 (made.narrow number) }
{
    let from = node.0 as usize;
    if from < links.len() {
        links[from] = narrow(number);
    }
}

/// The number, if 32 bits hold it.
fn narrow(number: usize) -> Option<u32>
    ensures made { result ≡ made.narrow number }
{
    match u32::try_from(number) {
        Ok(number) => Some(number),
        Err(_) => None,
    }
}

/// The nodes with one way in and one way out that are neither the entry nor a loop's.
fn inner_nodes(
    alloc: Global,
    nodes: usize,
    edges: &[Edge],
    entry: NodeId,
    loops: &[LoopAt],
) -> Result<Vec<bool>, Memory>
    ensures made { IfOk result (λ r. r.items ≡ made.inner_nodes nodes edges.now entry loops.now) }
{
    let mut inner = single_nodes(alloc, nodes, edges)?;
    clear(&mut inner, entry);
    clear_loops(&mut inner, loops);
    Ok(inner)
}

/// Makes the truths of loops' nodes false.
fn clear_loops(flags: &mut Vec<bool>, loops: &[LoopAt])
    ensures made { flags.new.items ≡ made.clear_loops flags.old.items loops.now }
{
    for number in 0..loops.len() {
        clear(flags, loops[number].node);
    }
}

/// The nodes with one way in and one way out.
fn single_nodes(alloc: Global, nodes: usize, edges: &[Edge]) -> Result<Vec<bool>, Memory>
    ensures made { IfOk result (λ r. r.items ≡ made.single_nodes nodes edges.now) }
{
    let ways = ways_of(alloc, nodes, edges)?;
    singles(alloc, &ways)
}

/// Of these ways, which are one in and one out.
fn singles(alloc: Global, ways: &[Ways]) -> Result<Vec<bool>, Memory>
    ensures made { IfOk result (λ r. r.items ≡ made.singles ways.now) }
{
    let mut single = Vec::new(alloc);
    for number in 0..ways.len() {
        let way = ways[number];
        single.push(way.ins == 1 && way.outs == 1)?;
    }
    Ok(single)
}

/// How many edges lead to a node, and from it.
#[derive(Clone, Copy)]
struct Ways {
    ins: u32,
    outs: u32,
}

fn ways_of(alloc: Global, nodes: usize, edges: &[Edge]) -> Result<Vec<Ways>, Memory>
    ensures made { IfOk result (λ r. r.items ≡ made.ways_of nodes edges.now) }
{
    let none = Ways { ins: 0, outs: 0 };
    let mut ways = vec![in alloc; none; nodes]?;
    for number in 0..edges.len() {
        lead_to(&mut ways, edges[number].to);
        lead_from(&mut ways, edges[number].from);
    }
    Ok(ways)
}

/// One more edge leads to a node.
fn lead_to(ways: &mut Vec<Ways>, node: NodeId)
    ensures made { ways.new.items ≡ made.lead_to ways.old.items node.0 }
{
    let to = node.0 as usize;
    if to < ways.len() {
        let way = ways[to];
        ways[to] = Ways {
            ins: way.ins.saturating_add(1),
            outs: way.outs,
        };
    }
}

/// One more edge leads from a node.
fn lead_from(ways: &mut Vec<Ways>, node: NodeId)
    ensures made { ways.new.items ≡ made.lead_from ways.old.items node.0 }
{
    let from = node.0 as usize;
    if from < ways.len() {
        let way = ways[from];
        ways[from] = Ways {
            ins: way.ins,
            outs: way.outs.saturating_add(1),
        };
    }
}

/// Makes a node's truth false.
fn clear(flags: &mut Vec<bool>, node: NodeId)
    ensures made { flags.new.items ≡ made.clear flags.old.items node }
{
    let number = node.0 as usize;
    if number < flags.len() {
        flags[number] = false;
    }
}
