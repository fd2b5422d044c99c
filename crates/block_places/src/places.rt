//! The places of nodes.
ghost use Rattle.std.specs.Prelude.{◌≡◌, IfOk, IfSome, IsTrue, Some, length, slice_get};
ghost use Rattle.c_graph.specs.declared.graph.Node.TheVariants.{Plain};
ghost use Rattle.c_graph.specs.Shape.{outs};
ghost use Rattle.block_rule.specs.Plans.{ArePlaces, IsPlace};
ghost use Rattle.block_edges.specs.Exact.{AllLed, AreLed};
ghost use Rattle.walk_states.specs.Known.{plan_of};
ghost use Rattle.walk_states.specs.Walks.{place_of, places_of, ways_of};
ghost use Rattle.block_places.specs.Made as made;

use crate::edges::are_covered;
use crate::exits::guess;
use crate::leading::are_leading;
use crate::regular::is_regular;
use block_steps::is_plain;
use c_graph::{EdgeId, Graph, NodeId};
use lv_base::Memory;
use std::alloc::Global;
use walk_states::{Known, Place, Ways};

/// The place with these ways, if they pass the tests.
fn tested(
    graph: &Graph,
    known: &Known,
    node: NodeId,
    numbers: &[EdgeId],
    ways: Ways,
) -> Option<Place>
    requires plain { slice_get graph.now.nodes node.0 ≡ Some Plain }
    requires all { numbers.now ≡ outs graph.now node }
    ensures place { IfSome result (λ p. IsPlace graph.now (plan_of known.now) (length graph.now.cells) (place_of graph.now p)) }
    ensures led { IfSome result (λ p. AreLed graph.now p.node (ways_of graph.now p.ways)) }
    ensures made { result ≡ made.tested graph.now known.now node numbers.now ways }
{
    if !are_covered(graph, ways, numbers) || !is_regular(graph, known, ways) {
        return None;
    }
    if !are_leading(graph, node.0, ways, numbers) {
        return None;
    }
    Some(Place { node: node.0, ways })
}

/// The place of a node with its ways out, if it is plain and these are regular. Of two edges that both lead to errors, and of two that
/// lead to none, the first comes first; an error that only one of them leads to comes before the other's way.
pub fn place_of_node(
    alloc: Global,
    graph: &Graph,
    known: &Known,
    node: u32,
) -> Result<Option<Place>, Memory>
    ensures place { IfOk result (λ o. IfSome o (λ p. IsPlace graph.now (plan_of known.now) (length graph.now.cells) (place_of graph.now p))) }
    ensures led { IfOk result (λ o. IfSome o (λ p. AreLed graph.now p.node (ways_of graph.now p.ways))) }
    ensures made { IfOk result (λ o. o ≡ made.place_of_node graph.now known.now node) }
{
    if !is_plain(graph, node) {
        return Ok(None);
    }
    let numbers = graph.outs(alloc, NodeId(node))?;
    match guess(graph, &numbers) {
        None => Ok(None),
        Some(ways) => Ok(tested(graph, known, NodeId(node), &numbers, ways)),
    }
}

/// The places of these nodes in their order, if each has one.
pub fn places_of_nodes(
    alloc: Global,
    graph: &Graph,
    known: &Known,
    nodes: &[NodeId],
) -> Result<Option<Vec<Place>>, Memory>
    ensures places { IfOk result (λ o. IfSome o (λ ps. ArePlaces graph.now (plan_of known.now) (length graph.now.cells) (places_of graph.now ps.items))) }
    ensures led { IfOk result (λ o. IfSome o (λ ps. AllLed graph.now (places_of graph.now ps.items))) }
    ensures made { IfOk result (λ o. made.items_of o ≡ made.places_of_nodes graph.now known.now nodes.now) }
{
    let mut places = Vec::new(alloc);
    for node in nodes {
        let Some(place) = place_of_node(alloc, graph, known, node.0)? else {
            return Ok(None);
        };
        places.push(place)?;
    }
    Ok(Some(places))
}
