//! The places of each block.
ghost use Rattle.std.specs.Prelude.{◌≡◌, IfOk, length, max};
ghost use Rattle.block_emission.specs.Blocking as made;

use block_plan::{Blocks, number_of};
use c_graph::{Graph, NodeId};
use lv_base::Memory;
use std::alloc::Global;

fn empty_lists(alloc: Global, count: usize) -> Result<Vec<Vec<NodeId>>, Memory>
    ensures made { IfOk result (λ r. made.places_of r.items ≡ made.empty_lists count) }
{
    let mut lists = Vec::new(alloc);
    for _number in 0..count {
        lists.push(Vec::new(alloc))?;
    }
    Ok(lists)
}

/// The places of each block, by its cut point, which comes first.
pub fn members_of(alloc: Global, graph: &Graph, blocks: &Blocks) -> Result<Vec<Vec<NodeId>>, Memory>
    ensures made { IfOk result (λ r. made.places_of r.items ≡ made.members_of graph.now blocks.now) }
{
    let mut members = empty_lists(alloc, graph.nodes().len())?;
    for number in 0..number_of(graph.nodes().len())? {
        with_member(blocks, &mut members, number)?;
    }
    Ok(members)
}

/// The place of a number, where it matters, in the block that has it.
fn with_member(blocks: &Blocks, members: &mut Vec<Vec<NodeId>>, number: u32) -> Result<(), Memory>
    ensures made { IfOk result (λ u. made.places_of members.new.items ≡ made.with_member blocks.now (made.places_of members.old.items) number) }
{
    if blocks.matters.get(number) {
        let start = blocks.starts.get(number).unwrap_or(number);
        add_member(members, start as usize, NodeId(number))?;
    }
    Ok(())
}

/// A place stands behind those of its block.
fn add_member(members: &mut Vec<Vec<NodeId>>, start: usize, node: NodeId) -> Result<(), Memory>
    ensures made { IfOk result (λ u. made.places_of members.new.items ≡ made.add_member (made.places_of members.old.items) start node) }
{
    if start < members.len() {
        members[start].push(node)?;
    }
    Ok(())
}

/// Saved cells for the largest block: at most three a place.
pub(crate) fn room_for(members: &[Vec<NodeId>]) -> u32
    ensures made { result ≡ made.room_for (made.places_of members.now) }
{
    narrow(most_of(members)).saturating_mul(3)
}

fn narrow(most: usize) -> u32
    ensures made { result ≡ made.narrowed most }
{
    match u32::try_from(most) {
        Ok(number) => number,
        Err(_) => u32::MAX,
    }
}

fn most_of(members: &[Vec<NodeId>]) -> usize
    ensures made { result ≡ made.most_from 0 (made.places_of members.now) }
{
    let mut most = 0usize;
    for number in 0..members.len() {
        most = larger(most, &members[number]);
    }
    most
}

fn larger(most: usize, places: &[NodeId]) -> usize
    ensures made { result ≡ max most (length places.now) }
{
    most.max(places.len())
}
