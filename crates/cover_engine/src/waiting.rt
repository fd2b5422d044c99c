//! The vertices that may be open leaves. They wait in a set of numbers, from which those that are none are dropped when they
//! are the highest; so the open leaf of highest number is found without a look at all vertices. Which vertices are at an end
//! only the graph says: the nodes of those that were dropped for that are noted, and asked of the graph again each time.
ghost use Rattle.std.specs.Prelude.{ℕ, ◌≡◌, ◌≢◌, ◌+◌, ◌<◌, ◌≤◌, ◌^◌, ◌&&◌, [], nat_lt, length, true, false, IfNone, IfSome, IsTrue, OnOk, slice_get};
ghost use Rattle.std.specs.BTreeSet.{btree_set_len};
ghost use Rattle.reach_tree.specs.Trees.{vertex_at};
ghost use Rattle.cover_engine.specs.Unwindings.{has, is_end};
ghost use Rattle.cover_engine.specs.Caches.{times};
ghost use Rattle.cover_engine.specs.Openings.{AreWaiting, IsFound, IsHighest, Widens, all_end, opens, waits};

use crate::look_up::{closed_at, ends};
use crate::refinement::has_number;
use c_graph::Node;
use lv_base::Memory;
use reach_tree::{Tree, Vertex, VertexId};
use std::collections::BTreeSet;

/// What the waiting vertices say of the open leaf of highest number.
#[derive(Drop)]
pub enum Found {
    /// It is this one, or there is none.
    Known(Option<VertexId>),
    /// There was no memory to tell.
    Unknown,
}

/// The number waits.
pub fn wait_for(waiting: &mut BTreeSet<u32>, number: u32) -> Result<(), Memory>
    ensures there { OnOk result (waits waiting.new number ≡ true) }
    ensures kept { Widens waiting.old waiting.new }
{
    waiting.insert(number)?;
    Ok(())
}

/// So many numbers wait, from a number on.
pub fn wait_from(waiting: &mut BTreeSet<u32>, first: u32, count: u32) -> Result<(), Memory>
    requires { first + count < 2 ^ 32 }
    ensures there { OnOk result ((k : ℕ) → first ≤ k → k < first + count → waits waiting.new k ≡ true) }
    ensures kept { Widens waiting.old waiting.new }
{
    for number in first..first + count {
        wait_for(waiting, number)?;
    }
    Ok(())
}

/// The vertex waits where it has no children.
fn wait_for_leaf(
    waiting: &mut BTreeSet<u32>,
    vertices: &[Vertex],
    number: u32,
) -> Result<(), Memory>
    ensures there { OnOk result ((vertex_at vertices.now number).children ≡ [] → waits waiting.new number ≡ true) }
    ensures kept { Widens waiting.old waiting.new }
{
    let at = number as usize;
    if at < vertices.len() && !vertices[at].children.as_slice().is_empty() {
        return Ok(());
    }
    wait_for(waiting, number)
}

/// Those of these vertices wait that have no children.
pub fn wait_for_leaves(
    waiting: &mut BTreeSet<u32>,
    vertices: &[Vertex],
    numbers: &[u32],
) -> Result<(), Memory>
    ensures there { OnOk result ((k : ℕ) → 1 ≤ times k numbers.now → (vertex_at vertices.now k).children ≡ [] → waits waiting.new k ≡ true) }
    ensures kept { Widens waiting.old waiting.new }
{
    for number in numbers {
        wait_for_leaf(waiting, vertices, *number)?;
    }
    Ok(())
}

/// The highest number that waits.
fn highest_of(waiting: &BTreeSet<u32>) -> Option<u32>
    ensures there { IfSome result (λ n. waits waiting.now n ≡ true) }
    ensures highest { IfSome result (λ n. (k : ℕ) → waits waiting.now k ≡ true → k ≤ n) }
    ensures none { IfNone result ((k : ℕ) → waits waiting.now k ≡ false) }
{
    match waiting.last() {
        None => None,
        Some(number) => Some(*number),
    }
}

/// The number waits no longer.
fn drop_number(waiting: &mut BTreeSet<u32>, number: u32)
    ensures kept { (k : ℕ) → k ≢ number → waits waiting.old k ≡ true → waits waiting.new k ≡ true }
    ensures fewer { waits waiting.old number ≡ true → btree_set_len waiting.new < btree_set_len waiting.old }
{
    waiting.remove(&number);
}

/// Whether these nodes are all ends.
pub fn are_ends(nodes: &[Node], numbers: &[u32]) -> bool
    ensures { result ≡ all_end nodes.now numbers.now }
{
    for number in numbers {
        if !ends(nodes, *number as usize) {
            return false;
        }
    }
    true
}

/// Whether a vertex of this number is there and is an open leaf.
fn opens_at(nodes: &[Node], tree: &Tree, covers: &[u32], number: u32) -> bool
    requires { length covers.now ≡ length tree.now.vertices }
    ensures { result ≡ (nat_lt number (length tree.now.vertices) && opens nodes.now tree.now.terms tree.now.vertices covers.now number) }
{
    let at = number as usize;
    let vertices = tree.vertices();
    if at >= vertices.len() {
        return false;
    }
    let vertex = &vertices[at];
    vertex.children.as_slice().is_empty()
        && !closed_at(nodes, tree.terms(), vertex)
        && covers[at] == 0
}

/// Notes the node of a vertex that is at an end, and answers whether there was memory for it.
fn note_end(ends_known: &mut Vec<u32>, nodes: &[Node], vertices: &[Vertex], number: u32) -> bool
    ensures noted { IsTrue result → number < length vertices.now → is_end (slice_get nodes.now (vertex_at vertices.now number).node.0) ≡ true → has (vertex_at vertices.now number).node.0 ends_known.new.items ≡ true }
    ensures kept { (n : ℕ) → has n ends_known.old.items ≡ true → has n ends_known.new.items ≡ true }
    ensures ends { all_end nodes.now ends_known.old.items ≡ true → all_end nodes.now ends_known.new.items ≡ true }
{
    let at = number as usize;
    if at >= vertices.len() {
        return true;
    }
    let node = vertices[at].node.0;
    if !ends(nodes, node as usize) || has_number(ends_known, node) {
        return true;
    }
    ends_known.push(node).is_ok()
}

/// The open leaf of highest number. Numbers above it that are no open leaves wait no longer.
pub fn highest_waiting(
    waiting: &mut BTreeSet<u32>,
    ends_known: &mut Vec<u32>,
    nodes: &[Node],
    tree: &Tree,
    covers: &[u32],
) -> Found
    requires sized { length covers.now ≡ length tree.now.vertices }
    requires waits { AreWaiting tree.now.vertices tree.now.terms covers.now ends_known.old.items waiting.old }
    requires ends { all_end nodes.now ends_known.old.items ≡ true }
    ensures waits { AreWaiting tree.now.vertices tree.now.terms covers.now ends_known.new.items waiting.new }
    ensures found { IsFound nodes.now tree.now.terms tree.now.vertices covers.now result }
{
    while let Some(number) = highest_of(waiting) {
        if opens_at(nodes, tree, covers, number) {
            return Found::Known(Some(VertexId(number)));
        }
        if !note_end(ends_known, nodes, tree.vertices(), number) {
            return Found::Unknown;
        }
        drop_number(waiting, number);
    }
    Found::Known(None)
}

/// The open leaf of highest number, by a look at one vertex after another.
pub fn highest_by_number(nodes: &[Node], tree: &Tree, covers: &[u32]) -> Option<VertexId>
    requires { length covers.now ≡ length tree.now.vertices }
    ensures { IsHighest nodes.now tree.now.terms tree.now.vertices covers.now result }
{
    let mut left = tree.vertices().len();
    while left > 0 {
        left -= 1;
        if opens_at(nodes, tree, covers, left as u32) {
            return Some(VertexId(left as u32));
        }
    }
    None
}
