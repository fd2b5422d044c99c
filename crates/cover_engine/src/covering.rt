//! How many left sides of pairs stand on the path of each vertex. The counts change only below the left sides of the pairs
//! that come and go, which a walk over the children finds.
ghost use Rattle.std.specs.Prelude.{ℕ, ◌≡◌, ◌+◌, ◌<◌, ◌≤◌, ◌++◌, All, IfOk, OnOk, length, slice_index};
ghost use Rattle.cover_engine.specs.Caches.{below, below_lefts, children_at, spread, times, vertex_numbers};

use lv_base::Memory;
use reach_tree::{Vertex, VertexId};
use std::alloc::Global;

/// Appends the numbers of these vertices.
fn push_numbers(vertices: &[VertexId], numbers: &mut Vec<u32>) -> Result<(), Memory>
    ensures { OnOk result (numbers.new.items ≡ numbers.old.items ++ vertex_numbers vertices.now) }
{
    for vertex in vertices {
        numbers.push(vertex.0)?;
    }
    Ok(())
}

/// Appends the numbers of the children of a vertex, which has none where it is not there.
fn push_children(vertices: &[Vertex], v: u32, numbers: &mut Vec<u32>) -> Result<(), Memory>
    ensures { OnOk result (numbers.new.items ≡ numbers.old.items ++ children_at vertices.now v) }
{
    if v as usize >= vertices.len() {
        return Ok(());
    }
    push_numbers(vertices[v as usize].children.as_slice(), numbers)
}

/// The numbers of a vertex and of all below it, each before its children.
pub fn below_of(alloc: Global, vertices: &[Vertex], v: u32) -> Result<Vec<u32>, Memory>
    ensures { IfOk result (λ r. r.items ≡ below vertices.now v) }
{
    let mut found: Vec<u32> = Vec::new(alloc);
    found.push(v)?;
    let mut at = 0;
    let mut left = vertices.len();
    while left > 0 && at < found.len() {
        let next = found[at];
        push_children(vertices, next, &mut found)?;
        at += 1;
        left -= 1;
    }
    found.truncate(at);
    Ok(found)
}

/// The numbers of the left sides of pairs, and of all below them.
pub fn below_lefts_of(
    alloc: Global,
    vertices: &[Vertex],
    pairs: &[(VertexId, VertexId)],
) -> Result<Vec<u32>, Memory>
    ensures { IfOk result (λ r. r.items ≡ below_lefts vertices.now pairs.now) }
{
    let mut found: Vec<u32> = Vec::new(alloc);
    for pair in pairs {
        let mut below = below_of(alloc, vertices, pair.0.0)?;
        found.append(&mut below)?;
    }
    Ok(found)
}

/// Lowers the count of each of these vertices by one, as often as it stands there.
pub fn lower(counts: &mut Vec<u32>, numbers: &[u32])
    requires inside { All (λ n. n < length counts.old.items) numbers.now }
    requires enough { (z : ℕ) → z < length counts.old.items → times z numbers.now ≤ slice_index counts.old.items z }
    ensures sized { length counts.new.items ≡ length counts.old.items }
    ensures lowered { (z : ℕ) → z < length counts.old.items → slice_index counts.new.items z + times z numbers.now ≡ slice_index counts.old.items z }
{
    for number in numbers {
        counts[*number as usize] -= 1;
    }
}

/// Raises the count of each of these vertices by one, as often as it stands there.
pub fn raise(counts: &mut Vec<u32>, numbers: &[u32])
    requires inside { All (λ n. n < length counts.old.items) numbers.now }
    requires room { (z : ℕ) → z < length counts.old.items → slice_index counts.old.items z + times z numbers.now ≤ 4294967295 }
    ensures sized { length counts.new.items ≡ length counts.old.items }
    ensures raised { (z : ℕ) → z < length counts.old.items → slice_index counts.new.items z ≡ slice_index counts.old.items z + times z numbers.now }
{
    for number in numbers {
        counts[*number as usize] += 1;
    }
}
