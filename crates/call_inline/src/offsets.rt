//! How far the nodes of a function stand behind the first one of a copy.
ghost use Rattle.std.specs.Prelude.{◌≡◌, IfOk, min};
ghost use Rattle.call_inline.specs.Copying.{all_offsets, lists_of, offsets_among};
ghost use Rattle.call_inline.specs.Sizes.{size_in};

use crate::sizes::with_copy;
use c_graph::{FnGraph, Node};
use lv_base::Memory;
use std::alloc::Global;

/// For each function how far each of its nodes stands behind the first of a copy: there is room between them for the copies of calls.
pub(crate) fn offsets_of(
    alloc: Global,
    graphs: &[FnGraph],
    sizes: &[u64],
) -> Result<Vec<Vec<u32>>, Memory>
    ensures { IfOk result (λ r. lists_of r.items ≡ all_offsets (size_in sizes.now) graphs.now) }
{
    let mut all = Vec::new(alloc);
    for graph in graphs {
        all.push(offsets_in(alloc, graph.nodes(), sizes)?)?;
    }
    Ok(all)
}

fn offsets_in(alloc: Global, nodes: &[Node], sizes: &[u64]) -> Result<Vec<u32>, Memory>
    ensures { IfOk result (λ r. r.items ≡ offsets_among (size_in sizes.now) 0 nodes.now) }
{
    let mut offsets = Vec::new(alloc);
    let mut offset = 0u64;
    for node in nodes {
        offsets.push(within(offset))?;
        offset = offset.saturating_add(with_copy(*node, sizes));
    }
    Ok(offsets)
}

/// The number of 32 bits that is nearest.
fn within(offset: u64) -> u32
    ensures { result ≡ min offset 4294967295 }
{
    offset.min(4_294_967_295) as u32
}
