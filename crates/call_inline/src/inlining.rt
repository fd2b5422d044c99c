ghost use Rattle.std.specs.Prelude.{◌≡◌, ◌⊎◌, IfErr, IfOk, map, slice_get};
ghost use Rattle.c_graph.specs.Shape.{IsFlow};
ghost use Rattle.c_graph.specs.Parts.{error_flow};
ghost use Rattle.call_inline.specs.Inlining.{Inlines, IsInlining};
ghost use Rattle.call_inline.specs.Inlined.{inlined};
ghost use Rattle.call_inline.specs.Copying.{copies_after, graph_of, lists_of, loop_in, main_loops};
ghost use Rattle.call_inline.specs.Layout.{AreSparse, IsLaidOut};
ghost use Rattle.call_inline.specs.Sizes.{HasFew, TooMany};

use crate::copies::copies_of;
use crate::edges::edges_of_all;
use crate::nodes::nodes_of_all;
use crate::numbers::{entry_of, loops_of, main_of, number};
use crate::offsets::offsets_of;
use crate::sizes::{known, sizes_of};
use c_graph::{FnGraphs, Graph, LoopAt, graph_from};
use lv_base::{Memory, SourceFail};
use std::alloc::Global;

/// The most nodes of a graph with its calls inlined.
const MOST_NODES: u64 = 65_536;

/// The limit on nodes.
const NODES: u8 = 5;

/// The graph of `main` in which each call is a copy of the called function's graph.
///
/// Fails with `Over` for limit 5, with the number of nodes, where these are more than 65,536, else with `Memory`. Functions that call
/// one another in a ring, which those of a program don't, have more nodes than any limit. It takes time in proportion to the graph that
/// it makes.
pub fn inline(alloc: Global, graphs: &FnGraphs) -> Result<Graph, SourceFail>
    ensures made { IfOk result (λ g. Inlines graphs.now g) }
    ensures whole { AreSparse graphs.now → IfOk result (λ g. IsInlining graphs.now g) }
    ensures only { IfOk result (λ g. (g ≡ inlined graphs.now) ⊎ (g ≡ error_flow)) }
    ensures one { AreSparse graphs.now → IfOk result (λ g. g ≡ inlined graphs.now) }
    ensures few { IfOk result (λ _. HasFew graphs.now) }
    ensures limit { IfErr result (TooMany graphs.now) }
{
    let sizes = sizes_of(alloc, graphs.graphs())?;
    let size = known(&sizes, graphs.main());
    if size > MOST_NODES {
        return Err(SourceFail::Over(NODES, size));
    }
    let offsets = offsets_of(alloc, graphs.graphs(), &sizes)?;
    Ok(copy_all(alloc, graphs, &offsets, size as usize)?)
}

/// The graph of so many nodes.
fn copy_all(
    alloc: Global,
    graphs: &FnGraphs,
    offsets: &[Vec<u32>],
    size: usize,
) -> Result<Graph, Memory>
    requires { IsLaidOut graphs.now (lists_of offsets.now) size }
    ensures made { IfOk result (λ g. Inlines graphs.now g) }
    ensures whole { AreSparse graphs.now → IfOk result (λ g. IsInlining graphs.now g) }
    ensures only { IfOk result (λ g. (g ≡ inlined graphs.now) ⊎ (g ≡ error_flow)) }
    ensures one { AreSparse graphs.now → IfOk result (λ g. g ≡ inlined graphs.now) }
{
    let copies = copies_of(alloc, graphs, offsets, size)?;
    let edges = edges_of_all(alloc, graphs, offsets, &copies)?;
    let nodes = nodes_of_all(alloc, graphs, offsets, &copies, size)?;
    let entry = number(offsets, main_of(graphs), entry_of(graphs, graphs.main()));
    let loops = loops_in_main(alloc, graphs, offsets)?;
    let cells = graphs.cells().to_vec(alloc)?;
    let terms = graphs.terms().copy()?;
    graph_from(alloc, nodes, edges, cells, terms, entry, loops)
}

/// The loops of `main`, by offset.
fn loops_in_main(
    alloc: Global,
    graphs: &FnGraphs,
    offsets: &[Vec<u32>],
) -> Result<Vec<LoopAt>, Memory>
    ensures { IfOk result (λ r. r.items ≡ main_loops graphs.now (lists_of offsets.now)) }
{
    let copied = main_of(graphs);
    let own = loops_of(graphs, graphs.main());
    let mut loops = Vec::new(alloc);
    for a_loop in own {
        loops.push(LoopAt {
            at: a_loop.at,
            node: number(offsets, copied, a_loop.node),
        })?;
    }
    Ok(loops)
}
