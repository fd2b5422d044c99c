//! How many nodes the copies of functions have, with those of all that they call.
//!
//! A search over calls finds the sizes, each after those of the called functions. Whether they are right is looked at afterwards, and
//! sizes that are too small are raised: where functions call one another in a ring, up to the limit on nodes and no further.

ghost use Rattle.std.specs.Prelude.{◌≡◌, ◌≤◌, ◌<◌, ℕ, false, min, length, slice_get, slice_set, IfOk, IsTrue};
ghost use Rattle.call_inline.specs.Inlining.{nodes_of};
ghost use Rattle.call_inline.specs.Sizes.{AreSettled, AreSizes, IsSettled, nodes_among, nodes_at, nodes_with, room, size_in};

use c_graph::{FnGraph, Node};
use lv_base::Memory;
use std::alloc::Global;

/// Sizes from this on are as good as any other: they pass the limit on nodes.
const MANY: u64 = 65_537;

/// A function whose calls are looked at, and the next of its nodes.
#[derive(Clone, Copy)]
struct Visit {
    function: usize,
    node: usize,
}

/// How many nodes a copy of each function has, with those of all that it calls. It goes over calls and not into them, so no depth
/// of calls matters.
pub(crate) fn sizes_of(alloc: Global, graphs: &[FnGraph]) -> Result<Vec<u64>, Memory>
    ensures sizes { IfOk result (λ s. AreSizes graphs.now s.items) }
    ensures settled { IfOk result (λ s. AreSettled graphs.now s.items) }
{
    let mut sizes = guesses(alloc, graphs)?;
    settle(graphs, &mut sizes);
    Ok(sizes)
}

/// How many nodes a copy of a function has, with those of all that it calls.
pub(crate) fn known(sizes: &[u64], function: u32) -> u64
    ensures { result ≡ size_in sizes.now function }
{
    match sizes.get(function as usize) {
        None => 0,
        Some(nodes) => *nodes,
    }
}

// Sizes that a search finds.
fn guesses(alloc: Global, graphs: &[FnGraph]) -> Result<Vec<u64>, Memory>
    ensures { IfOk result (λ s. AreSizes graphs.now s.items) }
{
    let mut seen = vec![in alloc; false; graphs.len()]?;
    let mut sizes = vec![in alloc; 0u64; graphs.len()]?;
    for function in 0..graphs.len() {
        find_size(alloc, graphs, function, &mut seen, &mut sizes)?;
    }
    Ok(sizes)
}

// How many steps a search over these functions can have.
fn most_steps(graphs: &[FnGraph]) -> u64 {
    let mut steps = 1u64;
    for graph in graphs {
        steps = steps.saturating_add(graph.nodes().len() as u64);
        steps = steps.saturating_add(2);
    }
    steps.saturating_mul(2)
}

// The size of this function and of all that it calls.
fn find_size(
    alloc: Global,
    graphs: &[FnGraph],
    function: usize,
    seen: &mut Vec<bool>,
    sizes: &mut Vec<u64>,
) -> Result<(), Memory>
    ensures { AreSizes graphs.now sizes.old.items → AreSizes graphs.now sizes.new.items }
{
    let mut open = Vec::new(alloc);
    enter(function, seen, &mut open)?;
    for _ in 0..most_steps(graphs) {
        let Some(visit) = open.pop() else {
            return Ok(());
        };
        go_on(graphs, visit, seen, sizes, &mut open)?;
    }
    Ok(())
}

// A function that was not looked at is.
fn enter(function: usize, seen: &mut Vec<bool>, open: &mut Vec<Visit>) -> Result<(), Memory> {
    if function < seen.len() && !seen[function] {
        seen[function] = true;
        open.push(Visit { function, node: 0 })?;
    }
    Ok(())
}

// Goes over one function's nodes up to the first call of a function that was not looked at; behind the last one its own size is found.
fn go_on(
    graphs: &[FnGraph],
    visit: Visit,
    seen: &mut Vec<bool>,
    sizes: &mut Vec<u64>,
    open: &mut Vec<Visit>,
) -> Result<(), Memory>
    ensures { AreSizes graphs.now sizes.old.items → AreSizes graphs.now sizes.new.items }
{
    let own = own_nodes(graphs, visit.function);
    for node in visit.node..own.len() {
        if let Node::Call(callee, _) = own[node] {
            let callee = callee as usize;
            if callee < seen.len() && !seen[callee] {
                open.push(Visit {
                    function: visit.function,
                    node,
                })?;
                return enter(callee, seen, open);
            }
        }
    }
    let nodes = sum(own, sizes);
    set_size(visit.function, nodes, sizes);
    Ok(())
}

// The nodes of a function's own graph.
fn own_nodes(graphs: &[FnGraph], function: usize) -> &[Node]
    ensures { result.now ≡ nodes_of (slice_get graphs.now function) }
{
    match graphs.get(function) {
        None => &[],
        Some(graph) => graph.nodes(),
    }
}

/// Raises the size of a function, if it is smaller.
fn set_size(function: usize, nodes: u64, sizes: &mut Vec<u64>) -> bool
    ensures raised { IsTrue result → (function < length sizes.old.items) × (size_in sizes.old.items function < nodes) × (sizes.new.items ≡ slice_set sizes.old.items function nodes) }
    ensures same { result ≡ false → sizes.new.items ≡ sizes.old.items }
    ensures enough { result ≡ false → function < length sizes.old.items → nodes ≤ size_in sizes.old.items function }
{
    if function >= sizes.len() || nodes <= sizes[function] {
        return false;
    }
    sizes[function] = nodes;
    true
}

/// The nodes of a function's own graph and of the copies in it.
fn sum(own: &[Node], sizes: &[u64]) -> u64
    ensures { result ≡ min (nodes_among (size_in sizes.now) own.now) 18446744073709551615 }
{
    let mut nodes = 0u64;
    for node in own {
        nodes = nodes.saturating_add(with_copy(*node, sizes));
    }
    nodes
}

/// A node, and the copy behind it if it is a call.
pub(crate) fn with_copy(node: Node, sizes: &[u64]) -> u64
    ensures { result ≡ min (nodes_at (size_in sizes.now) node) 18446744073709551615 }
{
    match node {
        Node::Call(callee, _) => known(sizes, callee).saturating_add(1),
        Node::Plain | Node::Error(_, _) | Node::End => 1,
    }
}

/// Raises sizes until none is too small.
fn settle(graphs: &[FnGraph], sizes: &mut Vec<u64>)
    requires { AreSizes graphs.now sizes.old.items }
    ensures sizes { AreSizes graphs.now sizes.new.items }
    ensures settled { AreSettled graphs.now sizes.new.items }
{
    while raise_all(graphs, sizes) {}
}

/// Raises each size that is too small, and says whether there was one.
fn raise_all(graphs: &[FnGraph], sizes: &mut Vec<u64>) -> bool
    requires { AreSizes graphs.now sizes.old.items }
    ensures sizes { AreSizes graphs.now sizes.new.items }
    ensures raised { IsTrue result → room sizes.new.items < room sizes.old.items }
    ensures settled { result ≡ false → AreSettled graphs.now sizes.new.items }
{
    let mut raised = false;
    for function in 0..graphs.len() {
        raised |= raise(graphs, function, sizes);
    }
    raised
}

/// Raises the size of a function if it is too small, but not beyond what is many, and says whether it was.
fn raise(graphs: &[FnGraph], function: usize, sizes: &mut Vec<u64>) -> bool
    requires sizes { AreSizes graphs.now sizes.old.items }
    requires there { function < length graphs.now }
    ensures sizes { AreSizes graphs.now sizes.new.items }
    ensures raised { IsTrue result → room sizes.new.items < room sizes.old.items }
    ensures same { result ≡ false → sizes.new.items ≡ sizes.old.items }
    ensures settled { result ≡ false → IsSettled graphs.now sizes.new.items function }
{
    let nodes = sum(own_nodes(graphs, function), sizes);
    let few = nodes.min(MANY);
    set_size(function, few, sizes)
}
