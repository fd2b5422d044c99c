//! Graphs from parts that are tested first, in time that grows with the parts alone: a mark for each node from which an edge
//! leads answers whether a run that is there goes on.
ghost use Rattle.std.specs.Prelude.{◌≡◌, ◌⊎◌, ◌↔◌, IsTrue, All, Some, IfOk, List, length, slice_get, ℕ};
ghost use Rattle.c_graph.specs.declared.graph.Node.TheVariants.{End};
ghost use Rattle.c_graph.specs.Shape.{Flow, IsFlow, IsNodeOf};
ghost use Rattle.c_graph.specs.Functions.{AreFlows, Flows, FnFlow, IsFnFlow};
ghost use Rattle.c_graph.specs.Parts.{AllMarked, AreMarks, CallFitsBy, GoesOnBy, IsSound, ReturnAt, error_flow, error_flows, error_function, flow_of, flows_of};

use crate::check::{
    MOST_CELLS, MOST_PARTS, are_loops, are_widths_of, fit_edges, is_node, is_plain, no_calls,
};
use crate::flow::Graph;
use crate::functions::{FnGraph, FnGraphs};
use crate::graph::{Cell, Edge, LoopAt, Node, NodeId};
use bv_term::Terms;
use lv_base::{ErrorKind, Memory};
use std::alloc::Global;

/// The graph of these parts. Parts that make no graph give one in which each run is an error, `Reach` at offset 0, so that
/// nothing is called safe by mistake. The tests take time in proportion to the parts.
pub fn graph_from(
    alloc: Global,
    nodes: Vec<Node>,
    edges: Vec<Edge>,
    cells: Vec<Cell>,
    terms: Terms,
    entry: NodeId,
    loops: Vec<LoopAt>,
) -> Result<Graph, Memory>
    ensures made { IfOk result (λ g. (g ≡ flow_of nodes.items edges.items cells.items terms entry loops.items) ⊎ (g ≡ error_flow)) }
    ensures whole { IsFlow (flow_of nodes.items edges.items cells.items terms entry loops.items) → IfOk result (λ g. g ≡ flow_of nodes.items edges.items cells.items terms entry loops.items) }
{
    if make_graph(alloc, &nodes, &edges, &cells, &terms, entry, &loops)? {
        Graph::new(alloc, nodes, edges, cells, terms, entry, loops)
    } else {
        error_graph(alloc)
    }
}

/// Whether these parts make a graph.
fn make_graph(
    alloc: Global,
    nodes: &[Node],
    edges: &[Edge],
    cells: &[Cell],
    terms: &Terms,
    entry: NodeId,
    loops: &[LoopAt],
) -> Result<bool, Memory>
    ensures { IfOk result (λ b. IsTrue b ↔ IsFlow (flow_of nodes.now edges.now cells.now terms.now entry loops.now)) }
{
    if cells.len() > MOST_CELLS || !no_calls(nodes) || !are_widths_of(cells, terms.cells()) {
        return Ok(false);
    }
    let marks = marks_of(alloc, nodes.len(), edges)?;
    Ok(is_sound(nodes, edges, &marks, terms, entry, loops))
}

/// The graph that is an error at its entry.
fn error_graph(alloc: Global) -> Result<Graph, Memory>
    ensures { IfOk result (λ g. g ≡ error_flow) }
{
    let mut nodes = Vec::new(alloc);
    nodes.push(Node::Error(ErrorKind::Reach, 0))?;
    let terms = Terms::new(alloc, Vec::new(alloc));
    Graph::new(
        alloc,
        nodes,
        Vec::new(alloc),
        Vec::new(alloc),
        terms,
        NodeId(0),
        Vec::new(alloc),
    )
}

/// A mark for each node from which an edge leads.
fn marks_of(alloc: Global, nodes: usize, edges: &[Edge]) -> Result<Vec<bool>, Memory>
    ensures marked { IfOk result (λ m. AreMarks edges.now m.items) }
    ensures all { IfOk result (λ m. AllMarked nodes edges.now m.items) }
{
    let mut marks = vec![in alloc; false; nodes]?;
    for edge in edges {
        let from = edge.from.0 as usize;
        if from < marks.len() {
            marks[from] = true;
        }
    }
    Ok(marks)
}

/// Whether a plain node is marked.
fn goes_on_by(nodes: &[Node], marks: &[bool], node: NodeId) -> bool
    ensures { IsTrue result ↔ GoesOnBy nodes.now marks.now node }
{
    let number = node.0 as usize;
    !is_plain(nodes, node) || (number < marks.len() && marks[number])
}

/// Whether each node to which an edge leads is marked if it is plain.
fn targets_go_on_by(nodes: &[Node], edges: &[Edge], marks: &[bool]) -> bool
    ensures { IsTrue result ↔ All (λ e. GoesOnBy nodes.now marks.now e.to) edges.now }
{
    for edge in edges {
        if !goes_on_by(nodes, marks, edge.to) {
            return false;
        }
    }
    true
}

/// Whether parts have what graphs and function graphs keep alike.
fn is_sound(
    nodes: &[Node],
    edges: &[Edge],
    marks: &[bool],
    terms: &Terms,
    entry: NodeId,
    loops: &[LoopAt],
) -> bool
    requires marked { AreMarks edges.now marks.now }
    requires all { AllMarked (length nodes.now) edges.now marks.now }
    ensures { IsTrue result ↔ IsSound nodes.now edges.now terms.now entry loops.now }
{
    let is_few = nodes.len() <= MOST_PARTS && edges.len() <= MOST_PARTS - nodes.len();
    is_few
        && is_node(nodes, entry)
        && goes_on_by(nodes, marks, entry)
        && are_loops(nodes, loops)
        && fit_edges(nodes, terms, edges)
        && targets_go_on_by(nodes, edges, marks)
}

/// The graphs of a program's functions that have these parts. Parts that make none give a program of one function that is an
/// error at its entry, `Reach` at offset 0, so that nothing is called safe by mistake. The tests take time in proportion to the
/// parts.
pub fn function_graphs_from(
    alloc: Global,
    graphs: Vec<FnGraph>,
    cells: Vec<Cell>,
    terms: Terms,
    exits: Vec<NodeId>,
    main: u32,
) -> Result<FnGraphs, Memory>
    ensures made { IfOk result (λ g. (g ≡ flows_of graphs.items cells.items terms exits.items main) ⊎ (g ≡ error_flows)) }
    ensures whole { AreFlows (flows_of graphs.items cells.items terms exits.items main) → IfOk result (λ g. g ≡ flows_of graphs.items cells.items terms exits.items main) }
{
    if make_function_graphs(alloc, &graphs, &cells, &terms, &exits, main)? {
        Ok(FnGraphs::new(graphs, cells, terms, exits, main))
    } else {
        error_graphs(alloc)
    }
}

/// Whether these parts make the graphs of a program's functions.
fn make_function_graphs(
    alloc: Global,
    graphs: &[FnGraph],
    cells: &[Cell],
    terms: &Terms,
    exits: &[NodeId],
    main: u32,
) -> Result<bool, Memory>
    ensures { IfOk result (λ b. IsTrue b ↔ AreFlows (flows_of graphs.now cells.now terms.now exits.now main)) }
{
    let is_there = (main as usize) < graphs.len();
    if cells.len() > MOST_CELLS {
        return Ok(false);
    }
    if !is_there || !are_widths_of(cells, terms.cells()) || !return_at(graphs, exits) {
        return Ok(false);
    }
    for graph in graphs {
        if !is_function_graph(alloc, graphs.len(), graph, terms)? {
            return Ok(false);
        }
    }
    Ok(true)
}

/// Whether each graph has its exit: an end node among its own.
fn return_at(graphs: &[FnGraph], exits: &[NodeId]) -> bool
    ensures count { IsTrue result → length exits.now ≡ length graphs.now }
    ensures all { length exits.now ≡ length graphs.now → ReturnAt graphs.now exits.now → IsTrue result }
    ensures ends { IsTrue result → (k : ℕ) (g : FnFlow) (v : NodeId) → slice_get graphs.now k ≡ Some g → slice_get exits.now k ≡ Some v → slice_get g.nodes v.0 ≡ Some End }
{
    if graphs.len() != exits.len() {
        return false;
    }
    for (number, exit) in exits.iter().enumerate() {
        if !is_end(graphs[number].nodes(), *exit) {
            return false;
        }
    }
    true
}

fn is_end(nodes: &[Node], node: NodeId) -> bool
    ensures { IsTrue result ↔ (slice_get nodes.now node.0 ≡ Some End) }
{
    let number = node.0 as usize;
    if number >= nodes.len() {
        return false;
    }
    match nodes[number] {
        Node::End => true,
        Node::Error(_, _) | Node::Plain | Node::Call(_, _) => false,
    }
}

/// Whether this is a function's graph, beside so many functions.
fn is_function_graph(
    alloc: Global,
    functions: usize,
    graph: &FnGraph,
    terms: &Terms,
) -> Result<bool, Memory>
    ensures { IfOk result (λ b. IsTrue b ↔ IsFnFlow functions terms.now graph.now) }
{
    let nodes = graph.nodes();
    let marks = marks_of(alloc, nodes.len(), graph.edges())?;
    Ok(
        calls_fit(functions, nodes, &marks)
            && is_sound(
                nodes,
                graph.edges(),
                &marks,
                terms,
                graph.entry(),
                graph.loops(),
            ),
    )
}

/// Whether each call is of one of so many functions, and goes on at a node that goes on.
fn calls_fit(functions: usize, nodes: &[Node], marks: &[bool]) -> bool
    ensures { IsTrue result ↔ All (CallFitsBy functions nodes.now marks.now) nodes.now }
{
    for node in nodes {
        if !call_fits(functions, nodes, marks, *node) {
            return false;
        }
    }
    true
}

fn call_fits(functions: usize, nodes: &[Node], marks: &[bool], node: Node) -> bool
    ensures { IsTrue result ↔ CallFitsBy functions nodes.now marks.now node }
{
    match node {
        Node::Call(function, next) => {
            (function as usize) < functions
                && is_node(nodes, next)
                && goes_on_by(nodes, marks, next)
        }
        Node::Plain | Node::Error(_, _) | Node::End => true,
    }
}

/// The graphs of a program whose one function is an error at its entry.
fn error_graphs(alloc: Global) -> Result<FnGraphs, Memory>
    ensures { IfOk result (λ g. g ≡ error_flows) }
{
    let mut nodes = Vec::new(alloc);
    nodes.push(Node::Error(ErrorKind::Reach, 0))?;
    nodes.push(Node::End)?;
    let graph = FnGraph::new(nodes, Vec::new(alloc), NodeId(0), Vec::new(alloc));
    let mut graphs = Vec::new(alloc);
    graphs.push(graph)?;
    let mut exits = Vec::new(alloc);
    exits.push(NodeId(1))?;
    let terms = Terms::new(alloc, Vec::new(alloc));
    Ok(FnGraphs::new(graphs, Vec::new(alloc), terms, exits, 0))
}
