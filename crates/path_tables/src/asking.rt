//! The paths of a graph that lead from its entry to an error, and the question of each: a run, or a refutation with a formula for each
//! cut, link by link.

ghost use Rattle.std.specs.Prelude.{◌≡◌, ◌<◌, length};
ghost use Rattle.c_graph.specs.Shape.{widths_of};
ghost use Rattle.path_formula.specs.Questions.{question_of};
ghost use Rattle.path_query.specs.Facts.{IsQuery};
ghost use Rattle.resolution_log.specs.Chains.{IsRefutation};
ghost use Rattle.clause_learning.specs.Solve.{IsAnswer};

use crate::graph_of;
use bv_term::{Term, TermId, Terms};
use c_graph::{Edge, EdgeId, Graph, Node, NodeId, Operation, Operations, graph_from};
use cdcl_solver::{Answer, solve};
use interpolants::chain;
use lv_base::{ErrorKind, Memory};
use path_formula::path_clauses;
use path_query::PathQuery;
use refine::drawn_values;
use resolution_log::Log;
use row_text::{RowFail, Table, fields, halves, number};
use std::alloc::Global;

// The most paths that are looked at, those that end without an error among them.
const MOST_PATHS: u64 = 100_000;

// A path, and the node to which it leads.
#[derive(Drop)]
struct Open {
    path: Vec<EdgeId>,
    node: NodeId,
}

fn is_error(graph: &Graph, node: NodeId) -> bool {
    matches!(graph.nodes().get(node.0 as usize), Some(Node::Error(_, _)))
}

// Opens the paths that are by one edge longer.
fn extend(alloc: Global, graph: &Graph, from: &Open, open: &mut Vec<Open>) -> Result<(), Memory> {
    for out in &graph.outs(alloc, from.node)? {
        if let Some(edge) = graph.edges().get(out.0 as usize) {
            let mut path = from.path.as_slice().to_vec(alloc)?;
            path.push(*out)?;
            open.push(Open {
                path,
                node: edge.to,
            })?;
        }
    }
    Ok(())
}

// The paths of at most so many edges that lead from the entry to an error.
fn error_paths(alloc: Global, graph: &Graph, most: usize) -> Result<Vec<Vec<EdgeId>>, Memory> {
    let mut found = Vec::new(alloc);
    let mut open = Vec::new(alloc);
    open.push(Open {
        path: Vec::new(alloc),
        node: graph.entry(),
    })?;
    for _ in 0..MOST_PATHS {
        let Some(next) = open.pop() else {
            return Ok(found);
        };
        if is_error(graph, next.node) {
            found.push(next.path)?;
        } else if next.path.len() < most {
            extend(alloc, graph, &next, &mut open)?;
        }
    }
    Ok(found)
}

// The most chains of a refutation.
const LEARN: u64 = 1_000_000;

// Whether a term is this constant of one bit.
fn is_constant(terms: &Terms, term: TermId, value: u128) -> bool {
    term.0 < terms.count() && terms.get(term) == Term::Constant(1, value)
}

// The operations of an edge between two tests.
fn tested(
    alloc: Global,
    graph: &Graph,
    edge: EdgeId,
    first: TermId,
    last: TermId,
) -> Result<Vec<Operation>, RowFail> {
    let Some(edge) = graph.edges().get(edge.0 as usize) else {
        return Err(RowFail::Bad);
    };
    let mut operations = Vec::new(alloc);
    operations.push(Operation::Assume(first))?;
    for operation in edge.ops.as_slice() {
        operations.push(*operation)?;
    }
    operations.push(Operation::Assume(last))?;
    Ok(operations)
}

// The graph of one edge, from the entry to an error, with these operations over these terms.
fn link_graph(
    alloc: Global,
    graph: &Graph,
    terms: &Terms,
    operations: Vec<Operation>,
) -> Result<Graph, RowFail> {
    let mut nodes = Vec::new(alloc);
    nodes.push(Node::Plain)?;
    nodes.push(Node::Error(ErrorKind::Reach, 0))?;
    let mut edges = Vec::new(alloc);
    edges.push(Edge {
        from: NodeId(0),
        to: NodeId(1),
        ops: Operations::new(operations),
    })?;
    let cells = graph.cells().to_vec(alloc)?;
    Ok(graph_from(
        alloc,
        nodes,
        edges,
        cells,
        terms.copy()?,
        NodeId(0),
        Vec::new(alloc),
    )?)
}

// Whether the solver refutes that an edge leads from a store that meets the first formula to one that does not meet the
// second. Both stand in a table that begins with the graph's terms.
fn is_link(
    alloc: Global,
    graph: &Graph,
    terms: &mut Terms,
    edge: EdgeId,
    first: TermId,
    second: TermId,
) -> Result<bool, RowFail> {
    let complement = Term::Not(second);
    if !terms.fits(complement) {
        return Ok(false);
    }
    let last = terms.put(complement)?;
    let operations = tested(alloc, graph, edge, first, last)?;
    let link = link_graph(alloc, graph, terms, operations)?;
    let mut path = Vec::new(alloc);
    path.push(EdgeId(0))?;
    let query = path_clauses(alloc, &link, &path)?;
    // parts that make no graph give one without edges, whose clauses have an assignment
    Ok(matches!(solve(alloc, &query.clauses, LEARN), Ok(Answer::Unsat(_))))
}

// What was found of a path.
#[derive(Drop)]
enum Found {
    // It was refuted, with formulas that are a chain.
    Refuted,
    // It has a run, which draws these values.
    Run(Vec<i128>),
    // It had no answer, or formulas that are no chain.
    Other,
}

// What became of some paths.
#[derive(Drop)]
struct Tally {
    // How many were refuted, with formulas that are a chain.
    refuted: u32,
    // How many have a run.
    reached: u32,
    // How many had no answer, or formulas that are no chain.
    others: u32,
    // What the last one with a run draws.
    values: Vec<i128>,
}

// Whether each formula with its edge implies the next, by the solver.
fn are_links(
    alloc: Global,
    graph: &Graph,
    path: &[EdgeId],
    terms: &mut Terms,
    formulas: &[TermId],
) -> Result<bool, RowFail> {
    for (number, edge) in path.iter().enumerate() {
        if number + 1 >= formulas.len() {
            return Ok(false);
        }
        if !is_link(
            alloc,
            graph,
            terms,
            *edge,
            formulas[number],
            formulas[number + 1],
        )? {
            return Ok(false);
        }
    }
    Ok(true)
}

// Whether the formulas that a refutation gives are a chain, from true to false.
fn is_chain(
    alloc: Global,
    graph: &Graph,
    path: &[EdgeId],
    query: &PathQuery,
    log: &Log,
) -> Result<bool, RowFail>
    requires query { IsQuery (widths_of graph.now.cells) (length path.now) query.now }
    requires refuted { IsRefutation query.now.clauses log.now }
{
    let _entry = graph.entry();
    let mut terms = graph.terms().copy()?;
    let formulas = chain(alloc, graph, path, query, log, &mut terms)?;
    let (Some(first), Some(last)) = (formulas.first(), formulas.last()) else {
        return Ok(false);
    };
    Ok(
        is_constant(&terms, *first, 1)
            && is_constant(&terms, *last, 0)
            && are_links(alloc, graph, path, &mut terms, &formulas)?,
    )
}

// What the solver says of a path.
fn judged(
    alloc: Global,
    graph: &Graph,
    path: &[EdgeId],
    query: &PathQuery,
    answer: Answer,
) -> Result<Found, RowFail>
    requires query { IsQuery (widths_of graph.now.cells) (length path.now) query.now }
    requires question { query.now ≡ question_of graph.now path.now }
    requires answer { IsAnswer query.now.clauses 1000000 answer }
{
    match answer {
        Answer::Unsat(log) => {
            if is_chain(alloc, graph, path, query, &log)? {
                Ok(Found::Refuted)
            } else {
                Ok(Found::Other)
            }
        }
        Answer::Sat(found) => {
            let values = drawn_values(alloc, graph, path, query, &found)?;
            Ok(Found::Run(values.as_slice().to_vec(alloc)?))
        }
        Answer::Spent(_log) => Ok(Found::Other),
    }
}

// Asks the solver for a run of a path.
fn ask(alloc: Global, graph: &Graph, path: &[EdgeId]) -> Result<Found, RowFail> {
    let query = path_clauses(alloc, graph, path)?;
    match solve(alloc, &query.clauses, LEARN) {
        Ok(answer) => judged(alloc, graph, path, &query, answer),
        Err(_fail) => Ok(Found::Other),
    }
}

// Counts what was found of a path.
fn count(tally: &mut Tally, found: Found) {
    match found {
        Found::Refuted => tally.refuted = tally.refuted.saturating_add(1),
        Found::Run(values) => {
            tally.values = values;
            tally.reached = tally.reached.saturating_add(1);
        }
        Found::Other => tally.others = tally.others.saturating_add(1),
    }
}

// Tries each path of at most so many edges that leads from the entry to an error.
fn try_paths(alloc: Global, graph: &Graph, most: u32) -> Result<Tally, RowFail> {
    let mut tally = Tally {
        refuted: 0,
        reached: 0,
        others: 0,
        values: Vec::new(alloc),
    };
    for path in &error_paths(alloc, graph, most as usize)? {
        let found = ask(alloc, graph, path)?;
        count(&mut tally, found);
    }
    Ok(tally)
}

// Tries the row of refuted paths.
fn are_refuted(alloc: Global, source: &str, rest: &str) -> Result<bool, RowFail> {
    let (edges, count) = fields(rest);
    let graph = graph_of(alloc, source)?;
    let tally = try_paths(alloc, &graph, number(Some(edges))?)?;
    Ok(tally.refuted == number(Some(count))? && tally.reached == 0 && tally.others == 0)
}

// Whether the words of a text are these values.
fn are_values(text: &str, values: &[i128]) -> Result<bool, RowFail> {
    let mut number = 0;
    for word in text.split_ascii_whitespace() {
        let Ok(value) = word.parse::<i128>() else {
            return Err(RowFail::Bad);
        };
        if number >= values.len() || values[number] != value {
            return Ok(false);
        }
        number += 1;
    }
    Ok(number == values.len())
}

// Tries the row of the one path that has a run.
fn is_reached(alloc: Global, source: &str, rest: &str) -> Result<bool, RowFail> {
    let (edges, wanted) = halves(rest)?;
    let graph = graph_of(alloc, source)?;
    let Tally {
        reached,
        others,
        values,
        ..
    } = try_paths(alloc, &graph, number(Some(edges))?)?;
    Ok(reached == 1 && others == 0 && are_values(wanted, &values)?)
}

/// Rows of the paths in the graph of this source's blocks.
#[derive(Drop)]
pub(crate) struct PathRows<'a> {
    pub(crate) source: &'a str,
}

impl Table for PathRows<'_> {
    fn is_so(&mut self, alloc: Global, row: &str) -> Result<bool, RowFail> {
        let (kind, rest) = fields(row);
        match kind {
            "refuted" => are_refuted(alloc, self.source, rest),
            "reached" => is_reached(alloc, self.source, rest),
            _ => Err(RowFail::Bad),
        }
    }
}
