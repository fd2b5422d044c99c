//! Tables of graphs: each row states where a walk of a graph and of the graph of its blocks ends, or what the graph of its blocks looks
//! like, and is printed where it is not so, behind what was found. The first word of a row says what it states, of the graph that an
//! earlier row gave:
//!
//! - `graph PARTS`: the parts of a graph;
//! - `from VALUES`: the first values of the first cells for the walks behind it; the others are 0, as all are without such a row;
//! - `walk VALUES = END`: where the walk ends that draws these values and no others: `error KIND OFFSET`, `end`, `stuck` or `loop`;
//! - `edges COUNT`: how many edges the graph of the blocks has;
//! - `outs NODE = NODES`: to which nodes they lead from a node, in order;
//! - `does NODE = DEEDS`: what the operations of the only one that leads from a node do, in order.
#![tactic(auto)]

use block_join::join_blocks;
use bv_term::{Term, TermId, Terms};
use c_graph::{Edge, Graph, Operation};
use graph_rows::{ListedWalk, Stop, kind_in, walk_listed, whole_graph};
use row_text::{
    Library, Refusal, RowFail, Rows, Stated, Table, fields, halves, number, numbers, wides,
};
use std::alloc::{AllocError, Global};
use std::rt::Files;

fn term_at(terms: &Terms, term: TermId) -> Option<Term> {
    if term.0 < terms.count() {
        Some(terms.get(term))
    } else {
        None
    }
}

// Whether a term is a choice between another value and that of a cell.
fn keeps(terms: &Terms, cell: u32, term: TermId) -> bool {
    match term_at(terms, term) {
        Some(Term::Select(_, _, other)) => term_at(terms, other) == Some(Term::Cell(cell)),
        _ => false,
    }
}

// Whether an index is a choice between another one and one past the end.
fn passes(terms: &Terms, length: u32, index: TermId) -> bool {
    match term_at(terms, index) {
        Some(Term::Select(_, _, other)) => match term_at(terms, other) {
            Some(Term::Constant(_, past)) => past == u128::from(length),
            _ => false,
        },
        _ => false,
    }
}

// What an operation does: `keep` and `keep_at` are stores that go through a guard.
fn word_of(terms: &Terms, operation: Operation) -> &'static str {
    match operation {
        Operation::Assume(_) => "assume",
        Operation::Draw(_, _) => "draw",
        Operation::Set(cell, term) if keeps(terms, cell, term) => "keep",
        Operation::Set(_, _) => "set",
        Operation::SetAt(_, length, index, _) if passes(terms, length, index) => "keep_at",
        Operation::SetAt(_, _, _, _) => "set_at",
    }
}

// The words of the operations of an edge, with a blank between them.
fn words_of(alloc: Global, terms: &Terms, edge: &Edge) -> Result<String, RowFail> {
    let mut words = String::new(alloc);
    for operation in edge.ops.as_slice() {
        if !words.as_str().is_empty() {
            words.push_str(" ")?;
        }
        words.push_str(word_of(terms, *operation))?;
    }
    Ok(words)
}

// What the only edge that leads from a node does, none where there are others.
fn deeds_from(alloc: Global, graph: &Graph, node: u32) -> Result<Option<String>, RowFail> {
    let mut found = None;
    for edge in graph.edges() {
        if edge.from.0 == node {
            if found.is_some() {
                return Ok(None);
            }
            found = Some(words_of(alloc, graph.terms(), edge)?);
        }
    }
    Ok(found)
}

// Tries the row of an edge's deeds, and prints what was found where it is not so.
fn does_so<R: Print>(alloc: Global, rt: &R, blocks: &Graph, rest: &str) -> Result<bool, RowFail> {
    let (node, wanted) = halves(rest)?;
    let Some(found) = deeds_from(alloc, blocks, number(Some(node))?)? else {
        let _ = println!(rt; "not one edge leads from there");
        return Ok(false);
    };
    let found = found.as_str();
    if found == wanted {
        return Ok(true);
    }
    let _ = println!(rt; "there is: {found}");
    Ok(false)
}

// Tries the row of how many edges there are, and prints that where it is not so.
fn are_so_many<R: Print>(rt: &R, blocks: &Graph, rest: &str) -> Result<bool, RowFail> {
    let found = blocks.edges().len();
    if found == number(Some(rest))? as usize {
        return Ok(true);
    }
    let _ = println!(rt; "there are {found}");
    Ok(false)
}

// The nodes to which edges lead from a node, in order.
fn nodes_behind(alloc: Global, graph: &Graph, node: u32) -> Result<Vec<u32>, RowFail> {
    let mut found = Vec::new(alloc);
    for edge in graph.edges() {
        if edge.from.0 == node {
            found.push(edge.to.0)?;
        }
    }
    Ok(found)
}

// Tries the row of the nodes to which edges lead from one, and prints these where it is not so.
fn lead_so<R: Print>(alloc: Global, rt: &R, blocks: &Graph, rest: &str) -> Result<bool, RowFail> {
    let (node, wanted) = halves(rest)?;
    let wanted = numbers(alloc, wanted)?;
    let found = nodes_behind(alloc, blocks, number(Some(node))?)?;
    if found.as_slice() == wanted.as_slice() {
        return Ok(true);
    }
    for to in &found {
        let _ = println!(rt; "one leads to {to}");
    }
    Ok(false)
}

// The end that a row states.
fn stop_in(text: &str) -> Result<Stop, RowFail> {
    let (word, rest) = fields(text);
    match word {
        "error" => {
            let (kind, at) = fields(rest);
            Ok(Stop::Error(kind_in(kind)?, number(Some(at))?))
        }
        "end" => Ok(Stop::End),
        "stuck" => Ok(Stop::Stuck),
        "loop" => Ok(Stop::Loop),
        _ => Err(RowFail::Bad),
    }
}

// The numbers that are the words of a text.
fn values_in(alloc: Global, text: &str) -> Result<Vec<i128>, RowFail> {
    let mut found = Vec::new(alloc);
    for word in text.split_ascii_whitespace() {
        let Ok(value) = word.parse::<i128>() else {
            return Err(RowFail::Bad);
        };
        found.push(value)?;
    }
    Ok(found)
}

// Whether the graph of blocks keeps such a walk: an error behind as many values, and elsewhere any end without an error that draws no more.
fn keeps_walk(graph: ListedWalk, blocks: ListedWalk) -> bool {
    match (graph.stop, blocks.stop) {
        (Stop::Error(_, _), _) => blocks == graph,
        (_, Stop::End | Stop::Stuck | Stop::Loop) => true,
        (_, Stop::Error(_, _) | Stop::Dry | Stop::Forked) => false,
    }
}

// Tries the row of a walk, and prints what was found where it is not so. Saved cells of blocks are to be set before they are read, so
// that it is the same where they begin with 0 and with 1.
fn ends_so<R: Print>(
    alloc: Global,
    rt: &R,
    graph: &Graph,
    blocks: &Graph,
    firsts: &[u128],
    rest: &str,
) -> Result<bool, RowFail> {
    let (inputs, wanted) = halves(rest)?;
    let inputs = values_in(alloc, inputs)?;
    let wanted = ListedWalk {
        stop: stop_in(wanted)?,
        drawn: inputs.len(),
    };
    let found = walk_listed(alloc, graph, firsts, 0, &inputs)?;
    let low = walk_listed(alloc, blocks, firsts, 0, &inputs)?;
    let high = walk_listed(alloc, blocks, firsts, 1, &inputs)?;
    if found == wanted && keeps_walk(wanted, low) && keeps_walk(wanted, high) {
        return Ok(true);
    }
    let _ = println!(rt; "the graph {found:?}, its blocks {low:?} and {high:?}");
    Ok(false)
}

// What tries the rows.
#[derive(Drop)]
struct BlockTable<R: Print + Drop> {
    rt: R,
    // The parts of the graph that the rows behind it are about.
    graph: String,
    // The first values of its first cells.
    firsts: Vec<u128>,
}

impl<R: Print + Drop> BlockTable<R> {
    fn begin(&mut self, alloc: Global, parts: &str) -> Result<bool, RowFail> {
        self.graph = String::from_str(alloc, parts)?;
        self.firsts = Vec::new(alloc);
        whole_graph(alloc, parts)?;
        Ok(true)
    }

    fn start(&mut self, alloc: Global, values: &str) -> Result<bool, RowFail> {
        self.firsts = wides(alloc, values)?;
        Ok(true)
    }

    // Tries a row about a graph and the graph of its blocks.
    fn of_graph(&self, alloc: Global, kind: &str, rest: &str) -> Result<bool, RowFail> {
        let graph = whole_graph(alloc, self.graph.as_str())?;
        let blocks = join_blocks(alloc, whole_graph(alloc, self.graph.as_str())?)?;
        match kind {
            "walk" => ends_so(alloc, &self.rt, &graph, &blocks, &self.firsts, rest),
            "edges" => are_so_many(&self.rt, &blocks, rest),
            "outs" => lead_so(alloc, &self.rt, &blocks, rest),
            "does" => does_so(alloc, &self.rt, &blocks, rest),
            _ => Err(RowFail::Bad),
        }
    }
}

impl<R: Print + Drop> Table for BlockTable<R> {
    fn is_so(&mut self, alloc: Global, row: &str) -> Result<bool, RowFail> {
        let (kind, rest) = fields(row);
        match kind {
            "graph" => self.begin(alloc, rest),
            "from" => self.start(alloc, rest),
            _ => self.of_graph(alloc, kind, rest),
        }
    }
}

/// Tables of graphs and the graphs of their blocks.
#[derive(Clone, Copy)]
pub struct BlockTables;

impl Library for BlockTables {
    fn try_rows<R>(&mut self, rt: &R, name: &str) -> Result<u64, Refusal>
    where
        R: AllocGlobal + Files + Print + Clone + Drop,
    {
        let prints: Result<R, AllocError> = rt.clone();
        let Ok(prints) = prints else {
            return Err(Refusal::Memory);
        };
        let alloc = rt.alloc();
        let table = BlockTable {
            rt: prints,
            graph: String::new(alloc),
            firsts: Vec::new(alloc),
        };
        Rows {
            table: Stated { table },
        }
        .try_rows(rt, name)
    }
}
