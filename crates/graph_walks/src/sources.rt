//! Walks through the graphs of whole sources on values of chance, beside replays on the values that the walks drew, and how large these
//! graphs are.

use block_join::join_blocks;
use c_graph::{Cell, FnGraph, Graph, Node, Origin};
use c_rules::Examined;
use cfg_build::build;
use graph_rows::{Inputs, Stop, walk_on};
use lv_base::{Memory, Model, SourceFail};
use row_text::RowFail;
use run_replay::{Ending, Replay};
use source_graphs::{examined, whole_graph};
use std::alloc::Global;
use std::rt::Files;
use table_rows::{Library, Refusal, load};

// A generator by shifts and exclusive ors (Marsaglia 2003).
#[derive(Drop)]
struct Chance {
    state: u64,
}

impl Chance {
    // The generator of this number.
    fn new(seed: u32) -> Chance {
        let seed = u64::from(seed);
        let state = 0x9e37_79b9_7f4a_7c15 ^ (seed << 17) ^ seed;
        Chance {
            state: if state == 0 { 1 } else { state },
        }
    }

    fn next(&mut self) -> u64 {
        let mut x = self.state;
        x ^= x << 13;
        x ^= x >> 7;
        x ^= x << 17;
        self.state = x;
        x
    }

    // A value of a width in bits, at most 64: small ones and those at the ends of ranges are common.
    fn bits(&mut self, width: u32) -> u128 {
        let modulus = 1u128 << width.min(64);
        let raw = u128::from(self.next());
        let picked = match self.next() % 8 {
            0 | 1 | 2 => raw % 10,
            3 => modulus.saturating_sub(raw % 3),
            4 => (modulus / 2).saturating_sub(1).saturating_add(raw % 3),
            5 => raw % 300,
            _ => raw,
        };
        picked % modulus
    }
}

// The number that has these bits of a width, of the signed range or of the unsigned one.
fn number_of(bits: u128, width: u32, signed: bool) -> i128 {
    let value = i128::try_from(bits).unwrap_or(0);
    let half = 1i128 << width.min(64).saturating_sub(1);
    if signed && value >= half {
        value.saturating_sub(half).saturating_sub(half)
    } else {
        value
    }
}

// A walk: where it stopped, and the values that it drew.
#[derive(Drop)]
struct Walk {
    // Where it stopped.
    stop: Stop,
    // The values that it drew, in order.
    drawn: Vec<i128>,
}

// Values of chance, and those that were drawn.
#[derive(Drop)]
struct Draws {
    chance: Chance,
    drawn: Vec<i128>,
}

impl Inputs for Draws {
    fn next(&mut self, width: u32, signed: bool) -> Result<Option<u128>, RowFail> {
        let bits = self.chance.bits(width);
        self.drawn.push(number_of(bits, width, signed))?;
        Ok(Some(bits))
    }
}

// The walk of a round, from the entry in a store of chance.
fn walk_by_chance(alloc: Global, graph: &Graph, round: u32) -> Result<Walk, Memory> {
    let mut chance = Chance::new(round);
    let store = first_store(alloc, graph, &mut chance)?;
    let drawn = Vec::new(alloc);
    let mut draws = Draws { chance, drawn };
    match walk_on(alloc, graph, store, &mut draws) {
        Ok(stop) => {
            let drawn = draws.drawn;
            Ok(Walk { stop, drawn })
        }
        // Cells hold all values of chance, so that memory ran out.
        Err(RowFail::Bad | RowFail::Memory) => Err(Memory),
    }
}

// Any value in each cell.
fn first_store(alloc: Global, graph: &Graph, chance: &mut Chance) -> Result<Vec<u128>, Memory> {
    let mut store = Vec::new(alloc);
    for cell in graph.cells() {
        store.push(chance.bits(cell.width))?;
    }
    Ok(store)
}

// The most turns of a replay.
const MOST_TURNS: u64 = 1_000_000;

// How many walks there were, and how many of them ended in another way than their replays.
#[derive(Clone, Copy, Debug, PartialEq)]
struct Tally {
    // All walks.
    walks: u64,
    // Those that ended in another way.
    others: u64,
}

// What a graph keeps of a program.
#[derive(Clone, Copy, Debug, PartialEq)]
enum Kept {
    // All of it.
    All,
    // What leads to an error or to a listed loop: a run that is past these ends anywhere.
    Errors,
}

// Compares so many walks with replays, and prints each difference.
fn compare<R: Print>(
    alloc: Global,
    rt: &R,
    examined: &Examined,
    graph: &Graph,
    kept: Kept,
    rounds: u32,
) -> Result<Tally, Memory> {
    let mut replay = Replay::new(alloc, examined)?;
    let mut others = 0u64;
    for round in 0..rounds {
        let walked = walk_by_chance(alloc, graph, round)?;
        let ending = replay.run(&walked.drawn, MOST_TURNS);
        if !agree(&walked, ending, kept) {
            others = others.saturating_add(1);
            let stop = walked.stop;
            let _ = println!(rt;
                "round {round}, {kept:?}: the walk {stop:?}, the replay {ending:?}"
            );
        }
    }
    let walks = u64::from(rounds);
    Ok(Tally { walks, others })
}

// Whether a walk and the replay on its values ended alike.
fn agree(walked: &Walk, ending: Ending, kept: Kept) -> bool {
    let is_error = matches!(ending, Ending::Error(_, _, _) | Ending::BadInput(_));
    match (walked.stop, ending) {
        (Stop::Error(kind, at), Ending::Error(other, place, drawn)) => {
            kind == other && at == place && drawn == walked.drawn.len()
        }
        (Stop::Error(_, _) | Stop::Dry | Stop::Forked, _) => false,
        (Stop::End, Ending::Ended) => true,
        (Stop::Loop, Ending::BadInput(_)) => false,
        (Stop::Loop, _) => true,
        (Stop::End | Stop::Stuck, _) => kept == Kept::Errors && !is_error,
    }
}

// Before calls are copies there are at most so many nodes for each token and for each function.
const MOST_NODES: usize = 16;

// For each token there are at most so many saved cells.
const MOST_SAVED: usize = 2;

// The tokens of `int main(void) { }`.
const LEAST_TOKENS: usize = 7;

// Whether the graphs of a program's functions are small beside its source.
fn are_small(alloc: Global, source: &[u8], examined: &Examined) -> Result<bool, SourceFail> {
    let tokens = c_tokens::tokens_of(alloc, source)?.len();
    let made = build(alloc, examined)?;
    let graphs = made.graphs();
    let most = tokens
        .saturating_add(graphs.len())
        .saturating_mul(MOST_NODES);
    let saved = saved_among(made.cells());
    Ok(nodes_of(graphs) <= most && saved <= tokens.saturating_mul(MOST_SAVED))
}

fn nodes_of(graphs: &[FnGraph]) -> usize {
    let mut nodes = 0usize;
    for graph in graphs {
        nodes = nodes.saturating_add(graph.nodes().len());
    }
    nodes
}

fn saved_among(cells: &[Cell]) -> usize {
    let mut saved = 0usize;
    for cell in cells {
        if matches!(cell.origin, Origin::Saved) {
            saved = saved.saturating_add(1);
        }
    }
    saved
}

// Whether the graph has no cell, no error and no choice, or its source has more than a `main` without statements.
fn is_bare(alloc: Global, source: &[u8], graph: &Graph) -> Result<bool, SourceFail> {
    if c_tokens::tokens_of(alloc, source)?.len() > LEAST_TOKENS {
        return Ok(true);
    }
    let is_safe = !graph
        .nodes()
        .iter()
        .any(|node| matches!(node, Node::Error(_, _)));
    Ok(graph.cells().is_empty() && is_safe && !has_choice(alloc, graph)?)
}

// Whether some node has two edges.
fn has_choice(alloc: Global, graph: &Graph) -> Result<bool, Memory> {
    let mut left = Vec::new(alloc);
    for edge in graph.edges() {
        if left.contains(&edge.from) {
            return Ok(true);
        }
        left.push(edge.from)?;
    }
    Ok(false)
}

// How often each graph is walked.
const ROUNDS: u32 = 20;

fn sum(first: Tally, second: Tally) -> Tally {
    Tally {
        walks: first.walks.saturating_add(second.walks),
        others: first.others.saturating_add(second.others),
    }
}

// A graph that is larger than it may be counts as a walk that ended in another way.
fn tally_of(is_well: bool) -> Tally {
    Tally {
        walks: 0,
        others: u64::from(!is_well),
    }
}

// Walks both graphs of a source under a data model.
fn walks_of<R: Print>(
    alloc: Global,
    rt: &R,
    source: &[u8],
    model: Model,
) -> Result<Tally, SourceFail> {
    let examined = examined(alloc, source, model)?;
    let small = are_small(alloc, source, &examined)?;
    let graph = whole_graph(alloc, &examined)?;
    let whole = compare(alloc, rt, &examined, &graph, Kept::All, ROUNDS)?;
    let bare = is_bare(alloc, source, &graph)?;
    let blocks = join_blocks(alloc, graph)?;
    let joined = compare(alloc, rt, &examined, &blocks, Kept::Errors, ROUNDS)?;
    let bare = bare && is_bare(alloc, source, &blocks)?;
    Ok(sum(sum(whole, joined), tally_of(small && bare)))
}

// Tries a source under a data model, and prints how many walks there were, and how many of them ended in another way, which it answers. A
// source that has no graph counts as one.
fn try_source<R: Print>(
    alloc: Global,
    rt: &R,
    name: &str,
    source: &[u8],
    model: Model,
) -> Result<u64, Refusal> {
    let under = model.name();
    let (others, printed) = match walks_of(alloc, rt, source, model) {
        Ok(Tally { walks, others }) => {
            (
                others,
                println!(rt; "{name}, {under}: {walks} walks, {others} others"),
            )
        }
        Err(SourceFail::Memory) => return Err(Refusal::Memory),
        Err(fail) => (1, println!(rt; "{name}, {under}: no graph: {fail:?}")),
    };
    match printed {
        Ok(()) => Ok(others),
        Err(_) => Err(Refusal::Output),
    }
}

/// Sources whose graphs are walked.
#[derive(Clone, Copy)]
pub(crate) struct SourceWalks;

impl Library for SourceWalks {
    fn try_rows<R>(&mut self, rt: &R, name: &str) -> Result<u64, Refusal>
    where
        R: AllocGlobal + Files + Print + Clone + Drop,
    {
        let alloc = rt.alloc();
        let source = load(alloc, rt, name)?;
        let narrow = try_source(alloc, rt, name, &source, Model::Ilp32)?;
        let wide = try_source(alloc, rt, name, &source, Model::Lp64)?;
        Ok(narrow.saturating_add(wide))
    }
}
