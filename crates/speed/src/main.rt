//! Measures parts: `speed MEASURE=SIZE..` does what each of its words says. `bench/lexer.py`, `bench/log_bench.py` and `bench/unwinding.py` time
//! it.
//!
//! - `lex=FILE` prints how many tokens a source has, `bytes=FILE` how many line ends, by one look at each byte;
//! - `check=CHAINS` makes a refutation of so many chains and checks it, `walk=CHAINS` makes it and only walks over it;
//! - `units=UNITS` makes about so many units of an unwinding.
#![tactic(auto)]

use c_lexer::lex;
use cover_engine::{UnitDone, Unwinding};
use loop_journey::Journey;
use lv_base::Memory;
use lv_outside::{Folder, Got, HostFolder};
use prop::{BlastFail, Clauses, Lit};
use resolution_log::{Chain, Log, LogFail, Pairs, check_log};
use std::alloc::{AllocError, Global};
use std::rt::Files;
use std::{env, io};

// The lexer is measured beside one look at each byte. The most bytes of a source.
const MOST: usize = 1_048_576;

// What the file of this name holds.
fn load<R: Files + Clone + Drop>(alloc: Global, rt: &R, name: &str) -> io::Result<Vec<u8>> {
    let files: Result<R, AllocError> = rt.clone();
    let Ok(files) = files else {
        return Err(io::Error::from(io::ErrorKind::OutOfMemory));
    };
    match HostFolder::new(files).read(alloc, name, MOST) {
        Ok(Got::Bytes(source)) => Ok(source),
        _ => Err(io::Error::from(io::ErrorKind::NotFound)),
    }
}

fn line_ends(source: &[u8]) -> usize {
    source.iter().filter(|b| **b == 0x0A).count()
}

// Prints how many tokens the source in the file of this name has, its end not counted.
fn count_tokens<R>(rt: &R, alloc: Global, name: &str) -> io::Result<()>
where
    R: Files + Print + Clone + Drop,
{
    let source = load(alloc, rt, name)?;
    let Ok(tokens) = lex(alloc, &source) else {
        return Err(io::Error::from(io::ErrorKind::InvalidData));
    };
    let count = tokens.len().saturating_sub(1);
    println!(rt; "TOKENS {count}")
}

// Prints how many line ends it has, by one look at each byte.
fn count_lines<R>(rt: &R, alloc: Global, name: &str) -> io::Result<()>
where
    R: Files + Print + Clone + Drop,
{
    let source = load(alloc, rt, name)?;
    let count = line_ends(&source);
    println!(rt; "LINES {count}")
}

// The checker of logs is measured beside a walk over the same log: the difference is the checker's time. How many literals each clause
// that is resolved away has.
const WIDTH: u32 = 100;

fn lit(var: u32, positive: bool) -> Lit {
    Lit { var, positive }
}

// One clause of negative literals 0 to 99, for each of these a clause that replaces it by another variable, and a unit
// clause for each of those.
fn clauses(alloc: Global) -> Result<Clauses, BlastFail> {
    let mut all = Clauses::new(alloc);
    let mut wide = Vec::new(alloc);
    for v in 0..WIDTH {
        if wide.push(lit(v, false)).is_err() {
            return Err(BlastFail::Memory);
        }
    }
    all.push(wide.as_slice())?;
    for v in 0..WIDTH {
        all.push(&[lit(v, true), lit(WIDTH + v, false)])?;
    }
    for v in 0..WIDTH {
        all.push(&[lit(WIDTH + v, true)])?;
    }
    Ok(all)
}

// A chain that resolves on 100 variables in a row with 100 clauses in a row.
fn chain(alloc: Global, first: u32, pivot: u32, clause: u32) -> Result<Chain, AllocError> {
    let mut pairs = Pairs::new(alloc);
    for v in 0..WIDTH {
        pairs.push(pivot.wrapping_add(v), clause.wrapping_add(v))?;
    }
    Ok(Chain { first, pairs })
}

// So many chains that each replace all literals, and one that resolves them away.
fn log(alloc: Global, chains: u32) -> Result<Log, AllocError> {
    let mut log = Log::new(alloc);
    for _ in 0..chains {
        log.push(chain(alloc, 0, 0, 1)?)?;
    }
    log.push(chain(alloc, 2 * WIDTH + 1, WIDTH, WIDTH + 1)?)?;
    Ok(log)
}

// How many pairs there are, and a sum that reads each.
fn walk(log: &Log) -> (u64, u32) {
    let mut pairs = 0u64;
    let mut mixed = 0u32;
    for c in log.chains() {
        mixed ^= c.first;
        for (pivot, clause) in c.pairs.as_slice() {
            pairs = pairs.wrapping_add(1);
            mixed ^= *pivot ^ *clause;
        }
    }
    (pairs, mixed)
}

// Makes a refutation of so many chains of 100 pairs and walks over its pairs, and checks it where that is asked. Prints what came of it.
fn run_log(rt: &impl Print, alloc: Global, check: bool, chains: u32) -> io::Result<()> {
    let Ok(all) = clauses(alloc) else {
        return println!(rt; "no memory");
    };
    let Ok(log) = log(alloc, chains) else {
        return println!(rt; "no memory");
    };
    let (pairs, mixed) = walk(&log);
    if !check {
        return println!(rt; "pairs {pairs} mixed {mixed}");
    }
    match check_log(alloc, &all, &log) {
        Ok(()) => println!(rt; "pairs {pairs} mixed {mixed} accepted"),
        Err(LogFail::BadStep(k)) => println!(rt; "pairs {pairs} mixed {mixed} bad chain {k}"),
        Err(LogFail::NoEmpty) => println!(rt; "pairs {pairs} mixed {mixed} no empty result"),
        Err(LogFail::Memory) => println!(rt; "no memory"),
    }
}

// Unwindings are made over the graph of a loop that goes back two ways. How many units of each kind a journal has.
#[derive(Clone, Copy, Debug)]
struct Kinds {
    expands: usize,
    refines: usize,
    covers: usize,
    parts: usize,
}

impl Kinds {
    // The kinds of a journal's units.
    fn of(journal: &[UnitDone]) -> Kinds {
        let mut kinds = Kinds {
            expands: 0,
            refines: 0,
            covers: 0,
            parts: 0,
        };
        for unit in journal {
            match unit {
                UnitDone::Expand(_) => kinds.expands = kinds.expands.saturating_add(1),
                UnitDone::Refine(_, _) => kinds.refines = kinds.refines.saturating_add(1),
                UnitDone::CoverYes(_, _) => kinds.covers = kinds.covers.saturating_add(1),
                UnitDone::CoverNo(_, _, _) => kinds.parts = kinds.parts.saturating_add(1),
            }
        }
        kinds
    }
}

// Looks at one vertex: where it is an error it is refined and the vertex above it settled with an earlier one; else a vertex
// of the label is settled, and what is open still is expanded.
fn look_at(alloc: Global, journey: &mut Journey, v: u32, labelled: &[u32]) -> Result<(), Memory> {
    if journey.refine(alloc, v, 2)? {
        let Some(above) = vertex_above(journey.unwinding(), v) else {
            return Ok(());
        };
        return settle(alloc, journey, above, labelled);
    }
    if is_labelled(journey.unwinding(), v) {
        settle(alloc, journey, v, labelled)?;
    }
    journey.expand(alloc, v)?;
    Ok(())
}

// Whether the vertex is at node 1, the label.
fn is_labelled(unwinding: &Unwinding, v: u32) -> bool {
    match unwinding.vertices().get(v as usize) {
        Some(vertex) => vertex.node.0 == 1,
        None => false,
    }
}

// The number of the vertex above this one.
fn vertex_above(unwinding: &Unwinding, v: u32) -> Option<u32> {
    let vertex = unwinding.vertices().get(v as usize)?;
    let parent = vertex.parent?;
    Some(parent.0)
}

// Settles every third vertex with an earlier one of the label.
fn settle(alloc: Global, journey: &mut Journey, v: u32, labelled: &[u32]) -> Result<(), Memory> {
    if v % 3 != 0 || labelled.is_empty() {
        return Ok(());
    }
    let place = v.wrapping_mul(2_654_435_761) as usize % labelled.len();
    let w = labelled[place];
    if !journey.cover(alloc, v, w)? {
        journey.part(alloc, v, w, 1)?;
    }
    Ok(())
}

// Looks at one vertex after another, from the root on again when all were seen, until there are so many units or as many
// vertices were looked at four times.
fn travel(alloc: Global, journey: &mut Journey, units: usize) -> Result<(), Memory> {
    let mut labelled = Vec::new(alloc);
    let mut v = 0;
    let mut round = 0;
    for _ in 0..units.saturating_mul(4) {
        if journey.unwinding().journal().len() >= units {
            return Ok(());
        }
        if v as usize >= journey.unwinding().vertices().len() {
            v = 0;
            round = 1;
        }
        look_at(alloc, journey, v, &labelled)?;
        if round == 0 && is_labelled(journey.unwinding(), v) {
            labelled.push(v)?;
        }
        v = v.wrapping_add(1);
    }
    Ok(())
}

// Makes about so many legal units, breadth first, and prints how many of each kind there were and what came of them.
fn run_units(rt: &impl Print, alloc: Global, units: usize) -> io::Result<()> {
    let Ok(Some(mut journey)) = Journey::new(alloc, 1) else {
        return println!(rt; "no memory");
    };
    if travel(alloc, &mut journey, units).is_err() {
        return println!(rt; "no memory");
    }
    let unwinding = journey.unwinding();
    let kinds = Kinds::of(unwinding.journal());
    let vertices = unwinding.vertices().len();
    let pairs = unwinding.pairs().len();
    println!(rt;
        "vertices {vertices} pairs {pairs} expands {} refines {} covers {} parts {}",
        kinds.expands, kinds.refines, kinds.covers, kinds.parts
    )
}

// The size that a word spells.
fn size_of(word: &str) -> io::Result<u32> {
    match word.parse::<u32>() {
        Ok(size) => Ok(size),
        Err(_) => Err(io::Error::from(io::ErrorKind::InvalidInput)),
    }
}

// Does what a word says.
fn measure<R>(rt: &R, word: &str) -> io::Result<()>
where
    R: AllocGlobal + Files + Print + Clone + Drop,
{
    let alloc = rt.alloc();
    let (what, size) = word.split_once('=').unwrap_or((word, ""));
    match what {
        "lex" => count_tokens(rt, alloc, size),
        "bytes" => count_lines(rt, alloc, size),
        "check" => run_log(rt, alloc, true, size_of(size)?),
        "walk" => run_log(rt, alloc, false, size_of(size)?),
        "units" => run_units(rt, alloc, size_of(size)? as usize),
        _ => Err(io::Error::from(io::ErrorKind::InvalidInput)),
    }
}

fn main(rt: HostRuntime) -> io::Result<()> {
    for word in env::args(&rt)?.skip(1) {
        measure(&rt, word.as_str())?;
    }
    Ok(())
}
