//! `dimacs FILE` answers whether the clauses of a DIMACS file have a satisfying assignment. It measures the solver, and
//! runs it on sets of clauses from outside. `dimacs FILE LEARN` stops once LEARN clauses were learned.
//!
//! It prints comment lines with counts and then `s SATISFIABLE` with the assignment, `s UNSATISFIABLE`, or
//! `s UNKNOWN`, and ends with status 10, 20 or 0, as solvers do. Without words it solves a small set of its own.
#![tactic(auto)]

mod answering;
mod printing;
mod reading;
#[cfg(test)]
mod tests;

ghost use Rattle.std.specs.Prelude.{◌<◌};

use crate::answering::tell;
use crate::printing::text;
use crate::reading::{ReadFail, read_clauses};
use lv_outside::{FileFail, Folder, Got, HostFolder};
use resolution_log::variables;
use std::alloc::{AllocError, Global};
use std::process::ExitCode;
use std::rt::{Env, Files};
use std::{env, fmt, io};

// Two variables with no values left. Any solver that learns from first unique implication points needs two chains of
// three pairs together: one gives a unit clause, the next refutes.
const SQUARE: &str = "c two variables, all four clauses
p cnf 2 4
1 2 0 1 -2 0
-1 2 0 -1 -2 0
";

// How many clauses are learned at the most where no number is given.
const MOST_LEARNED: u64 = 100_000_000;

// The most bytes that a file may have.
const MOST_BYTES: usize = 1 << 30;

/// Why there is no answer.
#[derive(Debug, Drop)]
enum Refusal {
    /// The words are no file's name, or no file's name and a number from 1 on.
    Words,
    /// The file could not be read.
    File,
    /// The file is longer than a gibibyte.
    Long,
    /// The file is no DIMACS text.
    Text(ReadFail),
    /// Memory ran out, or a limit of the solver's was passed.
    Memory,
    /// The answer could not be printed.
    Output,
}

impl fmt::Display for Refusal {
    fn fmt<W: fmt::Write>(&self, f: &mut fmt::Formatter<W>) -> fmt::Result {
        match self {
            Refusal::Words => write!(f, "usage: dimacs FILE [LEARN]"),
            Refusal::File => write!(f, "the file could not be read"),
            Refusal::Long => write!(f, "the file is longer than a gibibyte"),
            Refusal::Text(fail) => write!(f, "{fail}"),
            Refusal::Memory => write!(f, "out of memory"),
            Refusal::Output => write!(f, "the answer could not be printed"),
        }
    }
}

impl From<AllocError> for Refusal {
    fn from(_: AllocError) -> Refusal {
        Refusal::Memory
    }
}

impl From<ReadFail> for Refusal {
    fn from(fail: ReadFail) -> Refusal {
        Refusal::Text(fail)
    }
}

// What the file of this name holds.
fn load<R: Files + Clone + Drop>(alloc: Global, rt: &R, name: &str) -> Result<Vec<u8>, Refusal> {
    let files: Result<R, AllocError> = rt.clone();
    let Ok(files) = files else {
        return Err(Refusal::Memory);
    };
    match HostFolder::new(files).read(alloc, name, MOST_BYTES) {
        Ok(Got::Bytes(bytes)) => Ok(bytes),
        Ok(Got::Longer) => Err(Refusal::Long),
        Err(FileFail::Memory) => Err(Refusal::Memory),
        Err(FileFail::Failed) => Err(Refusal::File),
    }
}

// Solves the problem of a text, and prints the answer.
fn answer<R: Print>(alloc: Global, rt: &R, source: &[u8], learn: u64) -> Result<u8, Refusal>
    requires { 0 < learn }
{
    let clauses = read_clauses(alloc, source)?;
    let told = tell(alloc, &clauses, learn)?;
    let vars = variables(alloc, &clauses)?;
    let lines = text(alloc, &vars, &told)?;
    match rt.print(lines.as_str()) {
        Ok(()) => Ok(told.status()),
        Err(_) => Err(Refusal::Output),
    }
}

// The words behind the program's name: a file's name and how many clauses may be learned. No word is the small set.
fn run<R>(rt: &R) -> Result<u8, Refusal>
where
    R: AllocGlobal + Env + Files + Print + Clone + Drop,
{
    let alloc = rt.alloc();
    let mut args = match env::args(rt) {
        Ok(args) => args,
        Err(fail) if fail.kind() == io::ErrorKind::OutOfMemory => return Err(Refusal::Memory),
        Err(_) => return Err(Refusal::Words),
    };
    let _ = args.next();
    let Some(name) = args.next() else {
        return answer(alloc, rt, SQUARE.as_bytes(), MOST_LEARNED);
    };
    let learn = match args.next() {
        None => MOST_LEARNED,
        Some(word) => match word.as_str().parse::<u64>() {
            Ok(learn) => learn,
            Err(_) => return Err(Refusal::Words),
        },
    };
    if learn == 0 || args.next().is_some() {
        return Err(Refusal::Words);
    }
    let source = load(alloc, rt, name.as_str())?;
    answer(alloc, rt, source.as_slice(), learn)
}

fn main(rt: HostRuntime) -> ExitCode {
    match run(&rt) {
        Ok(status) => ExitCode::from(status),
        Err(refusal) => {
            let _ = eprintln!(rt; "dimacs: {refusal}");
            ExitCode::from(1)
        }
    }
}
