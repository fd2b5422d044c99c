//! `trace SOURCE RUN [--model ilp32|lp64] [--turns N] [--last N]` follows the run of a source on the values of a run file, and prints
//! what happened: each value that is drawn, each condition that is decided, each assignment, call and return, then what failed, with the
//! line of the source, and at the end the line that `lazic replay` prints. It tells the last N events, 1000 where the words say nothing,
//! and how many came before.
#![tactic(auto)]

use lv_outside::{HostFolder, HostSink, Sink};
use std::alloc::AllocError;
use std::process::ExitCode;
use std::rt::{Env, Files};
use std::{env, io};
use trace_answers::trace_words;

fn main(rt: HostRuntime) -> ExitCode {
    ExitCode::from(run_host(&rt))
}

// The status that the program ends with.
fn run_host<R>(rt: &R) -> u8
where
    R: AllocGlobal + Env + Files + Print + Clone + Drop,
{
    let alloc = rt.alloc();
    let args = match env::args(rt) {
        Ok(args) => args,
        Err(fail) if fail.kind() == io::ErrorKind::OutOfMemory => return no_memory(rt),
        Err(_) => return 16,
    };
    let mut owned = Vec::new(alloc);
    for arg in args.skip(1) {
        if owned.push(arg).is_err() {
            return no_memory(rt);
        }
    }
    let mut words = Vec::new(alloc);
    for word in &owned {
        if words.push(word.as_str()).is_err() {
            return no_memory(rt);
        }
    }
    let files: Result<R, AllocError> = rt.clone();
    let Ok(files) = files else {
        return no_memory(rt);
    };
    let prints: Result<R, AllocError> = rt.clone();
    let Ok(prints) = prints else {
        return no_memory(rt);
    };
    let mut folder = HostFolder::new(files);
    let mut out = HostSink::new(prints);
    trace_words(alloc, &words, &mut folder, &mut out)
}

fn no_memory<R: Print + Clone + Drop>(rt: &R) -> u8 {
    let prints: Result<R, AllocError> = rt.clone();
    let Ok(prints) = prints else {
        return 14;
    };
    match HostSink::new(prints).put(b"NO MEMORY\n") {
        Ok(()) => 15,
        Err(_) => 14,
    }
}
