//! `lazic` answers its words: `verify SOURCE`, `generate SEED`, `check SOURCE CERT` and `replay SOURCE RUN`, over the files of the host.
#![tactic(auto)]

ghost use Rattle.std.specs.Prelude.{pos, ◌≤ℤ◌, ◌≡◌, ◌⊎◌};

use lazic::{no_memory, run_words};
use lv_outside::{HostFolder, HostGate, HostSink};
use std::alloc::{AllocError, Global};
use std::io::IsTerminal;
use std::process::ExitCode;
use std::random::RandomSource;
use std::rt::{Clock, Env, Files};
use std::thread::Threads;
use std::time::SystemTime;
use std::{env, io};

const LAST_MOMENT: u64 = 253370764799;

// Why a program has no words.
#[derive(Clone, Copy)]
enum NoWords {
    // Memory is wanting.
    Memory,
    // They can't be read.
    Unread,
}

fn main(rt: HostRuntime) -> ExitCode {
    let shows = rt.stderr().is_terminal();
    ExitCode::from(run_host(&rt, shows))
}

// The status that the program ends with. Where it shows it, it says on standard error how far a verification has come.
fn run_host<R>(rt: &R, shows: bool) -> u8
where
    R: AllocGlobal
        + Env
        + Clock
        + Files
        + Print
        + Eprint
        + RandomSource
        + Threads
        + Sync
        + Clone
        + Drop,
{
    let alloc = rt.alloc();
    let owned = match words_of(rt, alloc) {
        Ok(owned) => owned,
        Err(NoWords::Memory) => return wants_memory(rt),
        Err(NoWords::Unread) => return 16,
    };
    let mut words = Vec::new(alloc);
    for word in &owned {
        if words.push(word.as_str()).is_err() {
            return wants_memory(rt);
        }
    }
    let files: Result<R, AllocError> = rt.clone();
    let Ok(files) = files else {
        return wants_memory(rt);
    };
    let prints: Result<R, AllocError> = rt.clone();
    let Ok(prints) = prints else {
        return wants_memory(rt);
    };
    let Ok(gate) = gate_of(rt, shows) else {
        return wants_memory(rt);
    };
    let mut folder = HostFolder::new(files);
    let mut out = HostSink::new(prints);
    run_words(
        rt,
        alloc,
        &words,
        &mut folder,
        &mut out,
        moment(rt),
        random_bytes(rt),
        &gate,
    )
    .status
}

// The gate of this runtime, which shows how far a verification has come where it is asked to.
fn gate_of<R: Clock + Eprint + Sync + Clone + Drop>(
    rt: &R,
    shows: bool,
) -> Result<HostGate<R>, AllocError> {
    let hears: R = rt.clone()?;
    Ok(HostGate::new(hears, shows))
}

// The words behind the program's name.
fn words_of<R: AllocGlobal + Env>(rt: &R, alloc: Global) -> Result<Vec<String>, NoWords> {
    let args = match env::args(rt) {
        Ok(args) => args,
        Err(fail) if fail.kind() == io::ErrorKind::OutOfMemory => return Err(NoWords::Memory),
        Err(_) => return Err(NoWords::Unread),
    };
    let mut words = Vec::new(alloc);
    for word in args.skip(1) {
        if words.push(word).is_err() {
            return Err(NoWords::Memory);
        }
    }
    Ok(words)
}

// The status where memory is wanting, which is printed.
fn wants_memory<R: Print + Clone + Drop>(rt: &R) -> u8
    ensures { (result ≡ 14) ⊎ (result ≡ 15) }
{
    let prints: Result<R, AllocError> = rt.clone();
    let Ok(prints) = prints else {
        return 14;
    };
    no_memory(&mut HostSink::new(prints)).status
}

// Sixteen bytes of chance, or zeroes where there are none.
fn random_bytes(source: &impl RandomSource) -> [u8; 16] {
    let mut bytes = [0u8; 16];
    match source.fill_bytes(&mut bytes) {
        Ok(()) => bytes,
        Err(_) => [0u8; 16],
    }
}

// The seconds since 1970, or the nearer bound, or 0 where the clock cannot be read.
fn moment(clock: &impl Clock) -> i64
    ensures from { pos 0 ≤ℤ result }
    ensures to { result ≤ℤ pos 253370764799 }
{
    let Ok(now) = SystemTime::now(clock) else {
        return 0;
    };
    match now.duration_since(SystemTime::UNIX_EPOCH) {
        Ok(since) => since.as_secs().min(LAST_MOMENT) as i64,
        Err(_) => 0,
    }
}
