ghost use Rattle.std.specs.Prelude.{◌≡◌, ◌≢◌, ◌≤◌, ℕ, List, [], IfOk, IsErrOf, OnOk, OnErr, false, None};
ghost use Rattle.lv_outside.specs.Counts.{Rose, counted, raised};
ghost use Rattle.lv_outside.specs.Got.{IsAtMost, is_failed};

use crate::{Failed, FileFail, Folder, Gate, Got, Sink, read_whole, write_whole};
use std::alloc::Global;
use std::rt::{Clock, Files};
use std::time::Instant;
use std::{fs, io};

/// The host's files. It tells nothing of what they hold.
#[derive(Drop)]
pub struct HostFolder<R: Files + Drop> {
    rt: R,
    read_faults: u64,
    write_faults: u64,
}

impl<R: Files + Drop> HostFolder<R> {
    /// The files of this runtime, no read or write of which has failed.
    pub fn new(rt: R) -> HostFolder<R>
        ensures reads { result.read_faults ≡ 0 }
        ensures writes { result.write_faults ≡ 0 }
    {
        HostFolder {
            rt,
            read_faults: 0,
            write_faults: 0,
        }
    }
}

impl<R: Files + Drop> Folder for HostFolder<R> {
    ghost tells = { λ f. ⊥ };

    ghost file = { λ f n. [] };

    ghost read_faults = { λ f. f.read_faults };

    ghost write_faults = { λ f. f.write_faults };

    fn read(&mut self, alloc: Global, name: &str, most: usize) -> Result<Got, FileFail>
        ensures most { IfOk result (IsAtMost most) }
        ensures counted { self.new.read_faults ≡ counted (is_failed result) self.old.read_faults }
        ensures cause { IsErrOf result FileFail.Failed → Rose self.old.read_faults self.new.read_faults }
        ensures reads { self.old.read_faults ≤ self.new.read_faults }
        ensures writes { self.new.write_faults ≡ self.old.write_faults }
    {
        match read_file(alloc, &self.rt, name, most) {
            Ok(got) => Ok(got),
            Err(FileFail::Memory) => Err(FileFail::Memory),
            Err(FileFail::Failed) => {
                self.read_faults = self.read_faults.saturating_add(1);
                Err(FileFail::Failed)
            }
        }
    }

    fn write(&mut self, _alloc: Global, name: &str, bytes: &[u8]) -> Result<(), FileFail>
        ensures memory { result ≢ Err FileFail.Memory }
        ensures counted { self.new.write_faults ≡ counted (is_failed result) self.old.write_faults }
        ensures cause { IsErrOf result FileFail.Failed → Rose self.old.write_faults self.new.write_faults }
        ensures writes { self.old.write_faults ≤ self.new.write_faults }
        ensures reads { self.new.read_faults ≡ self.old.read_faults }
    {
        match write_file(&self.rt, name, bytes) {
            Ok(()) => Ok(()),
            Err(Failed) => {
                self.write_faults = self.write_faults.saturating_add(1);
                Err(FileFail::Failed)
            }
        }
    }
}

fn read_file<R: Files>(alloc: Global, rt: &R, name: &str, most: usize) -> Result<Got, FileFail>
    ensures { IfOk result (IsAtMost most) }
{
    let Ok(mut file) = fs::open(rt, name) else {
        return Err(FileFail::Failed);
    };
    read_whole(alloc, &mut file, most)
}

fn write_file<R: Files>(rt: &R, name: &str, bytes: &[u8]) -> Result<(), Failed> {
    match fs::create(rt, name) {
        Ok(mut file) => write_whole(&mut file, bytes),
        Err(_) => Err(Failed),
    }
}

/// The host's standard output. It tells nothing of what was printed.
#[derive(Drop)]
pub struct HostSink<R: Print + Drop> {
    rt: R,
    faults: u64,
}

impl<R: Print + Drop> HostSink<R> {
    /// The standard output of this runtime, no put to which has failed.
    pub fn new(rt: R) -> HostSink<R>
        ensures { result.faults ≡ 0 }
    {
        HostSink { rt, faults: 0 }
    }
}

impl<R: Print + Drop> Sink for HostSink<R> {
    ghost tells = { λ s. ⊥ };

    ghost text = { λ s. [] };

    ghost faults = { λ s. s.faults };

    fn put(&mut self, bytes: &[u8]) -> Result<(), Failed>
        ensures counted_ok { OnOk result (self.new.faults ≡ self.old.faults) }
        ensures counted_err { OnErr result (self.new.faults ≡ raised self.old.faults) }
        ensures cause { OnErr result (Rose self.old.faults self.new.faults) }
        ensures later { self.old.faults ≤ self.new.faults }
    {
        match write_whole(&mut io::writer(&self.rt), bytes) {
            Ok(()) => Ok(()),
            Err(Failed) => {
                self.faults = self.faults.saturating_add(1);
                Err(Failed)
            }
        }
    }
}

/// The host's gate. Each worker goes through it at once. Where it was made to show it, it prints how far a verification has come to the
/// host's standard error; what becomes of that text is not looked at.
#[derive(Drop)]
pub struct HostGate<R: Clock + Eprint + Sync + Drop> {
    rt: R,
    shown_from: Option<Instant>,
}

impl<R: Clock + Eprint + Sync + Drop> HostGate<R> {
    /// A gate of this runtime. It shows nothing where it is not asked to, or where there is no clock to be read.
    pub fn new(rt: R, shows: bool) -> HostGate<R>
        ensures { shows ≡ false → result.shown_from ≡ None }
    {
        let shown_from = if shows { Instant::now(&rt).ok() } else { None };
        HostGate { rt, shown_from }
    }
}

impl<R: Clock + Eprint + Sync + Drop> Gate for HostGate<R> {
    fn enter(&self, _part: u32) {}

    fn seconds(&self) -> u64 {
        match self.shown_from {
            Some(start) => start.elapsed(&self.rt).map_or(0, |since| since.as_secs()),
            None => 0,
        }
    }

    fn working(&self, units: u64, open: u32, learned: u64) {
        let seconds = self.seconds();
        let _ = eprintln!(self.rt;
            "{seconds} s: {units} units, {open} open leaves, {learned} learned clauses"
        );
    }
}
