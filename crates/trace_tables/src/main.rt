//! `trace_tables FILE..` tries tables of runs that are told, and prints each row whose text is another one, and how many were tried. It ends
//! with status 1 where there is such a row, and with 2 where a table is not tried to its end.
//!
//! The columns of a row, which have tabs between them, are the words behind the program's name, with a
//! blank between; the status; the source, in the file `p.c`; the run file, `run`; and the text. No other file can be read.
#![tactic(auto)]

use lv_base::{Memory, Text};
use lv_outside::{MemFolder, NoFaultSink, names_differ};
use std::alloc::Global;
use std::process::ExitCode;
use std::rt::Files;
use std::str;
use table_rows::{Fields, Flaw, Library, Rows, Table, other_than, status_for, text_of, try_named};
use trace_answers::trace_words;

// The most bytes of a text that is put.
const ROOM: usize = 1 << 20;

/// Tables of runs that are told.
#[derive(Clone, Copy)]
struct TraceRows;

// The two files of a row.
fn files_of(alloc: Global, source: Vec<u8>, run: Vec<u8>) -> Result<Vec<(Text, Vec<u8>)>, Memory> {
    let mut files = Vec::new(alloc);
    files.push((Text::copy_of(alloc, b"p.c")?, source))?;
    files.push((Text::copy_of(alloc, b"run")?, run))?;
    Ok(files)
}

// The status and the text to some words over these files.
fn told(alloc: Global, words: &str, files: Vec<(Text, Vec<u8>)>) -> Result<String, Flaw> {
    if !names_differ(&files) {
        return Err(Flaw::Form);
    }
    let mut folder = MemFolder::new(files, Vec::new(alloc));
    let mut sink = NoFaultSink::new(alloc, ROOM)?;
    let mut listed = Vec::new(alloc);
    for word in words.split(" ") {
        listed.push(word)?;
    }
    let status = trace_words(alloc, &listed, &mut folder, &mut sink);
    match str::from_utf8(sink.text()) {
        Ok(text) => Ok(format!(in alloc; "{status}\n{text}")?),
        Err(_) => Err(Flaw::Form),
    }
}

impl Table for TraceRows {
    fn other(&mut self, alloc: Global, row: &str) -> Result<Option<String>, Flaw> {
        let mut columns = Fields::columns(row);
        let words = columns.next()?;
        let status = columns.count()?;
        let source = text_of(alloc, columns.next()?)?;
        let run = text_of(alloc, columns.next()?)?;
        let text = text_of(alloc, columns.next()?)?;
        columns.end()?;
        let Ok(text) = str::from_utf8(&text) else {
            return Err(Flaw::Form);
        };
        let wanted = format!(in alloc; "{status}\n{text}")?;
        let came = told(alloc, words, files_of(alloc, source, run)?)?;
        Ok(other_than(wanted.as_str(), came))
    }
}

fn try_file<R>(rt: &R, name: &str) -> u8
where
    R: AllocGlobal + Files + Print + Eprint + Clone + Drop,
{
    status_for(rt, name, Rows { table: TraceRows }.try_rows(rt, name))
}

fn main(rt: HostRuntime) -> ExitCode {
    ExitCode::from(try_named(&rt, |name| try_file(&rt, name)))
}
