//! Reads a DIMACS text: comment lines, the header `p cnf VARIABLES CLAUSES`, and clauses of numbers, each ended by 0.

use prop::{BlastFail, Clauses, Lit};
use std::alloc::{AllocError, AllocFailed, Global};
use std::str;
use thiserror::Error;

/// What was expected, in a text that is refused.
#[derive(Clone, Copy, Debug, Drop, PartialEq)]
pub enum Expected {
    /// ASCII or other text in UTF-8.
    Characters,
    /// The header, before the first clause.
    Header,
    /// No second header.
    OneHeader,
    /// A number of 32 bits, in a header without a sign.
    Number,
    /// A variable up to the number that the header states.
    Variable,
    /// A 0 at the end of the last clause.
    Zero,
    /// As many clauses as the header states.
    Count,
}

/// Why a text is refused.
#[derive(Clone, Copy, Debug, Drop, PartialEq, Error)]
pub enum ReadFail {
    /// A line, counted from 1, and what was expected in it.
    #[error("line {0}: {1:?} expected")]
    Line(u32, Expected),
    /// The clauses have this many literals, more than are allowed.
    #[error("{0} literals are more than are allowed")]
    Over(u64),
    /// Memory ran out.
    #[error("out of memory")]
    Memory,
}

impl From<AllocFailed<Lit>> for ReadFail {
    fn from(_: AllocFailed<Lit>) -> ReadFail {
        ReadFail::Memory
    }
}

impl From<BlastFail> for ReadFail {
    fn from(fail: BlastFail) -> ReadFail {
        match fail {
            BlastFail::Over(literals) => ReadFail::Over(literals),
            BlastFail::Memory => ReadFail::Memory,
        }
    }
}

// The numbers of a header. They reserve nothing.
#[derive(Clone, Copy)]
struct Header {
    variables: u32,
    clauses: u32,
}

// What stands before the next word.
#[derive(Drop)]
struct Reader {
    header: Option<Header>,
    clauses: Clauses,
    clause: Vec<Lit>,
}

fn number(line: u32, word: Option<&str>) -> Result<u32, ReadFail> {
    match word {
        Some(word) => match word.parse::<u32>() {
            Ok(n) => Ok(n),
            Err(_) => Err(ReadFail::Line(line, Expected::Number)),
        },
        None => Err(ReadFail::Line(line, Expected::Number)),
    }
}

// The header of a line, without the first of its words.
fn read_header<'a>(
    line: u32,
    mut words: str::SplitAsciiWhitespace<'a>,
) -> Result<Header, ReadFail> {
    if words.next() != Some("cnf") {
        return Err(ReadFail::Line(line, Expected::Header));
    }
    let variables = number(line, words.next())?;
    let clauses = number(line, words.next())?;
    match words.next() {
        None => Ok(Header { variables, clauses }),
        Some(_) => Err(ReadFail::Line(line, Expected::Header)),
    }
}

impl Reader {
    fn word(&mut self, line: u32, word: &str) -> Result<(), ReadFail> {
        let Some(header) = self.header else {
            return Err(ReadFail::Line(line, Expected::Header));
        };
        let (positive, digits) = match word.strip_prefix("-") {
            Some(rest) => (false, rest),
            None => (true, word),
        };
        let var = number(line, Some(digits))?;
        if var > header.variables {
            return Err(ReadFail::Line(line, Expected::Variable));
        }
        if var > 0 {
            self.clause.push(Lit { var, positive })?;
            return Ok(());
        }
        self.clauses.push(self.clause.as_slice())?;
        self.clause.clear();
        Ok(())
    }

    // Whether the text goes on behind this line.
    fn line(&mut self, line: u32, text: &str) -> Result<bool, ReadFail> {
        if text.starts_with("c") {
            return Ok(true);
        }
        if text.starts_with("%") {
            return Ok(false);
        }
        if text.starts_with("p") {
            if self.header.is_some() {
                return Err(ReadFail::Line(line, Expected::OneHeader));
            }
            let mut words = text.split_ascii_whitespace();
            let _ = words.next();
            self.header = Some(read_header(line, words)?);
            return Ok(true);
        }
        for word in text.split_ascii_whitespace() {
            self.word(line, word)?;
        }
        Ok(true)
    }
}

/// Reads the clauses of a text. Number n of the text is variable n. A line that begins with `%` ends it.
pub fn read_clauses(alloc: Global, bytes: &[u8]) -> Result<Clauses, ReadFail> {
    let Ok(text) = str::from_utf8(bytes) else {
        return Err(ReadFail::Line(1, Expected::Characters));
    };
    let mut reader = Reader {
        header: None,
        clauses: Clauses::new(alloc),
        clause: Vec::new(alloc),
    };
    let mut line = 0u32;
    for row in text.lines() {
        line = line.saturating_add(1);
        if !reader.line(line, row)? {
            break;
        }
    }
    let Some(header) = reader.header else {
        return Err(ReadFail::Line(line, Expected::Header));
    };
    if !reader.clause.is_empty() {
        return Err(ReadFail::Line(line, Expected::Zero));
    }
    if reader.clauses.len() != header.clauses {
        return Err(ReadFail::Line(line, Expected::Count));
    }
    Ok(reader.clauses)
}
