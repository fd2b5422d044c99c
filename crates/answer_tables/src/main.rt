//! `answer_tables FILE..` answers the words of each row of tables, over the files and with the failing calls that it states, and
//! prints each row whose answer is another one, and how many were tried. It ends with status 1 where there is such a row, and with 2 where
//! a table is not tried to its end.
//!
//! A row has these columns, with tabs between them: the status; the text that is printed; what the report keeps (`-` for nothing,
//! `cert` for a certificate, `values` with the values that were drawn, `bits` with a number for one value that has all bits of that
//! number, `last` with a number and a value for so many values that end in that one, or `limit` with its number and the count that
//! passed it);
//! the words, with blanks between them; the outside; and each file, as its name, `=` and its bytes. The outside is `-`, or has
//! words: `read=N` and `put=N` for a call that fails, counted from 0, `room=N` for the room of the sink, which else has a hundred
//! bytes, and `never` for a folder and a sink that never fail. The gate hears of each unit of a verification, and of nothing else. Lines that begin with `#`, and empty ones, are left out.
#![tactic(auto)]

use c_tokens::tokens_of;
use lazic::{Kept, Report, run_words};
use lv_base::Text;
use lv_outside::{
    FileFail, Folder, Gate, Got, MemFolder, MemSink, NoFaultFolder, NoFaultSink, names_differ,
};
use std::alloc::Global;
use std::process::ExitCode;
use std::rt::Files;
use std::str;
use std::sync::atomic::{AtomicU64, Ordering};
use std::thread::Threads;
use table_rows::{Fields, Flaw, Refusal, list_of, load, status_for, text_of, try_named};

// A gate whose seconds go on at each look, so that whatever is told it is told at once.
#[derive(Drop)]
struct HearingGate {
    seconds: AtomicU64,
    heard: AtomicU64,
    units: AtomicU64,
    falls: AtomicU64,
}

impl Gate for HearingGate {
    fn enter(&self, _part: u32) {}

    fn seconds(&self) -> u64 {
        self.seconds.fetch_add(1, Ordering::SeqCst)
    }

    fn working(&self, units: u64, _open: u32, _learned: u64) {
        self.heard.fetch_add(1, Ordering::SeqCst);
        if units < self.units.swap(units, Ordering::SeqCst) {
            self.falls.fetch_add(1, Ordering::SeqCst);
        }
    }
}

impl HearingGate {
    // It has heard nothing.
    fn new() -> HearingGate {
        HearingGate {
            seconds: AtomicU64::new(1),
            heard: AtomicU64::new(0),
            units: AtomicU64::new(0),
            falls: AtomicU64::new(0),
        }
    }

    // Whether it heard what the words ask for: of a verification that has a verdict something, and never of fewer units than before; of all
    // else but a verification nothing.
    fn heard_what_was_asked(&self, words: &[&str], status: u8) -> bool {
        let hears = self.heard.load(Ordering::SeqCst) > 0;
        let rises = self.falls.load(Ordering::SeqCst) == 0;
        match words.first() {
            Some(&"verify") | Some(&"generate") => rises && (hears || status > 2),
            _ => !hears,
        }
    }
}

// The most bytes that a file of a row may have.
const MOST_BYTES: usize = 1 << 20;

// What a file is to hold behind the answer: this text, or a text that begins and ends so and has an expression between.
#[derive(Drop)]
struct Left {
    name: Vec<u8>,
    front: Vec<u8>,
    back: Option<Vec<u8>>,
}

// The file of a name that is to hold this text, in which `«?»` stands for an expression.
fn left_of(alloc: Global, name: &str, text: &str) -> Result<Left, Flaw> {
    let (front, back) = match text.split_once("«?»") {
        Some((front, back)) => (front, Some(text_of(alloc, back)?)),
        None => (text, None),
    };
    Ok(Left {
        name: text_of(alloc, name)?,
        front: text_of(alloc, front)?,
        back,
    })
}

// Whether the bytes can be read as tokens of C, more than the end alone.
fn is_expression(alloc: Global, bytes: &[u8]) -> bool {
    match tokens_of(alloc, bytes) {
        Ok(tokens) => tokens.len() > 1,
        Err(_) => false,
    }
}

fn is_left_so(alloc: Global, left: &Left, bytes: &[u8]) -> bool {
    let Some(back) = &left.back else {
        return bytes == left.front.as_slice();
    };
    let Some(behind) = bytes.strip_prefix(left.front.as_slice()) else {
        return false;
    };
    match behind.strip_suffix(back.as_slice()) {
        Some(expression) => is_expression(alloc, expression),
        None => false,
    }
}

// Whether one file holds what it is to hold.
fn holds<F: Folder>(alloc: Global, folder: &mut F, left: &Left) -> Result<bool, Flaw> {
    let Ok(name) = str::from_utf8(&left.name) else {
        return Err(Flaw::Form);
    };
    match folder.read(alloc, name, MOST_BYTES) {
        Ok(Got::Bytes(bytes)) => Ok(is_left_so(alloc, left, &bytes)),
        Ok(Got::Longer) => Ok(false),
        Err(FileFail::Failed) => Ok(false),
        Err(FileFail::Memory) => Err(Flaw::Memory),
    }
}

// Whether each file holds what it is to hold.
fn are_left<F: Folder>(alloc: Global, folder: &mut F, all: &[Left]) -> Result<bool, Flaw> {
    for left in all {
        if !holds(alloc, folder, left)? {
            return Ok(false);
        }
    }
    Ok(true)
}

// What a report is to keep.
#[derive(Drop)]
enum Wanted {
    Nothing,
    Cert,
    Values(Vec<i128>),
    // One value, which has all bits of a number.
    Bits(u64),
    // So many values, of which the last is this one.
    Last(u64, i128),
    Limit(u64, u64),
}

impl Wanted {
    // Whether a report keeps just this.
    fn is(&self, kept: &Kept) -> bool {
        match (self, kept) {
            (Wanted::Nothing, Kept::Nothing) => true,
            (Wanted::Cert, Kept::Safe(_)) => true,
            (Wanted::Values(wanted), Kept::Unsafe(values)) => wanted.as_slice()
                == values.as_slice(),
            (Wanted::Bits(number), Kept::Unsafe(values)) => has_bits(values.as_slice(), *number),
            (Wanted::Last(count, last), Kept::Unsafe(values)) => {
                ends_in(values.as_slice(), *count, *last)
            }
            (Wanted::Limit(number, count), Kept::Limited(limit, passed)) => {
                *number == *limit as u64 && *count == *passed
            }
            _ => false,
        }
    }
}

// Whether this is one value, with all bits of the number.
fn has_bits(values: &[i128], number: u64) -> bool {
    match values {
        [value] => *value & number as i128 == number as i128,
        _ => false,
    }
}

// Whether these are so many values, of which the last is this one.
fn ends_in(values: &[i128], count: u64, last: i128) -> bool {
    match values.last() {
        Some(found) => values.len() as u64 == count && *found == last,
        None => false,
    }
}

// What the folder and the sink do.
#[derive(Drop)]
struct Outside {
    // The reads that fail, counted from 0.
    reads: Vec<u32>,
    // The puts that fail, counted from 0.
    puts: Vec<u32>,
    // The room of the sink.
    room: usize,
    // Whether the folder and the sink are of those that never fail.
    never: bool,
}

// One row of a table.
#[derive(Drop)]
struct Row {
    status: u64,
    text: Vec<u8>,
    kept: Wanted,
    words: Vec<Vec<u8>>,
    outside: Outside,
    files: Vec<(Text, Vec<u8>)>,
    left: Vec<Left>,
}

fn kept_of(alloc: Global, column: &str) -> Result<Wanted, Flaw> {
    if column == "-" {
        return Ok(Wanted::Nothing);
    }
    if column == "cert" {
        return Ok(Wanted::Cert);
    }
    if column == "values" {
        return Ok(Wanted::Values(Vec::new(alloc)));
    }
    match column.split_once(" ") {
        Some(("values", values)) => Ok(Wanted::Values(list_of(alloc, values.as_bytes())?)),
        Some(("limit", limit)) => limit_of(limit),
        Some(("bits", number)) => bits_of(number),
        Some(("last", words)) => last_of(alloc, words),
        _ => Err(Flaw::Form),
    }
}

fn limit_of(words: &str) -> Result<Wanted, Flaw> {
    let mut words = Fields::parts(words, " ");
    let number = words.count()?;
    let count = words.count()?;
    words.end()?;
    Ok(Wanted::Limit(number, count))
}

fn bits_of(number: &str) -> Result<Wanted, Flaw> {
    match number.parse::<u64>() {
        Ok(number) => Ok(Wanted::Bits(number)),
        Err(_) => Err(Flaw::Form),
    }
}

fn last_of(alloc: Global, words: &str) -> Result<Wanted, Flaw> {
    let Some((count, last)) = words.split_once(" ") else {
        return Err(Flaw::Form);
    };
    let values: Vec<i128> = list_of(alloc, last.as_bytes())?;
    match (count.parse::<u64>(), values.as_slice()) {
        (Ok(count), [last]) => Ok(Wanted::Last(count, *last)),
        _ => Err(Flaw::Form),
    }
}

fn words_of(alloc: Global, column: &str) -> Result<Vec<Vec<u8>>, Flaw> {
    let mut words = Vec::new(alloc);
    if column.is_empty() {
        return Ok(words);
    }
    for word in column.split(" ") {
        words.push(text_of(alloc, word)?)?;
    }
    Ok(words)
}

fn call_of(number: &str) -> Result<u32, Flaw> {
    match number.parse::<u32>() {
        Ok(number) => Ok(number),
        Err(_) => Err(Flaw::Form),
    }
}

fn tell(outside: &mut Outside, word: &str) -> Result<(), Flaw> {
    match word.split_once("=") {
        Some(("read", number)) => outside.reads.push(call_of(number)?)?,
        Some(("put", number)) => outside.puts.push(call_of(number)?)?,
        Some(("room", number)) => outside.room = call_of(number)? as usize,
        None if word == "never" => outside.never = true,
        None if word == "-" => (),
        _ => return Err(Flaw::Form),
    }
    Ok(())
}

fn outside_of(alloc: Global, column: &str) -> Result<Outside, Flaw> {
    let mut outside = Outside {
        reads: Vec::new(alloc),
        puts: Vec::new(alloc),
        room: 100,
        never: false,
    };
    for word in column.split(" ") {
        tell(&mut outside, word)?;
    }
    Ok(outside)
}

// A file that is there, or one that is to be there behind the answer.
fn tell_file(
    alloc: Global,
    files: &mut Vec<(Text, Vec<u8>)>,
    left: &mut Vec<Left>,
    column: &str,
) -> Result<(), Flaw> {
    let (name, bytes) = column.split_once("=").ok_or(Flaw::Form)?;
    match name.strip_suffix(":") {
        Some(name) => left.push(left_of(alloc, name, bytes)?)?,
        None => files.push((
            Text::copy_of(alloc, name.as_bytes())?,
            text_of(alloc, bytes)?,
        ))?,
    }
    Ok(())
}

// The files that are there, and what is to be there behind the answer.
fn files_of(
    alloc: Global,
    columns: Option<&str>,
) -> Result<(Vec<(Text, Vec<u8>)>, Vec<Left>), Flaw> {
    let mut files = Vec::new(alloc);
    let mut left = Vec::new(alloc);
    let Some(columns) = columns else {
        return Ok((files, left));
    };
    for column in columns.split("\t") {
        tell_file(alloc, &mut files, &mut left, column)?;
    }
    Ok((files, left))
}

// The row of a line.
//
// Fails with `Form` where one of its columns is not what it is to be, or with `Memory`.
fn row_of(alloc: Global, line: &str) -> Result<Row, Flaw> {
    let mut columns = Fields::columns(line);
    let status = columns.count()?;
    let text = text_of(alloc, columns.next()?)?;
    let kept = kept_of(alloc, columns.next()?)?;
    let words = words_of(alloc, columns.next()?)?;
    let outside = outside_of(alloc, columns.next()?)?;
    let (files, left) = files_of(alloc, columns.left())?;
    Ok(Row {
        status,
        text,
        kept,
        words,
        outside,
        files,
        left,
    })
}

// What came of a row: whether it is what the row says, the status, and the text that was printed.
#[derive(Drop)]
struct Answered {
    holds: bool,
    status: u8,
    text: Vec<u8>,
}

// What the row says of an answer, and the words that are answered.
#[derive(Clone, Copy)]
struct Asked<'a> {
    status: u64,
    text: &'a [u8],
    kept: &'a Wanted,
    words: &'a [&'a str],
    left: &'a [Left],
}

fn texts_of(alloc: Global, words: &[Vec<u8>]) -> Result<Vec<&str>, Flaw> {
    let mut texts = Vec::new(alloc);
    for word in words {
        let Ok(text) = str::from_utf8(word) else {
            return Err(Flaw::Form);
        };
        texts.push(text)?;
    }
    Ok(texts)
}

fn compared(
    alloc: Global,
    asked: &Asked<'_>,
    report: &Report,
    text: &[u8],
    outside: bool,
) -> Result<Answered, Flaw> {
    let same = report.status as u64 == asked.status && text == asked.text && outside;
    Ok(Answered {
        holds: same && asked.kept.is(&report.kept),
        status: report.status,
        text: text.to_vec(alloc)?,
    })
}

// Over files that never fail.
fn over_no_faults<R: Threads + Sync>(
    rt: &R,
    alloc: Global,
    asked: &Asked<'_>,
    files: Vec<(Text, Vec<u8>)>,
    room: usize,
) -> Result<Answered, Flaw> {
    if !names_differ(&files) {
        return Err(Flaw::Form);
    }
    let mut folder = NoFaultFolder::new(files);
    let mut out = NoFaultSink::new(alloc, room)?;
    let gate = HearingGate::new();
    let report = run_words(
        rt,
        alloc,
        asked.words,
        &mut folder,
        &mut out,
        0,
        [0; 16],
        &gate,
    );
    let left = are_left(alloc, &mut folder, asked.left)?;
    let heard = gate.heard_what_was_asked(asked.words, report.status);
    compared(alloc, asked, &report, out.text(), left && heard)
}

// Over files of which some calls fail.
fn over_faults<R: Threads + Sync>(
    rt: &R,
    alloc: Global,
    asked: &Asked<'_>,
    files: Vec<(Text, Vec<u8>)>,
    reads: Vec<u32>,
    mut out: MemSink,
) -> Result<Answered, Flaw> {
    if !names_differ(&files) {
        return Err(Flaw::Form);
    }
    let mut folder = MemFolder::new(files, reads);
    let gate = HearingGate::new();
    let report = run_words(
        rt,
        alloc,
        asked.words,
        &mut folder,
        &mut out,
        0,
        [0; 16],
        &gate,
    );
    let left = are_left(alloc, &mut folder, asked.left)?;
    let heard = gate.heard_what_was_asked(asked.words, report.status);
    compared(alloc, asked, &report, out.text(), left && heard)
}

// What comes of a row.
//
// Fails with `Form` where a word is no text, or two files have one name, or with `Memory`.
fn tried<R: Threads + Sync>(rt: &R, alloc: Global, row: Row) -> Result<Answered, Flaw> {
    let Row {
        status,
        text,
        kept,
        words,
        outside,
        files,
        left,
    } = row;
    let words = texts_of(alloc, &words)?;
    let asked = Asked {
        status,
        text: &text,
        kept: &kept,
        words: &words,
        left: &left,
    };
    if outside.never {
        return over_no_faults(rt, alloc, &asked, files, outside.room);
    }
    let out = MemSink::new(alloc, outside.room, outside.puts)?;
    over_faults(rt, alloc, &asked, files, outside.reads, out)
}

// The status and the text of a row's answer, where it is not as the row says.
fn other<R: Threads + Sync>(rt: &R, alloc: Global, row: &str) -> Result<Option<String>, Flaw> {
    let answered = tried(rt, alloc, row_of(alloc, row)?)?;
    if answered.holds {
        return Ok(None);
    }
    let text = str::from_utf8(&answered.text).unwrap_or("");
    let status = answered.status;
    Ok(Some(format!(in alloc; "{status} {text}")?))
}

// Tries a row, and prints what came where it is not so.
fn is_so<R: Print + Threads + Sync>(
    alloc: Global,
    rt: &R,
    line: u32,
    row: &str,
) -> Result<bool, Refusal> {
    let said = match other(rt, alloc, row) {
        Ok(None) => return Ok(true),
        Ok(Some(other)) => println!(rt; "line {line}: {other}"),
        Err(Flaw::Form) => println!(rt; "line {line} is no row"),
        Err(Flaw::Memory) => return Err(Refusal::Memory),
    };
    match said {
        Ok(()) => Ok(false),
        Err(_) => Err(Refusal::Output),
    }
}

// How many rows of a table are not so, and how many there are.
fn try_all<R: Print + Threads + Sync>(
    alloc: Global,
    rt: &R,
    bytes: &[u8],
) -> Result<(u64, u64), Refusal> {
    let Ok(text) = str::from_utf8(bytes) else {
        return Err(Refusal::Text);
    };
    let mut others = 0u64;
    let mut rows = 0u64;
    let mut line = 0u32;
    for row in text.lines() {
        line = line.saturating_add(1);
        if row.is_empty() || row.starts_with("#") {
            continue;
        }
        rows = rows.saturating_add(1);
        if !is_so(alloc, rt, line, row)? {
            others = others.saturating_add(1);
        }
    }
    Ok((others, rows))
}

// Tries the rows of the table in the file of this name. It prints what came of each row that is not so, and how many rows there
// are; how many are not so.
fn try_rows<R>(rt: &R, name: &str) -> Result<u64, Refusal>
where
    R: AllocGlobal + Files + Print + Threads + Sync + Clone + Drop,
{
    let alloc = rt.alloc();
    let bytes = load(alloc, rt, name)?;
    let (others, rows) = try_all(alloc, rt, &bytes)?;
    match println!(rt; "{name}: {rows} rows") {
        Ok(()) => Ok(others),
        Err(_) => Err(Refusal::Output),
    }
}

fn try_file<R>(rt: &R, name: &str) -> u8
where
    R: AllocGlobal + Files + Print + Eprint + Threads + Sync + Clone + Drop,
{
    status_for(rt, name, try_rows(rt, name))
}

fn main(rt: HostRuntime) -> ExitCode {
    ExitCode::from(try_named(&rt, |name| try_file(&rt, name)))
}
