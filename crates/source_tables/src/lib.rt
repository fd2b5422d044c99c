//! Tables of sources: each row asks something of one.
//!
//! A row has three columns with tabs between them: what is asked, the answer, and the source. Asked is, with the answer:
//!
//! - `tokens`: each token as `what@first-behind`, with the offsets of its first byte and of the byte behind its last; a constant
//!   is `#31`, with `d` where it is in decimal digits, `u`, `l` or `ll` behind it, a character `'97`;
//! - `count`: how many tokens there are, with the end; `tree`: the word `tree`; `height` and `items`: those of the tree; `row`: whether
//!   it is a row of a table;
//! - behind a data model (`ilp32`, `lp64`, or `both`) `objects`, `body` or `typed`: the objects, the body of the last function, or
//!   the objects, a `/`, and the functions of the typed tree; `examined`: the model, the functions, each behind those that it calls, and
//!   the labels; a data model alone: `none`, where the source breaks no rule.
//!
//! A source that is refused is answered by the number of the first rule that it breaks with its offset in bytes from 0, or by
//! that of a limit behind 100 with the count that passed it. `source_of` says how a source is written. A row `shared` has the text that
//! `\&` stands for in the rows behind it, as its second column. Lines that begin with `#`, and empty ones, are left out.
#![tactic(auto)]

mod answers;
mod tokens;
mod trees;

pub use answers::SourceTables;
use c_tree::{BinaryOp, Crement};
use lv_base::{Kind, Model, Text};
use std::alloc::{AllocError, AllocFailed, Global};
use std::str;
use table_rows::Refusal;

// Text that grows. Where memory runs out it stops growing, and knows that it is cut.
#[derive(Drop)]
struct Page {
    text: String,
    cut: bool,
}

impl Page {
    // An empty page.
    fn new(alloc: Global) -> Page {
        Page {
            text: String::new(alloc),
            cut: false,
        }
    }

    // Appends these words.
    fn put(&mut self, words: &str) {
        if self.text.push_str(words).is_err() {
            self.cut = true;
        }
    }

    // Appends this number.
    fn number(&mut self, number: i128) {
        if write!(self.text, "{number}").is_err() {
            self.cut = true;
        }
    }

    // Whether something is missing, because memory ran out.
    fn is_cut(&self) -> bool {
        self.cut
    }

    // What stands on it, without blanks at its end.
    fn text(&self) -> &str {
        self.text.as_str().trim_end()
    }
}

// What stands on a page as text.
trait Shown {
    // Writes it.
    fn show(&self, page: &mut Page);
}

// A kind.
fn kind_word(kind: Kind) -> &'static str {
    match kind {
        Kind::Bool => "bool",
        Kind::Char => "char",
        Kind::UChar => "uchar",
        Kind::Short => "short",
        Kind::UShort => "ushort",
        Kind::Int => "int",
        Kind::UInt => "uint",
        Kind::Long => "long",
        Kind::ULong => "ulong",
        Kind::LongLong => "llong",
        Kind::ULongLong => "ullong",
    }
}

// What a function or a `?:` has: a kind, or nothing.
fn result_word(kind: Option<Kind>) -> &'static str {
    match kind {
        None => "void",
        Some(kind) => kind_word(kind),
    }
}

// An operator of two operands.
fn operator_word(op: BinaryOp) -> &'static str {
    match op {
        BinaryOp::OrElse => "||",
        BinaryOp::AndAlso => "&&",
        BinaryOp::BitOr => "|",
        BinaryOp::BitXor => "^",
        BinaryOp::BitAnd => "&",
        BinaryOp::Equal => "==",
        BinaryOp::NotEqual => "!=",
        BinaryOp::Less => "<",
        BinaryOp::Greater => ">",
        BinaryOp::LessEqual => "<=",
        BinaryOp::GreaterEqual => ">=",
        BinaryOp::ShiftLeft => "<<",
        BinaryOp::ShiftRight => ">>",
        BinaryOp::Add => "+",
        BinaryOp::Subtract => "-",
        BinaryOp::Multiply => "*",
        BinaryOp::Divide => "/",
        BinaryOp::Remainder => "%",
    }
}

// `++` or `--`.
fn change_word(by: Crement) -> &'static str {
    match by {
        Crement::Increment => "++",
        Crement::Decrement => "--",
    }
}

// A name.
fn name_word(name: &Text) -> &str {
    match str::from_utf8(name.as_bytes()) {
        Ok(text) => text,
        Err(_) => "?",
    }
}

// With which data models a row is tried.
#[derive(Clone, Copy, Debug, PartialEq)]
enum Models {
    Only(Model),
    Both,
}

impl Models {
    // Whether the row is tried with this one.
    fn has(self, model: Model) -> bool {
        match self {
            Models::Only(only) => only == model,
            Models::Both => true,
        }
    }
}

// What is asked of a source.
#[derive(Clone, Copy, Debug, PartialEq)]
enum Question {
    // Its tokens, each with its offsets.
    Tokens,
    // How many tokens it has, with the end.
    Count,
    // Whether it has a tree.
    Tree,
    // How high its tree is.
    Height,
    // How many items it has.
    Items,
    // Whether it is a row of a table.
    Row,
    // Whether it breaks a rule.
    Refusal,
    // The objects of its typed tree.
    Objects,
    // The body of the last function of its typed tree.
    Body,
    // The objects and the functions of its typed tree.
    Typed,
    // An order of its functions, and its labels.
    Examined,
}

// One row of a table.
#[derive(Clone, Copy, Debug)]
struct Row<'a> {
    models: Models,
    question: Question,
    answer: &'a str,
    // The source as it stands in the table.
    source: &'a str,
}

// Questions that no data model bears on.
fn plain_question(word: &str) -> Option<Question> {
    match word {
        "tokens" => Some(Question::Tokens),
        "count" => Some(Question::Count),
        "tree" => Some(Question::Tree),
        "height" => Some(Question::Height),
        "items" => Some(Question::Items),
        "row" => Some(Question::Row),
        _ => None,
    }
}

fn question_of(word: &str) -> Option<Question> {
    match word {
        "objects" => Some(Question::Objects),
        "body" => Some(Question::Body),
        "typed" => Some(Question::Typed),
        "examined" => Some(Question::Examined),
        _ => None,
    }
}

fn models_of(word: &str) -> Option<Models> {
    match word {
        "ilp32" => Some(Models::Only(Model::Ilp32)),
        "lp64" => Some(Models::Only(Model::Lp64)),
        "both" => Some(Models::Both),
        _ => None,
    }
}

// The data models that stand before a question, or alone where the question is whether a rule is broken.
fn asked_of(words: &str) -> Option<(Models, Question)> {
    if let Some(question) = plain_question(words) {
        return Some((Models::Only(Model::Ilp32), question));
    }
    let Some((models, question)) = words.split_once(" ") else {
        return Some((models_of(words)?, Question::Refusal));
    };
    Some((models_of(models)?, question_of(question)?))
}

fn columns_of(words: &str) -> Option<Row<'_>> {
    let (asked, rest) = words.split_once("\t")?;
    let (answer, source) = rest.split_once("\t")?;
    let (models, question) = asked_of(asked)?;
    Some(Row {
        models,
        question,
        answer,
        source,
    })
}

// The row of a line.
//
// Fails with `Row` where it has not three columns, or the first is not what it is to be.
fn row_of(line: u32, words: &str) -> Result<Row<'_>, Refusal> {
    match columns_of(words) {
        Some(row) => Ok(row),
        None => Err(Refusal::Row(line)),
    }
}

// What has been read of a source: what it spells so far, and what is inside a repeated piece.
#[derive(Drop)]
struct Spelled {
    bytes: Vec<u8>,
    piece: Vec<u8>,
    is_inside: bool,
    is_escaped: bool,
    times: usize,
}

impl Spelled {
    fn push(&mut self, byte: u8) -> Result<(), AllocFailed<u8>> {
        if self.is_inside {
            self.piece.push(byte)
        } else {
            self.bytes.push(byte)
        }
    }

    // The piece so many times, behind what it follows.
    fn repeat(&mut self) -> Result<(), AllocError> {
        self.is_inside = false;
        for _ in 0..self.times {
            self.bytes.extend_from_slice(&self.piece)?;
        }
        self.piece.clear();
        self.times = 0;
        Ok(())
    }

    // A byte behind a backslash.
    fn escape(&mut self, shared: &[u8], byte: u8) -> Result<(), AllocError> {
        if byte.is_ascii_digit() {
            let digit = usize::from(byte.saturating_sub(b'0'));
            self.times = self.times.saturating_mul(10).saturating_add(digit);
            return Ok(());
        }
        self.is_escaped = false;
        match byte {
            b'{' => self.is_inside = true,
            b'}' => self.repeat()?,
            b'&' => self.bytes.extend_from_slice(shared)?,
            _ => self.push(escaped(byte))?,
        }
        Ok(())
    }
}

// What a letter behind a backslash stands for.
fn escaped(byte: u8) -> u8 {
    match byte {
        b'n' => b'\n',
        b't' => b'\t',
        b'r' => b'\r',
        b'v' => 0x0B,
        b'f' => 0x0C,
        _ => byte,
    }
}

// The bytes of a source as it stands in a table: `\n`, `\t`, `\r`, `\v` and `\f` are the bytes of C's escapes, `\200{ab\}` is
// `ab` 200 times, `\&` is the text that several sources share, and a backslash before any other byte is that byte.
//
// Fails where memory runs out.
fn source_of(alloc: Global, shared: &[u8], text: &str) -> Result<Vec<u8>, AllocError> {
    let mut spelled = Spelled {
        bytes: Vec::new(alloc),
        piece: Vec::new(alloc),
        is_inside: false,
        is_escaped: false,
        times: 0,
    };
    for byte in text.as_bytes() {
        if spelled.is_escaped {
            spelled.escape(shared, *byte)?;
        } else if *byte == b'\\' {
            spelled.is_escaped = true;
        } else {
            spelled.push(*byte)?;
        }
    }
    Ok(spelled.bytes)
}
