//! The flat code of sources: instructions as text, the name of each, then the words in it, then the numbers.

use crate::next_source;
use c_tree::{BinaryOp, Crement};
use lv_base::Kind;
use slot_code::Instruction;
use slot_compiler::{compiled, slots_in};
use slot_values::Link;
use std::alloc::Global;
use table_rows::{Fields, Flaw, Table, other_than};

// The word for a kind.
fn kind_name(kind: Kind) -> &'static str {
    match kind {
        Kind::Bool => "bool",
        Kind::Char => "char",
        Kind::UChar => "uchar",
        Kind::Short => "short",
        Kind::UShort => "ushort",
        Kind::Int => "int",
        Kind::UInt => "uint",
        Kind::Long => "long",
        Kind::ULong => "ulong",
        Kind::LongLong => "llong",
        Kind::ULongLong => "ullong",
    }
}

// The word for an operator of C.
fn operator_name(op: BinaryOp) -> &'static str {
    match op {
        BinaryOp::OrElse => "||",
        BinaryOp::AndAlso => "&&",
        BinaryOp::BitOr => "|",
        BinaryOp::BitXor => "^",
        BinaryOp::BitAnd => "&",
        BinaryOp::Equal => "==",
        BinaryOp::NotEqual => "!=",
        BinaryOp::Less => "<",
        BinaryOp::Greater => ">",
        BinaryOp::LessEqual => "<=",
        BinaryOp::GreaterEqual => ">=",
        BinaryOp::ShiftLeft => "<<",
        BinaryOp::ShiftRight => ">>",
        BinaryOp::Add => "+",
        BinaryOp::Subtract => "-",
        BinaryOp::Multiply => "*",
        BinaryOp::Divide => "/",
        BinaryOp::Remainder => "%",
    }
}

// The word for `++` or `--`.
fn crement_name(by: Crement) -> &'static str {
    match by {
        Crement::Increment => "++",
        Crement::Decrement => "--",
    }
}

// The first word where it holds, else the second.
fn word_of(holds: bool, first: &'static str, second: &'static str) -> &'static str {
    if holds { first } else { second }
}

// What an instruction is listed as. Words that are empty are left out.
#[derive(Clone, Copy)]
struct Line {
    name: &'static str,
    words: [&'static str; 3],
    numbers: [Option<i128>; 4],
}

// A line with the number of a slot.
fn slot_line(name: &'static str, slot: usize) -> Line {
    Line {
        name,
        words: ["", "", ""],
        numbers: [Some(slot as i128), None, None, None],
    }
}

// A line with two numbers.
fn pair_line(name: &'static str, first: i128, second: i128) -> Line {
    Line {
        name,
        words: ["", "", ""],
        numbers: [Some(first), Some(second), None, None],
    }
}

// A line with three numbers.
fn triple_line(name: &'static str, first: i128, second: i128, third: i128) -> Line {
    Line {
        name,
        words: ["", "", ""],
        numbers: [Some(first), Some(second), Some(third), None],
    }
}

// A line with the number of a slot, an offset, an object and a count.
fn element_line(name: &'static str, slot: usize, at: u32, object: u32, count: usize) -> Line {
    Line {
        name,
        words: ["", "", ""],
        numbers: [
            Some(slot as i128),
            Some(at as i128),
            Some(object as i128),
            Some(count as i128),
        ],
    }
}

// The line with these words.
fn worded(line: Line, first: &'static str, second: &'static str, third: &'static str) -> Line {
    Line {
        name: line.name,
        words: [first, second, third],
        numbers: line.numbers,
    }
}

fn access_line(it: Instruction) -> Line {
    match it {
        Instruction::Constant(s, value) => pair_line("constant", s as i128, value),
        Instruction::Read(s, object) => pair_line("read", s as i128, object as i128),
        Instruction::Element(s, at, object, n) => element_line("element", s, at, object, n),
        Instruction::Locate(s, at, object, n) => element_line("locate", s, at, object, n),
        Instruction::Load(s, object) => pair_line("load", s as i128, object as i128),
        Instruction::Store(s, object) => pair_line("store", s as i128, object as i128),
        other => operation_line(other),
    }
}

fn operation_line(it: Instruction) -> Line {
    match it {
        Instruction::Convert(s, kind) => {
            worded(slot_line("convert", s), kind_name(kind), "", "")
        }
        Instruction::Negate(s, kind, at) => {
            let line = pair_line("negate", s as i128, at as i128);
            worded(line, kind_name(kind), "", "")
        }
        Instruction::Complement(s, kind, at) => {
            let line = pair_line("complement", s as i128, at as i128);
            worded(line, kind_name(kind), "", "")
        }
        Instruction::Not(s) => slot_line("not", s),
        Instruction::Truth(s) => slot_line("truth", s),
        Instruction::Binary(s, op, kind, at) => {
            let line = pair_line("binary", s as i128, at as i128);
            worded(line, operator_name(op), kind_name(kind), "")
        }
        other => change_line(other),
    }
}

fn change_line(it: Instruction) -> Line {
    match it {
        Instruction::Update(s, op, kind, target, at, object) => {
            let line = triple_line("update", s as i128, at as i128, object as i128);
            worded(line, operator_name(op), kind_name(kind), kind_name(target))
        }
        Instruction::Change(s, before, by, kind, at, object) => {
            let line = triple_line("change", s as i128, at as i128, object as i128);
            let side = word_of(before, "before", "behind");
            worded(line, side, crement_name(by), kind_name(kind))
        }
        other => object_line(other),
    }
}

fn object_line(it: Instruction) -> Line {
    match it {
        Instruction::Draw(s, kind) => worded(slot_line("draw", s), kind_name(kind), "", ""),
        Instruction::Fill(object, kind, n) => {
            let line = pair_line("fill", object as i128, n as i128);
            worded(line, kind_name(kind), "", "")
        }
        Instruction::Begin(s, object, n, values) => Line {
            name: "begin",
            words: ["", "", ""],
            numbers: [
                Some(s as i128),
                Some(object as i128),
                Some(n as i128),
                Some(values as i128),
            ],
        },
        Instruction::Bind(s, object) => pair_line("bind", s as i128, object as i128),
        other => jump_line(other),
    }
}

fn jump_line(it: Instruction) -> Line {
    match it {
        Instruction::Jump(skip) => slot_line("jump", skip as usize),
        Instruction::SkipZero(s, skip) => pair_line("skip-zero", s as i128, skip as i128),
        Instruction::SkipEqual(s, value, skip) => {
            triple_line("skip-equal", s as i128, value, skip as i128)
        }
        Instruction::Turn(at, place) => pair_line("turn", at as i128, place as i128),
        other => end_line(other),
    }
}

fn end_line(it: Instruction) -> Line {
    match it {
        Instruction::Call(at, place, s) => {
            triple_line("call", at as i128, place as i128, s as i128)
        }
        Instruction::Take(s, at, from, needed) => {
            let line = triple_line("take", s as i128, at as i128, from as i128);
            worded(line, word_of(needed, "needed", "spare"), "", "")
        }
        Instruction::Return(s) => slot_line("return", s),
        Instruction::Fail(kind, at) => {
            worded(slot_line("fail", at as usize), kind.name(), "", "")
        }
        _ => Line {
            name: "stop",
            words: ["", "", ""],
            numbers: [None, None, None, None],
        },
    }
}

fn put_words(text: &mut String, words: [&'static str; 3]) -> Result<(), Flaw> {
    for word in words {
        if !word.is_empty() {
            text.push_str(" ")?;
            text.push_str(word)?;
        }
    }
    Ok(())
}

fn put_numbers(alloc: Global, text: &mut String, numbers: [Option<i128>; 4]) -> Result<(), Flaw> {
    for number in numbers {
        if let Some(number) = number {
            let spelled = format!(in alloc; " {number}")?;
            text.push_str(spelled.as_str())?;
        }
    }
    Ok(())
}

// Appends a line, behind a mark where another stands before it.
fn put(alloc: Global, text: &mut String, line: Line) -> Result<(), Flaw> {
    if !text.as_str().is_empty() {
        text.push_str("; ")?;
    }
    text.push_str(line.name)?;
    put_words(text, line.words)?;
    put_numbers(alloc, text, line.numbers)
}

// The listing of some code.
//
// Fails with `Memory`.
fn listed(alloc: Global, code: &[Instruction]) -> Result<String, Flaw> {
    let mut text = String::new(alloc);
    for instruction in code {
        put(alloc, &mut text, access_line(*instruction))?;
    }
    Ok(text)
}

// The places and slots of functions, each behind the function's number.
fn linked(alloc: Global, links: &[Link]) -> Result<String, Flaw> {
    let mut text = String::new(alloc);
    for link in links {
        let (function, entry, slot) = (link.function, link.entry, link.slot);
        let mark = if text.as_str().is_empty() { "" } else { "; " };
        let spelled = format!(in alloc; "{mark}{function} {entry} {slot}")?;
        text.push_str(spelled.as_str())?;
    }
    Ok(text)
}

// What came of a source's code, where it is another one.
fn code_other(alloc: Global, mut columns: Fields<'_>) -> Result<Option<String>, Flaw> {
    let examined = next_source(alloc, &mut columns)?;
    let slots = columns.count()?;
    let links = columns.next()?;
    let instructions = columns.next()?;
    columns.end()?;
    let code = compiled(alloc, examined.typed(), examined.order())?;
    let counted = slots_in(&code.instructions)?;
    let linked = linked(alloc, &code.links)?;
    let listed = listed(alloc, &code.instructions)?;
    if counted as u64 == slots && linked.as_str() == links {
        return Ok(other_than(instructions, listed));
    }
    let (linked, listed) = (linked.as_str(), listed.as_str());
    Ok(Some(format!(in alloc; "{counted}, {linked}, {listed}")?))
}

/// Rows of flat code.
#[derive(Clone, Copy)]
pub(crate) struct CodeRows;

impl Table for CodeRows {
    fn other(&mut self, alloc: Global, row: &str) -> Result<Option<String>, Flaw> {
        let mut columns = Fields::columns(row);
        columns.next()?;
        code_other(alloc, columns)
    }
}
