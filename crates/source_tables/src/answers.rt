//! What is asked of a source, and what is answered, row by row.

use crate::tokens::Tokens;
use crate::trees::{Functions, Known, LastBody, Objects};
use crate::{Page, Question, Row, Shown, row_of, source_of};
use c_lexer::Token;
use c_parser::parse;
use c_rules::Examined;
use c_tokens::tokens_of;
use c_tree::{Unit, height};
use c_typed::Typed;
use elaboration_laws::sources_read;
use high_tree_laws::the_only;
use lv_base::{Model, SourceFail};
use source_checks::{accepted, elaborate};
use std::alloc::Global;
use std::rt::Files;
use std::str;
use table_rows::{Library, Refusal, load};

// What is answered of a source, from its bytes on: what was asked, or the number of the first rule that it breaks with its
// offset, or that of a limit behind 100 with the count that passed it.
//
// Fails with `Memory`, and never with another one.
fn answer(
    alloc: Global,
    question: Question,
    model: Model,
    source: &[u8],
) -> Result<Page, SourceFail> {
    let mut page = Page::new(alloc);
    match put_answer(alloc, &mut page, question, model, source) {
        Ok(()) => {}
        Err(SourceFail::Fault(fault, at)) => {
            show_refusal(&mut page, i128::from(fault.number()), i128::from(at));
        }
        Err(SourceFail::Over(limit, count)) => {
            show_refusal(&mut page, 100 + i128::from(limit), i128::from(count));
        }
        Err(SourceFail::Memory) => return Err(SourceFail::Memory),
    }
    if page.is_cut() {
        return Err(SourceFail::Memory);
    }
    Ok(page)
}

fn show_refusal(page: &mut Page, number: i128, value: i128) {
    page.number(number);
    page.put(" ");
    page.number(value);
}

fn put_answer(
    alloc: Global,
    page: &mut Page,
    question: Question,
    model: Model,
    source: &[u8],
) -> Result<(), SourceFail> {
    match question {
        Question::Tokens => put_tokens(alloc, page, source),
        Question::Count => put_count(alloc, page, source),
        Question::Tree => put_tree(alloc, page, source),
        Question::Height => put_height(alloc, page, source),
        Question::Items => put_items(alloc, page, source),
        Question::Row => Ok(put_row(page, source)),
        Question::Refusal => put_none(alloc, page, model, source),
        Question::Objects => put_objects(alloc, page, model, source),
        Question::Body => put_body(alloc, page, model, source),
        Question::Typed => put_typed(alloc, page, model, source),
        Question::Examined => put_examined(alloc, page, model, source),
    }
}

fn put_tokens(alloc: Global, page: &mut Page, source: &[u8]) -> Result<(), SourceFail> {
    let tokens = tokens_of(alloc, source)?;
    Tokens { all: &tokens }.show(page);
    Ok(())
}

fn put_count(alloc: Global, page: &mut Page, source: &[u8]) -> Result<(), SourceFail> {
    let tokens = tokens_of(alloc, source)?;
    page.number(tokens.len() as i128);
    Ok(())
}

// The tree of a source, and how high it is.
#[tactic(auto, using(crate::proofs::Low::low_tree))]
fn measured(alloc: Global, tokens: &[Token]) -> Result<(Unit, u32), SourceFail> {
    the_only();
    let unit = parse(alloc, tokens)?;
    let high = height(&unit);
    Ok((unit, high))
}

fn put_tree(alloc: Global, page: &mut Page, source: &[u8]) -> Result<(), SourceFail> {
    let tokens = tokens_of(alloc, source)?;
    let _unit = parse(alloc, &tokens)?;
    page.put("tree");
    Ok(())
}

fn put_height(alloc: Global, page: &mut Page, source: &[u8]) -> Result<(), SourceFail> {
    let tokens = tokens_of(alloc, source)?;
    let (_unit, high) = measured(alloc, &tokens)?;
    page.number(i128::from(high));
    Ok(())
}

fn put_items(alloc: Global, page: &mut Page, source: &[u8]) -> Result<(), SourceFail> {
    let tokens = tokens_of(alloc, source)?;
    let unit = parse(alloc, &tokens)?;
    page.number(unit.items.len() as i128);
    Ok(())
}

fn put_row(page: &mut Page, source: &[u8]) {
    let is_row = match str::from_utf8(source) {
        Ok(words) => row_of(1, words).is_ok(),
        Err(_) => false,
    };
    page.put(if is_row { "row" } else { "no row" });
}

// The typed tree of a source that breaks no rule of tokens, of the grammar, and of names, types, calls, constants and cases.
fn typed_of(alloc: Global, source: &[u8], model: Model) -> Result<Typed, SourceFail> {
    sources_read();
    let tokens = tokens_of(alloc, source)?;
    let unit = parse(alloc, &tokens)?;
    elaborate(alloc, &unit, model)
}

// What is known of a source that breaks no rule at all.
fn examined_of(alloc: Global, source: &[u8], model: Model) -> Result<Examined, SourceFail> {
    sources_read();
    let tokens = tokens_of(alloc, source)?;
    let unit = parse(alloc, &tokens)?;
    accepted(alloc, &unit, model)
}

fn put_none(alloc: Global, page: &mut Page, model: Model, source: &[u8]) -> Result<(), SourceFail> {
    let _examined = examined_of(alloc, source, model)?;
    page.put("none");
    Ok(())
}

fn put_objects(
    alloc: Global,
    page: &mut Page,
    model: Model,
    source: &[u8],
) -> Result<(), SourceFail> {
    let typed = typed_of(alloc, source, model)?;
    Objects {
        all: typed.objects(),
    }
    .show(page);
    Ok(())
}

fn put_body(alloc: Global, page: &mut Page, model: Model, source: &[u8]) -> Result<(), SourceFail> {
    let typed = typed_of(alloc, source, model)?;
    LastBody {
        all: typed.functions(),
    }
    .show(page);
    Ok(())
}

fn put_typed(
    alloc: Global,
    page: &mut Page,
    model: Model,
    source: &[u8],
) -> Result<(), SourceFail> {
    let typed = typed_of(alloc, source, model)?;
    Objects {
        all: typed.objects(),
    }
    .show(page);
    page.put("/ ");
    Functions {
        all: typed.functions(),
    }
    .show(page);
    Ok(())
}

fn put_examined(
    alloc: Global,
    page: &mut Page,
    model: Model,
    source: &[u8],
) -> Result<(), SourceFail> {
    let examined = examined_of(alloc, source, model)?;
    page.put(examined.typed().model().name());
    page.put(" ");
    Known { program: &examined }.show(page);
    Ok(())
}

// How many answers there were, and how many of them were others.
#[derive(Clone, Copy, Debug, PartialEq)]
struct Tried {
    runs: u64,
    others: u64,
}

// Asks what a row asks under one data model, and prints an answer that is another one.
fn try_one<R: Print>(
    alloc: Global,
    rt: &R,
    line: u32,
    row: &Row<'_>,
    model: Model,
    source: &[u8],
    tried: &mut Tried,
) -> Result<(), Refusal> {
    let Ok(page) = answer(alloc, row.question, model, source) else {
        return Err(Refusal::Memory);
    };
    tried.runs = tried.runs.saturating_add(1);
    if page.text() == row.answer {
        return Ok(());
    }
    tried.others = tried.others.saturating_add(1);
    let (name, text) = (model.name(), page.text());
    match println!(rt; "line {line}, {name}: {text}") {
        Ok(()) => Ok(()),
        Err(_) => Err(Refusal::Output),
    }
}

// Tries a row under its data models.
fn try_row<R: Print>(
    alloc: Global,
    rt: &R,
    line: u32,
    row: &Row<'_>,
    source: &[u8],
    tried: &mut Tried,
) -> Result<(), Refusal> {
    for model in [Model::Ilp32, Model::Lp64] {
        if row.models.has(model) {
            try_one(alloc, rt, line, row, model, source, tried)?;
        }
    }
    Ok(())
}

// Tries the rows of a table.
fn try_all<R: Print>(alloc: Global, rt: &R, table: &str) -> Result<Tried, Refusal> {
    let mut tried = Tried { runs: 0, others: 0 };
    let mut shared = Vec::new(alloc);
    let mut line = 0u32;
    for words in table.lines() {
        line = line.saturating_add(1);
        if words.is_empty() || words.starts_with("#") {
            continue;
        }
        if let Some(text) = words.strip_prefix("shared\t") {
            shared = source_of(alloc, &[], text)?;
            continue;
        }
        let row = row_of(line, words)?;
        let source = source_of(alloc, &shared, row.source)?;
        try_row(alloc, rt, line, &row, &source, &mut tried)?;
    }
    Ok(tried)
}

/// Tables of sources.
#[derive(Clone, Copy)]
pub struct SourceTables;

impl Library for SourceTables {
    fn try_rows<R>(&mut self, rt: &R, name: &str) -> Result<u64, Refusal>
    where
        R: AllocGlobal + Files + Print + Clone + Drop,
    {
        let alloc = rt.alloc();
        let table = load(alloc, rt, name)?;
        let Ok(text) = str::from_utf8(&table) else {
            return Err(Refusal::Text);
        };
        let tried = try_all(alloc, rt, text)?;
        let runs = tried.runs;
        if println!(rt; "{name}: {runs} runs").is_err() {
            return Err(Refusal::Output);
        }
        Ok(tried.others)
    }
}
