//! Formulas as expressions, over cells, spellings of objects, and tables of terms as certificates write them.

use crate::other_text;
use bv_term::{Term, TermId, Terms};
use c_graph::{Cell, Origin};
use lv_base::Text;
use std::alloc::Global;
use table_rows::{Fields, Flaw, Table, text_of};
use witness_expressions::{Spelling, expression};

const WIDTH: u32 = 32;

// The number that a word spells, where it has 32 bits.
fn short(word: &str) -> Result<u32, Flaw> {
    match word.parse::<u32>() {
        Ok(number) => Ok(number),
        Err(_) => Err(Flaw::Form),
    }
}

fn origin_of(word: &str) -> Result<Origin, Flaw> {
    match word.split_once(".") {
        Some((object, element)) => Ok(Origin::Element(short(object)?, short(element)?)),
        None => {
            if word == "-" {
                Ok(Origin::Saved)
            } else {
                Err(Flaw::Form)
            }
        }
    }
}

// The cells of a text.
fn cells_of(alloc: Global, text: &str) -> Result<Vec<Cell>, Flaw> {
    let mut cells = Vec::new(alloc);
    for word in text.split(" ") {
        let origin = origin_of(word)?;
        cells.push(Cell {
            width: WIDTH,
            origin,
        })?;
    }
    Ok(cells)
}

fn spelling_of(alloc: Global, word: &str) -> Result<Spelling, Flaw> {
    if word == "-" {
        return Ok(Spelling::Hidden);
    }
    match word.split_once("[") {
        Some((name, _)) => Ok(Spelling::Array(Text::copy_of(alloc, name.as_bytes())?)),
        None => Ok(Spelling::Scalar(Text::copy_of(alloc, word.as_bytes())?)),
    }
}

// The spellings of a text.
fn spellings_of(alloc: Global, words: &[u8]) -> Result<Vec<Spelling>, Flaw> {
    let Ok(text) = std::str::from_utf8(words) else {
        return Err(Flaw::Form);
    };
    let mut spellings = Vec::new(alloc);
    for word in text.split(" ") {
        spellings.push(spelling_of(alloc, word)?)?;
    }
    Ok(spellings)
}

fn id(words: &mut Fields<'_>) -> Result<TermId, Flaw> {
    Ok(TermId(short(words.next()?)?))
}

fn term_of(line: &str) -> Result<Term, Flaw> {
    let mut words = Fields::parts(line, " ");
    let mark = words.next()?;
    let term = match mark {
        "c" => Term::Constant(short(words.next()?)?, short(words.next()?)? as u128),
        "x" => Term::Cell(short(words.next()?)?),
        "&" => Term::And(id(&mut words)?, id(&mut words)?),
        "o" => Term::Or(id(&mut words)?, id(&mut words)?),
        "^" => Term::Xor(id(&mut words)?, id(&mut words)?),
        "~" => Term::Not(id(&mut words)?),
        "=" => Term::Equal(id(&mut words)?, id(&mut words)?),
        "b" => Term::Bit(short(words.next()?)?, id(&mut words)?),
        _ => return Err(Flaw::Form),
    };
    words.end()?;
    Ok(term)
}

fn empty_table(alloc: Global, cells: usize) -> Result<Terms, Flaw> {
    let mut widths = Vec::new(alloc);
    for _ in 0..cells {
        widths.push(32)?;
    }
    if !bv_term::are_widths(&widths) {
        return Err(Flaw::Form);
    }
    Ok(Terms::new(alloc, widths))
}

// The table of these terms over so many cells of 32 bits.
fn table_of(alloc: Global, cells: usize, text: &str) -> Result<Terms, Flaw> {
    let mut terms = empty_table(alloc, cells)?;
    for line in text.split(";") {
        let term = term_of(line)?;
        if !terms.fits(term) {
            return Err(Flaw::Form);
        }
        terms.append(term)?;
    }
    Ok(terms)
}

/// Rows of formulas and their expressions.
#[derive(Clone, Copy)]
pub(crate) struct ExpressionRows;

impl Table for ExpressionRows {
    fn other(&mut self, alloc: Global, row: &str) -> Result<Option<String>, Flaw> {
        let mut columns = Fields::columns(row);
        columns.next()?;
        let cells = cells_of(alloc, columns.next()?)?;
        let spellings = spellings_of(alloc, &text_of(alloc, columns.next()?)?)?;
        let terms = table_of(alloc, cells.len(), columns.next()?)?;
        let formula = TermId(short(columns.next()?)?);
        let came = expression(alloc, &terms, &cells, &spellings, formula)?;
        other_text(alloc, &mut columns, &came)
    }
}
