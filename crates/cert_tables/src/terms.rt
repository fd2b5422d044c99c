//! The lines of terms.

use crate::{failed, framed, line_other, written_other};
use bv_term::{Term, TermId};
use cert_text::read_cert;
use std::alloc::Global;
use table_rows::{Fields, Flaw, Table, text_of};

const BEFORE: &[u8] = b"1\nterms 1\n";

const BEHIND: &[u8] = b"map 0\nlogs 0\nend\n";

fn short(words: &mut Fields<'_>) -> Result<u32, Flaw> {
    match words.next()?.parse::<u32>() {
        Ok(number) => Ok(number),
        Err(_) => Err(Flaw::Form),
    }
}

fn operand(words: &mut Fields<'_>) -> Result<TermId, Flaw> {
    Ok(TermId(short(words)?))
}

fn constant(words: &mut Fields<'_>) -> Result<Term, Flaw> {
    let width = short(words)?;
    match words.next()?.parse::<u128>() {
        Ok(value) => Ok(Term::Constant(width, value)),
        Err(_) => Err(Flaw::Form),
    }
}

// Terms of two operands.
fn two(name: &str, words: &mut Fields<'_>) -> Result<Term, Flaw> {
    let (i, j) = (operand(words)?, operand(words)?);
    match name {
        "add" => Ok(Term::Add(i, j)),
        "subtract" => Ok(Term::Subtract(i, j)),
        "multiply" => Ok(Term::Multiply(i, j)),
        "divide" => Ok(Term::Divide(i, j)),
        "remainder" => Ok(Term::Remainder(i, j)),
        "and" => Ok(Term::And(i, j)),
        "or" => Ok(Term::Or(i, j)),
        "xor" => Ok(Term::Xor(i, j)),
        "left" => Ok(Term::ShiftLeft(i, j)),
        "right" => Ok(Term::ShiftRight(i, j)),
        "signed_right" => Ok(Term::ShiftSigned(i, j)),
        "equal" => Ok(Term::Equal(i, j)),
        "less" => Ok(Term::Less(i, j)),
        "signed_less" => Ok(Term::LessSigned(i, j)),
        _ => Err(Flaw::Form),
    }
}

// Terms of a width or a bit's number, and an operand.
fn sized(name: &str, words: &mut Fields<'_>) -> Result<Term, Flaw> {
    let (size, i) = (short(words)?, operand(words)?);
    match name {
        "zero_extend" => Ok(Term::ZeroExtend(size, i)),
        "sign_extend" => Ok(Term::SignExtend(size, i)),
        "truncate" => Ok(Term::Truncate(size, i)),
        "bit" => Ok(Term::Bit(size, i)),
        _ => Err(Flaw::Form),
    }
}

// The term that its name and numbers tell.
fn term_of(told: &str) -> Result<Term, Flaw> {
    let mut words = Fields::parts(told, " ");
    match words.next()? {
        "constant" => constant(&mut words),
        "cell" => Ok(Term::Cell(short(&mut words)?)),
        "not" => Ok(Term::Not(operand(&mut words)?)),
        "element" => {
            let (first, count) = (short(&mut words)?, short(&mut words)?);
            Ok(Term::Element(first, count, operand(&mut words)?))
        }
        "select" => {
            let (i, j) = (operand(&mut words)?, operand(&mut words)?);
            Ok(Term::Select(i, j, operand(&mut words)?))
        }
        name => match name {
            "zero_extend" | "sign_extend" | "truncate" | "bit" => sized(name, &mut words),
            _ => two(name, &mut words),
        },
    }
}

// What came of a term's line that is read and written back, where it is another term.
fn term_other(alloc: Global, mut columns: Fields<'_>) -> Result<Option<String>, Flaw> {
    let line = text_of(alloc, columns.next()?)?;
    let wanted = term_of(columns.next()?)?;
    columns.end()?;
    let text = framed(alloc, BEFORE, &line, BEHIND)?;
    let cert = match read_cert(alloc, &text) {
        Ok(cert) => cert,
        Err(fail) => return Ok(Some(failed(alloc, fail)?)),
    };
    if cert.terms.len() != 1 || cert.terms[0] != wanted {
        return Ok(Some(String::from_str(alloc, "another term")?));
    }
    written_other(alloc, &cert, &text)
}

// What came of a line that is no term's, where it is refused at another byte.
fn no_term_other(alloc: Global, mut columns: Fields<'_>) -> Result<Option<String>, Flaw> {
    let line = text_of(alloc, columns.next()?)?;
    let at = columns.count()?;
    columns.end()?;
    line_other(alloc, BEFORE, &line, BEHIND, at)
}

/// Rows of terms' lines.
#[derive(Clone, Copy)]
pub(crate) struct TermRows;

impl Table for TermRows {
    fn other(&mut self, alloc: Global, row: &str) -> Result<Option<String>, Flaw> {
        let mut columns = Fields::columns(row);
        match columns.next()? {
            "term" => term_other(alloc, columns),
            "no_term" => no_term_other(alloc, columns),
            _ => Err(Flaw::Form),
        }
    }
}
