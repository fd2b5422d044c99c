//! Words of literals, where variable 1 is true: 1 stands for true, and -1 for false.
//! `fold KIND LITERALS = LITERAL COUNT`: the literal that stands for a definition over the variables 1 to 3, and how many
//! variables from 4 on it needs.
//! `numeral WIDTH VALUE = LITERALS`: a number's literals, lowest first, which are spelled again.
//! `copies LITERAL COUNT = LITERALS`. `spelled LITERALS = VALUE`, or `= none` where they are no number.

use bit_gates::{Def, Net, NoRoom};
use bit_words::{copies, numeral, put_def, spelled};
use prop::Lit;
use row_text::{RowFail, Table, fields, halves, lit_in, lits_in, number, wide};
use std::alloc::Global;

const ONE: Lit = Lit {
    var: 1,
    positive: true,
};

fn no_room(_: NoRoom) -> RowFail {
    RowFail::Memory
}

// A definition over two literals.
fn def_of_two(kind: &str, a: Lit, b: Lit) -> Result<Def, RowFail> {
    match kind {
        "and" => Ok(Def::And(a, b)),
        "xor" => Ok(Def::Xor(a, b)),
        _ => Err(RowFail::Bad),
    }
}

// A definition over three literals.
fn def_of_three(kind: &str, a: Lit, b: Lit, c: Lit) -> Result<Def, RowFail> {
    match kind {
        "select" => Ok(Def::Select(a, b, c)),
        "sum" => Ok(Def::Sum(a, b, c)),
        "carry" => Ok(Def::Carry(a, b, c)),
        "same" => Ok(Def::Same(a, b, c)),
        _ => Err(RowFail::Bad),
    }
}

fn def_in(kind: &str, lits: &[Lit]) -> Result<Def, RowFail> {
    match kind {
        "true" => Ok(Def::Fixed(true)),
        "false" => Ok(Def::Fixed(false)),
        _ if lits.len() == 2 => def_of_two(kind, lits[0], lits[1]),
        _ if lits.len() == 3 => def_of_three(kind, lits[0], lits[1], lits[2]),
        _ => Err(RowFail::Bad),
    }
}

// Tries the row of a definition.
fn folds(alloc: Global, rest: &str) -> Result<bool, RowFail> {
    let (words, wanted) = halves(rest)?;
    let (kind, lits) = fields(words);
    let def = def_in(kind, &lits_in(alloc, lits)?)?;
    let (lit, count) = fields(wanted);
    let mut net = Net::new(alloc, 4);
    let out = put_def(&mut net, ONE, def).map_err(no_room)?;
    Ok(out == lit_in(lit)? && net.defs.len() == number(Some(count))? as usize)
}

// Tries the row of a number.
fn is_numeral(alloc: Global, rest: &str) -> Result<bool, RowFail> {
    let (words, wanted) = halves(rest)?;
    let (width, value) = fields(words);
    let value = wide(Some(value))?;
    let bits = numeral(alloc, ONE, number(Some(width))?, value).map_err(no_room)?;
    let wanted = lits_in(alloc, wanted)?;
    Ok(
        bits.len() <= 128
            && bits.as_slice() == wanted.as_slice()
            && spelled(ONE, &bits) == Some(value),
    )
}

// Tries the row of copies.
fn is_copies(alloc: Global, rest: &str) -> Result<bool, RowFail> {
    let (words, wanted) = halves(rest)?;
    let (lit, count) = fields(words);
    let count = number(Some(count))? as usize;
    let made = copies(alloc, lit_in(lit)?, count).map_err(no_room)?;
    let wanted = lits_in(alloc, wanted)?;
    Ok(made.as_slice() == wanted.as_slice())
}

// Tries the row of literals that are spelled.
fn is_spelled(alloc: Global, rest: &str) -> Result<bool, RowFail> {
    let (words, wanted) = halves(rest)?;
    let lits = lits_in(alloc, words)?;
    if lits.len() > 128 {
        return Err(RowFail::Bad);
    }
    let found = spelled(ONE, &lits);
    if wanted == "none" {
        return Ok(found.is_none());
    }
    Ok(found == Some(wide(Some(wanted))?))
}

/// Rows of words of literals.
#[derive(Drop)]
pub(crate) struct WordRows;

impl Table for WordRows {
    fn is_so(&mut self, alloc: Global, row: &str) -> Result<bool, RowFail> {
        let (kind, rest) = fields(row);
        match kind {
            "fold" => folds(alloc, rest),
            "numeral" => is_numeral(alloc, rest),
            "copies" => is_copies(alloc, rest),
            "spelled" => is_spelled(alloc, rest),
            _ => Err(RowFail::Bad),
        }
    }
}
