ghost use Rattle.std.specs.Prelude.{IfOk};
ghost use Rattle.row_text.specs.Words.{SpellsLiteral};

use crate::fails::RowFail;
use crate::words::number;
use prop::{Clauses, Lit};
use std::alloc::Global;

/// The literal of a word: the number of its variable, behind a minus where it is the negation.
#[tactic(auto, using(std::proofs::lemmas::Str::Pattern::strip_prefix_char))]
pub fn lit_in(word: &str) -> Result<Lit, RowFail>
    ensures { IfOk result (λ l. SpellsLiteral word.now l.positive l.var) }
{
    match word.strip_prefix('-') {
        Some(rest) => Ok(Lit {
            var: number(Some(rest))?,
            positive: false,
        }),
        None => Ok(Lit {
            var: number(Some(word))?,
            positive: true,
        }),
    }
}

/// The literals that are the words of a text.
pub fn lits_in(alloc: Global, text: &str) -> Result<Vec<Lit>, RowFail> {
    let mut found = Vec::new(alloc);
    for word in text.split_ascii_whitespace() {
        found.push(lit_in(word)?)?;
    }
    Ok(found)
}

/// The clauses of a text, in which a 0 stands behind each.
pub fn literal_rows(alloc: Global, text: &str) -> Result<Vec<Vec<Lit>>, RowFail> {
    let mut rows = Vec::new(alloc);
    let mut row = Vec::new(alloc);
    for word in text.split_ascii_whitespace() {
        if word == "0" {
            rows.push(row)?;
            row = Vec::new(alloc);
        } else {
            row.push(lit_in(word)?)?;
        }
    }
    if row.is_empty() {
        Ok(rows)
    } else {
        Err(RowFail::Bad)
    }
}

/// The clauses of a text, in which a 0 stands behind each, pushed one after another.
pub fn clauses_in(alloc: Global, text: &str) -> Result<Clauses, RowFail> {
    let mut clauses = Clauses::new(alloc);
    for row in &literal_rows(alloc, text)? {
        clauses.push(row.as_slice())?;
    }
    Ok(clauses)
}
