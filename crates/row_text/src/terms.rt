//! Terms in prefix form. A word is a number, or stands for a term: `it` for a given one, `#3` for that of the number 3, and
//! a term's kind before its operands for that term. Brackets are for the eye alone.

use crate::fails::RowFail;
use crate::words::{number, wide};
use bv_term::{Term, TermId, Terms};
use std::alloc::Global;

// What a word behind the one that is read stands for.
#[derive(Clone, Copy, Debug, Drop)]
enum Item {
    Number(u128),
    Term(TermId),
}

fn wide_on(items: &mut Vec<Item>) -> Result<u128, RowFail> {
    match items.pop() {
        Some(Item::Number(n)) => Ok(n),
        _ => Err(RowFail::Bad),
    }
}

fn number_on(items: &mut Vec<Item>) -> Result<u32, RowFail> {
    match u32::try_from(wide_on(items)?) {
        Ok(n) => Ok(n),
        Err(_) => Err(RowFail::Bad),
    }
}

fn term_on(items: &mut Vec<Item>) -> Result<TermId, RowFail> {
    match items.pop() {
        Some(Item::Term(id)) => Ok(id),
        _ => Err(RowFail::Bad),
    }
}

// A term of two operands of one width.
fn binary(kind: &str, a: TermId, b: TermId) -> Result<Term, RowFail> {
    match kind {
        "add" => Ok(Term::Add(a, b)),
        "subtract" => Ok(Term::Subtract(a, b)),
        "multiply" => Ok(Term::Multiply(a, b)),
        "divide" => Ok(Term::Divide(a, b)),
        "remainder" => Ok(Term::Remainder(a, b)),
        "and" => Ok(Term::And(a, b)),
        "or" => Ok(Term::Or(a, b)),
        "xor" => Ok(Term::Xor(a, b)),
        "left" => Ok(Term::ShiftLeft(a, b)),
        "right" => Ok(Term::ShiftRight(a, b)),
        "signed_right" => Ok(Term::ShiftSigned(a, b)),
        "equal" => Ok(Term::Equal(a, b)),
        "less" => Ok(Term::Less(a, b)),
        "signed_less" => Ok(Term::LessSigned(a, b)),
        _ => Err(RowFail::Bad),
    }
}

// A term of a number and an operand.
fn resized(kind: &str, n: u32, a: TermId) -> Result<Term, RowFail> {
    match kind {
        "zero_extend" => Ok(Term::ZeroExtend(n, a)),
        "sign_extend" => Ok(Term::SignExtend(n, a)),
        "truncate" => Ok(Term::Truncate(n, a)),
        "bit" => Ok(Term::Bit(n, a)),
        _ => Err(RowFail::Bad),
    }
}

fn element_on(items: &mut Vec<Item>) -> Result<Term, RowFail> {
    let first = number_on(items)?;
    let count = number_on(items)?;
    Ok(Term::Element(first, count, term_on(items)?))
}

fn select_on(items: &mut Vec<Item>) -> Result<Term, RowFail> {
    let choice = term_on(items)?;
    let first = term_on(items)?;
    Ok(Term::Select(choice, first, term_on(items)?))
}

fn resized_on(items: &mut Vec<Item>, kind: &str) -> Result<Term, RowFail> {
    let n = number_on(items)?;
    resized(kind, n, term_on(items)?)
}

fn binary_on(items: &mut Vec<Item>, kind: &str) -> Result<Term, RowFail> {
    let a = term_on(items)?;
    binary(kind, a, term_on(items)?)
}

fn constant_on(items: &mut Vec<Item>) -> Result<Term, RowFail> {
    let width = number_on(items)?;
    Ok(Term::Constant(width, wide_on(items)?))
}

// The term of a kind, whose operands are the last items.
fn term_of(items: &mut Vec<Item>, kind: &str) -> Result<Term, RowFail> {
    match kind {
        "const" => constant_on(items),
        "cell" => Ok(Term::Cell(number_on(items)?)),
        "element" => element_on(items),
        "not" => Ok(Term::Not(term_on(items)?)),
        "select" => select_on(items),
        "zero_extend" | "sign_extend" | "truncate" | "bit" => resized_on(items, kind),
        _ => binary_on(items, kind),
    }
}

// The item of a word, none where it is a term that is not well formed.
fn item_of(
    terms: &mut Terms,
    it: TermId,
    items: &mut Vec<Item>,
    word: &str,
) -> Result<Option<Item>, RowFail> {
    if word == "it" {
        return Ok(Some(Item::Term(it)));
    }
    if let Some(digits) = word.strip_prefix('#') {
        return Ok(Some(Item::Term(TermId(number(Some(digits))?))));
    }
    if let Ok(n) = wide(Some(word)) {
        return Ok(Some(Item::Number(n)));
    }
    let term = term_of(items, word)?;
    if !terms.fits(term) {
        return Ok(None);
    }
    Ok(Some(Item::Term(terms.put(term)?)))
}

// The numbers of the terms among the items, from the last on.
fn terms_of(alloc: Global, items: &[Item]) -> Result<Vec<TermId>, RowFail> {
    let mut found = Vec::new(alloc);
    for item in items.iter().rev() {
        match item {
            Item::Term(id) => found.push(*id)?,
            Item::Number(_) => return Err(RowFail::Bad),
        }
    }
    Ok(found)
}

/// Puts the terms of a text into a table, and answers their numbers; `it` stands for a given term. There are none where a
/// term is not well formed over what stands in the table.
///
/// Fails with `Bad` where the text is none of terms, and with `Memory`.
pub fn terms_in(
    alloc: Global,
    terms: &mut Terms,
    it: TermId,
    text: &str,
) -> Result<Option<Vec<TermId>>, RowFail> {
    let mut items = Vec::new(alloc);
    for word in text.rsplit(' ') {
        let word = word.trim_start_matches('(').trim_end_matches(')');
        if word.is_empty() {
            continue;
        }
        match item_of(terms, it, &mut items, word)? {
            Some(item) => items.push(item)?,
            None => return Ok(None),
        }
    }
    Ok(Some(terms_of(alloc, &items)?))
}

/// Puts the term of a text into a table, as `terms_in` does with several.
pub fn one_term(
    alloc: Global,
    terms: &mut Terms,
    it: TermId,
    text: &str,
) -> Result<Option<TermId>, RowFail> {
    let Some(found) = terms_in(alloc, terms, it, text)? else {
        return Ok(None);
    };
    if found.len() == 1 {
        Ok(Some(found[0]))
    } else {
        Err(RowFail::Bad)
    }
}
