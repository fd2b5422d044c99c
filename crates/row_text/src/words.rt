ghost use Rattle.std.specs.Prelude.{◌≡◌, IsErr, IfOk, IsOkAnd, MatchOption};
ghost use Rattle.std.specs.Str.{trim};
ghost use Rattle.std.specs.Str.Parse.{ParsesUnsigned};
ghost use Rattle.row_text.specs.Words.{AreHalves, AreFields};

use crate::fails::RowFail;
use std::alloc::Global;

/// The number that is a word, which has to be there.
///
/// Fails with `Bad` where it is none of 32 bits.
pub fn number(word: Option<&str>) -> Result<u32, RowFail>
    ensures { MatchOption word.entry (IsErr result) (λ w. ParsesUnsigned 32 10 w.now result) }
{
    let Some(word) = word else {
        return Err(RowFail::Bad);
    };
    match word.parse::<u32>() {
        Ok(n) => Ok(n),
        Err(_) => Err(RowFail::Bad),
    }
}

/// The number that is a word, which has to be there.
///
/// Fails with `Bad` where it is none of 128 bits.
pub fn wide(word: Option<&str>) -> Result<u128, RowFail>
    ensures { MatchOption word.entry (IsErr result) (λ w. ParsesUnsigned 128 10 w.now result) }
{
    let Some(word) = word else {
        return Err(RowFail::Bad);
    };
    match word.parse::<u128>() {
        Ok(n) => Ok(n),
        Err(_) => Err(RowFail::Bad),
    }
}

/// The numbers of 32 bits that are the words of a text.
pub fn numbers(alloc: Global, text: &str) -> Result<Vec<u32>, RowFail> {
    let mut found = Vec::new(alloc);
    for word in text.split_ascii_whitespace() {
        found.push(number(Some(word))?)?;
    }
    Ok(found)
}

/// The numbers of 128 bits that are the words of a text.
pub fn wides(alloc: Global, text: &str) -> Result<Vec<u128>, RowFail> {
    let mut found = Vec::new(alloc);
    for word in text.split_ascii_whitespace() {
        found.push(wide(Some(word))?)?;
    }
    Ok(found)
}

/// A part of a row, which has to be there, without the blanks around it.
pub fn half(part: Option<&str>) -> Result<&str, RowFail>
    ensures { MatchOption part.entry (IsErr result) (λ p. IsOkAnd result (λ half. half.now ≡ trim p.now)) }
{
    match part {
        Some(part) => Ok(part.trim()),
        None => Err(RowFail::Bad),
    }
}

/// What stands before and behind the sign of equality of a text.
///
/// Fails with `Bad` where there is none.
#[tactic(auto, using(std::proofs::lemmas::Str::Pattern::split_parts))]
pub fn halves(text: &str) -> Result<(&str, &str), RowFail>
    ensures { IfOk result (λ x. AreHalves text.now x.0.now x.1.now) }
{
    match text.split_once('=') {
        Some((left, right)) => Ok((left.trim(), right.trim())),
        None => Err(RowFail::Bad),
    }
}

/// The first word of a text, and what stands behind it.
#[tactic(auto, using(std::proofs::lemmas::Str::Pattern::split_parts))]
pub fn fields(text: &str) -> (&str, &str)
    ensures { AreFields text.now result.0.now result.1.now }
{
    match text.trim().split_once(' ') {
        Some((first, rest)) => (first, rest.trim()),
        None => (text.trim(), ""),
    }
}
