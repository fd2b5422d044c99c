ghost use Rattle.std.specs.Prelude.{◌≡◌, ◌==◌, ◌∷◌, [], if◌then◌else◌, length, is_ok, is_none, Some, None, IsErr, IsSomeAnd, IfOk, MatchOption};
ghost use Rattle.std.specs.Result.{result_ok};
ghost use Rattle.std.specs.Int.{w128};
ghost use Rattle.std.specs.Str.Parse.{ParsesSigned, ParsesUnsigned};
ghost use Rattle.lv_base.specs.Names.{model_name};
ghost use Rattle.table_rows.specs.Fields.{IsTaken, IsTakenSo};

use crate::Flaw;
use lv_base::Model;
use std::alloc::Global;
use std::str;

/// The columns of a row, or the words of a column, one after the other.
#[derive(Clone, Copy)]
pub struct Fields<'a> {
    mark: &'static str,
    rest: Option<&'a str>,
}

impl<'a> Fields<'a> {
    /// The columns of a row.
    pub fn columns(row: &'a str) -> Fields<'a>
        ensures mark { result.mark.now ≡ 9 ∷ [] }
        ensures rest { result.rest ≡ Some row.entry }
    {
        Fields {
            mark: "\t",
            rest: Some(row),
        }
    }

    /// What stands in a text with this mark between; nothing in an empty text.
    pub fn parts(text: &'a str, mark: &'static str) -> Fields<'a>
        ensures mark { result.mark ≡ mark.entry }
        ensures rest { result.rest ≡ (if length text.now == 0 then None else Some text.entry) }
    {
        Fields {
            mark,
            rest: if text.is_empty() { None } else { Some(text) },
        }
    }

    /// The next one; none behind the last.
    #[tactic(auto, using(std::proofs::lemmas::Str::Pattern::split_text_parts))]
    pub fn take(&mut self) -> Option<&'a str>
        ensures mark { self.new.mark ≡ self.old.mark }
        ensures taken { IsTaken self.old.mark.now self.old.rest result self.new.rest }
    {
        let rest = self.rest?;
        match rest.split_once(self.mark) {
            Some((first, behind)) => {
                self.rest = Some(behind);
                Some(first)
            }
            None => {
                self.rest = None;
                Some(rest)
            }
        }
    }

    /// What is left, with the marks in it.
    pub fn left(&self) -> Option<&'a str>
        ensures { result ≡ self.now.rest }
    {
        self.rest
    }

    /// The next one.
    ///
    /// Fails with `Form` behind the last.
    pub fn next(&mut self) -> Result<&'a str, Flaw>
        ensures mark { self.new.mark ≡ self.old.mark }
        ensures taken { IsTaken self.old.mark.now self.old.rest (result_ok result) self.new.rest }
    {
        self.take().ok_or(Flaw::Form)
    }

    /// The next one, as a number.
    pub fn number(&mut self) -> Result<i128, Flaw>
        ensures mark { self.new.mark ≡ self.old.mark }
        ensures spelled { IsTakenSo (λ first. MatchOption first (IsErr result) (λ word. ParsesSigned w128 10 word.now result)) self.old.mark.now self.old.rest self.new.rest }
    {
        number_of(self.next()?)
    }

    /// The next one, as a count.
    pub fn count(&mut self) -> Result<u64, Flaw>
        ensures mark { self.new.mark ≡ self.old.mark }
        ensures spelled { IsTakenSo (λ first. MatchOption first (IsErr result) (λ word. ParsesUnsigned 64 10 word.now result)) self.old.mark.now self.old.rest self.new.rest }
    {
        match self.next()?.parse::<u64>() {
            Ok(count) => Ok(count),
            Err(_) => Err(Flaw::Form),
        }
    }

    /// The next one, as a data model.
    pub fn model(&mut self) -> Result<Model, Flaw>
        ensures mark { self.new.mark ≡ self.old.mark }
        ensures named { IfOk result (λ model. IsTakenSo (λ first. IsSomeAnd first (λ word. word.now ≡ model_name model)) self.old.mark.now self.old.rest self.new.rest) }
    {
        match self.next()? {
            "ilp32" => Ok(Model::Ilp32),
            "lp64" => Ok(Model::Lp64),
            _ => Err(Flaw::Form),
        }
    }

    /// That nothing is left.
    ///
    /// Fails with `Form` where there is.
    pub fn end(&self) -> Result<(), Flaw>
        ensures { is_ok result ≡ is_none self.now.rest }
    {
        match self.rest {
            None => Ok(()),
            Some(_) => Err(Flaw::Form),
        }
    }
}

/// The number that a word spells.
///
/// Fails with `Form` where it spells none.
pub fn number_of(word: &str) -> Result<i128, Flaw>
    ensures { ParsesSigned w128 10 word.now result }
{
    match word.parse::<i128>() {
        Ok(number) => Ok(number),
        Err(_) => Err(Flaw::Form),
    }
}

/// The numbers of a text, with a blank between; none in an empty one.
///
/// Fails with `Form`, or with `Memory`.
pub fn list_of(alloc: Global, text: &[u8]) -> Result<Vec<i128>, Flaw> {
    let Ok(text) = str::from_utf8(text) else {
        return Err(Flaw::Form);
    };
    let mut numbers = Vec::new(alloc);
    if text.is_empty() {
        return Ok(numbers);
    }
    for word in text.split(" ") {
        numbers.push(number_of(word)?)?;
    }
    Ok(numbers)
}
