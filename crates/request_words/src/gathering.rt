ghost use Rattle.std.specs.Prelude.{◌≡◌, ◌≤◌, IfOk, map, Some, codes, is_some, option_and_then};
ghost use Rattle.std.specs.List.{list_any};
ghost use Rattle.std.specs.Option.{option_map};
ghost use Rattle.std.specs.Str.{bytes_eq};
ghost use Rattle.clap.specs.Words.{found_of, rows_of};
ghost use Rattle.request_words.specs.Values.{is_name_of, model_of, number_of};
ghost use Rattle.request_words.specs.Views.{given_of, texts_of};
ghost use Rattle.request_words.specs.Words.{nothing_given, with_words};
ghost use Rattle.request_words.specs.Texts.{given_by, has_good_texts, has_values, is_good, texts_in, values_given, whole};

use crate::commands::{Command, parser_for};
use crate::values::{is_name, model_in, number_in};
use clap::ArgMatches;
use clap::error::ErrorKind;
use lv_base::{Memory, Model};
use std::alloc::Global;

/// What the words behind a command give.
#[derive(Clone, Copy)]
pub struct Given<'a> {
    pub first: Option<&'a str>,
    pub second: Option<&'a str>,
    pub model: Option<Model>,
    pub units: Option<u64>,
    pub learn: Option<u64>,
    pub workers: Option<u64>,
    pub turns: Option<u64>,
    pub cert: Option<&'a str>,
    pub run: Option<&'a str>,
    pub witness: Option<&'a str>,
}

/// The same, before anything is read of a value.
#[derive(Clone, Copy)]
pub struct Texts<'a> {
    pub first: Option<&'a str>,
    pub second: Option<&'a str>,
    pub model: Option<&'a str>,
    pub units: Option<&'a str>,
    pub learn: Option<&'a str>,
    pub workers: Option<&'a str>,
    pub turns: Option<&'a str>,
    pub cert: Option<&'a str>,
    pub run: Option<&'a str>,
    pub witness: Option<&'a str>,
}

/// What the words behind a command give, where they give what it wants.
///
/// # Errors
///
/// `Memory` where there was none for the parser or its matches.
pub(crate) fn gathered<'a>(
    alloc: Global,
    command: Command,
    words: &'a [&'a str],
) -> Result<Option<Given<'a>>, Memory>
    ensures { IfOk result (λ r. option_map given_of r ≡ whole command (with_words command (Some nothing_given) (map (λ w. w.now) words.entry.now))) }
{
    if has_end(words) {
        return Ok(None);
    }
    match parser_for(alloc, command)?.try_get_matches_from(words) {
        Ok(matches) => Ok(given_in(texts_found(&matches))),
        Err(error) => match error.kind() {
            ErrorKind::OutOfMemory => Err(Memory),
            _ => Ok(None),
        },
    }
}

// The parser would take what stands behind `--` for names.
fn has_end(words: &[&str]) -> bool
    ensures { result ≡ list_any (λ w. bytes_eq w.now (codes "--")) words.now }
{
    words.iter().any(|word| *word == "--")
}

fn texts_found<'a>(matches: &ArgMatches<'a>) -> Texts<'a>
    ensures { texts_of result ≡ texts_in (rows_of (found_of matches.now)) }
{
    Texts {
        first: matches.get_str("source"),
        second: matches.get_str("second"),
        model: matches.get_str("model"),
        units: matches.get_str("units"),
        learn: matches.get_str("learn"),
        workers: matches.get_str("workers"),
        turns: matches.get_str("turns"),
        cert: matches.get_str("cert"),
        run: matches.get_str("run"),
        witness: matches.get_str("witness"),
    }
}

// Each text is a name or a value of its option.
fn given_in<'a>(texts: Texts<'a>) -> Option<Given<'a>>
    ensures { option_map given_of result ≡ given_by (texts_of texts.entry) }
{
    if are_good(texts) {
        Some(values_of(texts))
    } else {
        None
    }
}

fn values_of<'a>(texts: Texts<'a>) -> Given<'a>
    ensures { given_of result ≡ values_given (texts_of texts.entry) }
{
    Given {
        first: texts.first,
        second: texts.second,
        model: model_at(texts.model),
        units: number_at(texts.units, 10_000_000),
        learn: number_at(texts.learn, 100_000_000),
        workers: number_at(texts.workers, 64),
        turns: number_at(texts.turns, 1_000_000_000),
        cert: texts.cert,
        run: texts.run,
        witness: texts.witness,
    }
}

fn are_good(texts: Texts) -> bool
    ensures { result ≡ has_good_texts (texts_of texts.entry) }
{
    let names = is_name_at(texts.first)
        && (is_name_at(texts.second)
            && (is_name_at(texts.cert) && (is_name_at(texts.run) && is_name_at(texts.witness))));
    names && are_values(texts)
}

fn are_values(texts: Texts) -> bool
    ensures { result ≡ has_values (texts_of texts.entry) }
{
    is_model_at(texts.model)
        && (is_number_at(texts.units, 10_000_000)
            && (is_number_at(texts.learn, 100_000_000)
                && (is_number_at(texts.workers, 64) && is_number_at(texts.turns, 1_000_000_000))))
}

fn is_name_at(text: Option<&str>) -> bool
    ensures { result ≡ is_good is_name_of (option_map (λ s. s.now) text.entry) }
{
    match text {
        None => true,
        Some(text) => is_name(text),
    }
}

fn is_model_at(text: Option<&str>) -> bool
    ensures { result ≡ is_good (λ v. is_some (model_of v)) (option_map (λ s. s.now) text.entry) }
{
    match text {
        None => true,
        Some(text) => model_in(text.as_bytes()).is_some(),
    }
}

fn is_number_at(text: Option<&str>, most: u64) -> bool
    requires { most ≤ 4294967295 }
    ensures { result ≡ is_good (λ v. is_some (number_of most v)) (option_map (λ s. s.now) text.entry) }
{
    match text {
        None => true,
        Some(text) => number_in(text.as_bytes(), most).is_some(),
    }
}

fn model_at(text: Option<&str>) -> Option<Model>
    ensures { result ≡ option_and_then model_of (option_map (λ s. s.now) text.entry) }
{
    match text {
        None => None,
        Some(text) => model_in(text.as_bytes()),
    }
}

fn number_at(text: Option<&str>, most: u64) -> Option<u64>
    requires { most ≤ 4294967295 }
    ensures { result ≡ option_and_then (number_of most) (option_map (λ s. s.now) text.entry) }
{
    match text {
        None => None,
        Some(text) => number_in(text.as_bytes(), most),
    }
}
