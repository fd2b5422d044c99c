ghost use Rattle.std.specs.Prelude.{◌≡◌, IfOk, map, Some};
ghost use Rattle.std.specs.Option.{option_map};
ghost use Rattle.request_words.specs.Views.{given_of, asked_by};
ghost use Rattle.request_words.specs.Asked.{is_named, is_named_in, has_twice, check_by, generate_by, seed_at, verify_by, verify_of, verify_with, asked_of, NamesAreApart};
ghost use Rattle.request_words.specs.Words.{nothing_given, with_words};

use crate::commands::Command;
use crate::gathering::{Given, gathered};
use crate::values::seed_in;
use lv_base::{Memory, Model};
use std::alloc::Global;

/// The units where no option says how many.
pub const UNITS: u64 = 100_000;

/// The clauses to be learned of a question where no option says how many.
pub const LEARN: u64 = 1_000_000;

/// The check of the certificate in one file against the source in another one.
#[derive(Clone, Copy)]
pub struct Checking<'a> {
    pub source: &'a str,
    pub cert: &'a str,
    pub model: Model,
    pub workers: u64,
}

/// The verification of a source, and where its certificate, its run or its witness is to be written.
#[derive(Clone, Copy)]
pub struct Verifying<'a> {
    pub source: &'a str,
    pub model: Model,
    pub units: u64,
    pub learn: u64,
    pub workers: u64,
    pub cert: Option<&'a str>,
    pub run: Option<&'a str>,
    pub witness: Option<&'a str>,
}

/// What words ask for.
#[derive(Clone, Copy)]
pub enum Asked<'a> {
    Check(Checking<'a>),
    Verify(Verifying<'a>),
    /// The verification of the source of a seed, with the defaults of all options and without files.
    Generate(u32),
}

/// What the words ask for: the word `check` or `verify`, and behind it names and options in any order; or the word `generate`, and a
/// seed behind it.
///
/// # Errors
///
/// `Memory` where there was none to take the words apart.
pub fn request<'a>(alloc: Global, words: &'a [&'a str]) -> Result<Option<Asked<'a>>, Memory>
    ensures { IfOk result (λ r. option_map asked_by r ≡ asked_of (map (λ w. w.now) words.entry.now)) }
{
    match words.split_first() {
        Some((command, behind)) if *command == "check" => check_asked(alloc, behind),
        Some((command, behind)) if *command == "verify" => verify_asked(alloc, behind),
        Some((command, behind)) if *command == "generate" => generate_asked(alloc, behind),
        _ => Ok(None),
    }
}

fn check_asked<'a>(alloc: Global, words: &'a [&'a str]) -> Result<Option<Asked<'a>>, Memory>
    ensures { IfOk result (λ r. option_map asked_by r ≡ check_by (with_words Command.Check (Some nothing_given) (map (λ w. w.now) words.entry.now))) }
{
    match gathered(alloc, Command::Check, words)? {
        Some(given) => Ok(whole_check(given)),
        None => Ok(None),
    }
}

fn verify_asked<'a>(alloc: Global, words: &'a [&'a str]) -> Result<Option<Asked<'a>>, Memory>
    ensures { IfOk result (λ r. option_map asked_by r ≡ verify_by (with_words Command.Verify (Some nothing_given) (map (λ w. w.now) words.entry.now))) }
{
    match gathered(alloc, Command::Verify, words)? {
        Some(given) => Ok(whole_verify(given)),
        None => Ok(None),
    }
}

fn generate_asked<'a>(alloc: Global, words: &'a [&'a str]) -> Result<Option<Asked<'a>>, Memory>
    ensures { IfOk result (λ r. option_map asked_by r ≡ generate_by (map (λ w. w.now) words.entry.now)) }
{
    match gathered(alloc, Command::Generate, words)? {
        Some(given) => Ok(whole_generate(given)),
        None => Ok(None),
    }
}

// There are both names.
fn whole_check<'a>(given: Given<'a>) -> Option<Asked<'a>>
    ensures { option_map asked_by result ≡ check_by (Some (given_of given.entry)) }
{
    match (given.first, given.second) {
        (Some(source), Some(cert)) => Some(Asked::Check(Checking {
            source,
            cert,
            model: given.model.unwrap_or(Model::Ilp32),
            workers: given.workers.unwrap_or(1),
        })),
        _ => None,
    }
}

// There is one name, and the names differ.
fn whole_verify<'a>(given: Given<'a>) -> Option<Asked<'a>>
    ensures { option_map asked_by result ≡ verify_by (Some (given_of given.entry)) }
{
    match (given.first, given.second) {
        (Some(source), None) => verify_source(given, source),
        _ => None,
    }
}

fn verify_source<'a>(given: Given<'a>, source: &'a str) -> Option<Asked<'a>>
    ensures { option_map asked_by result ≡ verify_of (given_of given.entry) source.now }
{
    if stands_twice(source, given.cert, given.run, given.witness) {
        return None;
    }
    verify_given(given, source)
}

fn verify_given<'a>(given: Given<'a>, source: &'a str) -> Option<Asked<'a>>
    ensures { option_map asked_by result ≡ verify_with (given_of given.entry) source.now }
{
    Some(Asked::Verify(Verifying {
        source,
        model: given.model.unwrap_or(Model::Ilp32),
        units: given.units.unwrap_or(UNITS),
        learn: given.learn.unwrap_or(LEARN),
        workers: given.workers.unwrap_or(1),
        cert: given.cert,
        run: given.run,
        witness: given.witness,
    }))
}

// The one name is the seed.
fn whole_generate<'a>(given: Given<'a>) -> Option<Asked<'a>>
    ensures { option_map asked_by result ≡ seed_at (given_of given.entry).first (given_of given.entry).second }
{
    match (given.first, given.second) {
        (Some(seed), None) => match seed_in(seed.as_bytes()) {
            Some(seed) => Some(Asked::Generate(seed)),
            None => None,
        },
        _ => None,
    }
}

fn stands_twice(source: &str, cert: Option<&str>, run: Option<&str>, witness: Option<&str>) -> bool
    ensures { result ≡ has_twice source.now (option_map (λ s. s.now) cert.entry) (option_map (λ s. s.now) run.entry) (option_map (λ s. s.now) witness.entry) }
{
    let source_again = is_other(source, cert)
        || (is_other(source, run) || is_other(source, witness));
    source_again
        || (is_other_in(cert, run) || (is_other_in(cert, witness) || is_other_in(run, witness)))
}

fn is_other(name: &str, other: Option<&str>) -> bool
    ensures { result ≡ is_named name.now (option_map (λ s. s.now) other.entry) }
{
    match other {
        None => false,
        Some(other) => name == other,
    }
}

fn is_other_in(name: Option<&str>, other: Option<&str>) -> bool
    ensures { result ≡ is_named_in (option_map (λ s. s.now) name.entry) (option_map (λ s. s.now) other.entry) }
{
    match name {
        None => false,
        Some(name) => is_other(name, other),
    }
}

/// What words ask for has its witness written to another file than its certificate and its run.
pub fn names_are_apart()
    ensures { NamesAreApart }
{}
