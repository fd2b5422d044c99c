//! Writes certificates.

ghost use Rattle.std.specs.Prelude.{◌≡◌, ◌⊎◌, ◌<◌, ◌≤◌, ◌/◌, ◌%◌, ◌++◌, ◌∷◌, [], length, Ok, Err, MatchResult, All, IfOk, OnOk};
ghost use Rattle.stored_text.specs.declared.StoredFail.{StoredFail};
ghost use Rattle.stored_text.specs.RunText.{number_text};
ghost use Rattle.cert_text.specs.Content.{content_of};
ghost use Rattle.cert_text.specs.CertText.{hex_digit, hex_text, model_text, number_line, numbers_text, term_text, terms_text, formulas_text, pairs_text, chain_text, chains_text, log_text, logs_text, head_text, terms_part, nodes_part, logs_part, cert_text};
ghost use Rattle.cert_text.specs.Ranges.{ChainInRange, InRange, IsByte, IsShort, PairFits, TermFits};
ghost use Rattle.cert_text.specs.Writing.{write_cert_of, Stops};

use crate::Cert;
use crate::reading::MOST_BYTES;
use bv_term::Term;
use lv_base::Model;
use resolution_log::{Chain, Log};
use std::alloc::Global;
use stored_text::StoredFail;

fn push_byte(file: &mut Vec<u8>, byte: u8) -> Result<(), StoredFail>
    ensures { MatchResult result (λ _. file.new.items ≡ file.old.items ++ byte ∷ []) (λ e. e ≡ StoredFail.Memory) }
{
    if file.push(byte).is_err() {
        return Err(StoredFail::Memory);
    }
    Ok(())
}

fn push_bytes(file: &mut Vec<u8>, bytes: &[u8]) -> Result<(), StoredFail>
    ensures { MatchResult result (λ _. file.new.items ≡ file.old.items ++ bytes.now) (λ e. e ≡ StoredFail.Memory) }
{
    if file.extend_from_slice(bytes).is_err() {
        return Err(StoredFail::Memory);
    }
    Ok(())
}

// The decimal digits of a number.
fn push_number(file: &mut Vec<u8>, number: u64) -> Result<(), StoredFail>
    ensures { MatchResult result (λ _. file.new.items ≡ file.old.items ++ number_text number) (λ e. e ≡ StoredFail.Memory) }
{
    let digit = b'0' + (number % 10) as u8;
    if number < 10 {
        return push_byte(file, digit);
    }
    push_number(file, number / 10)?;
    push_byte(file, digit)
}

// The decimal digits of a constant's value.
fn push_wide(file: &mut Vec<u8>, number: u128) -> Result<(), StoredFail>
    ensures { MatchResult result (λ _. file.new.items ≡ file.old.items ++ number_text number) (λ e. e ≡ StoredFail.Memory) }
{
    if number < 18_446_744_073_709_551_616 {
        return push_number(file, number as u64);
    }
    push_wide(file, number / 10)?;
    push_byte(file, b'0' + (number % 10) as u8)
}

// A number and its line's end.
fn push_line(file: &mut Vec<u8>, number: u64) -> Result<(), StoredFail>
    ensures { MatchResult result (λ _. file.new.items ≡ file.old.items ++ number_line number) (λ e. e ≡ StoredFail.Memory) }
{
    push_number(file, number)?;
    push_byte(file, b'\n')
}

// A word, a number and their line's end.
fn push_count(file: &mut Vec<u8>, word: &[u8], number: u64) -> Result<(), StoredFail>
    ensures { MatchResult result (λ _. file.new.items ≡ file.old.items ++ word.now ++ number_line number) (λ e. e ≡ StoredFail.Memory) }
{
    push_bytes(file, word)?;
    push_line(file, number)
}

// A blank and a number.
fn push_next(file: &mut Vec<u8>, number: u32) -> Result<(), StoredFail>
    ensures text { MatchResult result (λ _. file.new.items ≡ file.old.items ++ 32 ∷ number_text number) (λ e. e ≡ StoredFail.Memory) }
    ensures short { IsShort number }
{
    push_byte(file, b' ')?;
    push_number(file, number as u64)
}

fn hex(digit: u8) -> u8
    requires { digit < 16 }
    ensures { result ≡ hex_digit digit }
{
    if digit < 10 { b'0' + digit } else { 87 + digit }
}

// Two digits for each byte.
fn push_hex(file: &mut Vec<u8>, bytes: &[u8]) -> Result<(), StoredFail>
    ensures text { MatchResult result (λ _. file.new.items ≡ file.old.items ++ hex_text bytes.now) (λ e. e ≡ StoredFail.Memory) }
    ensures numbers { OnOk result (All IsByte bytes.now) }
{
    for byte in bytes {
        push_byte(file, hex(*byte / 16))?;
        push_byte(file, hex(*byte % 16))?;
    }
    Ok(())
}

// A letter and a number.
fn push_one(file: &mut Vec<u8>, letter: u8, a: u32) -> Result<(), StoredFail>
    ensures { MatchResult result (λ _. file.new.items ≡ file.old.items ++ letter ∷ numbers_text (a ∷ [])) (λ e. e ≡ StoredFail.Memory) }
{
    push_byte(file, letter)?;
    push_next(file, a)?;
    push_byte(file, b'\n')
}

// A letter and two numbers.
fn push_two(file: &mut Vec<u8>, letter: u8, a: u32, b: u32) -> Result<(), StoredFail>
    ensures { MatchResult result (λ _. file.new.items ≡ file.old.items ++ letter ∷ numbers_text (a ∷ b ∷ [])) (λ e. e ≡ StoredFail.Memory) }
{
    push_byte(file, letter)?;
    push_next(file, a)?;
    push_next(file, b)?;
    push_byte(file, b'\n')
}

// A letter and three numbers.
fn push_three(file: &mut Vec<u8>, letter: u8, a: u32, b: u32, c: u32) -> Result<(), StoredFail>
    ensures { MatchResult result (λ _. file.new.items ≡ file.old.items ++ letter ∷ numbers_text (a ∷ b ∷ c ∷ [])) (λ e. e ≡ StoredFail.Memory) }
{
    push_byte(file, letter)?;
    push_next(file, a)?;
    push_next(file, b)?;
    push_next(file, c)?;
    push_byte(file, b'\n')
}

// A constant's width and value.
fn push_constant(file: &mut Vec<u8>, width: u32, value: u128) -> Result<(), StoredFail>
    ensures { MatchResult result (λ _. file.new.items ≡ file.old.items ++ 99 ∷ numbers_text (width ∷ value ∷ [])) (λ e. e ≡ StoredFail.Memory) }
{
    push_byte(file, b'c')?;
    push_next(file, width)?;
    push_byte(file, b' ')?;
    push_wide(file, value)?;
    push_byte(file, b'\n')
}

fn push_term(file: &mut Vec<u8>, term: Term) -> Result<(), StoredFail>
    ensures text { MatchResult result (λ _. file.new.items ≡ file.old.items ++ term_text term) (λ e. e ≡ StoredFail.Memory) }
    ensures numbers { OnOk result (TermFits term) }
{
    match term {
        Term::Constant(width, value) => push_constant(file, width, value),
        Term::Cell(i) => push_one(file, b'x', i),
        Term::Element(b, n, i) => push_three(file, b's', b, n, i.0),
        Term::Add(i, j) => push_two(file, b'+', i.0, j.0),
        Term::Subtract(i, j) => push_two(file, b'-', i.0, j.0),
        Term::Multiply(i, j) => push_two(file, b'*', i.0, j.0),
        Term::Divide(i, j) => push_two(file, b'/', i.0, j.0),
        Term::Remainder(i, j) => push_two(file, b'%', i.0, j.0),
        Term::And(i, j) => push_two(file, b'&', i.0, j.0),
        Term::Or(i, j) => push_two(file, b'o', i.0, j.0),
        Term::Xor(i, j) => push_two(file, b'^', i.0, j.0),
        Term::Not(i) => push_one(file, b'~', i.0),
        Term::ShiftLeft(i, j) => push_two(file, b'l', i.0, j.0),
        Term::ShiftRight(i, j) => push_two(file, b'r', i.0, j.0),
        Term::ShiftSigned(i, j) => push_two(file, b'a', i.0, j.0),
        Term::Equal(i, j) => push_two(file, b'=', i.0, j.0),
        Term::Less(i, j) => push_two(file, b'u', i.0, j.0),
        Term::LessSigned(i, j) => push_two(file, b'v', i.0, j.0),
        Term::Select(i, j, k) => push_three(file, b'?', i.0, j.0, k.0),
        Term::ZeroExtend(w, i) => push_two(file, b'z', w, i.0),
        Term::SignExtend(w, i) => push_two(file, b'g', w, i.0),
        Term::Truncate(w, i) => push_two(file, b't', w, i.0),
        Term::Bit(k, i) => push_two(file, b'b', k, i.0),
    }
}

fn push_terms(file: &mut Vec<u8>, terms: &[Term]) -> Result<(), StoredFail>
    ensures text { MatchResult result (λ _. file.new.items ≡ file.old.items ++ terms_text terms.now) (λ e. e ≡ StoredFail.Memory) }
    ensures numbers { OnOk result (All TermFits terms.now) }
{
    for term in terms {
        push_term(file, *term)?;
    }
    Ok(())
}

fn push_formulas(file: &mut Vec<u8>, formulas: &[u32]) -> Result<(), StoredFail>
    ensures text { MatchResult result (λ _. file.new.items ≡ file.old.items ++ formulas_text formulas.now) (λ e. e ≡ StoredFail.Memory) }
    ensures numbers { OnOk result (All IsShort formulas.now) }
{
    for formula in formulas {
        push_line(file, *formula as u64)?;
    }
    Ok(())
}

// The pairs of a chain, and its line's end.
fn push_pairs(file: &mut Vec<u8>, pairs: &[(u32, u32)]) -> Result<(), StoredFail>
    ensures text { MatchResult result (λ _. file.new.items ≡ file.old.items ++ pairs_text pairs.now) (λ e. e ≡ StoredFail.Memory) }
    ensures numbers { OnOk result (All PairFits pairs.now) }
{
    for pair in pairs {
        push_next(file, pair.0)?;
        push_next(file, pair.1)?;
    }
    push_byte(file, b'\n')
}

fn push_chain(file: &mut Vec<u8>, chain: &Chain) -> Result<(), StoredFail>
    ensures text { MatchResult result (λ _. file.new.items ≡ file.old.items ++ chain_text chain.now) (λ e. e ≡ StoredFail.Memory) }
    ensures numbers { OnOk result (ChainInRange chain.now) }
{
    push_number(file, chain.first as u64)?;
    push_pairs(file, chain.pairs.as_slice())
}

// Whether the text is not too long so far.
fn within(file: &[u8]) -> Result<(), StoredFail>
    ensures { MatchResult result (λ _. length file.now ≤ 67108864) (λ e. (e ≡ StoredFail.Over 8 67108865) × (67108864 < length file.now)) }
{
    if file.len() > MOST_BYTES {
        return Err(StoredFail::Over(8, MOST_BYTES as u64 + 1));
    }
    Ok(())
}

fn push_chains(file: &mut Vec<u8>, chains: &[Chain]) -> Result<(), StoredFail>
    ensures text { MatchResult result (λ _. file.new.items ≡ file.old.items ++ chains_text chains.now) (λ e. Stops (file.old.items ++ chains_text chains.now) e) }
    ensures numbers { OnOk result (All ChainInRange chains.now) }
{
    for chain in chains {
        push_chain(file, chain)?;
        within(file.as_slice())?;
    }
    Ok(())
}

fn push_log(file: &mut Vec<u8>, log: &Log) -> Result<(), StoredFail>
    ensures text { MatchResult result (λ _. file.new.items ≡ file.old.items ++ log_text log.now) (λ e. Stops (file.old.items ++ log_text log.now) e) }
    ensures numbers { OnOk result (All ChainInRange log.now) }
{
    push_count(file, b"log ", log.len() as u64)?;
    push_chains(file, log.chains())
}

fn push_logs(file: &mut Vec<u8>, logs: &[Log]) -> Result<(), StoredFail>
    ensures text { MatchResult result (λ _. file.new.items ≡ file.old.items ++ logs_text logs.now) (λ e. Stops (file.old.items ++ logs_text logs.now) e) }
    ensures numbers { OnOk result (All (All ChainInRange) logs.now) }
{
    for log in logs {
        push_log(file, log)?;
    }
    Ok(())
}

fn model_bytes(model: Model) -> &'static [u8]
    ensures { result.now ≡ model_text model }
{
    match model {
        Model::Ilp32 => b"ilp32",
        Model::Lp64 => b"lp64",
    }
}

// The lines before the terms.
fn push_head(file: &mut Vec<u8>, cert: &Cert) -> Result<(), StoredFail>
    ensures text { MatchResult result (λ _. file.new.items ≡ file.old.items ++ head_text (content_of cert.now)) (λ e. e ≡ StoredFail.Memory) }
    ensures numbers { OnOk result ((length cert.now.hash ≡ 32) × All IsByte cert.now.hash × IsShort cert.now.layout) }
{
    push_bytes(file, b"lac 1\nsource ")?;
    push_hex(file, &cert.hash)?;
    push_bytes(file, b"\nmodel ")?;
    push_bytes(file, model_bytes(cert.model))?;
    push_count(file, b"\nlayout ", cert.layout as u64)
}

// The terms and their count.
fn push_table(file: &mut Vec<u8>, terms: &[Term]) -> Result<(), StoredFail>
    ensures text { MatchResult result (λ _. file.new.items ≡ file.old.items ++ terms_part terms.now) (λ e. e ≡ StoredFail.Memory) }
    ensures numbers { OnOk result (All TermFits terms.now) }
{
    push_count(file, b"terms ", terms.len() as u64)?;
    push_terms(file, terms)
}

// The nodes' formulas and their count.
fn push_nodes(file: &mut Vec<u8>, formulas: &[u32]) -> Result<(), StoredFail>
    ensures text { MatchResult result (λ _. file.new.items ≡ file.old.items ++ nodes_part formulas.now) (λ e. e ≡ StoredFail.Memory) }
    ensures numbers { OnOk result (All IsShort formulas.now) }
{
    push_count(file, b"map ", formulas.len() as u64)?;
    push_formulas(file, formulas)
}

// The logs and their count.
fn push_proofs(file: &mut Vec<u8>, logs: &[Log]) -> Result<(), StoredFail>
    ensures text { MatchResult result (λ _. file.new.items ≡ file.old.items ++ logs_part logs.now) (λ e. Stops (file.old.items ++ logs_part logs.now) e) }
    ensures numbers { OnOk result (All (All ChainInRange) logs.now) }
{
    push_count(file, b"logs ", logs.len() as u64)?;
    push_logs(file, logs)
}

fn push_cert(file: &mut Vec<u8>, cert: &Cert) -> Result<(), StoredFail>
    ensures text { MatchResult result (λ _. file.new.items ≡ file.old.items ++ cert_text (content_of cert.now)) (λ e. Stops (file.old.items ++ cert_text (content_of cert.now)) e) }
    ensures numbers { OnOk result (InRange (content_of cert.now)) }
{
    push_head(file, cert)?;
    push_table(file, cert.terms.as_slice())?;
    push_nodes(file, cert.formulas.as_slice())?;
    push_proofs(file, cert.logs.as_slice())?;
    push_bytes(file, b"end\n")
}

/// The text of a certificate. A text of more than [`MOST_BYTES`] passes limit 8. [`read_cert`](crate::read_cert) reads it back.
pub fn write_cert(alloc: Global, cert: &Cert) -> Result<Vec<u8>, StoredFail>
    ensures text { MatchResult result (λ file. write_cert_of (content_of cert.now) ≡ Ok file.items) (λ e. (e ≡ StoredFail.Memory) ⊎ (write_cert_of (content_of cert.now) ≡ Err e)) }
    ensures numbers { IfOk result (λ _. InRange (content_of cert.now)) }
{
    let mut file = Vec::new(alloc);
    push_cert(&mut file, cert)?;
    within(file.as_slice())?;
    Ok(file)
}
