//! Tables of rows on the text of certificates. The first of a row's columns, which have tabs between them, says what the others are:
//!
//! - `says`: a certificate, its data model, its layout, the number of its terms, its nodes' formulas, and the number of chains of each
//!   log; it is also written back;
//! - `hash`: the digits of a hash, and its bytes;
//! - `refused`: a text and why it is no certificate;
//! - `term`: the line of a term in a certificate, and the term;
//! - `no_term`: a line in its place, and the byte of the line at which it is refused;
//! - `chain`: the line of a chain in a certificate, its first clause, and its pairs;
//! - `no_chain`: a line in its place, and the byte of the line at which it is refused;
//! - `layout`: what stands behind `layout ` in a certificate, and the byte of it at which it is refused;
//! - `unwritten`: how many terms a certificate has, and why it is not written.
#![tactic(auto)]

mod chains;
mod files;
mod terms;

use crate::chains::ChainRows;
use crate::files::FileRows;
use crate::terms::TermRows;
use cert_text::{Cert, read_cert, write_cert};
use std::alloc::Global;
use std::rt::Files;
use stored_text::StoredFail;
use table_rows::{Fields, Flaw, Library, Refusal, Rows, Table, other_than};

const ZEROS: &[u8] = b"0000000000000000000000000000000000000000000000000000000000000000";

// Why a text is no certificate, or a certificate is not written.
fn failed(alloc: Global, fail: StoredFail) -> Result<String, Flaw> {
    match fail {
        StoredFail::Format(at) => Ok(format!(in alloc; "byte {at}")?),
        StoredFail::Over(limit, count) => Ok(format!(in alloc; "limit {limit} {count}")?),
        StoredFail::Memory => Err(Flaw::Memory),
    }
}

// The lines up to that of the model, with these digits, behind which comes some text.
fn with_digits(alloc: Global, digits: &[u8], behind: &[u8]) -> Result<Vec<u8>, Flaw> {
    let mut text = Vec::from_slice(alloc, b"lac 1\nsource ")?;
    text.extend_from_slice(digits)?;
    text.extend_from_slice(b"\nmodel ilp32\nlayout ")?;
    text.extend_from_slice(behind)?;
    Ok(text)
}

// A certificate with this line behind some lines, and other lines behind it.
fn framed(alloc: Global, before: &[u8], line: &[u8], behind: &[u8]) -> Result<Vec<u8>, Flaw> {
    let mut text = with_digits(alloc, ZEROS, before)?;
    text.extend_from_slice(line)?;
    text.extend_from_slice(behind)?;
    Ok(text)
}

// What came of a text that should be refused as the row says.
fn refusal_other(alloc: Global, text: &[u8], wanted: &str) -> Result<Option<String>, Flaw> {
    match read_cert(alloc, text) {
        Ok(_) => Ok(Some(String::from_str(alloc, "it is read")?)),
        Err(fail) => Ok(other_than(wanted, failed(alloc, fail)?)),
    }
}

// What came of a text whose line should be refused at a byte of it.
fn line_other(
    alloc: Global,
    before: &[u8],
    line: &[u8],
    behind: &[u8],
    at: u64,
) -> Result<Option<String>, Flaw> {
    let first = with_digits(alloc, ZEROS, before)?.len() as u64;
    let text = framed(alloc, before, line, behind)?;
    let wanted = first.saturating_add(at);
    let wanted = format!(in alloc; "byte {wanted}")?;
    refusal_other(alloc, &text, wanted.as_str())
}

// What came of a certificate that is written, where it is not this text.
fn written_other(alloc: Global, cert: &Cert, text: &[u8]) -> Result<Option<String>, Flaw> {
    match write_cert(alloc, cert) {
        Ok(file) if file.as_slice() == text => Ok(None),
        Ok(_) => Ok(Some(String::from_str(alloc, "another text is written")?)),
        Err(fail) => Ok(Some(failed(alloc, fail)?)),
    }
}

// All kinds of rows.
#[derive(Clone, Copy)]
struct AllRows;

impl Table for AllRows {
    fn other(&mut self, alloc: Global, row: &str) -> Result<Option<String>, Flaw> {
        match Fields::columns(row).next()? {
            "says" | "hash" | "refused" | "layout" | "unwritten" => FileRows.other(alloc, row),
            "term" | "no_term" => TermRows.other(alloc, row),
            "chain" | "no_chain" => ChainRows.other(alloc, row),
            _ => Err(Flaw::Form),
        }
    }
}

/// Tables of certificates.
#[derive(Clone, Copy)]
pub struct CertTables;

impl Library for CertTables {
    fn try_rows<R>(&mut self, rt: &R, name: &str) -> Result<u64, Refusal>
    where
        R: AllocGlobal + Files + Print + Clone + Drop,
    {
        Rows { table: AllRows }.try_rows(rt, name)
    }
}
