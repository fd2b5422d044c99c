//! Whole certificates.

use crate::{failed, line_other, refusal_other, with_digits, written_other};
use bv_term::Term;
use cert_text::{Cert, read_cert, write_cert};
use lv_base::Model;
use resolution_log::Log;
use std::alloc::Global;
use table_rows::{Fields, Flaw, Table, list_of, other_than, text_of};

// The numbers of the next column.
fn numbers(alloc: Global, columns: &mut Fields<'_>) -> Result<Vec<i128>, Flaw> {
    let text = text_of(alloc, columns.next()?)?;
    list_of(alloc, &text)
}

fn chain_counts(alloc: Global, logs: &[Log]) -> Result<Vec<i128>, Flaw> {
    let mut counts = Vec::new(alloc);
    for log in logs {
        counts.push(log.len() as i128)?;
    }
    Ok(counts)
}

fn formula_numbers(alloc: Global, formulas: &[u32]) -> Result<Vec<i128>, Flaw> {
    let mut numbers = Vec::new(alloc);
    for formula in formulas {
        numbers.push(*formula as i128)?;
    }
    Ok(numbers)
}

// What a certificate says of itself.
fn said(alloc: Global, cert: &Cert) -> Result<String, Flaw> {
    let model = cert.model.name();
    let (layout, terms) = (cert.layout, cert.terms.len());
    Ok(format!(in alloc; "{model} {layout} {terms}")?)
}

// What came of a certificate that is read and written back, where it is something else.
fn says_other(alloc: Global, mut columns: Fields<'_>) -> Result<Option<String>, Flaw> {
    let text = text_of(alloc, columns.next()?)?;
    let wanted = columns.next()?;
    let formulas = numbers(alloc, &mut columns)?;
    let logs = numbers(alloc, &mut columns)?;
    columns.end()?;
    let cert = match read_cert(alloc, &text) {
        Ok(cert) => cert,
        Err(fail) => return Ok(Some(failed(alloc, fail)?)),
    };
    if let Some(other) = other_than(wanted, said(alloc, &cert)?) {
        return Ok(Some(other));
    }
    let came = formula_numbers(alloc, &cert.formulas)?;
    let counts = chain_counts(alloc, &cert.logs)?;
    if came.as_slice() != formulas.as_slice() || counts.as_slice() != logs.as_slice() {
        return Ok(Some(String::from_str(alloc, "other formulas or logs")?));
    }
    written_other(alloc, &cert, &text)
}

// What came of a hash that is read and written back, where it is another one.
fn hash_other(alloc: Global, mut columns: Fields<'_>) -> Result<Option<String>, Flaw> {
    let digits = text_of(alloc, columns.next()?)?;
    let wanted = numbers(alloc, &mut columns)?;
    columns.end()?;
    let text = with_digits(alloc, &digits, b"1\nterms 0\nmap 0\nlogs 0\nend\n")?;
    let cert = match read_cert(alloc, &text) {
        Ok(cert) => cert,
        Err(fail) => return Ok(Some(failed(alloc, fail)?)),
    };
    let mut came = Vec::new(alloc);
    for byte in &cert.hash {
        came.push(*byte as i128)?;
    }
    if came.as_slice() != wanted.as_slice() {
        return Ok(Some(String::from_str(alloc, "another hash")?));
    }
    written_other(alloc, &cert, &text)
}

// What came of a text that is no certificate, where it is refused in another way.
fn refused_other(alloc: Global, mut columns: Fields<'_>) -> Result<Option<String>, Flaw> {
    let text = text_of(alloc, columns.next()?)?;
    let wanted = columns.next()?;
    columns.end()?;
    refusal_other(alloc, &text, wanted)
}

// What came of a layout's line that is none, where it is refused at another byte.
fn layout_other(alloc: Global, mut columns: Fields<'_>) -> Result<Option<String>, Flaw> {
    let line = text_of(alloc, columns.next()?)?;
    let at = columns.count()?;
    columns.end()?;
    line_other(alloc, b"", &line, b"terms 0\nmap 0\nlogs 0\nend\n", at)
}

// What came of a certificate with so many terms, where it is not refused as the row says.
fn unwritten_other(alloc: Global, mut columns: Fields<'_>) -> Result<Option<String>, Flaw> {
    let count = columns.count()?;
    let wanted = columns.next()?;
    columns.end()?;
    let mut terms = Vec::new(alloc);
    for _ in 0..count {
        terms.push(Term::Cell(0))?;
    }
    let cert = Cert {
        hash: [0; 32],
        model: Model::Ilp32,
        layout: 1,
        terms,
        formulas: Vec::new(alloc),
        logs: Vec::new(alloc),
    };
    match write_cert(alloc, &cert) {
        Ok(file) => {
            let count = file.len();
            let came = format!(in alloc; "{count} bytes")?;
            Ok(other_than(wanted, came))
        }
        Err(fail) => Ok(other_than(wanted, failed(alloc, fail)?)),
    }
}

/// Rows of whole certificates, of hashes and of layouts.
#[derive(Clone, Copy)]
pub(crate) struct FileRows;

impl Table for FileRows {
    fn other(&mut self, alloc: Global, row: &str) -> Result<Option<String>, Flaw> {
        let mut columns = Fields::columns(row);
        match columns.next()? {
            "says" => says_other(alloc, columns),
            "hash" => hash_other(alloc, columns),
            "refused" => refused_other(alloc, columns),
            "layout" => layout_other(alloc, columns),
            "unwritten" => unwritten_other(alloc, columns),
            _ => Err(Flaw::Form),
        }
    }
}
