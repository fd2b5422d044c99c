//! The lines of chains.

use crate::{failed, framed, line_other, written_other};
use cert_text::{Cert, read_cert};
use std::alloc::Global;
use table_rows::{Fields, Flaw, Table, list_of, text_of};

const BEFORE: &[u8] = b"1\nterms 0\nmap 0\nlogs 1\nlog 1\n";

const BEHIND: &[u8] = b"end\n";

// The first clause and the pairs of a certificate's one chain, one behind the other.
fn chain_numbers(alloc: Global, cert: &Cert) -> Result<Vec<i128>, Flaw> {
    let mut numbers = Vec::new(alloc);
    for log in &cert.logs {
        for chain in log.chains() {
            numbers.push(chain.first as i128)?;
            for pair in chain.pairs.as_slice() {
                numbers.push(pair.0 as i128)?;
                numbers.push(pair.1 as i128)?;
            }
        }
    }
    Ok(numbers)
}

// What came of a chain's line that is read and written back, where it is another chain.
fn chain_other(alloc: Global, mut columns: Fields<'_>) -> Result<Option<String>, Flaw> {
    let line = text_of(alloc, columns.next()?)?;
    let wanted = text_of(alloc, columns.next()?)?;
    let wanted = list_of(alloc, &wanted)?;
    columns.end()?;
    let text = framed(alloc, BEFORE, &line, BEHIND)?;
    let cert = match read_cert(alloc, &text) {
        Ok(cert) => cert,
        Err(fail) => return Ok(Some(failed(alloc, fail)?)),
    };
    if chain_numbers(alloc, &cert)?.as_slice() != wanted.as_slice() {
        return Ok(Some(String::from_str(alloc, "another chain")?));
    }
    written_other(alloc, &cert, &text)
}

// What came of a line that is no chain's, where it is refused at another byte.
fn no_chain_other(alloc: Global, mut columns: Fields<'_>) -> Result<Option<String>, Flaw> {
    let line = text_of(alloc, columns.next()?)?;
    let at = columns.count()?;
    columns.end()?;
    line_other(alloc, BEFORE, &line, BEHIND, at)
}

/// Rows of chains' lines.
#[derive(Clone, Copy)]
pub(crate) struct ChainRows;

impl Table for ChainRows {
    fn other(&mut self, alloc: Global, row: &str) -> Result<Option<String>, Flaw> {
        let mut columns = Fields::columns(row);
        match columns.next()? {
            "chain" => chain_other(alloc, columns),
            "no_chain" => no_chain_other(alloc, columns),
            _ => Err(Flaw::Form),
        }
    }
}
