//! The map of a certificate.
ghost use Rattle.std.specs.Prelude.{◌≡◌, ◌<◌, ◌↔◌, length, IfErr, IfOk, IsTrue, OnOk};
ghost use Rattle.c_graph.specs.Shape.{HasWidth, widths_of};
ghost use Rattle.c_graph.specs.Runs.{IsMapOf};
ghost use Rattle.cert_check.specs.Answers.{AreBits, IsMapIn, IsTableIn, numbered};
ghost use Rattle.cert_check.specs.Causes.{IsCountCause, IsFormulaCause, IsMapCause, IsTermCause, capped};

use crate::{CheckFail, JOINED_LAYOUT, MapFault};
use bv_term::{Term, TermId, Terms};
use c_graph::{Graph, Map};
use cert_text::Cert;
use std::alloc::Global;

// A length as a number of 32 bits, the greatest where it is none.
fn number_of(length: usize) -> u32
    ensures { result ≡ capped length }
{
    if length < 4_294_967_296 {
        length as u32
    } else {
        u32::MAX
    }
}

// The table of these terms over the graph's cells.
fn table_of(alloc: Global, graph: &Graph, terms: &[Term]) -> Result<Terms, CheckFail>
    ensures table { IfOk result (IsTableIn graph.now terms.now) }
    ensures cause { IfErr result (IsTermCause (widths_of graph.now.cells) terms.now) }
{
    let cells = graph.terms().cells().to_vec(alloc)?;
    let mut table = Terms::new(alloc, cells);
    for term in terms {
        if !table.fits(*term) {
            return Err(CheckFail::WrongMap(MapFault::Term(table.count())));
        }
        table.append(*term)?;
    }
    let _count = table.count();
    Ok(table)
}

// Whether the number is that of a term of width 1.
fn is_bit(table: &Terms, number: u32) -> bool
    ensures { IsTrue result ↔ HasWidth table.now (record { 0 = number }) 1 }
{
    number < table.count() && table.width_of(TermId(number)) == 1
}

// The formulas of the nodes.
fn formulas_of(alloc: Global, table: &Terms, numbers: &[u32]) -> Result<Vec<TermId>, CheckFail>
    requires { length numbers.now < 4294967296 }
    ensures numbered { IfOk result (λ f. f.items ≡ numbered numbers.now) }
    ensures bits { IfOk result (λ f. AreBits table.now f.items) }
    ensures cause { IfErr result (IsFormulaCause table.now numbers.now) }
{
    let mut formulas = Vec::new(alloc);
    for (node, number) in numbers.iter().enumerate() {
        if !is_bit(table, *number) {
            return Err(CheckFail::WrongMap(MapFault::Formula(node as u32)));
        }
        formulas.push(TermId(*number))?;
    }
    Ok(formulas)
}

/// The map of a certificate, if it fits the graph: the layout and the number of formulas are the graph's, each term is well formed
/// over the graph's cells and the terms before it, and each formula is a term of width 1.
pub fn map_of(alloc: Global, graph: &Graph, cert: &Cert) -> Result<Map, CheckFail>
    ensures map { IfOk result (λ m. IsMapOf graph.now m) }
    ensures stored { IfOk result (IsMapIn graph.now cert.now) }
    ensures cause { IfErr result (IsMapCause graph.now cert.now) }
{
    if cert.layout != JOINED_LAYOUT {
        return Err(CheckFail::WrongMap(MapFault::Layout(cert.layout, JOINED_LAYOUT)));
    }
    let nodes = graph.nodes().len();
    if cert.formulas.len() != nodes {
        let stored = number_of(cert.formulas.len());
        return Err(CheckFail::WrongMap(MapFault::Nodes(stored, number_of(nodes))));
    }
    let table = table_of(alloc, graph, &cert.terms)?;
    let formulas = formulas_of(alloc, &table, &cert.formulas)?;
    Ok(Map::new(table, formulas))
}

/// Tests that there is one log for each obligation.
pub fn count_logs(cert: &Cert, obligations: u32) -> Result<(), CheckFail>
    ensures count { OnOk result (length cert.now.logs.items ≡ obligations) }
    ensures cause { IfErr result (IsCountCause cert.now.logs.items obligations) }
{
    if cert.logs.len() == obligations as usize {
        Ok(())
    } else {
        Err(CheckFail::Count(number_of(cert.logs.len()), obligations))
    }
}
