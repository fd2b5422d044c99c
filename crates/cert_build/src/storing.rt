//! What is stored of a proof.
ghost use Rattle.std.specs.Prelude.{◌≡◌, List, ℕ, map, IfOk};
ghost use Rattle.bv_term.specs.WellFormed.{IsTable};
ghost use Rattle.c_graph.specs.Shape.{Flow};
ghost use Rattle.c_graph.specs.Runs.{IsMapOf};
ghost use Rattle.cert_check.specs.Answers.{IsAccepted, numbered};
ghost use Rattle.cert_build.specs.Proofs.{AreProofs};

use bv_term::{Term, TermId, Terms};
use c_graph::Map;
use cert_check::JOINED_LAYOUT;
use cert_text::Cert;
use lv_base::{Memory, Model};
use resolution_log::Log;
use std::alloc::Global;

// The terms of a table, by number.
fn terms_of(alloc: Global, table: &Terms) -> Result<Vec<Term>, Memory>
    ensures terms { IfOk result (λ t. t.items ≡ table.now.terms) }
{
    let mut terms = Vec::new(alloc);
    for number in 0..table.count() {
        terms.push(table.get(TermId(number)))?;
    }
    Ok(terms)
}

// The numbers of terms.
fn numbers_of(alloc: Global, terms: &[TermId]) -> Result<Vec<u32>, Memory>
    ensures numbers { IfOk result (λ n. numbered n.items ≡ terms.now) }
{
    let mut numbers = Vec::new(alloc);
    for term in terms {
        numbers.push(term.0)?;
    }
    Ok(numbers)
}

/// The certificate of a map and of the refutations of its obligations, for the source of this hash.
pub fn certificate(
    alloc: Global,
    hash: [u8; 32],
    model: Model,
    map: &Map,
    logs: Vec<Log>,
) -> Result<Cert, Memory>
    ensures named { IfOk result (λ c. (c.hash ≡ hash) × (c.model ≡ model)) }
    ensures of_map { IfOk result (λ c. (c.terms.items ≡ map.now.terms.terms) × (numbered c.formulas.items ≡ map.now.at)) }
    ensures logs { IfOk result (λ c. c.logs.items ≡ logs.items) }
    ensures accepted { (g : Flow) (learn : ℕ) → IsMapOf g map.now → AreProofs g map.now learn logs.items → IfOk result (IsAccepted g) }
{
    let _count = map.terms().count();
    Ok(Cert {
        hash,
        model,
        layout: JOINED_LAYOUT,
        terms: terms_of(alloc, map.terms())?,
        formulas: numbers_of(alloc, map.at())?,
        logs,
    })
}
