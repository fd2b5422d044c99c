//! The clauses of a pair.

ghost use Rattle.std.specs.Prelude.{◌≡◌, ◌<◌, ◌++◌, ◌∷◌, [], All, length, map, IfErr, IfOk, OnOk};
ghost use Rattle.prop.specs.Logic.{negated};
ghost use Rattle.bit_gates.specs.Cut.{Cut, IsCutOff};
ghost use Rattle.bit_gates.specs.Net.{net_clauses};
ghost use Rattle.c_graph.specs.Shape.{HasWidth};
ghost use Rattle.bit_blast.specs.Held.{IsOver, blast_of, new_of};
ghost use Rattle.pair_query.specs.Pairs.{blasted_each, closing, pair_says, units};

use bit_blast::{Bits, blast};
use bv_term::{TermId, Terms};
use prop::{BlastFail, Clauses, Lit};
use std::alloc::Global;

// Adds what a term of one bit needs, and answers its literal.
fn blast_term(
    alloc: Global,
    terms: &Terms,
    term: TermId,
    clauses: &mut Clauses,
    bits: &mut Bits,
) -> Result<Lit, BlastFail>
    requires term { HasWidth terms.now term 1 }
    requires over { IsOver terms.now bits.old }
    ensures clauses { OnOk result (clauses.new ≡ clauses.old ++ net_clauses bits.old.next (blast_of terms.now term.0 bits.old).defs) }
    ensures lit { IfOk result (λ l. l ∷ [] ≡ (blast_of terms.now term.0 bits.old).outs) }
    ensures held { OnOk result (bits.new ≡ (blast_of terms.now term.0 bits.old).held) }
    ensures over { OnOk result (IsOver terms.now bits.new) }
    ensures cut { IfErr result (λ e. Cut e clauses.old (net_clauses bits.old.next (blast_of terms.now term.0 bits.old).defs) clauses.new) }
{
    match blast(alloc, terms, term, clauses, bits) {
        Err(end) => Err(end),
        Ok(lit) => Ok(lit),
    }
}

// Adds what the conjuncts of a label need, and answers the literal of each.
fn blast_each(
    alloc: Global,
    terms: &Terms,
    label: &[TermId],
    clauses: &mut Clauses,
    bits: &mut Bits,
) -> Result<Vec<Lit>, BlastFail>
    requires label { All (λ t. HasWidth terms.now t 1) label.now }
    requires over { IsOver terms.now bits.old }
    ensures clauses { OnOk result (clauses.new ≡ clauses.old ++ (blasted_each terms.now label.now bits.old).clauses) }
    ensures lits { IfOk result (λ r. r.items ≡ (blasted_each terms.now label.now bits.old).lits) }
    ensures held { OnOk result (bits.new ≡ (blasted_each terms.now label.now bits.old).held) }
    ensures over { OnOk result (IsOver terms.now bits.new) }
    ensures cut { IfErr result (λ e. Cut e clauses.old (blasted_each terms.now label.now bits.old).clauses clauses.new) }
{
    let mut lits = Vec::new(alloc);
    for conjunct in label {
        let lit = blast_term(alloc, terms, *conjunct, clauses, bits)?;
        if lits.push(lit).is_err() {
            return Err(BlastFail::Memory);
        }
    }
    Ok(lits)
}

// Adds that each literal is true.
fn push_units(lits: &[Lit], clauses: &mut Clauses) -> Result<(), BlastFail>
    ensures clauses { OnOk result (clauses.new ≡ clauses.old ++ units lits.now) }
    ensures cut { IfErr result (λ e. Cut e clauses.old (units lits.now) clauses.new) }
{
    for lit in lits {
        clauses.push(&[*lit])?;
    }
    Ok(())
}

// The complements of literals.
fn complements(alloc: Global, lits: &[Lit]) -> Result<Vec<Lit>, BlastFail>
    ensures complements { IfOk result (λ r. r.items ≡ map negated lits.now) }
    ensures memory { IfErr result (λ e. e ≡ BlastFail.Memory) }
{
    let mut fails = Vec::new(alloc);
    for lit in lits {
        if fails.push(lit.negate()).is_err() {
            return Err(BlastFail::Memory);
        }
    }
    Ok(fails)
}

// Adds that one of the literals is false. Where there is none, a literal and its complement say that no store is asked for.
fn push_closing(
    alloc: Global,
    lits: &[Lit],
    clauses: &mut Clauses,
    bits: &mut Bits,
) -> Result<(), BlastFail>
    ensures clauses { OnOk result (clauses.new ≡ clauses.old ++ closing lits.now bits.old) }
    ensures cells { OnOk result (bits.new.cells ≡ bits.old.cells) }
    ensures cut { IfErr result (λ e. Cut e clauses.old (closing lits.now bits.old) clauses.new) }
{
    if !lits.is_empty() {
        let fails = complements(alloc, lits)?;
        return clauses.push(&fails);
    }
    let Ok(never) = bits.fresh(alloc, 1) else {
        return Err(BlastFail::Memory);
    };
    let fails = complements(alloc, &never)?;
    clauses.push(&never)?;
    clauses.push(&fails)
}

// Adds the clauses of a pair.
fn push_pair(
    alloc: Global,
    terms: &Terms,
    left: &[TermId],
    right: &[TermId],
    clauses: &mut Clauses,
    bits: &mut Bits,
) -> Result<(), BlastFail>
    requires left { All (λ t. HasWidth terms.now t 1) left.now }
    requires right { All (λ t. HasWidth terms.now t 1) right.now }
    requires over { IsOver terms.now bits.old }
    ensures clauses { OnOk result (clauses.new ≡ clauses.old ++ pair_says terms.now left.now right.now bits.old) }
    ensures cells { OnOk result (bits.new.cells ≡ bits.old.cells) }
    ensures cut { IfErr result (λ e. Cut e clauses.old (pair_says terms.now left.now right.now bits.old) clauses.new) }
{
    let holds = blast_each(alloc, terms, left, clauses, bits)?;
    push_units(&holds, clauses)?;
    let others = blast_each(alloc, terms, right, clauses, bits)?;
    push_closing(alloc, &others, clauses, bits)
}

/// The clauses of a pair, over the cells of the table: satisfiable exactly where a store meets the first label and not the
/// second. With them go the literals of the cells. They are `Over` where their literals would pass the limit. No clause is empty.
pub fn pair_clauses(
    alloc: Global,
    terms: &Terms,
    left: &[TermId],
    right: &[TermId],
) -> Result<(Clauses, Bits), BlastFail>
    requires left { All (λ t. HasWidth terms.now t 1) left.now }
    requires right { All (λ t. HasWidth terms.now t 1) right.now }
    ensures clauses { IfOk result (λ r. r.0 ≡ pair_says terms.now left.now right.now (new_of [] terms.now.cells)) }
    ensures cells { IfOk result (λ r. r.1.cells ≡ (new_of [] terms.now.cells).cells) }
    ensures few { OnOk result (length terms.now.cells < 4294967296) }
    ensures cut { IfErr result (IsCutOff (pair_says terms.now left.now right.now (new_of [] terms.now.cells))) }
{
    let mut clauses = Clauses::new(alloc);
    let mut bits = Bits::new(alloc, &mut clauses, terms.cells())?;
    let _next = bits.next();
    push_pair(alloc, terms, left, right, &mut clauses, &mut bits)?;
    Ok((clauses, bits))
}
