//! The part of a cone that is there while it is gathered.
ghost use Rattle.std.specs.Prelude.{◌≡◌, ◌<◌, [], length, nat_eq, slice_get, Some, None, IfOk, ℕ};
ghost use Rattle.std.specs.HashMap.{get};
ghost use Rattle.bv_term.specs.declared.term.Term.{Term};
ghost use Rattle.term_values.specs.Steps.{IsPlaced, IsPlacing, lacking};
ghost use Rattle.term_values.specs.Parts.{IsPart};

use crate::step::{Source, lacking, renumbered, shape_of, source_of};
use bv_term::{TermId, Terms};
use lv_base::Memory;
use std::alloc::Global;
use std::collections::HashMap;

/// Terms of a table that stand in a cone, each behind its operands.
#[derive(Drop)]
pub struct Part {
    /// The number in the cone of each term that stands there, by its number in the table.
    pub places: HashMap<u32, u32>,
    /// Where each has its value from.
    pub sources: Vec<Source>,
    /// What stands for each in a table without cells.
    pub shapes: Terms,
}

/// No term.
fn nothing(alloc: Global) -> Part
    ensures places { (k : ℕ) → get nat_eq result.places k ≡ None }
    ensures sources { result.sources.items ≡ [] }
    ensures cells { result.shapes.cells ≡ [] }
    ensures terms { result.shapes.terms ≡ [] }
{
    Part {
        places: HashMap::new(alloc),
        sources: Vec::new(alloc),
        shapes: Terms::new(alloc, Vec::new(alloc)),
    }
}

/// Notes the number in the cone of a term.
fn put_place(places: &mut HashMap<u32, u32>, term: u32, at: u32) -> Result<(), Memory>
    ensures { IfOk result (λ _. IsPlacing (get nat_eq places.old) (get nat_eq places.new) term at) }
{
    places.insert(term, at)?;
    Ok(())
}

/// Puts a term whose operands all stand in the cone there.
fn place(part: &mut Part, terms: &Terms, term: TermId) -> Result<(), Memory>
    requires there { term.0 < length terms.now.terms }
    requires part { IsPart terms.now part.old }
    requires whole { (t : Term) → slice_get terms.now.terms term.0 ≡ Some t → lacking (get nat_eq part.old.places) t ≡ None }
    ensures part { IfOk result (λ _. IsPart terms.now part.new) }
    ensures placed { IfOk result (λ _. (at : ℕ) × IsPlacing (get nat_eq part.old.places) (get nat_eq part.new.places) term.0 at) }
{
    let _count = terms.count();
    let step = renumbered(&part.places, terms.get(term));
    let source = source_of(step);
    let shape = shape_of(source, terms.width_of(term), step);
    let at = part.shapes.append(shape)?;
    part.sources.push(source)?;
    put_place(&mut part.places, term.0, at.0)?;
    Ok(())
}

/// The cone of a term. It takes time and memory in proportion to the cone: a term waits in a list while its operands
/// are put there, so no depth of terms takes stack.
pub fn gathered(alloc: Global, terms: &Terms, term: TermId) -> Result<Part, Memory>
    requires { term.0 < length terms.now.terms }
    ensures part { IfOk result (λ part. IsPart terms.now part) }
    ensures placed { IfOk result (λ part. IsPlaced (get nat_eq part.places) term) }
{
    let _count = terms.count();
    let mut part = nothing(alloc);
    let mut waiting: Vec<u32> = Vec::new(alloc);
    waiting.push(term.0)?;
    while let Some(k) = waiting.pop() {
        match lacking(&part.places, terms.get(TermId(k))) {
            Some(operand) => {
                waiting.push(k)?;
                waiting.push(operand.0)?;
            }
            None => place(&mut part, terms, TermId(k))?,
        }
    }
    Ok(part)
}
