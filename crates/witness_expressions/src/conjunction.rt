//! A formula as the conjunction of those of its parts that can be written.

ghost use Rattle.std.specs.Prelude.{◌≡◌, ◌<◌, ◌+◌, ◌++◌, ◌∷◌, [], OnOk, IfOk, codes};
ghost use Rattle.witness_expressions.specs.Names.{named};
ghost use Rattle.witness_expressions.specs.Expressions.{and_also, conjoined, expression_of, or_one, row_at, rows_of};
ghost use Rattle.witness_expressions.specs.Pieces.{parts_left, term_weight, terms_weight};
ghost use Rattle.witness_expressions.specs.Sizes.{sizes_of};

use crate::look::conjuncts;
use crate::names::Spelling;
use crate::part::put_text;
use crate::sizes::{Size, size_of, sizes};
use bv_term::{TermId, Terms};
use c_graph::Cell;
use lv_base::{Memory, Text};
use std::alloc::Global;

fn put_mark(text: &mut Vec<u8>) -> Result<(), Memory>
    ensures { OnOk result (text.new.items ≡ and_also text.old.items []) }
{
    if !text.is_empty() {
        text.extend_from_slice(b" && ")?;
    }
    Ok(())
}

fn put_part(
    alloc: Global,
    text: &mut Vec<u8>,
    terms: &Terms,
    cells: &[Cell],
    spellings: &[Spelling],
    term: TermId,
) -> Result<(), Memory>
    ensures { OnOk result (text.new.items ≡ and_also text.old.items (row_at (rows_of (named spellings.now cells.now) terms.now.terms) term).text) }
{
    put_mark(text)?;
    put_text(alloc, text, terms, cells, spellings, term)?;
    Ok(())
}

fn push_both(left: &mut Vec<TermId>, first: TermId, second: TermId) -> Result<(), Memory>
    ensures { OnOk result (left.new.items ≡ left.old.items ++ (second ∷ first ∷ [])) }
{
    left.extend_from_slice(&[second, first])?;
    Ok(())
}

fn put_formula(
    alloc: Global,
    text: &mut Vec<u8>,
    left: &mut Vec<TermId>,
    terms: &Terms,
    cells: &[Cell],
    spellings: &[Spelling],
    sizes: &[Size],
    term: TermId,
) -> Result<(), Memory>
    requires { sizes.now ≡ sizes_of (named spellings.now cells.now) terms.now.terms }
    ensures kept { let rows = rows_of (named spellings.now cells.now) terms.now.terms in OnOk result (conjoined text.new.items (parts_left rows left.new.items) ≡ conjoined text.old.items ((row_at rows term).parts ++ parts_left rows left.old.items)) }
    ensures falls { OnOk result (terms_weight left.new.items < term_weight term + terms_weight left.old.items) }
{
    if size_of(sizes, term).parts == 0 {
        return Ok(());
    }
    match conjuncts(terms, term) {
        Some((i, j)) => {
            push_both(left, i, j)?;
            Ok(())
        }
        None => {
            put_part(alloc, text, terms, cells, spellings, term)?;
            Ok(())
        }
    }
}

fn put_parts(
    alloc: Global,
    text: &mut Vec<u8>,
    terms: &Terms,
    cells: &[Cell],
    spellings: &[Spelling],
    sizes: &[Size],
    formula: TermId,
) -> Result<(), Memory>
    requires { sizes.now ≡ sizes_of (named spellings.now cells.now) terms.now.terms }
    ensures { OnOk result (text.new.items ≡ conjoined text.old.items (row_at (rows_of (named spellings.now cells.now) terms.now.terms) formula).parts) }
{
    let mut left = Vec::new(alloc);
    left.push(formula)?;
    while let Some(term) = left.pop() {
        put_formula(alloc, text, &mut left, terms, cells, spellings, sizes, term)?;
    }
    Ok(())
}

fn one_if_empty(mut text: Vec<u8>) -> Result<Text, Memory>
    ensures { IfOk result (λ t. t ≡ or_one text.items) }
{
    if text.is_empty() {
        text.push(b'1')?;
    }
    Ok(Text::new(text))
}

/// The expression of a formula: those of its parts that are made of bits of cells which have a name here, and have at most 4,096 bytes,
/// joined by ` && `; `1` without any. The spellings are those of the objects, by number. Room for it is taken at once, by its length.
///
/// Fails with `Memory` where memory runs out.
pub fn expression(
    alloc: Global,
    terms: &Terms,
    cells: &[Cell],
    spellings: &[Spelling],
    formula: TermId,
) -> Result<Text, Memory>
    ensures { IfOk result (λ t. t ≡ expression_of (named spellings.now cells.now) terms.now.terms formula) }
{
    let sizes = sizes(alloc, terms, cells, spellings)?;
    let room = size_of(&sizes, formula).parts;
    let mut text = Vec::with_capacity(alloc, room as usize)?;
    put_parts(alloc, &mut text, terms, cells, spellings, &sizes, formula)?;
    one_if_empty(text)
}
