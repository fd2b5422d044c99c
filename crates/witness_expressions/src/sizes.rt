//! How long the texts of terms are, before they are made. A term's text may be exponentially longer than the table.

ghost use Rattle.std.specs.Prelude.{◌≡◌, ◌+◌, ◌&&◌, IfOk, length, slice_get};
ghost use Rattle.witness_expressions.specs.Names.{named};
ghost use Rattle.witness_expressions.specs.Expressions.{bit_text, operand_name, is_named};
ghost use Rattle.witness_expressions.specs.Sizes.{and_size, leaf_size, size_at, size_in, sizes_of};

use crate::look::look;
use crate::names::{Spelling, cell_name};
use bv_term::{Term, TermId, Terms};
use c_graph::Cell;
use lv_base::{Memory, Text};
use std::alloc::Global;

/// The most bytes of a part.
const MOST: u64 = 4096;

/// What is known of a term's text.
#[derive(Clone, Copy, Debug)]
pub struct Size {
    /// Whether it can be written.
    pub written: bool,
    /// Its bytes, ended one above those of the longest part.
    pub text: u64,
    /// The bytes of its written parts, with those of a mark for each, ended at the greatest number.
    pub parts: u64,
}

fn leaf(written: bool, text: u64) -> Size
    ensures { result ≡ leaf_size written text }
{
    let text = text.min(MOST + 1);
    let parts = if written && text <= MOST { text + 4 } else { 0 };
    Size {
        written,
        text,
        parts,
    }
}

fn or(left: Size, right: Size) -> Size
    ensures { result ≡ leaf_size (left.written && right.written) (left.text + right.text + 6) }
{
    leaf(
        left.written && right.written,
        left.text.saturating_add(right.text).saturating_add(6),
    )
}

fn not(part: Size) -> Size
    ensures { result ≡ leaf_size part.written (part.text + 3) }
{
    leaf(part.written, part.text.saturating_add(3))
}

/// What is known of a term by its number.
pub(crate) fn size_of(sizes: &[Size], term: TermId) -> Size
    ensures { result ≡ size_at sizes.now term }
{
    match sizes.get(term.0 as usize) {
        Some(size) => *size,
        None => Size {
            written: false,
            text: 0,
            parts: 0,
        },
    }
}

fn and(left: Size, right: Size) -> Size
    ensures { result ≡ and_size left right }
{
    Size {
        written: left.written && right.written,
        text: left
            .text
            .saturating_add(right.text)
            .saturating_add(6)
            .min(MOST + 1),
        parts: left.parts.saturating_add(right.parts),
    }
}

/// The name of the cell that a term is, if it is one that has a name.
pub(crate) fn operand(
    alloc: Global,
    terms: &Terms,
    cells: &[Cell],
    spellings: &[Spelling],
    term: TermId,
) -> Result<Option<Text>, Memory>
    ensures { IfOk result (λ t. t ≡ operand_name (named spellings.now cells.now) (slice_get terms.now.terms term.0)) }
{
    match look(terms, term) {
        Some(Term::Cell(cell)) => cell_name(alloc, spellings, cells, cell),
        _ => Ok(None),
    }
}

/// The text of a bit of what has this name; nothing without a name.
pub(crate) fn bit(alloc: Global, number: u32, name: &Option<Text>) -> Result<Text, Memory>
    ensures { IfOk result (λ t. t ≡ bit_text number name.now) }
{
    let Some(name) = name else {
        return Ok(Text::new(Vec::new(alloc)));
    };
    let mut text = Vec::from_slice(alloc, b"((")?;
    text.extend_from_slice(name.as_bytes())?;
    let behind = format!(in alloc; " >> {number}) & 1)")?;
    text.extend_from_slice(behind.as_bytes())?;
    Ok(Text::new(text))
}

fn bit_size(alloc: Global, number: u32, name: Option<Text>) -> Result<Size, Memory>
    ensures { IfOk result (λ s. s ≡ leaf_size (is_named name) (length (bit_text number name))) }
{
    let text = bit(alloc, number, &name)?;
    Ok(leaf(name.is_some(), text.as_bytes().len() as u64))
}

fn size_of_term(
    alloc: Global,
    terms: &Terms,
    cells: &[Cell],
    spellings: &[Spelling],
    sizes: &[Size],
    term: Term,
) -> Result<Size, Memory>
    ensures { IfOk result (λ s. s ≡ size_in (named spellings.now cells.now) terms.now.terms sizes.now term) }
{
    match term {
        Term::Constant(width, _) => Ok(leaf(width == 1, 1)),
        Term::And(i, j) => Ok(and(size_of(sizes, i), size_of(sizes, j))),
        Term::Or(i, j) => Ok(or(size_of(sizes, i), size_of(sizes, j))),
        Term::Not(i) => Ok(not(size_of(sizes, i))),
        Term::Bit(number, i) => bit_size(
            alloc,
            number,
            operand(alloc, terms, cells, spellings, i)?,
        ),
        _ => Ok(leaf(false, 0)),
    }
}

/// What is known of the texts of a table's terms, in their order.
#[tactic(auto, unfolding(crate::specs::Sizes::sizes_of))]
pub(crate) fn sizes(
    alloc: Global,
    terms: &Terms,
    cells: &[Cell],
    spellings: &[Spelling],
) -> Result<Vec<Size>, Memory>
    ensures { IfOk result (λ v. v.items ≡ sizes_of (named spellings.now cells.now) terms.now.terms) }
{
    let mut sizes = Vec::new(alloc);
    for number in 0..terms.count() {
        let term = terms.get(TermId(number));
        let size = size_of_term(alloc, terms, cells, spellings, &sizes, term)?;
        sizes.push(size)?;
    }
    Ok(sizes)
}
