ghost use Rattle.std.specs.Prelude.{◌≡◌, ◌<◌, ◌≤◌, ◌^◌, ◌↔◌, length, slice_index, All, IsTrue, ℕ};
ghost use Rattle.bv_term.specs.WellFormed.{AreAlike, Fits, IsArray, IsThere, IsWidth, width_in};
ghost use Rattle.bv_term.specs.Values.{IsStore};

use crate::value::cell_of;
use crate::{Term, TermId};

/// The most bits of a term or a cell.
const MOST_BITS: u32 = 128;

/// The width of a term that is well formed over cells and earlier terms of these widths.
pub fn width_over(cells: &[u32], widths: &[u32], term: Term) -> u32
    requires { Fits cells.now widths.now term }
    ensures { result ≡ width_in cells.now widths.now term }
{
    match term {
        Term::Constant(width, _)
        | Term::ZeroExtend(width, _)
        | Term::SignExtend(width, _)
        | Term::Truncate(width, _) => width,
        Term::Cell(cell) | Term::Element(cell, _, _) => cells[cell as usize],
        Term::Add(i, _)
        | Term::Subtract(i, _)
        | Term::Multiply(i, _)
        | Term::Divide(i, _)
        | Term::Remainder(i, _)
        | Term::And(i, _)
        | Term::Or(i, _)
        | Term::Xor(i, _)
        | Term::Not(i)
        | Term::ShiftLeft(i, _)
        | Term::ShiftRight(i, _)
        | Term::ShiftSigned(i, _)
        | Term::Select(_, i, _) => widths[i.0 as usize],
        Term::Equal(_, _) | Term::Less(_, _) | Term::LessSigned(_, _) | Term::Bit(_, _) => 1,
    }
}

/// Whether the term is well formed over cells and earlier terms of these widths.
pub fn fits_over(cells: &[u32], widths: &[u32], term: Term) -> bool
    ensures { IsTrue result ↔ Fits cells.now widths.now term }
{
    match term {
        Term::Constant(width, value) => is_width(width) && is_below(value, width),
        Term::Cell(cell) => (cell as usize) < cells.len(),
        Term::Element(first, length, i) => is_array(cells, first, length) && is_there(widths, i),
        Term::Add(i, j)
        | Term::Subtract(i, j)
        | Term::Multiply(i, j)
        | Term::Divide(i, j)
        | Term::Remainder(i, j)
        | Term::And(i, j)
        | Term::Or(i, j)
        | Term::Xor(i, j)
        | Term::ShiftLeft(i, j)
        | Term::ShiftRight(i, j)
        | Term::ShiftSigned(i, j)
        | Term::Equal(i, j)
        | Term::Less(i, j)
        | Term::LessSigned(i, j) => are_alike(widths, i, j),
        Term::Not(i) => is_there(widths, i),
        Term::Select(i, j, k) => is_choice(widths, i) && are_alike(widths, j, k),
        Term::ZeroExtend(width, i) | Term::SignExtend(width, i) => widens(widths, width, i),
        Term::Truncate(width, i) => narrows(widths, width, i),
        Term::Bit(bit, i) => is_there(widths, i) && bit < widths[i.0 as usize],
    }
}

/// Whether a number of bits is that of a cell or a term.
fn is_width(width: u32) -> bool
    ensures { IsTrue result ↔ IsWidth width }
{
    (1..=MOST_BITS).contains(&width)
}

/// Whether the value has no more bits than the width.
fn is_below(value: u128, width: u32) -> bool
    requires { IsWidth width }
    ensures { IsTrue result ↔ (value < 2 ^ width) }
{
    width == MOST_BITS || value < (1u128 << width)
}

fn is_there(widths: &[u32], i: TermId) -> bool
    ensures { IsTrue result ↔ IsThere widths.now i }
{
    (i.0 as usize) < widths.len()
}

fn are_alike(widths: &[u32], i: TermId, j: TermId) -> bool
    ensures { IsTrue result ↔ AreAlike widths.now i j }
{
    is_there(widths, i) && is_there(widths, j) && widths[i.0 as usize] == widths[j.0 as usize]
}

fn is_choice(widths: &[u32], i: TermId) -> bool
    ensures { IsTrue result ↔ (IsThere widths.now i × (slice_index widths.now i.0 ≡ 1)) }
{
    is_there(widths, i) && widths[i.0 as usize] == 1
}

fn widens(widths: &[u32], width: u32, i: TermId) -> bool
    ensures { IsTrue result ↔ (IsThere widths.now i × IsWidth width × (slice_index widths.now i.0 ≤ width)) }
{
    is_there(widths, i) && is_width(width) && widths[i.0 as usize] <= width
}

fn narrows(widths: &[u32], width: u32, i: TermId) -> bool
    ensures { IsTrue result ↔ (IsThere widths.now i × IsWidth width × (width ≤ slice_index widths.now i.0)) }
{
    is_there(widths, i) && is_width(width) && width <= widths[i.0 as usize]
}

/// Whether this many cells from the first on are there, at least one, and all of one width.
fn is_array(cells: &[u32], first: u32, length: u32) -> bool
    ensures { IsTrue result ↔ IsArray cells.now first length }
{
    let begin = first as usize;
    let end = begin + length as usize;
    if length == 0 || end > cells.len() {
        return false;
    }
    same_widths(&cells[begin..end], cells[begin])
}

fn same_widths(cells: &[u32], width: u32) -> bool
    ensures { IsTrue result ↔ ((k : ℕ) → k < length cells.now → slice_index cells.now k ≡ width) }
{
    for cell in cells {
        if *cell != width {
            return false;
        }
    }
    true
}

/// Whether each of these is the width of a cell, 1 to 128.
pub fn are_widths(cells: &[u32]) -> bool
    ensures { IsTrue result ↔ All IsWidth cells.now }
{
    for cell in cells {
        if !is_width(*cell) {
            return false;
        }
    }
    true
}

/// Whether the values are a store of cells of these widths. Cells past the end of the values hold 0.
pub fn is_store(cells: &[u32], store: &[u128]) -> bool
    requires { All IsWidth cells.now }
    ensures { IsTrue result ↔ IsStore cells.now store.now }
{
    for (number, cell) in cells.iter().enumerate() {
        if !is_below(cell_of(store, number), *cell) {
            return false;
        }
    }
    true
}
