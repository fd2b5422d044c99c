ghost use Rattle.std.specs.Prelude.{◌≡◌, ◌+◌, ◌<◌, length, slice_index, IfOk, All, if◌then◌else◌, nat_lt};
ghost use Rattle.bv_term.specs.WellFormed.{IsWidth};
ghost use Rattle.bv_term.specs.Values.{AreBelow, FitsSome, value_in};
ghost use Rattle.bv_term.specs.Numbers.{truth};

use crate::number::{
    bit, complement, difference, extend_sign, left, low_bits, product, quotient, raise, remainder,
    right, signed_right, sum,
};
use crate::{Term, TermId};

/// The value of a cell; cells past the store's end hold 0.
pub fn cell_of(store: &[u128], cell: usize) -> u128
    ensures { result ≡ slice_index store.now cell }
{
    if cell < store.len() { store[cell] } else { 0 }
}

/// The value of an array's element, 0 where the index is not below the length.
fn element_of(store: &[u128], first: u32, length: u32, index: u128) -> u128
    ensures { result ≡ (if nat_lt index length then slice_index store.now (first + index) else 0) }
{
    if index < length as u128 {
        cell_of(store, first as usize + index as usize)
    } else {
        0
    }
}

/// 1 for a truth, 0 for a falsehood.
fn truth_of(holds: bool) -> u128
    ensures { result ≡ truth holds }
{
    if holds { 1 } else { 0 }
}

/// The value of a term in a store, the earlier terms having these widths and values.
pub fn value_over(store: &[u128], widths: &[u32], values: &[u128], term: Term) -> u128
    requires fits { FitsSome widths.now term }
    requires lengths { length values.now ≡ length widths.now }
    requires widths { All IsWidth widths.now }
    requires below { AreBelow widths.now values.now }
    ensures { result ≡ value_in store.now widths.now values.now term }
{
    let width = |i: TermId| widths[i.0 as usize];
    let value = |i: TermId| values[i.0 as usize];
    match term {
        Term::Constant(_, value) => value,
        Term::Cell(cell) => cell_of(store, cell as usize),
        Term::Element(first, length, i) => element_of(store, first, length, value(i)),
        Term::Add(i, j) => sum(width(i), value(i), value(j)),
        Term::Subtract(i, j) => difference(width(i), value(i), value(j)),
        Term::Multiply(i, j) => product(width(i), value(i), value(j)),
        Term::Divide(i, j) => quotient(value(i), value(j)),
        Term::Remainder(i, j) => remainder(value(i), value(j)),
        Term::And(i, j) => value(i) & value(j),
        Term::Or(i, j) => value(i) | value(j),
        Term::Xor(i, j) => value(i) ^ value(j),
        Term::Not(i) => complement(width(i), value(i)),
        Term::ShiftLeft(i, j) => left(width(i), value(i), value(j)),
        Term::ShiftRight(i, j) => right(width(i), value(i), value(j)),
        Term::ShiftSigned(i, j) => signed_right(width(i), value(i), value(j)),
        Term::Equal(i, j) => truth_of(value(i) == value(j)),
        Term::Less(i, j) => truth_of(value(i) < value(j)),
        Term::LessSigned(i, j) => {
            truth_of(raise(width(i), value(i)) < raise(width(i), value(j)))
        }
        Term::Select(i, j, k) => { if value(i) == 1 { value(j) } else { value(k) } }
        Term::ZeroExtend(_, i) => value(i),
        Term::SignExtend(to, i) => extend_sign(width(i), to, value(i)),
        Term::Truncate(to, i) => low_bits(to, value(i)),
        Term::Bit(number, i) => bit(number, value(i)),
    }
}
