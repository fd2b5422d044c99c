//! The cells that terms are said to read: each term's own, and those of its operands.
ghost use Rattle.std.specs.Prelude.{ℕ, ◌+◌, ◌≡◌, ◌<◌, ◌≤◌, IsTrue, true};
ghost use Rattle.term_laws.specs.Operands.{OnOperands};
ghost use Rattle.block_rule.specs.Tests.{AreReads, ReadsOperand, ReadsOwn};
ghost use Rattle.walk_states.specs.Known.{has_unit, plan_of};
ghost use Rattle.plan_tests.specs.Made as made;
ghost use Rattle.plan_tests.specs.Cells.{IsRising};
ghost use Rattle.plan_tests.specs.Reads.{Includes, IsRead};

use crate::cells::is_unit;
use bv_term::{Term, TermId, Terms};
use walk_states::Known;

/// Whether each term is said to read its own cells and what its operands are said to read.
pub(crate) fn are_reads(known: &Known, terms: &Terms) -> bool
    requires { IsRising known.now.units }
    ensures tells { IsTrue result → AreReads terms.now (plan_of known.now) }
    ensures made { result ≡ made.are_reads known.now terms.now }
{
    for number in 0..terms.count() {
        if !is_read(known, number, terms.get(TermId(number))) {
            return false;
        }
    }
    true
}

fn is_read(known: &Known, number: u32, term: Term) -> bool
    requires { IsRising known.now.units }
    ensures tells { IsTrue result → IsRead (plan_of known.now) number term }
    ensures made { result ≡ made.is_read known.now number term }
{
    reads_own(known, number, term) && reads_operands(known, number, term)
}

/// Whether a term is said to read the cells that it reads by itself.
fn reads_own(known: &Known, number: u32, term: Term) -> bool
    requires { IsRising known.now.units }
    ensures tells { IsTrue result → ReadsOwn (plan_of known.now) number term }
    ensures made { result ≡ made.reads_own known.now number term }
{
    match term {
        Term::Cell(cell) => reads_cell(known, number, cell),
        Term::Element(first, count, _) => reads_array(known, number, first, count),
        _ => true,
    }
}

fn reads_cell(known: &Known, number: u32, cell: u32) -> bool
    ensures { result ≡ (plan_of known.now).reads number cell }
{
    match known.units.get(cell) {
        None => false,
        Some(unit) => has(known.reads.of(TermId(number)), unit),
    }
}

/// Whether a term is said to read all cells of an array, which are of one unit.
fn reads_array(known: &Known, number: u32, first: u32, count: u32) -> bool
    requires { IsRising known.now.units }
    ensures tells { IsTrue result → (j : ℕ) → j < count → (plan_of known.now).reads number (first + j) ≡ true }
    ensures made { result ≡ made.reads_array known.now number first count }
{
    if count == 0 {
        return true;
    }
    match first.checked_add(count - 1) {
        None => false,
        Some(last) => reads_span(known, number, first, last),
    }
}

/// Whether a term is said to read the cells from one to another, which are of one unit.
fn reads_span(known: &Known, number: u32, first: u32, last: u32) -> bool
    requires { IsRising known.now.units }
    ensures tells { IsTrue result → (c : ℕ) → first ≤ c → c ≤ last → (plan_of known.now).reads number c ≡ true }
    ensures made { result ≡ made.reads_span known.now number first last }
{
    match known.units.get(first) {
        None => false,
        Some(unit) => {
            is_unit(&known.units, last, unit) && has(known.reads.of(TermId(number)), unit)
        }
    }
}

/// Whether a term is said to read what each of its operands is said to read.
fn reads_operands(known: &Known, number: u32, term: Term) -> bool
    ensures tells { IsTrue result → OnOperands (ReadsOperand (plan_of known.now) number) term }
    ensures made { result ≡ made.reads_operands known.now number term }
{
    match term {
        Term::Constant(_, _) | Term::Cell(_) => true,
        Term::Element(_, _, i) => reads_one(known, number, i),
        Term::Add(i, j) => reads_two(known, number, i, j),
        Term::Subtract(i, j) => reads_two(known, number, i, j),
        Term::Multiply(i, j) => reads_two(known, number, i, j),
        Term::Divide(i, j) => reads_two(known, number, i, j),
        Term::Remainder(i, j) => reads_two(known, number, i, j),
        Term::And(i, j) => reads_two(known, number, i, j),
        Term::Or(i, j) => reads_two(known, number, i, j),
        Term::Xor(i, j) => reads_two(known, number, i, j),
        Term::Not(i) => reads_one(known, number, i),
        Term::ShiftLeft(i, j) => reads_two(known, number, i, j),
        Term::ShiftRight(i, j) => reads_two(known, number, i, j),
        Term::ShiftSigned(i, j) => reads_two(known, number, i, j),
        Term::Equal(i, j) => reads_two(known, number, i, j),
        Term::Less(i, j) => reads_two(known, number, i, j),
        Term::LessSigned(i, j) => reads_two(known, number, i, j),
        Term::Select(i, j, k) => reads_three(known, number, i, j, k),
        Term::ZeroExtend(_, i) => reads_one(known, number, i),
        Term::SignExtend(_, i) => reads_one(known, number, i),
        Term::Truncate(_, i) => reads_one(known, number, i),
        Term::Bit(_, i) => reads_one(known, number, i),
    }
}

fn reads_three(known: &Known, number: u32, i: TermId, j: TermId, k: TermId) -> bool
    ensures tells { IsTrue result → ReadsOperand (plan_of known.now) number i × ReadsOperand (plan_of known.now) number j × ReadsOperand (plan_of known.now) number k }
    ensures made { result ≡ made.reads_three known.now number i j k }
{
    reads_one(known, number, i) && reads_one(known, number, j) && reads_one(known, number, k)
}

fn reads_two(known: &Known, number: u32, i: TermId, j: TermId) -> bool
    ensures tells { IsTrue result → ReadsOperand (plan_of known.now) number i × ReadsOperand (plan_of known.now) number j }
    ensures made { result ≡ made.reads_two known.now number i j }
{
    reads_one(known, number, i) && reads_one(known, number, j)
}

fn reads_one(known: &Known, number: u32, i: TermId) -> bool
    ensures tells { IsTrue result → ReadsOperand (plan_of known.now) number i }
    ensures made { result ≡ made.reads_one known.now number i }
{
    includes(known.reads.of(TermId(number)), known.reads.of(i))
}

/// Whether the first list has each unit of the second.
fn includes(list: &[u32], units: &[u32]) -> bool
    ensures tells { IsTrue result → Includes list.now units.now }
    ensures made { result ≡ made.includes list.now units.now }
{
    for number in 0..units.len() {
        if !has(list, units[number]) {
            return false;
        }
    }
    true
}

fn has(list: &[u32], unit: u32) -> bool
    ensures { result ≡ has_unit list.now unit }
{
    for found in list {
        if *found == unit {
            return true;
        }
    }
    false
}
