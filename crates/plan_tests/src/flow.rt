//! What an edge needs, and what is read behind it, is read from its node on, or the edge itself sets it first.
ghost use Rattle.std.specs.Prelude.{◌≡◌, ◌≤◌, IsTrue, Some, slice_get, true};
ghost use Rattle.block_rule.specs.Blocked.{Flows};
ghost use Rattle.block_rule.specs.Plans as plans;
ghost use Rattle.walk_states.specs.Known.{plan_of};
ghost use Rattle.plan_tests.specs.Made as made;
ghost use Rattle.plan_tests.specs.Cells.{AreUnits, IsRising};
ghost use Rattle.plan_tests.specs.Flow.{AllCovered, AllFlow, AllReadsFlow, HasBits, IsCovered, IsKept, IsKeptBelow, IsWordKept, Kills, KillsBy, ReadsFlow, StaysLive, TermFlows};

use crate::cells::is_alone;
use bv_term::TermId;
use c_graph::{Edge, Operation};
use plan_tables::Units;
use walk_states::{Known, matters};

/// Whether what each edge to a node that matters needs is read from its node on; there being so many units.
pub(crate) fn all_flow(known: &Known, edges: &[Edge], count: u32) -> bool
    requires { AreUnits known.now.units count }
    ensures tells { IsTrue result → AllFlow (plan_of known.now) edges.now }
    ensures made { result ≡ made.all_flow known.now edges.now count }
{
    for number in 0..edges.len() {
        if !flows_to(known, &edges[number], count) {
            return false;
        }
    }
    true
}

fn flows_to(known: &Known, edge: &Edge, count: u32) -> bool
    requires { AreUnits known.now.units count }
    ensures tells { IsTrue result → plans.matters (plan_of known.now) edge.now.to.0 ≡ true → Flows (plan_of known.now) edge.now }
    ensures made { result ≡ made.flows_to known.now count edge.now }
{
    !matters(known, edge.to.0) || flows(known, edge, count)
}

fn flows(known: &Known, edge: &Edge, count: u32) -> bool
    requires { AreUnits known.now.units count }
    ensures tells { IsTrue result → Flows (plan_of known.now) edge.now }
    ensures made { result ≡ made.flows known.now count edge.now }
{
    let ops = edge.ops.as_slice();
    all_reads_flow(known, edge.from.0, ops) && stays_live(known, edge.from.0, ops, edge.to.0, count)
}

/// Whether what each operation reads is read from the node on, or an earlier operation sets it.
fn all_reads_flow(known: &Known, node: u32, ops: &[Operation]) -> bool
    requires { IsRising known.now.units }
    ensures tells { IsTrue result → AllReadsFlow (plan_of known.now) node ops.now }
    ensures made { result ≡ made.all_reads_flow known.now node ops.now }
{
    for number in 0..ops.len() {
        if !reads_flow(known, node, &ops[..number], ops[number]) {
            return false;
        }
    }
    true
}

fn reads_flow(known: &Known, node: u32, before: &[Operation], operation: Operation) -> bool
    requires { IsRising known.now.units }
    ensures tells { IsTrue result → ReadsFlow (plan_of known.now) node before.now operation }
    ensures made { result ≡ made.reads_flow known.now node before.now operation }
{
    match operation {
        Operation::Assume(term) => term_flows(known, node, before, term),
        Operation::Set(_, term) => term_flows(known, node, before, term),
        Operation::SetAt(_, _, index, term) => {
            term_flows(known, node, before, index) && term_flows(known, node, before, term)
        }
        Operation::Draw(_, _) => true,
    }
}

/// Whether what a term reads is read from the node on, or one of these operations sets it.
fn term_flows(known: &Known, node: u32, before: &[Operation], term: TermId) -> bool
    requires { IsRising known.now.units }
    ensures tells { IsTrue result → TermFlows (plan_of known.now) node before.now term }
    ensures made { result ≡ made.term_flows known.now node before.now term }
{
    all_covered(known, node, before, known.reads.of(term))
}

fn all_covered(known: &Known, node: u32, before: &[Operation], units: &[u32]) -> bool
    requires { IsRising known.now.units }
    ensures tells { IsTrue result → AllCovered known.now node before.now units.now }
    ensures made { result ≡ made.all_covered known.now node before.now units.now }
{
    for number in 0..units.len() {
        if !is_covered(known, node, before, units[number]) {
            return false;
        }
    }
    true
}

/// Whether what is read from one node on is read from the other on, or one of these operations sets it; there being so many units.
/// Where it is not known what is read, each cell is, from each node on.
fn stays_live(known: &Known, from: u32, ops: &[Operation], to: u32, count: u32) -> bool
    requires { AreUnits known.now.units count }
    ensures tells { IsTrue result → StaysLive (plan_of known.now) from ops.now to }
    ensures made { result ≡ made.stays_live known.now from ops.now to count }
{
    !known.live.is_known() || all_kept(known, from, ops, to, count)
}

fn all_kept(known: &Known, from: u32, ops: &[Operation], to: u32, count: u32) -> bool
    requires { IsRising known.now.units }
    ensures tells { IsTrue result → IsKeptBelow known.now from ops.now to count }
    ensures made { result ≡ made.all_kept known.now from ops.now to count }
{
    for number in 0..count / 64 + 1 {
        if !is_word_kept(known, from, ops, to, number) {
            return false;
        }
    }
    true
}

/// The same for the units of one word. Where both nodes have the same word, its units need no look of their own.
fn is_word_kept(known: &Known, from: u32, ops: &[Operation], to: u32, number: u32) -> bool
    requires rising { IsRising known.now.units }
    requires few { number ≤ 67108863 }
    ensures tells { IsTrue result → IsWordKept known.now from ops.now to number }
    ensures made { result ≡ made.is_word_kept known.now from ops.now to number }
{
    has_word(known.live.words(from), known.live.words(to), number)
        || are_bits_kept(known, from, ops, to, number)
}

/// Whether the first row has the second one's word of this number, or there is none.
fn has_word(row: &[u64], other: &[u64], number: u32) -> bool
    ensures tells { IsTrue result → HasBits (slice_get row.now number) (slice_get other.now number) }
    ensures made { result ≡ made.has_word row.now other.now number }
{
    match other.get(number as usize) {
        None => true,
        Some(word) => is_word(row, number, *word),
    }
}

fn is_word(row: &[u64], number: u32, word: u64) -> bool
    ensures tells { IsTrue result → slice_get row.now number ≡ Some word }
    ensures made { result ≡ made.is_word row.now number word }
{
    match row.get(number as usize) {
        None => false,
        Some(found) => *found == word,
    }
}

fn are_bits_kept(known: &Known, from: u32, ops: &[Operation], to: u32, number: u32) -> bool
    requires rising { IsRising known.now.units }
    requires few { number ≤ 67108863 }
    ensures tells { IsTrue result → IsWordKept known.now from ops.now to number }
    ensures made { result ≡ made.are_bits_kept known.now from ops.now to number }
{
    for bit in 0..64 {
        if !is_kept(known, from, ops, to, number * 64 + bit) {
            return false;
        }
    }
    true
}

fn is_kept(known: &Known, from: u32, ops: &[Operation], to: u32, unit: u32) -> bool
    requires { IsRising known.now.units }
    ensures tells { IsTrue result → IsKept known.now from ops.now to unit }
    ensures made { result ≡ made.is_kept known.now from ops.now to unit }
{
    !known.live.is_live(to, unit) || is_covered(known, from, ops, unit)
}

/// Whether a unit is read from the node on, or one of these operations sets its only cell.
fn is_covered(known: &Known, node: u32, ops: &[Operation], unit: u32) -> bool
    requires { IsRising known.now.units }
    ensures tells { IsTrue result → IsCovered known.now node ops.now unit }
    ensures made { result ≡ made.is_covered known.now node ops.now unit }
{
    known.live.is_live(node, unit) || is_killed(&known.units, ops, unit)
}

/// Whether one of these operations sets the only cell of a unit.
fn is_killed(units: &Units, ops: &[Operation], unit: u32) -> bool
    requires { IsRising units.now }
    ensures tells { IsTrue result → Kills units.now ops.now unit }
    ensures made { result ≡ made.is_killed units.now ops.now unit }
{
    for number in 0..ops.len() {
        if kills(units, ops[number], unit) {
            return true;
        }
    }
    false
}

fn kills(units: &Units, operation: Operation, unit: u32) -> bool
    requires { IsRising units.now }
    ensures tells { IsTrue result → KillsBy units.now operation unit }
    ensures made { result ≡ made.kills units.now unit operation }
{
    match operation {
        Operation::Set(cell, _) => is_alone(units, cell, unit),
        Operation::Draw(cell, _) => is_alone(units, cell, unit),
        Operation::Assume(_) | Operation::SetAt(_, _, _, _) => false,
    }
}
