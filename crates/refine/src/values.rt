//! The input values that a satisfying assignment gives to a path.

ghost use Rattle.std.specs.Prelude.{◌++◌, ◌<◌, ◌≡◌, ◌≤◌, ◌⊎◌, ◌^◌, IfOk, length};
ghost use Rattle.prop.specs.Trues.{listed};
ghost use Rattle.bit_gates.specs.Net.{number};
ghost use Rattle.c_graph.specs.Shape.{widths_of};
ghost use Rattle.path_query.specs.Facts.{IsQuery};
ghost use Rattle.path_formula.specs.Needs.{operations_at};
ghost use Rattle.path_formula.specs.Questions.{question_of};
ghost use Rattle.path_laws.specs.Values.{read_as as read_in, signs_along as signs_on, signs_of, values_read};

use crate::answers::Values;
use crate::reading::number_of;
use c_graph::{EdgeId, Graph, Operation};
use lv_base::Memory;
use path_query::PathQuery;
use prop::{Assignment, Lit};
use std::alloc::Global;

// Appends for each draw of some operations whether the drawn kind is signed.
fn push_signs(operations: &[Operation], signs: &mut Vec<bool>) -> Result<(), Memory>
    ensures { IfOk result (λ _. signs.new.items ≡ signs.old.items ++ signs_of operations.now) }
{
    for operation in operations {
        if let Operation::Draw(_, is_signed) = operation {
            signs.push(*is_signed)?;
        }
    }
    Ok(())
}

// The operations of an edge, none past the last edge.
#[tactic(auto, using(path_formula::proofs::Backing::ops_at, path_formula::proofs::Backing::ops_past))]
fn operations_of(graph: &Graph, edge: EdgeId) -> &[Operation]
    ensures { result.now ≡ operations_at graph.now.edges edge.0 }
{
    let edges = graph.edges();
    if (edge.0 as usize) < edges.len() {
        edges[edge.0 as usize].ops.as_slice()
    } else {
        &[]
    }
}

// For each draw of a path whether the drawn kind is signed.
fn signs_along(alloc: Global, graph: &Graph, path: &[EdgeId]) -> Result<Vec<bool>, Memory>
    ensures { IfOk result (λ s. s.items ≡ signs_on graph.now path.now) }
{
    let mut signs = Vec::new(alloc);
    for edge in path {
        push_signs(operations_of(graph, *edge), &mut signs)?;
    }
    Ok(signs)
}

fn power(bits: usize) -> u128
    requires { bits ≤ 64 }
    ensures power { result ≡ 2 ^ bits }
    ensures some { 0 < result }
    ensures most { result ≤ 2 ^ 64 }
{
    1u128 << bits
}

// A number of so many bits as a value, in two's complement where it is signed.
fn read_as(number: u128, width: usize, is_signed: bool) -> i128
    requires some { 0 < width }
    requires most { width ≤ 64 }
    requires number { number < 2 ^ width }
    ensures { result ≡ read_in is_signed width number }
{
    if is_signed && number >= power(width - 1) {
        -((power(width) - 1 - number) as i128) - 1
    } else {
        number as i128
    }
}

// The value that the literals of a draw spell.
fn value_of(found: &Assignment, bits: &[Lit], is_signed: bool) -> i128
    requires some { 0 < length bits.now }
    requires most { length bits.now ≤ 64 }
    ensures { result ≡ read_in is_signed (length bits.now) (number (listed found.now) bits.now) }
{
    read_as(number_of(found, bits), bits.len(), is_signed)
}

fn fewer(left: usize, right: usize) -> usize
    ensures left { result ≤ left }
    ensures right { result ≤ right }
    ensures one { (result ≡ left) ⊎ (result ≡ right) }
{
    if left < right { left } else { right }
}

/// The values that a satisfying assignment of a path's clauses draws, in order.
pub fn drawn_values(
    alloc: Global,
    graph: &Graph,
    path: &[EdgeId],
    query: &PathQuery,
    found: &Assignment,
) -> Result<Values, Memory>
    requires query { IsQuery (widths_of graph.now.cells) (length path.now) query.now }
    requires question { query.now ≡ question_of graph.now path.now }
    ensures { IfOk result (λ vs. vs ≡ values_read (widths_of graph.now.cells) (listed found.now) query.now.draws (signs_on graph.now path.now)) }
{
    let _entry = graph.entry();
    let signs = signs_along(alloc, graph, path)?;
    let draws = query.draws.as_slice();
    let mut values = Vec::new(alloc);
    for number in 0..fewer(draws.len(), signs.len()) {
        values.push(value_of(found, draws[number].bits.as_slice(), signs[number]))?;
    }
    Ok(Values::new(values))
}
