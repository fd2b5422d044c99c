//! Chains of formulas along the path of an error leaf.
ghost use Rattle.std.specs.Prelude.{ℕ, ◌≡◌, reverse, true, IfOk, IfSome};
ghost use Rattle.reach_tree.specs.Trees.{vertex_at};
ghost use Rattle.loop_journey.specs.Chains.{IsChain, follows_by};
ghost use Rattle.loop_journey.specs.declared.formula.Formula.TheVariants.{Always};

use crate::formula::Formula;
use bv_term::TermId;
use c_graph::EdgeId;
use lv_base::Memory;
use reach_tree::{Vertex, VertexId};
use std::alloc::Global;

/// The vertex above the one of a number, none at the root and past the end.
fn parent_of(vertices: &[Vertex], v: usize) -> Option<VertexId>
    ensures { result ≡ (vertex_at vertices.now v).parent }
{
    if v < vertices.len() {
        vertices[v].parent
    } else {
        None
    }
}

/// The edge by which the vertex of a number was reached, none at the root and past the end.
fn edge_of(vertices: &[Vertex], v: usize) -> Option<EdgeId>
    ensures { result ≡ (vertex_at vertices.now v).by }
{
    if v < vertices.len() {
        vertices[v].by
    } else {
        None
    }
}

/// The formula above an edge: true where it sets x, where it asks for x = 0 and no such edge is to spare, and where the
/// formula below is true; else x = 0. There is none where the formula below does not follow from it.
fn above(edge: Option<EdgeId>, below: Formula, spare: u32) -> Option<Formula>
    ensures { IfSome result (λ f. follows_by f edge below ≡ true) }
{
    let Some(edge) = edge else {
        return None;
    };
    let sets = edge.0 == 0 || (edge.0 == 2 && spare == 0);
    let formula = match below {
        Formula::Always => Formula::Always,
        Formula::IsZero | Formula::Never => {
            if sets {
                Formula::Always
            } else {
                Formula::IsZero
            }
        }
    };
    if formula.is_followed(edge.0, below) {
        Some(formula)
    } else {
        None
    }
}

/// How many edges that ask for x = 0 are still to spare above this one.
fn spared(edge: Option<EdgeId>, spare: u32) -> u32 {
    match edge {
        Some(EdgeId(2)) => spare.saturating_sub(1),
        _ => spare,
    }
}

/// The formulas where the topmost of them is true.
fn if_true(formulas: Vec<TermId>, topmost: Formula) -> Option<Vec<TermId>>
    ensures { IfSome result (λ fs. (fs.items ≡ formulas.items) × (topmost ≡ Always)) }
{
    match topmost {
        Formula::Always => Some(formulas),
        Formula::IsZero | Formula::Never => None,
    }
}

/// Formulas along the path of a leaf, from the leaf up to the root: false at the leaf, x = 0 above it as long as at most
/// `spare` edges that ask for x = 0 are passed, and true from there on. There are none where these are no chain.
pub fn chain_up(
    alloc: Global,
    vertices: &[Vertex],
    leaf: VertexId,
    spare: u32,
) -> Result<Option<Vec<TermId>>, Memory>
    ensures { IfOk result (λ r. IfSome r (λ fs. (last : ℕ) → IsChain last vertices.now leaf (reverse fs.items))) }
{
    let mut formulas = Vec::new(alloc);
    formulas.push(Formula::Never.term())?;
    let mut below = Formula::Never;
    let mut at = leaf.0;
    let mut spare = spare;
    let mut left = vertices.len();
    while left > 0 {
        let Some(parent) = parent_of(vertices, at as usize) else {
            return Ok(if_true(formulas, below));
        };
        let edge = edge_of(vertices, at as usize);
        let Some(formula) = above(edge, below, spare) else {
            return Ok(None);
        };
        formulas.push(formula.term())?;
        below = formula;
        spare = spared(edge, spare);
        at = parent.0;
        left -= 1;
    }
    Ok(None)
}
