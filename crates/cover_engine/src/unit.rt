ghost use Rattle.std.specs.Prelude.{◌≡◌};

use bv_term::TermId;
use c_graph::Store;
use reach_tree::VertexId;
use std::marker::Model;

/// The formulas of a path, one for each of its vertices, from the root on. Contracts see the list of them.
#[derive(Drop)]
pub struct FormulaList {
    terms: Vec<TermId>,
}

impl Model for FormulaList {
    ghost use Rattle.std.specs.Prelude.{List};
    ghost use Rattle.bv_term.specs.declared.term.TermId.{TermId};

    ghost Value = { List TermId };

    ghost view = { λ f. f.terms.items };
}

impl FormulaList {
    /// The formulas of these terms. It takes no memory.
    pub fn new(terms: Vec<TermId>) -> FormulaList
        ensures { result ≡ terms.items }
    {
        FormulaList { terms }
    }

    /// The formulas in order.
    pub fn as_slice(&self) -> &[TermId]
        ensures { result.now ≡ self.now }
    {
        &self.terms
    }
}

/// One unit of the method, as the journal keeps it.
#[derive(Drop)]
pub enum UnitDone {
    /// A leaf got its children.
    Expand(VertexId),
    /// The path of an error leaf was strengthened by formulas.
    Refine(VertexId, FormulaList),
    /// The first vertex was covered by the second.
    CoverYes(VertexId, VertexId),
    /// The first vertex is not covered by the second: the store meets its label and not the other's.
    CoverNo(VertexId, VertexId, Store),
}

/// A pair that a store kept apart, with the versions of both labels then.
#[derive(Clone, Copy, Debug, PartialEq, Eq)]
pub struct Apart {
    /// The vertex that was not covered.
    pub left: VertexId,
    /// The vertex that did not cover it.
    pub right: VertexId,
    /// The left label's version.
    pub left_version: u32,
    /// The right label's version.
    pub right_version: u32,
}
