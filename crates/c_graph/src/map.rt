ghost use Rattle.std.specs.Prelude.{◌≡◌};
ghost use Rattle.c_graph.specs.Runs.{Formulas};

use bv_term::{TermId, Terms};
use std::marker::Model;

/// A map: a table of terms, and for each node of a graph the term that is its formula.
#[derive(Drop)]
pub struct Map {
    terms: Terms,
    at: Vec<TermId>,
}

impl Model for Map {
    ghost use Rattle.c_graph.specs.Runs.{Formulas};

    ghost Value = { Formulas };

    ghost view = { λ m. record { terms = m.terms; at = m.at.items } };
}

impl Map {
    /// The map of these parts. It takes no memory.
    pub fn new(terms: Terms, at: Vec<TermId>) -> Map
        ensures { result ≡ record { terms = terms; at = at.items } }
    {
        Map { terms, at }
    }

    /// The table of terms.
    pub fn terms(&self) -> &Terms
        ensures { result.now ≡ self.now.terms }
    {
        &self.terms
    }

    /// The formula of each node, by number.
    pub fn at(&self) -> &[TermId]
        ensures { result.now ≡ self.now.at }
    {
        &self.at
    }
}
