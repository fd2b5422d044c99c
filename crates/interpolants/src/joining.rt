//! Formulas by numbers, made as decision diagrams or as terms.

ghost use Rattle.std.specs.Prelude.{◌≡◌, ◌+◌, ◌<◌, ℕ, Bool, not, ◌&&◌, ◌||◌, List, IfOk};
ghost use Rattle.formula_diagrams.specs.Shape.{IsBitIn};
ghost use Rattle.formula_diagrams.specs.Truths.{choice, is_set};
ghost use Rattle.prop.specs.Steps.{same_sign};

use crate::items::Formula;
use crate::plain::{put_bit, put_both, put_either, put_end, put_not, put_same};
use bv_term::{TermId, Terms};
use formula_diagrams::{BitOf, DiagramFail, Diagrams, NodeId};
use lv_base::Memory;
use std::alloc::Global;

/// What formulas over bits of cells are made in.
pub trait Algebra {
    ghost use Rattle.interpolants.specs.declared.items.Formula.{Formula};

    /// Why there is no formula.
    type Fail: Drop;

    /// The widths of the cells.
    ghost cells: { Self → List ℕ };

    /// The number is that of a formula.
    ghost has: { Self → Formula → Type 0 };

    /// The truth of a formula in a store.
    ghost truth: { Self → Formula → List ℕ → Bool };

    /// The second has what the first has, and further formulas.
    ghost keeps: { Self → Self → Type 0 };

    /// True, or false.
    fn constant(&mut self, value: bool) -> Result<Formula, Self::Fail>
        ensures keeps { keeps self.old self.new }
        ensures made { IfOk result (has self.new) }
        ensures told { IfOk result (λ r. (store : List ℕ) → truth self.new r store ≡ value) };

    /// What is true where the bit has this value.
    fn bit(&mut self, alloc: Global, bit: BitOf, value: bool) -> Result<Formula, Self::Fail>
        requires { IsBitIn (cells self.old) bit }
        ensures keeps { keeps self.old self.new }
        ensures made { IfOk result (has self.new) }
        ensures told { IfOk result (λ r. (store : List ℕ) → truth self.new r store ≡ same_sign value (is_set store bit)) };

    /// What is true where both are.
    fn both(&mut self, alloc: Global, left: Formula, right: Formula) -> Result<Formula, Self::Fail>
        requires left { has self.old left }
        requires right { has self.old right }
        ensures keeps { keeps self.old self.new }
        ensures made { IfOk result (has self.new) }
        ensures told { IfOk result (λ r. (store : List ℕ) → truth self.new r store ≡ (truth self.old left store && truth self.old right store)) };

    /// What is true where one of them is.
    fn either(
        &mut self,
        alloc: Global,
        left: Formula,
        right: Formula,
    ) -> Result<Formula, Self::Fail>
        requires left { has self.old left }
        requires right { has self.old right }
        ensures keeps { keeps self.old self.new }
        ensures made { IfOk result (has self.new) }
        ensures told { IfOk result (λ r. (store : List ℕ) → truth self.new r store ≡ (truth self.old left store || truth self.old right store)) };

    /// What is true where both have one truth.
    fn same(&mut self, alloc: Global, left: Formula, right: Formula) -> Result<Formula, Self::Fail>
        requires left { has self.old left }
        requires right { has self.old right }
        ensures keeps { keeps self.old self.new }
        ensures made { IfOk result (has self.new) }
        ensures told { IfOk result (λ r. (store : List ℕ) → truth self.new r store ≡ choice (truth self.old left store) (truth self.old right store) (not (truth self.old right store))) };

    // Each keeps what it has.
    ghost none: { (a : Self) → keeps a a };

    // What is kept twice is kept.
    ghost again: { (a b c : Self) → keeps a b → keeps b c → keeps a c };

    // Formulas stay.
    ghost stays: { (a b : Self) (f : Formula) → keeps a b → has a f → has b f };

    // Truths stay.
    ghost truth_stays: { (a b : Self) (f : Formula) (store : List ℕ) → keeps a b → has a f → truth b f store ≡ truth a f store };

    // The cells stay.
    ghost same_cells: { (a b : Self) → keeps a b → cells b ≡ cells a };
}

impl Algebra for Diagrams {
    ghost use Rattle.formula_diagrams.specs.Shape.{Grown, count};
    ghost use Rattle.interpolants.specs.Keeping.{grown-none, grown-twice, node_truth, node-stays, number-stays, cells-grown};

    type Fail = DiagramFail;

    ghost cells = { λ a. a.cells };

    ghost has = { λ a f. f.0 < count a };

    ghost truth = { node_truth };

    ghost keeps = { Grown };

    ghost none = { grown-none };

    ghost again = { grown-twice };

    ghost stays = { number-stays };

    ghost truth_stays = { node-stays };

    ghost same_cells = { cells-grown };

    fn constant(&mut self, value: bool) -> Result<Formula, DiagramFail> {
        Ok(Formula(self.end(value).0))
    }

    fn bit(&mut self, alloc: Global, bit: BitOf, value: bool) -> Result<Formula, DiagramFail> {
        let node = Diagrams::bit(self, bit)?;
        if value {
            return Ok(Formula(node.0));
        }
        let other = self.negated(alloc, node)?;
        Ok(Formula(other.0))
    }

    fn both(
        &mut self,
        alloc: Global,
        left: Formula,
        right: Formula,
    ) -> Result<Formula, DiagramFail> {
        let node = Diagrams::both(self, alloc, NodeId(left.0), NodeId(right.0))?;
        Ok(Formula(node.0))
    }

    fn either(
        &mut self,
        alloc: Global,
        left: Formula,
        right: Formula,
    ) -> Result<Formula, DiagramFail> {
        let node = Diagrams::either(self, alloc, NodeId(left.0), NodeId(right.0))?;
        Ok(Formula(node.0))
    }

    fn same(
        &mut self,
        alloc: Global,
        left: Formula,
        right: Formula,
    ) -> Result<Formula, DiagramFail> {
        let node = Diagrams::same(self, alloc, NodeId(left.0), NodeId(right.0))?;
        Ok(Formula(node.0))
    }
}

impl Algebra for Terms {
    ghost use Rattle.bv_term.specs.Laws.{Extends};
    ghost use Rattle.interpolants.specs.Keeping.{IsTerm, extends-none, extends-twice, term_truth, term-stays, value-stays, cells-extend};

    type Fail = Memory;

    ghost cells = { λ t. t.cells };

    ghost has = { IsTerm };

    ghost truth = { term_truth };

    ghost keeps = { Extends };

    ghost none = { extends-none };

    ghost again = { extends-twice };

    ghost stays = { term-stays };

    ghost truth_stays = { value-stays };

    ghost same_cells = { cells-extend };

    fn constant(&mut self, value: bool) -> Result<Formula, Memory> {
        let term = put_end(self, value)?;
        Ok(Formula(term.0))
    }

    fn bit(&mut self, _: Global, bit: BitOf, value: bool) -> Result<Formula, Memory> {
        let term = put_bit(self, bit)?;
        if value {
            return Ok(Formula(term.0));
        }
        let other = put_not(self, term)?;
        Ok(Formula(other.0))
    }

    fn both(&mut self, _: Global, left: Formula, right: Formula) -> Result<Formula, Memory> {
        let term = put_both(self, TermId(left.0), TermId(right.0))?;
        Ok(Formula(term.0))
    }

    fn either(&mut self, _: Global, left: Formula, right: Formula) -> Result<Formula, Memory> {
        let term = put_either(self, TermId(left.0), TermId(right.0))?;
        Ok(Formula(term.0))
    }

    fn same(&mut self, _: Global, left: Formula, right: Formula) -> Result<Formula, Memory> {
        let term = put_same(self, TermId(left.0), TermId(right.0))?;
        Ok(Formula(term.0))
    }
}
