//! The bits of a cut's cells, with the literals that stand for them.

ghost use Rattle.std.specs.Prelude.{◌≡◌, ◌≤◌, ◌<◌, ℕ, List, [], ◌∷◌, ◌++◌, All, IfSome, IfNone, IfOk, OnOk, slice_get, Some, length};
ghost use Rattle.bv_term.specs.WellFormed.{IsWidth};
ghost use Rattle.formula_diagrams.specs.Shape.{IsBitIn};
ghost use Rattle.path_query.specs.Facts.{IsBundle};
ghost use Rattle.interpolants.specs.Cuts.{AreCutBits, IsPlaced};
ghost use Rattle.interpolants.specs.Meanings.{HasBit, IsBitOf, IsPaired, IsPlacing};
ghost use Rattle.interpolants.specs.Placings.{SameBits, bit_at, bits_of, row};

use crate::items::{Placed, Twins};
use formula_diagrams::BitOf;
use lv_base::Memory;
use path_query::Bundle;
use std::alloc::Global;
use std::collections::HashMap;

/// No cell is wider.
const MOST_BITS: usize = 128;

/// The bits of a cut's cells; where the last bit with each variable stands, as a hint; and each bit beside the one before it with the
/// same variable. All that share a variable agree where each agrees with the one before it.
///
/// Bits stand as diagrams ask for them, from the last to the first. So what says that twins agree is made from below, each step looking
/// at few nodes, and a variable is asked for by the first of its bits.
#[derive(Drop)]
pub struct CutBits {
    pub bits: Vec<Placed>,
    places: HashMap<u32, usize>,
    pub twins: Vec<Twins>,
}

impl CutBits {
    fn new(alloc: Global) -> CutBits
        ensures placing { IsPlacing result }
        ensures none { result.bits.items ≡ [] }
        ensures bits { (cells : List ℕ) → AreCutBits cells result }
    {
        CutBits {
            bits: Vec::new(alloc),
            places: HashMap::new(alloc),
            twins: Vec::new(alloc),
        }
    }

    /// A bit whose literal has the variable.
    pub fn find(&self, var: u32) -> Option<Placed>
        ensures bit { (cells : List ℕ) → AreCutBits cells self.now → IfSome result (IsPlaced cells) }
        ensures found { IfSome result (IsBitOf self.now.bits.items var) }
        ensures none { IsPlacing self.now → IfNone result (HasBit self.now.bits.items var → ⊥) }
    {
        let place = self.places.get(&var).copied()?;
        let placed = self.bits.get(place).copied()?;
        if placed.lit.var == var {
            return Some(placed);
        }
        None
    }

    // Puts a bit beside the one before it with the same variable.
    fn pair_up(&mut self, placed: Placed) -> Result<(), Memory>
        ensures paired { IsPlacing self.old → OnOk result (IsPaired self.old self.new placed) }
        ensures kept { self.new.bits.items ≡ self.old.bits.items }
        ensures bits { (cells : List ℕ) → IsPlaced cells placed → AreCutBits cells self.old → AreCutBits cells self.new }
    {
        match self.find(placed.lit.var) {
            Some(other) => {
                self.twins.push(Twins { one: placed, other })?;
                Ok(())
            }
            None => Ok(()),
        }
    }

    fn add(&mut self, placed: Placed) -> Result<(), Memory>
        ensures placing { IsPlacing self.old → OnOk result (IsPlacing self.new) }
        ensures bits { (cells : List ℕ) → IsPlaced cells placed → AreCutBits cells self.old → AreCutBits cells self.new }
        ensures added { OnOk result (self.new.bits.items ≡ self.old.bits.items ++ placed ∷ []) }
    {
        self.pair_up(placed)?;
        self.places.insert(placed.lit.var, self.bits.len())?;
        self.bits.push(placed)?;
        Ok(())
    }
}

// Adds a bit of a cell, if the cell has it.
fn place_bit(bits: &mut CutBits, bundle: &Bundle, bit: u32) -> Result<(), Memory>
    ensures placing { IsPlacing bits.old → OnOk result (IsPlacing bits.new) }
    ensures bits { (cells : List ℕ) → IsBundle cells bundle.now → AreCutBits cells bits.old → AreCutBits cells bits.new }
    ensures added { OnOk result (bits.new.bits.items ≡ bits.old.bits.items ++ bit_at bundle.now bit) }
{
    let lits = bundle.bits.as_slice();
    let at = bit as usize;
    if at >= lits.len() {
        return Ok(());
    }
    let cell = bundle.cell;
    bits.add(Placed {
        bit: BitOf { cell, bit },
        lit: lits[at],
    })
}

// Adds one bit of each cell that has it, the last cell first.
fn place_row(bits: &mut CutBits, bundles: &[Bundle], bit: u32) -> Result<(), Memory>
    ensures placing { IsPlacing bits.old → OnOk result (IsPlacing bits.new) }
    ensures bits { (cells : List ℕ) → All (IsBundle cells) bundles.now → AreCutBits cells bits.old → AreCutBits cells bits.new }
    ensures added { OnOk result (bits.new.bits.items ≡ bits.old.bits.items ++ row bundles.now bit) }
{
    for back in 0..bundles.len() {
        place_bit(bits, &bundles[bundles.len() - 1 - back], bit)?;
    }
    Ok(())
}

// The bits of the widest cell.
fn widest(bundles: &[Bundle]) -> u32
    ensures { All (λ b. length b.bits ≤ 128 → length b.bits ≤ result) bundles.now }
{
    let mut most = 0u32;
    for bundle in bundles {
        let width = bundle.bits.as_slice().len().min(MOST_BITS);
        most = most.max(width as u32);
    }
    most
}

/// The bits of a cut's cells.
pub fn place_bits(alloc: Global, bundles: &[Bundle]) -> Result<CutBits, Memory>
    ensures placing { IfOk result IsPlacing }
    ensures bits { (cells : List ℕ) → All (IsBundle cells) bundles.now → IfOk result (AreCutBits cells) }
    ensures same { (cells : List ℕ) → All IsWidth cells → All (IsBundle cells) bundles.now → IfOk result (λ b. SameBits (bits_of bundles.now) b.bits.items) }
{
    let mut bits = CutBits::new(alloc);
    for bit in 0..widest(bundles) {
        place_row(&mut bits, bundles, bit)?;
    }
    Ok(bits)
}
