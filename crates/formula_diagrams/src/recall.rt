//! What joined pairs were found to be, with hints where it is written down.

ghost use Rattle.std.specs.Prelude.{◌≡◌, ◌∷◌, ◌++◌, [], List, IfSome, OnOk, OnErr};
ghost use Rattle.formula_diagrams.specs.Shape.{Arena};
ghost use Rattle.formula_diagrams.specs.Joins.{AllRight, Means};

use crate::items::NodeId;
use crate::pairs::{Join, Pair};
use lv_base::Memory;
use std::alloc::Global;
use std::collections::HashMap;
use std::marker::Model;

/// A joined pair and its number.
#[derive(Clone, Copy)]
pub struct Known {
    pub how: Join,
    pub pair: Pair,
    pub node: NodeId,
}

/// Joined pairs, and where each is written down, as a hint.
#[derive(Drop)]
pub struct Recall {
    known: Vec<Known>,
    places: HashMap<(Join, Pair), usize>,
}

impl Model for Recall {
    ghost use Rattle.std.specs.Prelude.{List};
    ghost use Rattle.formula_diagrams.specs.declared.recall.Known.{Known};

    ghost Value = { List Known };

    ghost view = { λ r. r.known.items };
}

impl Recall {
    /// Nothing is known. It takes no memory.
    pub fn new(alloc: Global) -> Recall
        ensures { result ≡ [] }
    {
        Recall {
            known: Vec::new(alloc),
            places: HashMap::new(alloc),
        }
    }

    /// The number of a joined pair, if it stands where it is looked for.
    pub fn find(&self, how: Join, pair: Pair) -> Option<NodeId>
        ensures { (a : Arena) → AllRight a self.now → IfSome result (λ n. Means a how pair n) }
    {
        let place = self.places.get(&(how, pair)).copied()?;
        if place < self.known.len() {
            let known = self.known[place];
            if known.how == how && known.pair == pair {
                return Some(known.node);
            }
        }
        None
    }

    /// Writes a pair down.
    pub fn add(&mut self, known: Known) -> Result<(), Memory>
        ensures added { OnOk result (self.new ≡ self.old ++ known ∷ []) }
        ensures unchanged { OnErr result (self.new ≡ self.old) }
    {
        let place = self.known.len();
        if self.places.insert((known.how, known.pair), place).is_err() {
            return Err(Memory);
        }
        if self.known.push(known).is_err() {
            return Err(Memory);
        }
        Ok(())
    }
}
