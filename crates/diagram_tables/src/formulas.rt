//! Formulas in prefix form: `bit CELL BIT`, `true`, `false`, and `not`, `and`, `or`, `same` before their operands.

use formula_diagrams::{BitOf, DiagramFail, Diagrams, NodeId};
use row_text::{RowFail, number};
use std::alloc::{AllocFailed, Global};

/// Why a formula has no number.
#[derive(Clone, Copy)]
pub(crate) enum BuildFail {
    /// The text is none of a formula.
    Bad,
    /// It needs more nodes than there may be.
    TooLarge,
    /// Memory ran out.
    Memory,
}

impl From<RowFail> for BuildFail {
    fn from(fail: RowFail) -> BuildFail {
        match fail {
            RowFail::Bad => BuildFail::Bad,
            RowFail::Memory => BuildFail::Memory,
        }
    }
}

impl From<DiagramFail> for BuildFail {
    fn from(fail: DiagramFail) -> BuildFail {
        match fail {
            DiagramFail::TooLarge => BuildFail::TooLarge,
            DiagramFail::Memory => BuildFail::Memory,
        }
    }
}

impl<T: Drop> From<AllocFailed<T>> for BuildFail {
    fn from(_: AllocFailed<T>) -> BuildFail {
        BuildFail::Memory
    }
}

impl From<BuildFail> for RowFail {
    fn from(fail: BuildFail) -> RowFail {
        match fail {
            BuildFail::Memory => RowFail::Memory,
            BuildFail::Bad | BuildFail::TooLarge => RowFail::Bad,
        }
    }
}

// What a word behind the one that is read stands for.
#[derive(Clone, Copy)]
enum Item {
    Number(u32),
    Formula(NodeId),
}

fn number_on(items: &mut Vec<Item>) -> Result<u32, BuildFail> {
    match items.pop() {
        Some(Item::Number(n)) => Ok(n),
        _ => Err(BuildFail::Bad),
    }
}

fn formula_on(items: &mut Vec<Item>) -> Result<NodeId, BuildFail> {
    match items.pop() {
        Some(Item::Formula(id)) => Ok(id),
        _ => Err(BuildFail::Bad),
    }
}

fn bit_on(diagrams: &mut Diagrams, items: &mut Vec<Item>) -> Result<NodeId, BuildFail> {
    let cell = number_on(items)?;
    let bit = BitOf {
        cell,
        bit: number_on(items)?,
    };
    if !diagrams.fits(bit) {
        return Err(BuildFail::Bad);
    }
    let id = diagrams.bit(bit)?;
    Ok(id)
}

fn not_on(
    alloc: Global,
    diagrams: &mut Diagrams,
    items: &mut Vec<Item>,
) -> Result<NodeId, BuildFail> {
    let of = formula_on(items)?;
    if of.0 >= diagrams.count() {
        return Err(BuildFail::Bad);
    }
    let id = diagrams.negated(alloc, of)?;
    Ok(id)
}

fn joined_on(
    alloc: Global,
    diagrams: &mut Diagrams,
    items: &mut Vec<Item>,
    how: &str,
) -> Result<NodeId, BuildFail> {
    let left = formula_on(items)?;
    let right = formula_on(items)?;
    let count = diagrams.count();
    if left.0 >= count || right.0 >= count {
        return Err(BuildFail::Bad);
    }
    let id = match how {
        "and" => diagrams.both(alloc, left, right)?,
        "or" => diagrams.either(alloc, left, right)?,
        "same" => diagrams.same(alloc, left, right)?,
        _ => return Err(BuildFail::Bad),
    };
    Ok(id)
}

// The formula of a word, whose operands are the last items.
fn formula_at(
    alloc: Global,
    diagrams: &mut Diagrams,
    items: &mut Vec<Item>,
    word: &str,
) -> Result<NodeId, BuildFail> {
    match word {
        "true" => Ok(diagrams.end(true)),
        "false" => Ok(diagrams.end(false)),
        "bit" => bit_on(diagrams, items),
        "not" => not_on(alloc, diagrams, items),
        _ => joined_on(alloc, diagrams, items, word),
    }
}

/// Formulas that texts build.
pub(crate) trait Formulas {
    /// The number of the formula of a text.
    fn formula_of(&mut self, alloc: Global, text: &str) -> Result<NodeId, BuildFail>;
}

impl Formulas for Diagrams {
    fn formula_of(&mut self, alloc: Global, text: &str) -> Result<NodeId, BuildFail> {
        let mut items = Vec::new(alloc);
        for word in text.split_ascii_whitespace().rev() {
            let item = match number(Some(word)) {
                Ok(n) => Item::Number(n),
                Err(_) => Item::Formula(formula_at(alloc, self, &mut items, word)?),
            };
            items.push(item)?;
        }
        let id = formula_on(&mut items)?;
        if items.is_empty() {
            Ok(id)
        } else {
            Err(BuildFail::Bad)
        }
    }
}
