//! Walks through a graph that draw listed values.

use crate::walking::{Inputs, Stop, walk_on};
use c_graph::{Graph, Origin};
use row_text::RowFail;
use std::alloc::Global;

/// A walk: where it stopped, and how many values it drew.
#[derive(Clone, Copy, Debug, Drop, PartialEq)]
pub struct ListedWalk {
    /// Where it stopped.
    pub stop: Stop,
    /// How many of the values it drew.
    pub drawn: usize,
}

// Values of a list, and how many of them were drawn.
#[derive(Drop)]
struct Listed<'a> {
    values: &'a [i128],
    drawn: usize,
}

impl Inputs for Listed<'_> {
    fn next(&mut self, width: u32, signed: bool) -> Result<Option<u128>, RowFail> {
        let Some(value) = self.values.get(self.drawn).copied() else {
            return Ok(None);
        };
        self.drawn = self.drawn.saturating_add(1);
        Ok(Some(bits_of(value, width, signed)?))
    }
}

/// The walk from the entry that draws these values. The first cells begin with the given values and the others with 0, but for saved
/// cells, which begin with a value of their own.
///
/// Fails as [`walk_on`].
pub fn walk_listed(
    alloc: Global,
    graph: &Graph,
    firsts: &[u128],
    saved: u128,
    values: &[i128],
) -> Result<ListedWalk, RowFail> {
    let store = first_store(alloc, graph, firsts, saved)?;
    let mut inputs = Listed { values, drawn: 0 };
    let stop = walk_on(alloc, graph, store, &mut inputs)?;
    let drawn = inputs.drawn;
    Ok(ListedWalk { stop, drawn })
}

fn first_store(
    alloc: Global,
    graph: &Graph,
    firsts: &[u128],
    saved: u128,
) -> Result<Vec<u128>, RowFail> {
    let mut store = Vec::new(alloc);
    for (number, cell) in graph.cells().iter().enumerate() {
        let first = match cell.origin {
            Origin::Element(_, _) => firsts.get(number).copied().unwrap_or(0),
            Origin::Saved => saved,
        };
        store.push(first)?;
    }
    Ok(store)
}

// The bits of a number of a width, at most 64, in the signed range or in the unsigned one.
fn bits_of(number: i128, width: u32, signed: bool) -> Result<u128, RowFail> {
    let many = 1i128 << width.min(64);
    let least = if signed {
        0i128.saturating_sub(many / 2)
    } else {
        0
    };
    if number < least || number >= least.saturating_add(many) {
        return Err(RowFail::Bad);
    }
    let bits = if number < 0 {
        number.saturating_add(many)
    } else {
        number
    };
    match u128::try_from(bits) {
        Ok(bits) => Ok(bits),
        Err(_) => Err(RowFail::Bad),
    }
}
