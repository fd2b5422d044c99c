//! `store CELLS ; CELL VALUE .. = VALUES`: a store that names values of some cells, and the values of all.
//! `map WIDTHS ; TERM = COUNT NUMBERS`: a map over the table that the term makes, with the number of its terms and that of the
//! term, which the map has at its only node.

use bv_term::{TermId, Terms, are_widths};
use c_graph::{Map, Named, Store};
use row_text::{RowFail, Table, fields, half, halves, number, numbers, one_term, wides};
use std::alloc::Global;

// The named values: a cell and its value each.
fn named_in(alloc: Global, text: &str) -> Result<Vec<Named>, RowFail> {
    let found = wides(alloc, text)?;
    let mut named = Vec::new(alloc);
    for i in 0..found.len() / 2 {
        let Ok(cell) = u32::try_from(found[2 * i]) else {
            return Err(RowFail::Bad);
        };
        named.push(Named {
            cell,
            value: found[2 * i + 1],
        })?;
    }
    Ok(named)
}

// Whether each cell has its value.
fn has_each(store: &Store, values: &[u128]) -> bool {
    let mut cell = 0u32;
    for value in values {
        if cell >= store.cells() || store.value(cell) != *value {
            return false;
        }
        cell = cell.saturating_add(1);
    }
    cell == store.cells()
}

// Tries the row of a store.
fn has_values(alloc: Global, rest: &str) -> Result<bool, RowFail> {
    let (inputs, wanted) = halves(rest)?;
    let mut parts = inputs.split(';');
    let cells = number(Some(half(parts.next())?))?;
    let store = Store::new(cells, named_in(alloc, half(parts.next())?)?);
    let wanted = wides(alloc, wanted)?;
    let copy = store.copy()?;
    let again = Store::new(cells, store.named().to_vec(alloc)?);
    Ok(
        has_each(&store, &wanted)
            && has_each(&copy, &wanted)
            && has_each(&again, &wanted)
            && store.values(alloc)?.as_slice() == wanted.as_slice(),
    )
}

// Tries the row of a map.
fn maps(alloc: Global, rest: &str) -> Result<bool, RowFail> {
    let (inputs, wanted) = halves(rest)?;
    let mut parts = inputs.split(';');
    let widths = numbers(alloc, half(parts.next())?)?;
    if !are_widths(&widths) {
        return Err(RowFail::Bad);
    }
    let mut terms = Terms::new(alloc, widths);
    let Some(id) = one_term(alloc, &mut terms, TermId(0), half(parts.next())?)? else {
        return Err(RowFail::Bad);
    };
    let mut at = Vec::new(alloc);
    at.push(id)?;
    let map = Map::new(terms, at);
    let wanted = numbers(alloc, wanted)?;
    if wanted.len() != 2 || map.at().len() != 1 {
        return Ok(false);
    }
    Ok(map.terms().count() == wanted[0] && map.at()[0].0 == wanted[1])
}

/// Rows of stores and maps.
#[derive(Drop)]
pub(crate) struct StoreRows;

impl Table for StoreRows {
    fn is_so(&mut self, alloc: Global, row: &str) -> Result<bool, RowFail> {
        let (kind, rest) = fields(row);
        match kind {
            "store" => has_values(alloc, rest),
            "map" => maps(alloc, rest),
            _ => Err(RowFail::Bad),
        }
    }
}
