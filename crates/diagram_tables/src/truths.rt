//! The truth of a formula in a store, read from its text alone.

use row_text::{RowFail, number};
use std::alloc::Global;

#[derive(Clone, Copy)]
enum Item {
    Number(u32),
    Truth(bool),
}

fn number_on(items: &mut Vec<Item>) -> Result<u32, RowFail> {
    match items.pop() {
        Some(Item::Number(n)) => Ok(n),
        _ => Err(RowFail::Bad),
    }
}

fn truth_on(items: &mut Vec<Item>) -> Result<bool, RowFail> {
    match items.pop() {
        Some(Item::Truth(truth)) => Ok(truth),
        _ => Err(RowFail::Bad),
    }
}

fn bit_on(store: &[u128], items: &mut Vec<Item>) -> Result<bool, RowFail> {
    let cell = number_on(items)?;
    let bit = number_on(items)?;
    match store.get(cell as usize).copied() {
        Some(value) => Ok(value.checked_shr(bit).unwrap_or(0) % 2 == 1),
        None => Err(RowFail::Bad),
    }
}

fn joined_on(items: &mut Vec<Item>, how: &str) -> Result<bool, RowFail> {
    let left = truth_on(items)?;
    let right = truth_on(items)?;
    match how {
        "and" => Ok(left && right),
        "or" => Ok(left || right),
        "same" => Ok(left == right),
        _ => Err(RowFail::Bad),
    }
}

fn truth_at(store: &[u128], items: &mut Vec<Item>, word: &str) -> Result<bool, RowFail> {
    match word {
        "true" => Ok(true),
        "false" => Ok(false),
        "bit" => bit_on(store, items),
        "not" => Ok(!truth_on(items)?),
        _ => joined_on(items, word),
    }
}

/// What formulas are in a store.
pub(crate) trait Truths {
    /// The truth of the formula of a text.
    fn truth_of(&self, alloc: Global, text: &str) -> Result<bool, RowFail>;
}

impl Truths for &[u128] {
    fn truth_of(&self, alloc: Global, text: &str) -> Result<bool, RowFail> {
        let mut items = Vec::new(alloc);
        for word in text.split_ascii_whitespace().rev() {
            let item = match number(Some(word)) {
                Ok(n) => Item::Number(n),
                Err(_) => Item::Truth(truth_at(self, &mut items, word)?),
            };
            items.push(item)?;
        }
        truth_on(&mut items)
    }
}
