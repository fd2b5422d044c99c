//! Tables of formulas over bits of cells. Of each formula that a row builds, the term that it is
//! written as has the formula's own truth in all stores, where these have at most eight bits.
//!
//! `table CELLS ; FORMULA = TRUTHS`: the truth in each store, in the order of the stores' numbers, whose low bits are the first
//! cell's. `same CELLS ; FORMULA = FORMULA`: both get one number. `other`: they do not. `end CELLS ; FORMULA = 0`: it is false,
//! and true with 1. `large MOST ; CELLS ; FORMULA`: it needs more than that many nodes; `small`: it does not.
#![tactic(auto)]

mod formulas;
mod rows;
mod truths;

use crate::rows::DiagramRows;
use row_text::{Library, Refusal, Rows, Stated};
use std::rt::Files;

/// Tables of formulas.
#[derive(Clone, Copy)]
pub struct DiagramTables;

impl Library for DiagramTables {
    fn try_rows<R>(&mut self, rt: &R, name: &str) -> Result<u64, Refusal>
    where
        R: AllocGlobal + Files + Print + Clone + Drop,
    {
        let table = DiagramRows;
        Rows {
            table: Stated { table },
        }
        .try_rows(rt, name)
    }
}
