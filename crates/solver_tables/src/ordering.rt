//! `order VARIABLES ; STEP ; ..`: steps over the order in which variables are decided. `bump VARIABLE TIMES`; `decay`;
//! `turns COUNT VARIABLES`: so many decays, behind each of which the next of the variables is bumped, round and round;
//! `take VARIABLES`: they go out one after another; `any COUNT`: so many go out; `empty`: none is left; `back VARIABLE true`,
//! or `false`: it comes back, and was that last; `true VARIABLES` and `false VARIABLES`: what they were last.

use activity_heap::Order;
use row_text::{RowFail, Table, fields, half, number, numbers};
use std::alloc::Global;

fn bump_one(order: &mut Order, number: u32) -> Result<(), RowFail> {
    if number as usize >= order.phases.len() {
        return Err(RowFail::Bad);
    }
    order.bump(number);
    Ok(())
}

fn bump(order: &mut Order, rest: &str) -> Result<bool, RowFail> {
    let (var, times) = fields(rest);
    let var = number(Some(var))?;
    for _ in 0..number(Some(times))? {
        bump_one(order, var)?;
    }
    Ok(true)
}

fn turns(alloc: Global, order: &mut Order, rest: &str) -> Result<bool, RowFail> {
    let (count, vars) = fields(rest);
    let vars = numbers(alloc, vars)?;
    if vars.is_empty() {
        return Err(RowFail::Bad);
    }
    for turn in 0..number(Some(count))? {
        order.decay();
        bump_one(order, vars[turn as usize % vars.len()])?;
    }
    Ok(true)
}

fn take(alloc: Global, order: &mut Order, rest: &str) -> Result<bool, RowFail> {
    for wanted in &numbers(alloc, rest)? {
        if order.take() != Some(*wanted) {
            return Ok(false);
        }
    }
    Ok(true)
}

fn take_any(order: &mut Order, rest: &str) -> Result<bool, RowFail> {
    for _ in 0..number(Some(rest))? {
        if order.take().is_none() {
            return Ok(false);
        }
    }
    Ok(true)
}

fn put_back(order: &mut Order, rest: &str) -> Result<bool, RowFail> {
    let (var, phase) = fields(rest);
    let var = number(Some(var))?;
    if var as usize >= order.phases.len() {
        return Err(RowFail::Bad);
    }
    order.put_back(var, phase == "true")?;
    Ok(true)
}

fn were(alloc: Global, order: &Order, rest: &str, wanted: bool) -> Result<bool, RowFail> {
    for var in &numbers(alloc, rest)? {
        if order.phases.get(*var as usize).copied() != Some(wanted) {
            return Ok(false);
        }
    }
    Ok(true)
}

fn step(alloc: Global, order: &mut Order, part: &str) -> Result<bool, RowFail> {
    let (word, rest) = fields(part);
    match word {
        "bump" => bump(order, rest),
        "decay" => {
            order.decay();
            Ok(true)
        }
        "turns" => turns(alloc, order, rest),
        "take" => take(alloc, order, rest),
        "any" => take_any(order, rest),
        "empty" => Ok(order.take().is_none()),
        "back" => put_back(order, rest),
        "true" => were(alloc, order, rest, true),
        "false" => were(alloc, order, rest, false),
        _ => Err(RowFail::Bad),
    }
}

// Tries the row.
fn goes(alloc: Global, rest: &str) -> Result<bool, RowFail> {
    let mut parts = rest.split(';');
    let mut order = Order::new(alloc, number(Some(half(parts.next())?))?)?;
    for part in parts {
        if !step(alloc, &mut order, part)? {
            return Ok(false);
        }
    }
    Ok(true)
}

/// Rows of the order of the variables.
#[derive(Drop)]
pub(crate) struct OrderRows;

impl Table for OrderRows {
    fn is_so(&mut self, alloc: Global, row: &str) -> Result<bool, RowFail> {
        let (kind, rest) = fields(row);
        match kind {
            "order" => goes(alloc, rest),
            _ => Err(RowFail::Bad),
        }
    }
}
