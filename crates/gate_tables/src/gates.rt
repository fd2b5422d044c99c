//! `gate KIND WIDTH ; A B CARRY = OUT MORE ; ..`: what the gate gives, under the one assignment that its clauses make of its
//! inputs; MORE is an adder's carry, a divider's remainder, and 0 at others.
//! `size KIND WIDTH = LITERALS CLAUSES VARIABLES`: what the gate adds.
ghost use Rattle.std.specs.Prelude.{◌≡◌, ◌≤◌, ◌<◌, length};
ghost use Rattle.prop.specs.Logic.{LitsBelow};

use crate::{are_met, number_of, push_bits, settle};
use bit_gates::{Shift, adder, are_below, divider, equal, less, multiplier, shifter};
use prop::{Clauses, Lit};
use row_text::{RowFail, Table, fields, halves, number, wides};
use std::alloc::Global;

#[derive(Clone, Copy, Debug, PartialEq)]
enum Gate {
    Adder,
    Multiplier,
    Divider,
    Shifter(Shift),
    Less(bool),
    Equal,
}

fn gate_in(word: &str) -> Result<Gate, RowFail> {
    match word {
        "add" => Ok(Gate::Adder),
        "multiply" => Ok(Gate::Multiplier),
        "divide" => Ok(Gate::Divider),
        "left" => Ok(Gate::Shifter(Shift::Left)),
        "right" => Ok(Gate::Shifter(Shift::Logical)),
        "signed_right" => Ok(Gate::Shifter(Shift::Arithmetic)),
        "less" => Ok(Gate::Less(false)),
        "signed_less" => Ok(Gate::Less(true)),
        "equal" => Ok(Gate::Equal),
        _ => Err(RowFail::Bad),
    }
}

// What a gate gives.
#[derive(Drop)]
struct Outs {
    out: Vec<Lit>,
    more: Vec<Lit>,
}

// A gate with what its clauses speak of: the variables below `inputs`, and those from there up to below `next`.
#[derive(Drop)]
struct Made {
    clauses: Clauses,
    inputs: u32,
    next: u32,
    outs: Outs,
}

fn lits_from(alloc: Global, from: u32, width: u32) -> Result<Vec<Lit>, RowFail> {
    let mut out = Vec::new(alloc);
    for at in 0..width {
        let var = from.saturating_add(at);
        out.push(Lit {
            var,
            positive: true,
        })?;
    }
    Ok(out)
}

fn one_of(alloc: Global, lit: Lit) -> Result<Vec<Lit>, RowFail> {
    let mut out = Vec::new(alloc);
    out.push(lit)?;
    Ok(out)
}

// What a gate gives over two words of one width.
fn outs_of(
    alloc: Global,
    gate: Gate,
    clauses: &mut Clauses,
    next: &mut u32,
    a: &[Lit],
    b: &[Lit],
    carry: Lit,
) -> Result<Outs, RowFail>
    requires some { 1 ≤ length a.now }
    requires same_length { length a.now ≡ length b.now }
    requires a_below { LitsBelow next.old a.now }
    requires b_below { LitsBelow next.old b.now }
    requires carry_below { carry.var < next.old }
{
    let mut more = Vec::new(alloc);
    let out = match gate {
        Gate::Adder => {
            let (sum, over) = adder(alloc, clauses, next, a, b, carry)?;
            more.push(over)?;
            sum
        }
        Gate::Multiplier => multiplier(alloc, clauses, next, a, b)?,
        Gate::Divider => {
            let (quotient, rest) = divider(alloc, clauses, next, a, b)?;
            more = rest;
            quotient
        }
        Gate::Shifter(how) => shifter(alloc, clauses, next, how, a, b)?,
        Gate::Less(signed) => one_of(alloc, less(alloc, clauses, next, signed, a, b)?)?,
        Gate::Equal => one_of(alloc, equal(alloc, clauses, next, a, b)?)?,
    };
    Ok(Outs { out, more })
}

// The gate over inputs of this width: the variables from 0 on are a, then b, then the carry.
fn made_of(alloc: Global, gate: Gate, width: u32) -> Result<Made, RowFail> {
    if width < 1 || width > 128 {
        return Err(RowFail::Bad);
    }
    let inputs = 2 * width + 1;
    let mut next = inputs;
    let mut clauses = Clauses::new(alloc);
    let a = lits_from(alloc, 0, width)?;
    let b = lits_from(alloc, width, width)?;
    let carry = Lit {
        var: 2 * width,
        positive: true,
    };
    if a.is_empty() || a.len() != b.len() || !are_below(next, &a) || !are_below(next, &b) {
        return Err(RowFail::Bad);
    }
    let outs = outs_of(alloc, gate, &mut clauses, &mut next, &a, &b, carry)?;
    Ok(Made {
        clauses,
        inputs,
        next,
        outs,
    })
}

// The gate and the width of a row, and what stands behind them.
fn gate_and_width(words: &str) -> Result<(Gate, u32), RowFail> {
    let (kind, width) = fields(words);
    Ok((gate_in(kind)?, number(Some(width))?))
}

// Whether a made gate gives what a part of a row states.
fn gives(alloc: Global, made: &Made, width: u32, part: &str) -> Result<bool, RowFail> {
    let (inputs, outs) = halves(part)?;
    let inputs = wides(alloc, inputs)?;
    let outs = wides(alloc, outs)?;
    if inputs.len() != 3 || outs.len() != 2 {
        return Err(RowFail::Bad);
    }
    let mut values = Vec::new(alloc);
    push_bits(&mut values, width, inputs[0])?;
    push_bits(&mut values, width, inputs[1])?;
    values.push(inputs[2] == 1)?;
    Ok(
        values.len() == made.inputs as usize
            && settle(&made.clauses, &mut values)?
            && values.len() == made.next as usize
            && are_met(alloc, &made.clauses, &values)?
            && number_of(&values, &made.outs.out) == outs[0]
            && number_of(&values, &made.outs.more) == outs[1],
    )
}

// Tries the row of a gate's outputs.
fn has_outs(alloc: Global, rest: &str) -> Result<bool, RowFail> {
    let Some((head, cases)) = rest.split_once(';') else {
        return Err(RowFail::Bad);
    };
    let (gate, width) = gate_and_width(head)?;
    let made = made_of(alloc, gate, width)?;
    for case in cases.split(';') {
        if !gives(alloc, &made, width, case)? {
            return Ok(false);
        }
    }
    Ok(true)
}

// Tries the row of a gate's size.
fn has_size(alloc: Global, rest: &str) -> Result<bool, RowFail> {
    let (head, sizes) = halves(rest)?;
    let (gate, width) = gate_and_width(head)?;
    let sizes = wides(alloc, sizes)?;
    let made = made_of(alloc, gate, width)?;
    if sizes.len() != 3 {
        return Err(RowFail::Bad);
    }
    Ok(
        sizes[0] == u128::from(made.clauses.literals())
            && sizes[1] == u128::from(made.clauses.len())
            && sizes[2] == u128::from(made.next.saturating_sub(made.inputs)),
    )
}

/// Rows of gates over words.
#[derive(Drop)]
pub(crate) struct GateRows;

impl Table for GateRows {
    fn is_so(&mut self, alloc: Global, row: &str) -> Result<bool, RowFail> {
        let (kind, rest) = fields(row);
        match kind {
            "gate" => has_outs(alloc, rest),
            "size" => has_size(alloc, rest),
            _ => Err(RowFail::Bad),
        }
    }
}
