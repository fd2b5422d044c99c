ghost use Rattle.std.specs.Prelude.{◌≡◌, ℕ, ◌+◌, ◌*◌, ◌^◌, ◌<◌, ◌≤◌, length, List, [], ◌∷◌, ◌++◌, IfOk, MatchResult};
ghost use Rattle.prop.specs.Logic.{count, LitsBelow};
ghost use Rattle.bit_gates.specs.Cut.{Emitted, Grew, Refused};
ghost use Rattle.bit_gates.specs.Net.{net_clauses};
ghost use Rattle.bit_gates.specs.Shifts.{emptied, filled, last_stage, right_stage, shift_of, stage, stages, top_of};
ghost use Rattle.bit_gates.specs.Laws.{Exact, Scope, Shifts};

use crate::dividers::{put_none, put_selected};
use crate::emission::close;
use crate::netlist::{Def, Net, NoRoom};
use crate::products::put_masked;
use prop::{BlastFail, Clauses, Lit};
use std::alloc::Global;

/// A way to shift: towards the high bits, or towards the low ones with zeros or with copies of the top bit coming in.
#[derive(Clone, Copy, PartialEq, Eq, Debug)]
pub enum Shift {
    Left,
    Logical,
    Arithmetic,
}

/// Each literal of `xs` where `c` is true, else `z`.
pub fn put_filled(
    alloc: Global,
    net: &mut Net,
    c: Lit,
    xs: &[Lit],
    z: Lit,
) -> Result<Vec<Lit>, NoRoom>
    ensures start { net.new.start ≡ net.old.start }
    ensures grew { IfOk result (λ r.
        let m = filled net.old.next c xs.now z in
        Grew net.old.next net.old.defs.items net.new.next net.new.defs.items m.defs × (r.items ≡ m.outs)) }
    ensures many { IfOk result (λ r. length r.items ≡ length xs.now) }
{
    let mut outs = Vec::new(alloc);
    for i in 0..xs.len() {
        let x = xs[i];
        let out = net.define(Def::Select(c, x, z))?;
        outs.push(out)?;
    }
    Ok(outs)
}

/// Each literal of `xs` where `c` is true, else what this shift lets in, `z` being the top literal.
pub fn put_emptied(
    alloc: Global,
    net: &mut Net,
    how: Shift,
    z: Lit,
    c: Lit,
    xs: &[Lit],
) -> Result<Vec<Lit>, NoRoom>
    ensures start { net.new.start ≡ net.old.start }
    ensures grew { IfOk result (λ r.
        let m = emptied net.old.next how z c xs.now in
        Grew net.old.next net.old.defs.items net.new.next net.new.defs.items m.defs × (r.items ≡ m.outs)) }
    ensures many { IfOk result (λ r. length r.items ≡ length xs.now) }
{
    match how {
        Shift::Left => put_masked(alloc, net, xs, c),
        Shift::Logical => put_masked(alloc, net, xs, c),
        Shift::Arithmetic => put_filled(alloc, net, c, xs, z),
    }
}

/// `xs` by `places` to the right where `b` is true.
pub fn put_right_stage(
    alloc: Global,
    net: &mut Net,
    how: Shift,
    z: Lit,
    places: usize,
    b: Lit,
    xs: &[Lit],
) -> Result<Vec<Lit>, NoRoom>
    requires { places ≤ length xs.now }
    ensures start { net.new.start ≡ net.old.start }
    ensures grew { IfOk result (λ r.
        let m = right_stage net.old.next how z places b xs.now in
        Grew net.old.next net.old.defs.items net.new.next net.new.defs.items m.defs × (r.items ≡ m.outs)) }
    ensures many { IfOk result (λ r. length r.items ≡ length xs.now) }
{
    let kept = xs.len() - places;
    let mut outs = put_selected(alloc, net, b, &xs[places..], &xs[..kept])?;
    let high = put_emptied(alloc, net, how, z, b.negate(), &xs[kept..])?;
    outs.extend_from_slice(&high)?;
    Ok(outs)
}

/// `xs` by `places` where `b` is true.
pub fn put_stage(
    alloc: Global,
    net: &mut Net,
    how: Shift,
    z: Lit,
    places: usize,
    b: Lit,
    xs: &[Lit],
) -> Result<Vec<Lit>, NoRoom>
    requires { places ≤ length xs.now }
    ensures start { net.new.start ≡ net.old.start }
    ensures grew { IfOk result (λ r.
        let m = stage net.old.next how z places b xs.now in
        Grew net.old.next net.old.defs.items net.new.next net.new.defs.items m.defs × (r.items ≡ m.outs)) }
    ensures many { IfOk result (λ r. length r.items ≡ length xs.now) }
{
    match how {
        Shift::Left => {
            let kept = xs.len() - places;
            let mut outs = put_masked(alloc, net, &xs[..places], b.negate())?;
            let high = put_selected(alloc, net, b, &xs[..kept], &xs[places..])?;
            outs.extend_from_slice(&high)?;
            Ok(outs)
        }
        Shift::Logical => put_right_stage(alloc, net, Shift::Logical, z, places, b, xs),
        Shift::Arithmetic => put_right_stage(alloc, net, Shift::Arithmetic, z, places, b, xs),
    }
}

/// All of `xs` out where `b` or one of `bs` is true.
pub fn put_last_stage(
    alloc: Global,
    net: &mut Net,
    how: Shift,
    z: Lit,
    xs: &[Lit],
    b: Lit,
    bs: &[Lit],
) -> Result<Vec<Lit>, NoRoom>
    ensures start { net.new.start ≡ net.old.start }
    ensures grew { IfOk result (λ r.
        let m = last_stage net.old.next how z xs.now b bs.now in
        Grew net.old.next net.old.defs.items net.new.next net.new.defs.items m.defs × (r.items ≡ m.outs)) }
{
    let none = put_none(net, b.negate(), bs)?;
    put_emptied(alloc, net, how, z, none, xs)
}

/// `xs` by the number that `bs` spell, `z` being the top literal: a stage for each low bit, one for all high bits.
pub fn put_stages(
    alloc: Global,
    net: &mut Net,
    how: Shift,
    z: Lit,
    xs: &[Lit],
    bs: &[Lit],
) -> Result<Vec<Lit>, NoRoom>
    ensures start { net.new.start ≡ net.old.start }
    ensures grew { IfOk result (λ r.
        let m = stages net.old.next how z 1 xs.now bs.now in
        Grew net.old.next net.old.defs.items net.new.next net.new.defs.items m.defs × (r.items ≡ m.outs)) }
{
    let mut outs = Vec::new(alloc);
    outs.extend_from_slice(xs)?;
    let mut places = 1;
    for i in 0..bs.len() {
        if places >= outs.len() {
            return put_last_stage(alloc, net, how, z, &outs, bs[i], &bs[i + 1..]);
        }
        outs = put_stage(alloc, net, how, z, places, bs[i], &outs)?;
        places *= 2;
    }
    Ok(outs)
}

/// `xs` shifted by the number that `bs` spell.
pub fn put_shift(
    alloc: Global,
    net: &mut Net,
    how: Shift,
    xs: &[Lit],
    bs: &[Lit],
) -> Result<Vec<Lit>, NoRoom>
    requires { 1 ≤ length xs.now }
    ensures start { net.new.start ≡ net.old.start }
    ensures grew { IfOk result (λ r.
        let m = shift_of net.old.next how xs.now bs.now in
        Grew net.old.next net.old.defs.items net.new.next net.new.defs.items m.defs × (r.items ≡ m.outs)) }
{
    put_stages(alloc, net, how, xs[xs.len() - 1], xs, bs)
}

/// Adds the clauses of `a` shifted by the number that `b` spells, which may pass the width. It fails as `and_gate` does.
pub fn shifter(
    alloc: Global,
    clauses: &mut Clauses,
    next: &mut u32,
    how: Shift,
    a: &[Lit],
    b: &[Lit],
) -> Result<Vec<Lit>, BlastFail>
    requires some { 1 ≤ length a.now }
    requires same_length { length a.now ≡ length b.now }
    requires a_below { LitsBelow next.old a.now }
    requires b_below { LitsBelow next.old b.now }
    ensures emission { let m = shift_of next.old how a.now b.now in MatchResult result
        (λ r. Emitted clauses.old clauses.new next.old next.new m.defs × (r.items ≡ m.outs))
        (λ e. Refused e clauses.old clauses.new next.old next.new m.defs) }
    ensures law { IfOk result (λ r. Exact next.old (net_clauses next.old (shift_of next.old how a.now b.now).defs) (Shifts how a.now b.now r.items)) }
    ensures scope { IfOk result (λ r. Scope next.old next.new (a.now ++ b.now) (net_clauses next.old (shift_of next.old how a.now b.now).defs) r.items) }
    ensures size { IfOk result (λ _. (j : ℕ) → length a.now ≤ 2 ^ j → count clauses.new ≤ count clauses.old + (18 * j + 25) * length a.now) }
{
    let mut net = Net::new(alloc, *next);
    match put_shift(alloc, &mut net, how, a, b) {
        Err(_) => Err(BlastFail::Memory),
        Ok(made) => match close(clauses, next, &net) {
            Err(end) => Err(end),
            Ok(_) => Ok(made),
        },
    }
}
