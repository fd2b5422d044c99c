ghost use Rattle.std.specs.Prelude.{◌≡◌, ℕ, ◌+◌, ◌*◌, ◌<◌, ◌≤◌, length, List, [], ◌∷◌, ◌++◌, IfOk, MatchResult};
ghost use Rattle.prop.specs.Logic.{count, LitsBelow};
ghost use Rattle.bit_gates.specs.Cut.{Emitted, Grew, Refused};
ghost use Rattle.bit_gates.specs.Net.{net_clauses};
ghost use Rattle.bit_gates.specs.Orders.{alike, below, equal_of, less_of, ordered, topped as topped_of};
ghost use Rattle.bit_gates.specs.Laws.{Exact, Scope, Orders, Equates};

use crate::emission::close;
use crate::netlist::{Def, Net, NoRoom};
use prop::{BlastFail, Clauses, Lit};
use std::alloc::Global;

/// Whether `xs` is below `ys`, `low` telling it of lower bits.
pub fn put_below(net: &mut Net, low: Lit, xs: &[Lit], ys: &[Lit]) -> Result<Lit, NoRoom>
    requires { length xs.now ≡ length ys.now }
    ensures start { net.new.start ≡ net.old.start }
    ensures grew { IfOk result (λ r.
        let m = below net.old.next low xs.now ys.now in
        Grew net.old.next net.old.defs.items net.new.next net.new.defs.items m.defs × (r ≡ m.out)) }
{
    let mut less = low;
    for i in 0..xs.len() {
        let x = xs[i];
        let y = ys[i];
        less = net.define(Def::Carry(x.negate(), y, less))?;
    }
    Ok(less)
}

/// Whether `xs` is below `ys`.
pub fn put_ordered(net: &mut Net, xs: &[Lit], ys: &[Lit]) -> Result<Lit, NoRoom>
    requires some { 1 ≤ length xs.now }
    requires same_length { length xs.now ≡ length ys.now }
    ensures start { net.new.start ≡ net.old.start }
    ensures grew { IfOk result (λ r.
        let m = ordered net.old.next xs.now ys.now in
        Grew net.old.next net.old.defs.items net.new.next net.new.defs.items m.defs × (r ≡ m.out)) }
{
    let x = xs[0];
    let y = ys[0];
    let low = net.define(Def::And(x.negate(), y))?;
    put_below(net, low, &xs[1..], &ys[1..])
}

/// `xs` with the top literal of `ys`.
pub fn topped(alloc: Global, xs: &[Lit], ys: &[Lit]) -> Result<Vec<Lit>, NoRoom>
    requires some { 1 ≤ length xs.now }
    requires same_length { length xs.now ≡ length ys.now }
    ensures { IfOk result (λ r. r.items ≡ topped_of xs.now ys.now) }
{
    let mut outs = Vec::new(alloc);
    outs.extend_from_slice(&xs[..xs.len() - 1])?;
    outs.extend_from_slice(&ys[ys.len() - 1..])?;
    Ok(outs)
}

/// Whether `xs` is below `ys`, in two's complement where `signed` says so.
pub fn put_less(
    alloc: Global,
    net: &mut Net,
    signed: bool,
    xs: &[Lit],
    ys: &[Lit],
) -> Result<Lit, NoRoom>
    requires some { 1 ≤ length xs.now }
    requires same_length { length xs.now ≡ length ys.now }
    ensures start { net.new.start ≡ net.old.start }
    ensures grew { IfOk result (λ r.
        let m = less_of net.old.next signed xs.now ys.now in
        Grew net.old.next net.old.defs.items net.new.next net.new.defs.items m.defs × (r ≡ m.out)) }
{
    if !signed {
        return put_ordered(net, xs, ys);
    }
    let left = topped(alloc, xs, ys)?;
    let right = topped(alloc, ys, xs)?;
    put_ordered(net, &left, &right)
}

/// Whether `so_far` is true and `xs` and `ys` are alike.
pub fn put_alike(net: &mut Net, so_far: Lit, xs: &[Lit], ys: &[Lit]) -> Result<Lit, NoRoom>
    requires { length xs.now ≡ length ys.now }
    ensures start { net.new.start ≡ net.old.start }
    ensures grew { IfOk result (λ r.
        let m = alike net.old.next so_far xs.now ys.now in
        Grew net.old.next net.old.defs.items net.new.next net.new.defs.items m.defs × (r ≡ m.out)) }
{
    let mut same = so_far;
    for i in 0..xs.len() {
        let x = xs[i];
        let y = ys[i];
        same = net.define(Def::Same(same, x, y))?;
    }
    Ok(same)
}

/// Whether `xs` and `ys` are alike.
pub fn put_equal(net: &mut Net, xs: &[Lit], ys: &[Lit]) -> Result<Lit, NoRoom>
    requires some { 1 ≤ length xs.now }
    requires same_length { length xs.now ≡ length ys.now }
    ensures start { net.new.start ≡ net.old.start }
    ensures grew { IfOk result (λ r.
        let m = equal_of net.old.next xs.now ys.now in
        Grew net.old.next net.old.defs.items net.new.next net.new.defs.items m.defs × (r ≡ m.out)) }
{
    let x = xs[0];
    let y = ys[0];
    let same = net.define(Def::Xor(x, y.negate()))?;
    put_alike(net, same, &xs[1..], &ys[1..])
}

/// Adds the clauses of `a` below `b`, in two's complement where `signed` says so. It fails as `and_gate` does.
pub fn less(
    alloc: Global,
    clauses: &mut Clauses,
    next: &mut u32,
    signed: bool,
    a: &[Lit],
    b: &[Lit],
) -> Result<Lit, BlastFail>
    requires some { 1 ≤ length a.now }
    requires same_length { length a.now ≡ length b.now }
    requires a_below { LitsBelow next.old a.now }
    requires b_below { LitsBelow next.old b.now }
    ensures emission { let m = less_of next.old signed a.now b.now in MatchResult result
        (λ r. Emitted clauses.old clauses.new next.old next.new m.defs × (r ≡ m.out))
        (λ e. Refused e clauses.old clauses.new next.old next.new m.defs) }
    ensures law { IfOk result (λ r. Exact next.old (net_clauses next.old (less_of next.old signed a.now b.now).defs) (Orders signed a.now b.now r)) }
    ensures scope { IfOk result (λ r. Scope next.old next.new (a.now ++ b.now) (net_clauses next.old (less_of next.old signed a.now b.now).defs) (r ∷ [])) }
    ensures size { IfOk result (λ _. count clauses.new + 11 ≡ count clauses.old + 18 * length a.now) }
{
    let mut net = Net::new(alloc, *next);
    match put_less(alloc, &mut net, signed, a, b) {
        Err(_) => Err(BlastFail::Memory),
        Ok(made) => match close(clauses, next, &net) {
            Err(end) => Err(end),
            Ok(_) => Ok(made),
        },
    }
}

/// Adds the clauses of `a` equal to `b`. It fails as `and_gate` does.
pub fn equal(
    alloc: Global,
    clauses: &mut Clauses,
    next: &mut u32,
    a: &[Lit],
    b: &[Lit],
) -> Result<Lit, BlastFail>
    requires some { 1 ≤ length a.now }
    requires same_length { length a.now ≡ length b.now }
    requires a_below { LitsBelow next.old a.now }
    requires b_below { LitsBelow next.old b.now }
    ensures emission { let m = equal_of next.old a.now b.now in MatchResult result
        (λ r. Emitted clauses.old clauses.new next.old next.new m.defs × (r ≡ m.out))
        (λ e. Refused e clauses.old clauses.new next.old next.new m.defs) }
    ensures law { IfOk result (λ r. Exact next.old (net_clauses next.old (equal_of next.old a.now b.now).defs) (Equates a.now b.now r)) }
    ensures scope { IfOk result (λ r. Scope next.old next.new (a.now ++ b.now) (net_clauses next.old (equal_of next.old a.now b.now).defs) (r ∷ [])) }
    ensures size { IfOk result (λ _. count clauses.new + 4 ≡ count clauses.old + 16 * length a.now) }
{
    let mut net = Net::new(alloc, *next);
    match put_equal(&mut net, a, b) {
        Err(_) => Err(BlastFail::Memory),
        Ok(made) => match close(clauses, next, &net) {
            Err(end) => Err(end),
            Ok(_) => Ok(made),
        },
    }
}
