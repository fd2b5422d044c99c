ghost use Rattle.std.specs.Prelude.{◌≡◌, ℕ, ◌+◌, ◌*◌, ◌<◌, ◌≤◌, length, List, [], ◌∷◌, ◌++◌, IfOk, MatchResult};
ghost use Rattle.prop.specs.Logic.{count, LitsBelow};
ghost use Rattle.bit_gates.specs.Cut.{Emitted, Grew, Refused};
ghost use Rattle.bit_gates.specs.Net.{net_clauses};
ghost use Rattle.bit_gates.specs.Products.{masked, product, product_of, row};
ghost use Rattle.bit_gates.specs.Laws.{Exact, Scope, Multiplies};

use crate::adders::put_half;
use crate::emission::close;
use crate::netlist::{Def, Net, NoRoom};
use prop::{BlastFail, Clauses, Lit};
use std::alloc::Global;

/// Each literal of `xs` and `b`.
pub fn put_masked(alloc: Global, net: &mut Net, xs: &[Lit], b: Lit) -> Result<Vec<Lit>, NoRoom>
    ensures start { net.new.start ≡ net.old.start }
    ensures grew { IfOk result (λ r.
        let m = masked net.old.next xs.now b in
        Grew net.old.next net.old.defs.items net.new.next net.new.defs.items m.defs × (r.items ≡ m.outs)) }
    ensures many { IfOk result (λ r. length r.items ≡ length xs.now) }
{
    let mut outs = Vec::new(alloc);
    for i in 0..xs.len() {
        let a = xs[i];
        let both = net.define(Def::And(a, b))?;
        outs.push(both)?;
    }
    Ok(outs)
}

/// One row of a product: `a` and `xs` where `b` is true, plus twice `low`.
pub fn put_row(
    alloc: Global,
    net: &mut Net,
    a: Lit,
    xs: &[Lit],
    b: Lit,
    low: &[Lit],
) -> Result<Vec<Lit>, NoRoom>
    requires { length xs.now ≡ length low.now }
    ensures start { net.new.start ≡ net.old.start }
    ensures grew { IfOk result (λ r.
        let m = row net.old.next a xs.now b low.now in
        Grew net.old.next net.old.defs.items net.new.next net.new.defs.items m.defs × (r.items ≡ m.outs)) }
    ensures many { IfOk result (λ r. length r.items ≡ length low.now + 1) }
{
    let mut outs = Vec::new(alloc);
    let first = net.define(Def::And(a, b))?;
    outs.push(first)?;
    let others = put_masked(alloc, net, xs, b)?;
    let sums = put_half(alloc, net, &others, low)?;
    outs.extend_from_slice(&sums)?;
    Ok(outs)
}

/// The low bits of a product, a row for each literal of `ys` from the highest down, each row one bit longer than the one
/// before.
pub fn put_product(
    alloc: Global,
    net: &mut Net,
    a: Lit,
    xs: &[Lit],
    ys: &[Lit],
) -> Result<Vec<Lit>, NoRoom>
    requires { length ys.now ≡ length xs.now + 1 }
    ensures start { net.new.start ≡ net.old.start }
    ensures grew { IfOk result (λ r.
        let m = product net.old.next a xs.now ys.now in
        Grew net.old.next net.old.defs.items net.new.next net.new.defs.items m.defs × (r.items ≡ m.outs)) }
{
    let mut low = Vec::new(alloc);
    let mut left = ys.len();
    while left > 0 {
        let taken = &xs[..low.len()];
        left -= 1;
        low = put_row(alloc, net, a, taken, ys[left], &low)?;
    }
    Ok(low)
}

/// Adds the clauses of the low bits of `a` times `b`. It fails as `and_gate` does.
pub fn multiplier(
    alloc: Global,
    clauses: &mut Clauses,
    next: &mut u32,
    a: &[Lit],
    b: &[Lit],
) -> Result<Vec<Lit>, BlastFail>
    requires some { 1 ≤ length a.now }
    requires same_length { length a.now ≡ length b.now }
    requires a_below { LitsBelow next.old a.now }
    requires b_below { LitsBelow next.old b.now }
    ensures emission { let m = product_of next.old a.now b.now in MatchResult result
        (λ r. Emitted clauses.old clauses.new next.old next.new m.defs × (r.items ≡ m.outs))
        (λ e. Refused e clauses.old clauses.new next.old next.new m.defs) }
    ensures law { IfOk result (λ r. Exact next.old (net_clauses next.old (product_of next.old a.now b.now).defs) (Multiplies a.now b.now r.items)) }
    ensures scope { IfOk result (λ r. Scope next.old next.new (a.now ++ b.now) (net_clauses next.old (product_of next.old a.now b.now).defs) r.items) }
    ensures size { IfOk result (λ _. count clauses.new ≤ count clauses.old + 29 * (length a.now * length a.now)) }
{
    let mut net = Net::new(alloc, *next);
    match put_product(alloc, &mut net, a[0], &a[1..], b) {
        Err(_) => Err(BlastFail::Memory),
        Ok(made) => match close(clauses, next, &net) {
            Err(end) => Err(end),
            Ok(_) => Ok(made),
        },
    }
}
