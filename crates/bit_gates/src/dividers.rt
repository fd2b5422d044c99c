ghost use Rattle.std.specs.Prelude.{◌≡◌, ℕ, ◌+◌, ◌*◌, ◌<◌, ◌≤◌, length, map, reverse, List, [], ◌∷◌, ◌++◌, IfOk, MatchResult};
ghost use Rattle.prop.specs.Logic.{count, LitsBelow, negated};
ghost use Rattle.bit_gates.specs.Cut.{Emitted, Grew, Refused};
ghost use Rattle.bit_gates.specs.Net.{net_clauses};
ghost use Rattle.bit_gates.specs.Quotients.{selected, shifted, div_step, divided, zeros, none_of, quotient};
ghost use Rattle.bit_gates.specs.Laws.{Exact, Scope, Divides};

use crate::adders::put_ripple;
use crate::emission::close;
use crate::netlist::{Def, Net, NoRoom};
use crate::products::put_masked;
use prop::{BlastFail, Clauses, Lit};
use std::alloc::Global;

/// Each literal of `xs` where `c` is true, else that of `ys`.
pub fn put_selected(
    alloc: Global,
    net: &mut Net,
    c: Lit,
    xs: &[Lit],
    ys: &[Lit],
) -> Result<Vec<Lit>, NoRoom>
    requires { length xs.now ≡ length ys.now }
    ensures start { net.new.start ≡ net.old.start }
    ensures grew { IfOk result (λ r.
        let m = selected net.old.next c xs.now ys.now in
        Grew net.old.next net.old.defs.items net.new.next net.new.defs.items m.defs × (r.items ≡ m.outs)) }
    ensures many { IfOk result (λ r. length r.items ≡ length xs.now) }
{
    let mut outs = Vec::new(alloc);
    for i in 0..xs.len() {
        let a = xs[i];
        let b = ys[i];
        let out = net.define(Def::Select(c, a, b))?;
        outs.push(out)?;
    }
    Ok(outs)
}

/// `xs` with `a` shifted in below, and what falls out above.
pub fn shift_in(alloc: Global, a: Lit, xs: &[Lit]) -> Result<(Vec<Lit>, Lit), NoRoom>
    ensures shift { IfOk result (λ r. let m = shifted a xs.now in (r.0.items ≡ m.low) × (r.1 ≡ m.top)) }
    ensures many { IfOk result (λ r. length r.0.items ≡ length xs.now) }
{
    let mut low = Vec::new(alloc);
    let mut top = a;
    for i in 0..xs.len() {
        low.push(top)?;
        top = xs[i];
    }
    Ok((low, top))
}

/// One step of restoring division, which answers the quotient's bit and the new remainder. `nb` has the complements of the
/// divisor's literals, and `one` is true.
pub fn put_step(
    alloc: Global,
    net: &mut Net,
    one: Lit,
    a: Lit,
    r: &[Lit],
    nb: &[Lit],
) -> Result<(Lit, Vec<Lit>), NoRoom>
    requires { length r.now ≡ length nb.now }
    ensures start { net.new.start ≡ net.old.start }
    ensures grew { IfOk result (λ s.
        let m = div_step net.old.next one a r.now nb.now in
        Grew net.old.next net.old.defs.items net.new.next net.new.defs.items m.defs × (s.0 ≡ m.quot) × (s.1.items ≡ m.rest)) }
    ensures many { IfOk result (λ s. length s.1.items ≡ length r.now) }
{
    let (low, top) = shift_in(alloc, a, r)?;
    let (less, carry) = put_ripple(alloc, net, &low, nb, one)?;
    let none = net.define(Def::And(top.negate(), carry.negate()))?;
    let quot = none.negate();
    let rest = put_selected(alloc, net, quot, &less, &low)?;
    Ok((quot, rest))
}

/// The complements of literals.
pub fn negate_all(alloc: Global, xs: &[Lit]) -> Result<Vec<Lit>, NoRoom>
    ensures items { IfOk result (λ r. r.items ≡ map negated xs.now) }
    ensures many { IfOk result (λ r. length r.items ≡ length xs.now) }
{
    let mut outs = Vec::new(alloc);
    for x in xs {
        outs.push(x.negate())?;
    }
    Ok(outs)
}

/// As many `z` as `b` has literals.
pub fn put_zeros(alloc: Global, z: Lit, b: &[Lit]) -> Result<Vec<Lit>, NoRoom>
    ensures items { IfOk result (λ r. r.items ≡ zeros z b.now) }
    ensures many { IfOk result (λ r. length r.items ≡ length b.now) }
{
    let mut outs = Vec::new(alloc);
    for i in 0..b.len() {
        let _seen = b[i];
        outs.push(z)?;
    }
    Ok(outs)
}

/// The quotient's literals, highest first, and the remainder's, for a divisor other than 0.
pub fn put_divided(
    alloc: Global,
    net: &mut Net,
    one: Lit,
    xs: &[Lit],
    b: &[Lit],
) -> Result<(Vec<Lit>, Vec<Lit>), NoRoom>
    ensures start { net.new.start ≡ net.old.start }
    ensures grew { IfOk result (λ r.
        let m = divided net.old.next one xs.now b.now in
        Grew net.old.next net.old.defs.items net.new.next net.new.defs.items m.defs × (reverse r.0.items ≡ m.quot) × (r.1.items ≡ m.rest)) }
{
    let nb = negate_all(alloc, b)?;
    let mut quot = Vec::new(alloc);
    let mut rest = put_zeros(alloc, one.negate(), b)?;
    let mut left = xs.len();
    while left > 0 {
        left -= 1;
        let (bit, next) = put_step(alloc, net, one, xs[left], &rest, &nb)?;
        rest = next;
        quot.push(bit)?;
    }
    Ok((quot, rest))
}

/// Whether `z` is true and none of `b`.
pub fn put_none(net: &mut Net, z: Lit, b: &[Lit]) -> Result<Lit, NoRoom>
    ensures start { net.new.start ≡ net.old.start }
    ensures grew { IfOk result (λ r.
        let m = none_of net.old.next z b.now in
        Grew net.old.next net.old.defs.items net.new.next net.new.defs.items m.defs × (r ≡ m.out)) }
{
    let mut all = z;
    for i in 0..b.len() {
        let x = b[i];
        all = net.define(Def::And(all, x.negate()))?;
    }
    Ok(all)
}

/// The literals of quotient and remainder, both 0 where `b` is 0.
pub fn put_quotient(
    alloc: Global,
    net: &mut Net,
    xs: &[Lit],
    b: &[Lit],
) -> Result<(Vec<Lit>, Vec<Lit>), NoRoom>
    ensures start { net.new.start ≡ net.old.start }
    ensures grew { IfOk result (λ r.
        let m = quotient net.old.next xs.now b.now in
        Grew net.old.next net.old.defs.items net.new.next net.new.defs.items m.defs × (r.0.items ≡ m.quot) × (r.1.items ≡ m.rest)) }
{
    let one = net.define(Def::Fixed(true))?;
    let (mut backward, remains) = put_divided(alloc, net, one, xs, b)?;
    backward.reverse();
    let none = put_none(net, one, b)?;
    let some = none.negate();
    let quot = put_masked(alloc, net, &backward, some)?;
    let rest = put_masked(alloc, net, &remains, some)?;
    Ok((quot, rest))
}

/// Adds the clauses of the quotient and the remainder of `a` by `b`, both 0 where `b` is 0. It fails as `and_gate` does.
pub fn divider(
    alloc: Global,
    clauses: &mut Clauses,
    next: &mut u32,
    a: &[Lit],
    b: &[Lit],
) -> Result<(Vec<Lit>, Vec<Lit>), BlastFail>
    requires some { 1 ≤ length a.now }
    requires same_length { length a.now ≡ length b.now }
    requires a_below { LitsBelow next.old a.now }
    requires b_below { LitsBelow next.old b.now }
    ensures emission { let m = quotient next.old a.now b.now in MatchResult result
        (λ r. Emitted clauses.old clauses.new next.old next.new m.defs × (r.0.items ≡ m.quot) × (r.1.items ≡ m.rest))
        (λ e. Refused e clauses.old clauses.new next.old next.new m.defs) }
    ensures law { IfOk result (λ r. Exact next.old (net_clauses next.old (quotient next.old a.now b.now).defs) (Divides a.now b.now r.0.items r.1.items)) }
    ensures scope { IfOk result (λ r. Scope next.old next.new (a.now ++ b.now) (net_clauses next.old (quotient next.old a.now b.now).defs) (r.0.items ++ r.1.items)) }
    ensures size { IfOk result (λ _. count clauses.new ≡ count clauses.old + (68 * (length a.now * length a.now) + 28 * length a.now + 1)) }
{
    let mut net = Net::new(alloc, *next);
    match put_quotient(alloc, &mut net, a, b) {
        Err(_) => Err(BlastFail::Memory),
        Ok(made) => match close(clauses, next, &net) {
            Err(end) => Err(end),
            Ok(_) => Ok(made),
        },
    }
}
