ghost use Rattle.std.specs.Prelude.{◌≡◌, ℕ, ◌+◌, ◌*◌, ◌<◌, ◌≤◌, length, List, [], ◌∷◌, ◌++◌, IfOk, MatchResult};
ghost use Rattle.prop.specs.Logic.{count, LitsBelow};
ghost use Rattle.bit_gates.specs.Cut.{Emitted, Grew, Refused};
ghost use Rattle.bit_gates.specs.Net.{net_clauses};
ghost use Rattle.bit_gates.specs.Sums.{half_ripple, ripple};
ghost use Rattle.bit_gates.specs.Laws.{Exact, Scope, Adds};

use crate::emission::close;
use crate::netlist::{Def, Net, NoRoom};
use prop::{BlastFail, Clauses, Lit};
use std::alloc::Global;

/// The literals of a sum and its carry, by two definitions a bit.
pub fn put_ripple(
    alloc: Global,
    net: &mut Net,
    xs: &[Lit],
    ys: &[Lit],
    first: Lit,
) -> Result<(Vec<Lit>, Lit), NoRoom>
    requires { length xs.now ≡ length ys.now }
    ensures start { net.new.start ≡ net.old.start }
    ensures grew { IfOk result (λ r.
        let m = ripple net.old.next xs.now ys.now first in
        Grew net.old.next net.old.defs.items net.new.next net.new.defs.items m.defs
        × (r.0.items ≡ m.outs) × (r.1 ≡ m.carry)) }
    ensures many { IfOk result (λ r. length r.0.items ≡ length xs.now) }
{
    let mut outs = Vec::new(alloc);
    let mut carry = first;
    for i in 0..xs.len() {
        let a = xs[i];
        let b = ys[i];
        let sum = net.define(Def::Sum(a, b, carry))?;
        let over = net.define(Def::Carry(a, b, carry))?;
        outs.push(sum)?;
        carry = over;
    }
    Ok((outs, carry))
}

/// The literals of a sum with no carry in and none out.
pub fn put_half(alloc: Global, net: &mut Net, xs: &[Lit], ys: &[Lit]) -> Result<Vec<Lit>, NoRoom>
    requires { length xs.now ≡ length ys.now }
    ensures start { net.new.start ≡ net.old.start }
    ensures grew { IfOk result (λ r.
        let m = half_ripple net.old.next xs.now ys.now in
        Grew net.old.next net.old.defs.items net.new.next net.new.defs.items m.defs × (r.items ≡ m.outs)) }
    ensures many { IfOk result (λ r. length r.items ≡ length xs.now) }
{
    let mut outs = Vec::new(alloc);
    if xs.len() == 0 {
        return Ok(outs);
    }
    let a = xs[0];
    let b = ys[0];
    let sum = net.define(Def::Xor(a, b))?;
    let over = net.define(Def::And(a, b))?;
    outs.push(sum)?;
    let (rest, _) = put_ripple(alloc, net, &xs[1..], &ys[1..], over)?;
    outs.extend_from_slice(&rest)?;
    Ok(outs)
}

/// Adds the clauses of the sum of `a`, `b` and `carry`, and answers its bits and the carry that goes out. It fails as
/// `and_gate` does.
pub fn adder(
    alloc: Global,
    clauses: &mut Clauses,
    next: &mut u32,
    a: &[Lit],
    b: &[Lit],
    carry: Lit,
) -> Result<(Vec<Lit>, Lit), BlastFail>
    requires some { 1 ≤ length a.now }
    requires same_length { length a.now ≡ length b.now }
    requires a_below { LitsBelow next.old a.now }
    requires b_below { LitsBelow next.old b.now }
    requires carry_below { carry.var < next.old }
    ensures emission { let m = ripple next.old a.now b.now carry in MatchResult result
        (λ r. Emitted clauses.old clauses.new next.old next.new m.defs × (r.0.items ≡ m.outs) × (r.1 ≡ m.carry))
        (λ e. Refused e clauses.old clauses.new next.old next.new m.defs) }
    ensures law { IfOk result (λ r. Exact next.old (net_clauses next.old (ripple next.old a.now b.now carry).defs) (Adds a.now b.now carry r.0.items r.1)) }
    ensures scope { IfOk result (λ r. Scope next.old next.new (carry ∷ (a.now ++ b.now)) (net_clauses next.old (ripple next.old a.now b.now carry).defs) (r.1 ∷ r.0.items)) }
    ensures size { IfOk result (λ _. count clauses.new ≡ count clauses.old + 50 * length a.now) }
{
    let mut net = Net::new(alloc, *next);
    match put_ripple(alloc, &mut net, a, b, carry) {
        Err(_) => Err(BlastFail::Memory),
        Ok(made) => match close(clauses, next, &net) {
            Err(end) => Err(end),
            Ok(_) => Ok(made),
        },
    }
}
