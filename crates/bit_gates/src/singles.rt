ghost use Rattle.std.specs.Prelude.{◌≡◌, ℕ, ◌+◌, ◌<◌, ◌≤◌, length, List, [], ◌∷◌, ◌++◌, IfOk, MatchResult};
ghost use Rattle.prop.specs.Logic.{count};
ghost use Rattle.bit_gates.specs.Cut.{Emitted, Grew, Refused};
ghost use Rattle.bit_gates.specs.Net.{net_clauses};
ghost use Rattle.bit_gates.specs.Singles.{and_of, xor_of, select_of};
ghost use Rattle.bit_gates.specs.Laws.{Exact, Scope, Ands, Xors, Selects};

use crate::emission::close;
use crate::netlist::{Def, Net, NoRoom};
use prop::{BlastFail, Clauses, Lit};
use std::alloc::Global;

/// The literal of `a` and `b`, with at most one definition.
pub fn put_and(net: &mut Net, a: Lit, b: Lit) -> Result<Lit, NoRoom>
    ensures start { net.new.start ≡ net.old.start }
    ensures grew { IfOk result (λ r.
        let m = and_of net.old.next a b in
        Grew net.old.next net.old.defs.items net.new.next net.new.defs.items m.defs × (r ≡ m.out)) }
{
    if a.var != b.var {
        net.define(Def::And(a, b))
    } else if a.positive == b.positive {
        Ok(a)
    } else {
        net.define(Def::Fixed(false))
    }
}

/// The literal of `a` exclusive or `b`, with one definition.
pub fn put_xor(net: &mut Net, a: Lit, b: Lit) -> Result<Lit, NoRoom>
    ensures start { net.new.start ≡ net.old.start }
    ensures grew { IfOk result (λ r.
        let m = xor_of net.old.next a b in
        Grew net.old.next net.old.defs.items net.new.next net.new.defs.items m.defs × (r ≡ m.out)) }
{
    if a.var != b.var {
        net.define(Def::Xor(a, b))
    } else {
        net.define(Def::Fixed(a.positive != b.positive))
    }
}

/// The literal of `a` where `c` is true, else `b`, with at most one definition.
pub fn put_select(net: &mut Net, c: Lit, a: Lit, b: Lit) -> Result<Lit, NoRoom>
    ensures start { net.new.start ≡ net.old.start }
    ensures grew { IfOk result (λ r.
        let m = select_of net.old.next c a b in
        Grew net.old.next net.old.defs.items net.new.next net.new.defs.items m.defs × (r ≡ m.out)) }
{
    if a.var == b.var {
        if a.positive == b.positive {
            return Ok(a);
        }
        return match put_xor(net, c, a) {
            Ok(apart) => Ok(apart.negate()),
            Err(end) => Err(end),
        };
    }
    if c.var == a.var {
        if c.positive != a.positive {
            return put_and(net, c.negate(), b);
        }
        return match put_and(net, c.negate(), b.negate()) {
            Ok(neither) => Ok(neither.negate()),
            Err(end) => Err(end),
        };
    }
    if c.var != b.var {
        return net.define(Def::Select(c, a, b));
    }
    if c.positive == b.positive {
        return put_and(net, c, a);
    }
    match put_and(net, c, a.negate()) {
        Ok(only) => Ok(only.negate()),
        Err(end) => Err(end),
    }
}

/// Adds the clauses of `a` and `b`.
///
/// `Over` names the literals with the first clause that would pass the limit; `Memory` also comes where no variable is
/// left.
pub fn and_gate(
    alloc: Global,
    clauses: &mut Clauses,
    next: &mut u32,
    a: Lit,
    b: Lit,
) -> Result<Lit, BlastFail>
    requires a_below { a.var < next.old }
    requires b_below { b.var < next.old }
    ensures emission { let m = and_of next.old a b in MatchResult result
        (λ r. Emitted clauses.old clauses.new next.old next.new m.defs × (r ≡ m.out))
        (λ e. Refused e clauses.old clauses.new next.old next.new m.defs) }
    ensures law { IfOk result (λ r. Exact next.old (net_clauses next.old (and_of next.old a b).defs) (Ands a b r)) }
    ensures scope { IfOk result (λ r. Scope next.old next.new (a ∷ b ∷ []) (net_clauses next.old (and_of next.old a b).defs) (r ∷ [])) }
    ensures size { IfOk result (λ _. count clauses.new ≤ count clauses.old + 7) }
{
    let mut net = Net::new(alloc, *next);
    match put_and(&mut net, a, b) {
        Err(_) => Err(BlastFail::Memory),
        Ok(made) => match close(clauses, next, &net) {
            Err(end) => Err(end),
            Ok(_) => Ok(made),
        },
    }
}

/// Adds the clauses of `a` exclusive or `b`. It fails as `and_gate` does.
pub fn xor_gate(
    alloc: Global,
    clauses: &mut Clauses,
    next: &mut u32,
    a: Lit,
    b: Lit,
) -> Result<Lit, BlastFail>
    requires a_below { a.var < next.old }
    requires b_below { b.var < next.old }
    ensures emission { let m = xor_of next.old a b in MatchResult result
        (λ r. Emitted clauses.old clauses.new next.old next.new m.defs × (r ≡ m.out))
        (λ e. Refused e clauses.old clauses.new next.old next.new m.defs) }
    ensures law { IfOk result (λ r. Exact next.old (net_clauses next.old (xor_of next.old a b).defs) (Xors a b r)) }
    ensures scope { IfOk result (λ r. Scope next.old next.new (a ∷ b ∷ []) (net_clauses next.old (xor_of next.old a b).defs) (r ∷ [])) }
    ensures size { IfOk result (λ _. count clauses.new ≤ count clauses.old + 12) }
{
    let mut net = Net::new(alloc, *next);
    match put_xor(&mut net, a, b) {
        Err(_) => Err(BlastFail::Memory),
        Ok(made) => match close(clauses, next, &net) {
            Err(end) => Err(end),
            Ok(_) => Ok(made),
        },
    }
}

/// Adds the clauses of `a` where `c` is true, else `b`. It fails as `and_gate` does.
pub fn select_gate(
    alloc: Global,
    clauses: &mut Clauses,
    next: &mut u32,
    c: Lit,
    a: Lit,
    b: Lit,
) -> Result<Lit, BlastFail>
    requires c_below { c.var < next.old }
    requires a_below { a.var < next.old }
    requires b_below { b.var < next.old }
    ensures emission { let m = select_of next.old c a b in MatchResult result
        (λ r. Emitted clauses.old clauses.new next.old next.new m.defs × (r ≡ m.out))
        (λ e. Refused e clauses.old clauses.new next.old next.new m.defs) }
    ensures law { IfOk result (λ r. Exact next.old (net_clauses next.old (select_of next.old c a b).defs) (Selects c a b r)) }
    ensures scope { IfOk result (λ r. Scope next.old next.new (c ∷ a ∷ b ∷ []) (net_clauses next.old (select_of next.old c a b).defs) (r ∷ [])) }
    ensures size { IfOk result (λ _. count clauses.new ≤ count clauses.old + 18) }
{
    let mut net = Net::new(alloc, *next);
    match put_select(&mut net, c, a, b) {
        Err(_) => Err(BlastFail::Memory),
        Ok(made) => match close(clauses, next, &net) {
            Err(end) => Err(end),
            Ok(_) => Ok(made),
        },
    }
}
