ghost use Rattle.std.specs.Prelude.{◌≡◌, ◌↔◌, true, ℕ, ◌+◌, ◌≤◌, length, map, List, [], ◌∷◌, ◌++◌, MatchResult};
ghost use Rattle.prop.specs.Logic.{count, LitsBelow};
ghost use Rattle.bit_gates.specs.Cut.{Cut, Emitted, Refused};
ghost use Rattle.bit_gates.specs.Net.{def_clauses, net_clauses};

use crate::netlist::{Def, Net};
use prop::{BlastFail, Clauses, Lit};

/// Pushes clauses in order. A refusal leaves a prefix of them.
pub fn push_each(clauses: &mut Clauses, list: &[&[Lit]]) -> Result<(), BlastFail>
    ensures { MatchResult result
        (λ _. clauses.new ≡ clauses.old ++ map (λ c. c.now) list.now)
        (λ e. Cut e clauses.old (map (λ c. c.now) list.now) clauses.new) }
{
    for c in list {
        if let Err(end) = clauses.push(c) {
            return Err(end);
        }
    }
    Ok(())
}

// The clauses that make `o` both literals.
fn push_and(clauses: &mut Clauses, o: Lit, a: Lit, b: Lit) -> Result<(), BlastFail>
    ensures { MatchResult result
        (λ _. clauses.new ≡ clauses.old ++ def_clauses o (Def.And a b))
        (λ e. Cut e clauses.old (def_clauses o (Def.And a b)) clauses.new) }
{
    let no = o.negate();
    let na = a.negate();
    let nb = b.negate();
    push_each(clauses, &[&[no, a], &[no, b], &[o, na, nb]])
}

// The clauses that make `o` exactly one of the literals.
fn push_xor(clauses: &mut Clauses, o: Lit, a: Lit, b: Lit) -> Result<(), BlastFail>
    ensures { MatchResult result
        (λ _. clauses.new ≡ clauses.old ++ def_clauses o (Def.Xor a b))
        (λ e. Cut e clauses.old (def_clauses o (Def.Xor a b)) clauses.new) }
{
    let no = o.negate();
    let na = a.negate();
    let nb = b.negate();
    push_each(
        clauses,
        &[&[no, a, b], &[no, na, nb], &[o, na, b], &[o, a, nb]],
    )
}

// The clauses that make `o` the literal `a` where `c` is true, else `b`; the last two follow from the others, and let `o`
// be known where `a` and `b` are alike.
fn push_select(clauses: &mut Clauses, o: Lit, c: Lit, a: Lit, b: Lit) -> Result<(), BlastFail>
    ensures { MatchResult result
        (λ _. clauses.new ≡ clauses.old ++ def_clauses o (Def.Select c a b))
        (λ e. Cut e clauses.old (def_clauses o (Def.Select c a b)) clauses.new) }
{
    let no = o.negate();
    let nc = c.negate();
    let na = a.negate();
    let nb = b.negate();
    push_each(
        clauses,
        &[
            &[no, nc, a],
            &[no, c, b],
            &[o, nc, na],
            &[o, c, nb],
            &[no, a, b],
            &[o, na, nb],
        ],
    )
}

// The clauses that make `o` true where an odd number of the literals is.
fn push_sum(clauses: &mut Clauses, o: Lit, a: Lit, b: Lit, c: Lit) -> Result<(), BlastFail>
    ensures { MatchResult result
        (λ _. clauses.new ≡ clauses.old ++ def_clauses o (Def.Sum a b c))
        (λ e. Cut e clauses.old (def_clauses o (Def.Sum a b c)) clauses.new) }
{
    let no = o.negate();
    let na = a.negate();
    let nb = b.negate();
    let nc = c.negate();
    push_each(
        clauses,
        &[
            &[o, na, b, c],
            &[o, a, nb, c],
            &[o, a, b, nc],
            &[o, na, nb, nc],
            &[no, a, b, c],
            &[no, na, nb, c],
            &[no, na, b, nc],
            &[no, a, nb, nc],
        ],
    )
}

// The clauses that make `o` true where at least two of the literals are.
fn push_carry(clauses: &mut Clauses, o: Lit, a: Lit, b: Lit, c: Lit) -> Result<(), BlastFail>
    ensures { MatchResult result
        (λ _. clauses.new ≡ clauses.old ++ def_clauses o (Def.Carry a b c))
        (λ e. Cut e clauses.old (def_clauses o (Def.Carry a b c)) clauses.new) }
{
    let no = o.negate();
    let na = a.negate();
    let nb = b.negate();
    let nc = c.negate();
    push_each(
        clauses,
        &[
            &[o, na, nb],
            &[o, na, nc],
            &[o, nb, nc],
            &[no, a, b],
            &[no, a, c],
            &[no, b, c],
        ],
    )
}

// The clauses that make `o` true where `e` is and `a` and `b` are alike.
fn push_same(clauses: &mut Clauses, o: Lit, e: Lit, a: Lit, b: Lit) -> Result<(), BlastFail>
    ensures { MatchResult result
        (λ _. clauses.new ≡ clauses.old ++ def_clauses o (Def.Same e a b))
        (λ end. Cut end clauses.old (def_clauses o (Def.Same e a b)) clauses.new) }
{
    let no = o.negate();
    let ne = e.negate();
    let na = a.negate();
    let nb = b.negate();
    push_each(
        clauses,
        &[
            &[no, e],
            &[no, na, b],
            &[no, a, nb],
            &[o, ne, a, b],
            &[o, ne, na, nb],
        ],
    )
}

/// Pushes the clauses that make `o` what `def` says.
pub fn emit_def(clauses: &mut Clauses, o: Lit, def: Def) -> Result<(), BlastFail>
    ensures { MatchResult result
        (λ _. clauses.new ≡ clauses.old ++ def_clauses o def)
        (λ e. Cut e clauses.old (def_clauses o def) clauses.new) }
{
    match def {
        Def::And(a, b) => push_and(clauses, o, a, b),
        Def::Xor(a, b) => push_xor(clauses, o, a, b),
        Def::Select(c, a, b) => push_select(clauses, o, c, a, b),
        Def::Sum(a, b, c) => push_sum(clauses, o, a, b, c),
        Def::Carry(a, b, c) => push_carry(clauses, o, a, b, c),
        Def::Same(e, a, b) => push_same(clauses, o, e, a, b),
        Def::Fixed(true) => push_each(clauses, &[&[o]]),
        Def::Fixed(false) => push_each(clauses, &[&[o.negate()]]),
    }
}

/// Pushes the clauses of all definitions of a net.
pub fn emit(clauses: &mut Clauses, net: &Net) -> Result<(), BlastFail>
    ensures { MatchResult result
        (λ _. clauses.new ≡ clauses.old ++ net_clauses net.now.start net.now.defs.items)
        (λ e. Cut e clauses.old (net_clauses net.now.start net.now.defs.items) clauses.new) }
{
    let mut var = net.start;
    for def in &net.defs {
        let o = Lit {
            var,
            positive: true,
        };
        if let Err(end) = emit_def(clauses, o, *def) {
            return Err(end);
        }
        var += 1;
    }
    Ok(())
}

/// Pushes the clauses of a net, and takes its variables.
pub fn close(clauses: &mut Clauses, next: &mut u32, net: &Net) -> Result<(), BlastFail>
    requires { net.now.start ≡ next.old }
    ensures { MatchResult result
        (λ _. Emitted clauses.old clauses.new next.old next.new net.now.defs.items)
        (λ e. Refused e clauses.old clauses.new next.old next.new net.now.defs.items) }
{
    if let Err(end) = emit(clauses, net) {
        return Err(end);
    }
    let _total = clauses.literals();
    *next += net.defs.len() as u32;
    Ok(())
}

/// Whether each variable of `lits` is below `next`, which each gate requires of its inputs.
pub fn are_below(next: u32, lits: &[Lit]) -> bool
    ensures { (result ≡ true) ↔ LitsBelow next lits.now }
{
    for l in lits {
        if l.var >= next {
            return false;
        }
    }
    true
}
