ghost use Rattle.std.specs.Prelude.{◌≡◌, ℕ, ◌+◌, length, List, [], ◌∷◌, ◌++◌, IfOk};
ghost use Rattle.bit_gates.specs.Cut.{Grew};
ghost use Rattle.bit_words.specs.Folds.{relation_of, and_in, or_in, xor_in, alike_in, under_of, branch_in, select_in, odd_in, sum_in, most_in, carry_in, same_in, def_in};

use bit_gates::{Def, Net, NoRoom};
use prop::Lit;

/// How two literals stand to each other.
#[derive(Clone, Copy, PartialEq, Eq, Debug)]
pub enum Relation {
    /// They are one literal.
    Equal,
    /// Each is the other's complement.
    Opposite,
    /// They are on different variables.
    Apart,
}

/// How `a` stands to `b`.
pub fn related(a: Lit, b: Lit) -> Relation
    ensures { result ≡ relation_of a b }
{
    if a.var != b.var {
        Relation::Apart
    } else if a.positive == b.positive {
        Relation::Equal
    } else {
        Relation::Opposite
    }
}

/// The literal of `a` and `b`, `one` being true. It defines at most one variable, as each of these functions does.
pub fn put_both(net: &mut Net, one: Lit, a: Lit, b: Lit) -> Result<Lit, NoRoom>
    ensures start { net.new.start ≡ net.old.start }
    ensures grew { IfOk result (λ r.
        let m = and_in one net.old.next a b in
        Grew net.old.next net.old.defs.items net.new.next net.new.defs.items m.defs × (r ≡ m.out)) }
{
    match related(a, one) {
        Relation::Equal => Ok(b),
        Relation::Opposite => Ok(a),
        Relation::Apart => match related(b, one) {
            Relation::Equal => Ok(a),
            Relation::Opposite => Ok(b),
            Relation::Apart => match related(a, b) {
                Relation::Equal => Ok(a),
                Relation::Opposite => Ok(one.negate()),
                Relation::Apart => net.define(Def::And(a, b)),
            },
        },
    }
}

/// The literal of `a` or `b`.
pub fn put_either(net: &mut Net, one: Lit, a: Lit, b: Lit) -> Result<Lit, NoRoom>
    ensures start { net.new.start ≡ net.old.start }
    ensures grew { IfOk result (λ r.
        let m = or_in one net.old.next a b in
        Grew net.old.next net.old.defs.items net.new.next net.new.defs.items m.defs × (r ≡ m.out)) }
{
    let none = put_both(net, one, a.negate(), b.negate())?;
    Ok(none.negate())
}

/// The literal of exactly one of `a` and `b`.
pub fn put_xor(net: &mut Net, one: Lit, a: Lit, b: Lit) -> Result<Lit, NoRoom>
    ensures start { net.new.start ≡ net.old.start }
    ensures grew { IfOk result (λ r.
        let m = xor_in one net.old.next a b in
        Grew net.old.next net.old.defs.items net.new.next net.new.defs.items m.defs × (r ≡ m.out)) }
{
    match related(a, one) {
        Relation::Equal => Ok(b.negate()),
        Relation::Opposite => Ok(b),
        Relation::Apart => match related(b, one) {
            Relation::Equal => Ok(a.negate()),
            Relation::Opposite => Ok(a),
            Relation::Apart => match related(a, b) {
                Relation::Equal => Ok(one.negate()),
                Relation::Opposite => Ok(one),
                Relation::Apart => net.define(Def::Xor(a, b)),
            },
        },
    }
}

/// The literal of both or none of `a` and `b`.
pub fn put_alike(net: &mut Net, one: Lit, a: Lit, b: Lit) -> Result<Lit, NoRoom>
    ensures start { net.new.start ≡ net.old.start }
    ensures grew { IfOk result (λ r.
        let m = alike_in one net.old.next a b in
        Grew net.old.next net.old.defs.items net.new.next net.new.defs.items m.defs × (r ≡ m.out)) }
{
    let apart = put_xor(net, one, a, b)?;
    Ok(apart.negate())
}

/// What `a` is where `c` is true: a constant, where both are on one variable.
pub fn under(one: Lit, c: Lit, a: Lit) -> Lit
    ensures { result ≡ under_of one c a }
{
    match related(a, c) {
        Relation::Equal => one,
        Relation::Opposite => one.negate(),
        Relation::Apart => a,
    }
}

// The literal of `a` where `c` is true, else `b`; neither `c` nor `a` and `b` together are known.
fn put_branch(net: &mut Net, one: Lit, c: Lit, a: Lit, b: Lit) -> Result<Lit, NoRoom>
    ensures start { net.new.start ≡ net.old.start }
    ensures grew { IfOk result (λ r.
        let m = branch_in one net.old.next c a b in
        Grew net.old.next net.old.defs.items net.new.next net.new.defs.items m.defs × (r ≡ m.out)) }
{
    match related(a, one) {
        Relation::Equal => put_either(net, one, c, b),
        Relation::Opposite => put_both(net, one, c.negate(), b),
        Relation::Apart => match related(b, one) {
            Relation::Equal => put_either(net, one, c.negate(), a),
            Relation::Opposite => put_both(net, one, c, a),
            Relation::Apart => net.define(Def::Select(c, a, b)),
        },
    }
}

/// The literal of `a` where `c` is true, else `b`.
pub fn put_select(net: &mut Net, one: Lit, c: Lit, a: Lit, b: Lit) -> Result<Lit, NoRoom>
    ensures start { net.new.start ≡ net.old.start }
    ensures grew { IfOk result (λ r.
        let m = select_in one net.old.next c a b in
        Grew net.old.next net.old.defs.items net.new.next net.new.defs.items m.defs × (r ≡ m.out)) }
{
    match related(c, one) {
        Relation::Equal => Ok(a),
        Relation::Opposite => Ok(b),
        Relation::Apart => match related(a, b) {
            Relation::Equal => Ok(a),
            Relation::Opposite => put_alike(net, one, c, a),
            Relation::Apart => put_branch(net, one, c, under(one, c, a), under(one, c.negate(), b)),
        },
    }
}

// The literal of an odd number of `a`, `b` and `c`; neither `a` nor `b` and `c` together are known.
fn put_odd(net: &mut Net, one: Lit, a: Lit, b: Lit, c: Lit) -> Result<Lit, NoRoom>
    ensures start { net.new.start ≡ net.old.start }
    ensures grew { IfOk result (λ r.
        let m = odd_in one net.old.next a b c in
        Grew net.old.next net.old.defs.items net.new.next net.new.defs.items m.defs × (r ≡ m.out)) }
{
    match related(b, one) {
        Relation::Equal => put_alike(net, one, a, c),
        Relation::Opposite => put_xor(net, one, a, c),
        Relation::Apart => match related(c, one) {
            Relation::Equal => put_alike(net, one, a, b),
            Relation::Opposite => put_xor(net, one, a, b),
            Relation::Apart => match related(a, b) {
                Relation::Equal => Ok(c),
                Relation::Opposite => Ok(c.negate()),
                Relation::Apart => match related(a, c) {
                    Relation::Equal => Ok(b),
                    Relation::Opposite => Ok(b.negate()),
                    Relation::Apart => net.define(Def::Sum(a, b, c)),
                },
            },
        },
    }
}

/// The literal of an odd number of `a`, `b` and `c`.
pub fn put_sum(net: &mut Net, one: Lit, a: Lit, b: Lit, c: Lit) -> Result<Lit, NoRoom>
    ensures start { net.new.start ≡ net.old.start }
    ensures grew { IfOk result (λ r.
        let m = sum_in one net.old.next a b c in
        Grew net.old.next net.old.defs.items net.new.next net.new.defs.items m.defs × (r ≡ m.out)) }
{
    match related(a, one) {
        Relation::Equal => put_alike(net, one, b, c),
        Relation::Opposite => put_xor(net, one, b, c),
        Relation::Apart => match related(b, c) {
            Relation::Equal => Ok(a),
            Relation::Opposite => Ok(a.negate()),
            Relation::Apart => put_odd(net, one, a, b, c),
        },
    }
}

// The literal of at least two of `a`, `b` and `c`; neither `a` nor `b` and `c` together are known.
fn put_most(net: &mut Net, one: Lit, a: Lit, b: Lit, c: Lit) -> Result<Lit, NoRoom>
    ensures start { net.new.start ≡ net.old.start }
    ensures grew { IfOk result (λ r.
        let m = most_in one net.old.next a b c in
        Grew net.old.next net.old.defs.items net.new.next net.new.defs.items m.defs × (r ≡ m.out)) }
{
    match related(b, one) {
        Relation::Equal => put_either(net, one, a, c),
        Relation::Opposite => put_both(net, one, a, c),
        Relation::Apart => match related(c, one) {
            Relation::Equal => put_either(net, one, a, b),
            Relation::Opposite => put_both(net, one, a, b),
            Relation::Apart => match related(a, b) {
                Relation::Equal => Ok(a),
                Relation::Opposite => Ok(c),
                Relation::Apart => match related(a, c) {
                    Relation::Equal => Ok(a),
                    Relation::Opposite => Ok(b),
                    Relation::Apart => net.define(Def::Carry(a, b, c)),
                },
            },
        },
    }
}

/// The literal of at least two of `a`, `b` and `c`.
pub fn put_carry(net: &mut Net, one: Lit, a: Lit, b: Lit, c: Lit) -> Result<Lit, NoRoom>
    ensures start { net.new.start ≡ net.old.start }
    ensures grew { IfOk result (λ r.
        let m = carry_in one net.old.next a b c in
        Grew net.old.next net.old.defs.items net.new.next net.new.defs.items m.defs × (r ≡ m.out)) }
{
    match related(a, one) {
        Relation::Equal => put_either(net, one, b, c),
        Relation::Opposite => put_both(net, one, b, c),
        Relation::Apart => match related(b, c) {
            Relation::Equal => Ok(b),
            Relation::Opposite => Ok(a),
            Relation::Apart => put_most(net, one, a, b, c),
        },
    }
}

/// The literal of `e`, and `a` and `b` being alike.
pub fn put_same(net: &mut Net, one: Lit, e: Lit, a: Lit, b: Lit) -> Result<Lit, NoRoom>
    ensures start { net.new.start ≡ net.old.start }
    ensures grew { IfOk result (λ r.
        let m = same_in one net.old.next e a b in
        Grew net.old.next net.old.defs.items net.new.next net.new.defs.items m.defs × (r ≡ m.out)) }
{
    match related(e, one) {
        Relation::Equal => put_alike(net, one, a, b),
        Relation::Opposite => Ok(e),
        Relation::Apart => match related(a, b) {
            Relation::Equal => Ok(e),
            Relation::Opposite => Ok(one.negate()),
            Relation::Apart => match related(a, one) {
                Relation::Equal => put_both(net, one, e, b),
                Relation::Opposite => put_both(net, one, e, b.negate()),
                Relation::Apart => match related(b, one) {
                    Relation::Equal => put_both(net, one, e, a),
                    Relation::Opposite => put_both(net, one, e, a.negate()),
                    Relation::Apart => net.define(Def::Same(e, a, b)),
                },
            },
        },
    }
}

/// The literal of what a definition says.
pub fn put_def(net: &mut Net, one: Lit, def: Def) -> Result<Lit, NoRoom>
    ensures start { net.new.start ≡ net.old.start }
    ensures grew { IfOk result (λ r.
        let m = def_in one net.old.next def in
        Grew net.old.next net.old.defs.items net.new.next net.new.defs.items m.defs × (r ≡ m.out)) }
{
    match def {
        Def::And(a, b) => put_both(net, one, a, b),
        Def::Xor(a, b) => put_xor(net, one, a, b),
        Def::Select(c, a, b) => put_select(net, one, c, a, b),
        Def::Sum(a, b, c) => put_sum(net, one, a, b, c),
        Def::Carry(a, b, c) => put_carry(net, one, a, b, c),
        Def::Same(e, a, b) => put_same(net, one, e, a, b),
        Def::Fixed(true) => Ok(one),
        Def::Fixed(false) => Ok(one.negate()),
    }
}
