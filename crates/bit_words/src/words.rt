ghost use Rattle.std.specs.Prelude.{◌≡◌, ℕ, ◌+◌, ◌<◌, ◌≤◌, ◌^◌, length, if◌then◌else◌, List, [], ◌∷◌, ◌++◌, IfOk};
ghost use Rattle.prop.specs.Logic.{negated};
ghost use Rattle.bit_gates.specs.Cut.{Grew};
ghost use Rattle.bit_words.specs.Words.{numeral_of, copies_of, spelled_of, ands, xors};

use crate::folds::{Relation, related};
use bit_gates::{Def, Net, NoRoom};
use prop::Lit;
use std::alloc::Global;

// The constant literal of a truth value.
fn constant(one: Lit, holds: bool) -> Lit
    ensures { result ≡ (if holds then one else negated one) }
{
    if holds { one } else { one.negate() }
}

/// The low `width` bits of a number, `one` being true.
pub fn numeral(alloc: Global, one: Lit, width: u32, value: u128) -> Result<Vec<Lit>, NoRoom>
    ensures { IfOk result (λ r. r.items ≡ numeral_of one width value) }
{
    let mut outs = Vec::new(alloc);
    let mut rest = value;
    for _i in 0..width {
        outs.push(constant(one, rest % 2 == 1))?;
        rest /= 2;
    }
    Ok(outs)
}

/// The literal `count` times.
pub fn copies(alloc: Global, lit: Lit, count: usize) -> Result<Vec<Lit>, NoRoom>
    ensures { IfOk result (λ r. r.items ≡ copies_of lit count) }
{
    let mut outs = Vec::new(alloc);
    for _i in 0..count {
        outs.push(lit)?;
    }
    Ok(outs)
}

/// The number that at most 128 literals spell, where each is `one` or its complement.
pub fn spelled(one: Lit, lits: &[Lit]) -> Option<u128>
    requires { length lits.now ≤ 128 }
    ensures { result ≡ spelled_of one lits.now }
{
    let mut value = 0;
    let mut left = lits.len();
    while left > 0 {
        left -= 1;
        match related(lits[left], one) {
            Relation::Equal => value = 1 + 2 * value,
            Relation::Opposite => value = 2 * value,
            Relation::Apart => return None,
        }
    }
    Some(value)
}

/// Each bit of both, up to the shorter.
pub fn put_ands(alloc: Global, net: &mut Net, xs: &[Lit], ys: &[Lit]) -> Result<Vec<Lit>, NoRoom>
    requires { length xs.now ≡ length ys.now }
    ensures start { net.new.start ≡ net.old.start }
    ensures grew { IfOk result (λ r.
        let m = ands net.old.next xs.now ys.now in
        Grew net.old.next net.old.defs.items net.new.next net.new.defs.items m.defs × (r.items ≡ m.outs)) }
{
    let mut outs = Vec::new(alloc);
    for i in 0..xs.len() {
        let a = xs[i];
        let b = ys[i];
        let out = net.define(Def::And(a, b))?;
        outs.push(out)?;
    }
    Ok(outs)
}

/// Each bit of exactly one, up to the shorter.
pub fn put_xors(alloc: Global, net: &mut Net, xs: &[Lit], ys: &[Lit]) -> Result<Vec<Lit>, NoRoom>
    requires { length xs.now ≡ length ys.now }
    ensures start { net.new.start ≡ net.old.start }
    ensures grew { IfOk result (λ r.
        let m = xors net.old.next xs.now ys.now in
        Grew net.old.next net.old.defs.items net.new.next net.new.defs.items m.defs × (r.items ≡ m.outs)) }
{
    let mut outs = Vec::new(alloc);
    for i in 0..xs.len() {
        let a = xs[i];
        let b = ys[i];
        let out = net.define(Def::Xor(a, b))?;
        outs.push(out)?;
    }
    Ok(outs)
}
