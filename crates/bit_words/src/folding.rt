ghost use Rattle.std.specs.Prelude.{◌≡◌, ℕ, ◌+◌, ◌-◌, length, map, List, [], ◌∷◌, ◌++◌, IfOk};
ghost use Rattle.bit_gates.specs.Cut.{Grew};
ghost use Rattle.bit_words.specs.Folding.{renamed, renamed_def, standing, folded, folded_made};

use crate::folds::put_def;
use bit_gates::{Def, Net, NoRoom};
use prop::Lit;
use std::alloc::Global;

// The literal at a place, or that of variable 0 past the end.
fn stand_in(subs: &[Lit], at: usize) -> Lit
    ensures { result ≡ standing subs.now at }
{
    if at < subs.len() {
        subs[at]
    } else {
        Lit {
            var: 0,
            positive: true,
        }
    }
}

/// A literal in new variables: for those from `base` on stand the literals of `subs`.
pub fn rename(base: u32, subs: &[Lit], l: Lit) -> Lit
    ensures { result ≡ renamed base subs.now l }
{
    if l.var < base {
        return l;
    }
    let stand = stand_in(subs, (l.var - base) as usize);
    if l.positive { stand } else { stand.negate() }
}

/// A definition in new variables.
pub fn rename_def(base: u32, subs: &[Lit], def: Def) -> Def
    ensures { result ≡ renamed_def base subs.now def }
{
    match def {
        Def::And(a, b) => Def::And(rename(base, subs, a), rename(base, subs, b)),
        Def::Xor(a, b) => Def::Xor(rename(base, subs, a), rename(base, subs, b)),
        Def::Select(c, a, b) => Def::Select(
            rename(base, subs, c),
            rename(base, subs, a),
            rename(base, subs, b),
        ),
        Def::Sum(a, b, c) => Def::Sum(
            rename(base, subs, a),
            rename(base, subs, b),
            rename(base, subs, c),
        ),
        Def::Carry(a, b, c) => Def::Carry(
            rename(base, subs, a),
            rename(base, subs, b),
            rename(base, subs, c),
        ),
        Def::Same(e, a, b) => Def::Same(
            rename(base, subs, e),
            rename(base, subs, a),
            rename(base, subs, b),
        ),
        Def::Fixed(b) => Def::Fixed(b),
    }
}

/// Literals in new variables.
pub fn rename_all(alloc: Global, base: u32, subs: &[Lit], lits: &[Lit]) -> Result<Vec<Lit>, NoRoom>
    ensures { IfOk result (λ r. r.items ≡ map (renamed base subs.now) lits.now) }
{
    let outs = lits.iter().map(|l| rename(base, subs, *l)).collect(alloc)?;
    Ok(outs)
}

/// Appends the folded definitions of the variables from `base` on, and answers what stands for each.
pub fn fold_all(
    alloc: Global,
    net: &mut Net,
    one: Lit,
    base: u32,
    defs: &[Def],
) -> Result<Vec<Lit>, NoRoom>
    ensures start { net.new.start ≡ net.old.start }
    ensures grew { IfOk result (λ r.
        let m = folded one base net.old.next [] defs.now in
        Grew net.old.next net.old.defs.items net.new.next net.new.defs.items m.defs × (r.items ≡ m.subs)) }
{
    let mut subs = Vec::new(alloc);
    for def in defs {
        let out = put_def(net, one, rename_def(base, &subs, *def))?;
        subs.push(out)?;
    }
    Ok(subs)
}

/// Appends the folded definitions of a net that begins where this one ends, and answers what stands for `outs`.
pub fn fold(
    alloc: Global,
    net: &mut Net,
    one: Lit,
    made: &Net,
    outs: &[Lit],
) -> Result<Vec<Lit>, NoRoom>
    requires { made.now.start ≡ net.old.next }
    ensures start { net.new.start ≡ net.old.start }
    ensures grew { IfOk result (λ r.
        let m = folded_made one net.old.next (record { defs = made.now.defs.items; outs = outs.now }) in
        Grew net.old.next net.old.defs.items net.new.next net.new.defs.items m.defs × (r.items ≡ m.outs)) }
{
    let subs = fold_all(alloc, net, one, made.start, &made.defs)?;
    rename_all(alloc, made.start, &subs, outs)
}
