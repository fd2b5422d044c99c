//! Clauses as sets of literals, and one step of resolution (J. A. Robinson, A Machine-Oriented Logic Based on the
//! Resolution Principle, 1965).

ghost use Rattle.std.specs.Prelude.{◌≡◌, ℕ, Bool, true, ◌++◌, IfOk, MatchOption, Some, None};
ghost use Rattle.prop.specs.Logic.{clause_holds};
ghost use Rattle.prop.specs.Steps.{has, without, crosses, resolved, resolve};

use crate::Lit;
use std::alloc::{AllocError, Global};

/// Whether the clause has the literal.
pub fn contains(clause: &[Lit], l: Lit) -> bool
    ensures { result ≡ has clause.now l }
{
    for m in clause {
        if *m == l {
            return true;
        }
    }
    false
}

fn add_without(out: &mut Vec<Lit>, l: Lit, clause: &[Lit]) -> Result<(), AllocError>
    ensures { IfOk result (λ _. out.new.items ≡ out.old.items ++ without l clause.now) }
{
    for m in clause {
        if *m != l {
            out.push(*m)?;
        }
    }
    Ok(())
}

fn cross(l: Lit, c: &[Lit], d: &[Lit]) -> bool
    ensures { result ≡ crosses l c.now d.now }
{
    contains(c, l) && contains(d, l.negate())
}

fn join(alloc: Global, l: Lit, c: &[Lit], d: &[Lit]) -> Result<Vec<Lit>, AllocError>
    ensures { IfOk result (λ r. r.items ≡ resolved l c.now d.now) }
{
    let mut out = Vec::new(alloc);
    add_without(&mut out, l, c)?;
    add_without(&mut out, l.negate(), d)?;
    Ok(out)
}

/// Resolves two clauses on a variable. `None` where the step is not valid: exactly one of the two must hold, that
/// the first clause has the variable and the second its negation, or the other way about.
///
/// This is the plain form of the step, in quadratic time; it says what the checkers of whole logs do fast.
pub fn resolve_on(
    alloc: Global,
    var: u32,
    c: &[Lit],
    d: &[Lit],
) -> Result<Option<Vec<Lit>>, AllocError>
    ensures step { IfOk result (λ o. MatchOption o (resolve var c.now d.now ≡ None) (λ r. resolve var c.now d.now ≡ Some r.items)) }
    ensures sound { IfOk result (λ o. MatchOption o (Unit {0}) (λ r. (v : ℕ → Bool) → clause_holds v c.now ≡ true → clause_holds v d.now ≡ true → clause_holds v r.items ≡ true)) }
{
    let up = Lit {
        var,
        positive: true,
    };
    let down = Lit {
        var,
        positive: false,
    };
    let first = cross(up, c, d);
    let second = cross(down, c, d);
    if first == second {
        return Ok(None);
    }
    Ok(Some(join(alloc, if first { up } else { down }, c, d)?))
}
