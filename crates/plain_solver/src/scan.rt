//! Propagation by a scan of all clauses, behind one contract: a conflict, a literal that a clause makes true, or the
//! end of propagation.

ghost use Rattle.std.specs.Prelude.{◌≡◌, ℕ, ◌+◌, ◌<◌, ◌^◌, length, Some, None, List, true};
ghost use Rattle.plain_solver.specs.Scan.{look_of, scan_of};

use crate::Known;
use crate::trail::{Found, Look, Trail};
use prop::Lit;

fn look_at(trail: &Trail, c: &[Lit]) -> Look
    ensures { result ≡ look_of trail.now.entries.items c.now None }
{
    let mut open = None;
    for m in c {
        if trail.is_true(*m) {
            return Look::Satisfied;
        }
        if !trail.is_true(m.negate()) {
            match open {
                None => open = Some(*m),
                Some(l) => {
                    if l != *m {
                        return Look::Open(*m);
                    }
                }
            }
        }
    }
    match open {
        None => Look::AllFalse,
        Some(l) => Look::Lone(l),
    }
}

/// What the first clause gives that is false, or has one literal left; else a literal without a value.
pub fn scan(trail: &Trail, known: &Known) -> Found
    requires { length known.now < 2 ^ 32 }
    ensures { result ≡ scan_of trail.now.entries.items known.now 0 None }
{
    let mut open = None;
    for i in 0..known.len() {
        match look_at(trail, known.clause(i)) {
            Look::AllFalse => return Found::Conflict(i as u32),
            Look::Lone(l) => return Found::Implied(i as u32, l),
            Look::Satisfied => {}
            Look::Open(l) => open = Some(l),
        }
    }
    match open {
        None => Found::Done,
        Some(l) => Found::Free(l),
    }
}
