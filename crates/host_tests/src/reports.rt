//! The lowest report is kept, and each answer is the lowest so far.
ghost use Rattle.std.specs.Prelude.{◌≡◌, All, IfSome};
ghost use Rattle.work_claims.specs.Hands.{fresh};
ghost use Rattle.work_claims.specs.Seats.{hand, terms, IsOf};

use std::test::*;
use work_claims::{Claimer, Claims, Closed};

// The first claimer takes 0 and 1, the second 2, and reports it; then the first reports 1; then the second takes 3 and
// reports it. The lowest is asked for before all, and after each report.
fn answers(claims: &Claims, first: &mut Claimer, second: &mut Claimer) -> Option<[u32; 4]>
    requires first { IsOf claims.now first.old × ((hand first.old).finishes ≡ 0) }
    requires second { IsOf claims.now second.old × ((hand second.old).finishes ≡ 0) }
    ensures first { IsOf claims.now first.new }
    ensures second { IsOf claims.now second.new }
{
    let before = claims.lowest(first);
    claims.claim(first)?;
    let one = claims.claim(first)?;
    let two = claims.claim(second)?;
    claims.report(second, two);
    let after_two = claims.lowest(second);
    claims.report(first, one);
    let after_one = claims.lowest(second);
    let three = claims.claim(second)?;
    claims.report(second, three);
    Some([before, after_two, after_one, claims.lowest(first)])
}

// The last claimer.
fn last(claims: &Claims, claimers: &mut Vec<Claimer>) -> Option<Claimer>
    requires of { All (IsOf claims.now) claimers.old.items }
    requires fresh { All (λ c. hand c ≡ fresh (terms claims.now).total 1) claimers.old.items }
    ensures of { All (IsOf claims.now) claimers.new.items }
    ensures fresh { All (λ c. hand c ≡ fresh (terms claims.now).total 1) claimers.new.items }
    ensures last { IfSome result (λ c. IsOf claims.now c × ((hand c).finishes ≡ 0)) }
{
    claimers.pop()
}

#[test]
fn the_lowest_report_is_kept(rt: HostRuntime) -> Result<(), Fail> {
    let alloc = rt.alloc();
    let (claims, mut claimers) = Claims::new(alloc, 10, 2)?;
    let mut second = last(&claims, &mut claimers).ok_or("no second claimer")?;
    let mut first = last(&claims, &mut claimers).ok_or("no first claimer")?;
    let seen = answers(&claims, &mut first, &mut second);
    let mut all = Vec::new(alloc);
    all.push(first)?;
    all.push(second)?;
    let closed = claims.close(all);
    assert_eq!(rt; seen, Some([4294967295, 2, 1, 1]));
    assert_eq!(rt;
        closed,
        Closed {
            claimed: 4,
            lowest: 1
        }
    );
    Ok(())
}
