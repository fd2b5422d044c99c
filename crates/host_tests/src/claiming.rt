//! Four threads claim each number below the total once.
ghost use Rattle.std.specs.Prelude.{◌≡◌, All, IfOk, vec_len};
ghost use Rattle.work_claims.specs.Hands.{fresh};
ghost use Rattle.work_claims.specs.Seats.{hand, terms, IsOf};

use lv_base::Memory;
use std::alloc::{AllocError, Global};
use std::test::*;
use std::thread;
use std::thread::Threads;
use work_claims::{Claimer, Claims, Closed};

// What one worker drew, beside its claimer.
#[derive(Drop)]
struct Drawn {
    me: Claimer,
    numbers: Vec<u32>,
}

// Claims until no number is left.
fn draw(alloc: Global, claims: &Claims, mut me: Claimer) -> Result<Drawn, Memory>
    requires of { IsOf claims.now me }
    requires unfinished { (hand me).finishes ≡ 0 }
    ensures { IfOk result (λ d. IsOf claims.now d.me) }
{
    let mut numbers = Vec::new(alloc);
    for _ in 0..1001u32 {
        let Some(number) = claims.claim(&mut me) else {
            return Ok(Drawn { me, numbers });
        };
        numbers.push(number)?;
    }
    Ok(Drawn { me, numbers })
}

// Each claimer in a thread of its own.
fn draw_beside<R: Threads + Sync>(
    rt: &R,
    alloc: Global,
    claims: &Claims,
    claimers: Vec<Claimer>,
) -> Result<Vec<Result<Drawn, Memory>>, AllocError>
    requires of { All (IsOf claims.now) claimers.items }
    requires fresh { All (λ c. hand c ≡ fresh (terms claims.now).total 1) claimers.items }
    ensures count { IfOk result (λ v. vec_len v ≡ vec_len claimers) }
    ensures each { IfOk result (λ v. All (λ r. IfOk r (λ d. IsOf claims.now d.me)) v.items) }
{
    thread::map_vec(rt, claimers, &|me| draw(alloc, claims, me))
}

// The claimers, and all that they drew.
fn gathered(
    alloc: Global,
    claims: &Claims,
    mut drawn: Vec<Result<Drawn, Memory>>,
) -> Result<(Vec<Claimer>, Vec<u32>), Memory>
    requires { All (λ r. IfOk r (λ d. IsOf claims.now d.me)) drawn.items }
    ensures count { IfOk result (λ p. vec_len p.0 ≡ vec_len drawn) }
    ensures of { IfOk result (λ p. All (IsOf claims.now) p.0.items) }
{
    let mut claimers = Vec::new(alloc);
    let mut all = Vec::new(alloc);
    while let Some(one) = drawn.pop() {
        let Drawn { me, numbers } = one?;
        claimers.push(me)?;
        all.extend_from_slice(&numbers)?;
    }
    Ok((claimers, all))
}

// Whether these are 0, 1, 2 and so on.
fn count_up(numbers: &[u32]) -> bool {
    numbers.iter().enumerate().all(|(i, n)| *n as usize == i)
}

#[test]
fn four_threads_claim_each_number_once(rt: HostRuntime) -> Result<(), Fail> {
    let alloc = rt.alloc();
    let (claims, claimers) = Claims::new(alloc, 1000, 4)?;
    let drawn = draw_beside(&rt, alloc, &claims, claimers)?;
    let (claimers, mut numbers) = gathered(alloc, &claims, drawn)?;
    let closed = claims.close(claimers);
    numbers.sort()?;
    assert_eq!(rt; numbers.len(), 1000);
    assert!(rt; count_up(&numbers));
    assert_eq!(rt;
        closed,
        Closed {
            claimed: 1000,
            lowest: 4294967295
        }
    );
    Ok(())
}
