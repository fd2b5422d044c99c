ghost use Rattle.std.specs.Prelude.{◌≡◌, ◌≤◌, IfOk, vec_len};
ghost use Rattle.parse_machine.specs.Expressions as ex;
ghost use Rattle.parse_machine.specs.Contexts as m;
ghost use Rattle.parse_stack.specs.View as v;
ghost use Rattle.parse_stack.specs.Folding.{FoldsTo, IsLess};

use crate::frames::{Base, Frame, Top};
use crate::parts::Part;
use crate::places::{Inner, Outer, OuterFrame};
use crate::reduce::{bind_level, bound};
use std::alloc::{AllocError, Global};

/// An expression and what is open around it.
#[derive(Drop)]
pub struct Held {
    pub value: Part,
    pub around: Inner,
}

/// One step of making an expression whole: there may be more, or it is done.
#[derive(Drop)]
pub enum Folded {
    More(Part, Inner),
    Done(Part, Inner),
}

/// Nothing is open inside of this.
pub fn based(alloc: Global, base: Box<Base>) -> Inner
    ensures { v.inner result ≡ v.base base.value }
{
    Inner {
        base,
        frames: Vec::new(alloc),
    }
}

/// Nothing is open inside of this.
pub fn rooted(alloc: Global, base: Base) -> Result<Inner, AllocError>
    ensures { IfOk result (λ k. v.inner k ≡ v.base base) }
{
    let base = Box::new(alloc, base)?;
    Ok(based(alloc, base))
}

/// One frame more.
#[tactic(auto, using(crate::proofs::StackLemmas::inner_push))]
pub fn push(k: Inner, f: Frame) -> Result<Inner, AllocError>
    ensures { IfOk result (λ r. v.inner r ≡ v.inner_on (v.inner k) f) }
{
    let Inner { base, mut frames } = k;
    frames.push(f)?;
    Ok(Inner { base, frames })
}

/// The innermost, and the rest.
#[tactic(auto, using(crate::proofs::StackLemmas::inner_push))]
pub fn pop(k: Inner) -> Top
    ensures { v.topmost result ≡ v.inner k }
{
    let Inner { base, mut frames } = k;
    match frames.pop() {
        None => Top::Base(base),
        Some(Frame::Bind(b)) => Top::Bind(b, Inner { base, frames }),
        Some(Frame::Open(o)) => Top::Open(o, Inner { base, frames }),
        Some(Frame::Constant(n, c)) => Top::Constant(n, c, Inner { base, frames }),
    }
}

/// Makes the innermost operator whole, where it binds tighter than the level.
#[tactic(auto, using(crate::proofs::StackLemmas::inner_push))]
fn fold_once(alloc: Global, k: Inner, level: u8, e: Part) -> Result<Folded, AllocError>
    ensures folds { IfOk result (FoldsTo (v.inner k) level (v.part e)) }
    ensures less { IfOk result (IsLess (vec_len k.frames)) }
{
    let Inner { base, mut frames } = k;
    match frames.pop() {
        None => Ok(Folded::Done(e, Inner { base, frames })),
        Some(Frame::Bind(b)) => {
            if level <= bind_level(&b) {
                let more = bound(alloc, b, e)?;
                Ok(Folded::More(more, Inner { base, frames }))
            } else {
                frames.push(Frame::Bind(b))?;
                Ok(Folded::Done(e, Inner { base, frames }))
            }
        }
        Some(f) => {
            frames.push(f)?;
            Ok(Folded::Done(e, Inner { base, frames }))
        }
    }
}

/// Makes whole what binds tighter than the level.
pub fn fold(alloc: Global, k: Inner, level: u8, e: Part) -> Result<Held, AllocError>
    ensures { IfOk result (λ h. ex.fold (v.inner k) level (v.part e) ≡ ex.held (v.part h.value) (v.inner h.around)) }
{
    let mut k = k;
    let mut e = e;
    'fold: loop {
        match fold_once(alloc, k, level, e)? {
            Folded::More(more, rest) => {
                e = more;
                k = rest;
            }
            Folded::Done(value, around) => return Ok(Held { value, around }),
        }
    }
}

/// One frame more around a statement.
#[tactic(auto, using(crate::proofs::StackLemmas::outer_push))]
pub fn push_outer(o: Outer, f: OuterFrame) -> Result<Outer, AllocError>
    ensures { IfOk result (λ r. v.outer r ≡ v.outer_on (v.outer o) f) }
{
    let Outer { body, mut frames } = o;
    frames.push(f)?;
    Ok(Outer { body, frames })
}
