ghost use Rattle.std.specs.Prelude.{◌≡◌, ◌+◌, ◌^◌, ◌<◌};
ghost use Rattle.c_tree.specs.View.{declarators_of};
ghost use Rattle.c_tree.specs.Shape.{are_no_declarators};
ghost use Rattle.parse_machine.specs.Heights as hi;
ghost use Rattle.parse_machine.specs.Contexts as m;
ghost use Rattle.c_tree.specs.Spelling as sp;
ghost use Rattle.parse_stack.specs.View as v;

use crate::frames::{Base, Bind, Frame, Opened};
use crate::places::{Declaring, Inner, Outer, Place};
use crate::reduce::{above, level};
use c_tree::{Declarator, PrefixOp};

/// How tight an operand of the operator must bind.
pub fn operand_level(op: PrefixOp) -> u8
    ensures { result ≡ sp.operand_level op }
{
    match op {
        PrefixOp::Increment | PrefixOp::Decrement | PrefixOp::Sizeof => 14,
        PrefixOp::Plus
        | PrefixOp::Minus
        | PrefixOp::Complement
        | PrefixOp::Not
        | PrefixOp::Extension => 13,
    }
}

fn bind_least(b: &Bind) -> u8
    ensures { result ≡ hi.least_bind (v.bind b.now) }
{
    match b {
        Bind::Binary(_, op, _) => level(*op) + 1,
        Bind::Prefix(op, _) => operand_level(*op),
        Bind::Cast(..) => 13,
        Bind::Assign(..) | Bind::Comma(..) => 1,
        Bind::Else(..) => 2,
    }
}

fn frame_least(f: &Frame) -> u8
    ensures { (k : m.Inner) → result ≡ hi.least (v.inner_on k f.now) }
{
    match f {
        Frame::Bind(b) => bind_least(b),
        Frame::Open(Opened::Argument(..)) => 1,
        Frame::Open(_) => 0,
        Frame::Constant(..) => 2,
    }
}

fn base_least(b: &Base) -> u8
    ensures { result ≡ hi.least (v.base b.now) }
{
    match b {
        Base::Case(..) | Base::Length(..) | Base::ParameterConstant(..) | Base::PlaceConstant(..) =>
            2,
        Base::Initial(..) | Base::Part(..) => 1,
        Base::Statement(_)
        | Base::Test(..)
        | Base::Do(..)
        | Base::Return(..)
        | Base::Start(..)
        | Base::More(..)
        | Base::Step(..) => 0,
    }
}

/// The least level that fits the place.
#[tactic(auto, using(crate::proofs::StackLemmas::inner_push))]
pub fn least(k: &Inner) -> u8
    ensures { result ≡ hi.least (v.inner k.now) }
{
    match k.frames.split_last() {
        Some((f, _)) => frame_least(f),
        None => base_least(&k.base),
    }
}

/// How many nodes are around a statement.
#[tactic(auto, using(crate::proofs::StackLemmas::depth_behind))]
pub fn depth(o: &Outer) -> usize
    ensures depth { result ≡ hi.depth (v.outer o.now) }
    ensures room { result < 2 ^ 63 + 2 }
{
    o.frames.len() + 2
}

/// How many nodes are around a declaration.
pub fn place_depth(p: &Place) -> usize
    ensures depth { result ≡ hi.place_depth (v.place p.now) }
    ensures room { result < 2 ^ 63 + 3 }
{
    match p {
        Place::File => 0,
        Place::Block(o) => depth(o),
        Place::For(_, _, _, o) => depth(o) + 1,
    }
}

#[tactic(auto, using(crate::proofs::StackLemmas::none_of_empty))]
fn are_none(declarators: &[Declarator]) -> bool
    ensures { result ≡ are_no_declarators (declarators_of declarators.now) }
{
    declarators.is_empty()
}

/// Whether a block of a function may follow the parameters of this name.
pub fn is_first(d: &Declaring) -> bool
    ensures { result ≡ hi.is_first (v.declaring d.now) }
{
    match &*d.place {
        Place::File => are_none(&d.before.declarators),
        Place::Block(_) | Place::For(..) => false,
    }
}
