ghost use Rattle.std.specs.Prelude.{◌≡◌, ◌+◌, ◌^◌, ◌<◌, ◌≤◌};
ghost use Rattle.c_tree.specs.View.{form_of, attributes_of};
ghost use Rattle.c_tree.specs.Height.{height_attributes};
ghost use Rattle.parse_machine.specs.Heights as hi;
ghost use Rattle.parse_machine.specs.Contexts as m;
ghost use Rattle.parse_stack.specs.View as v;

use crate::frames::{Base, Bind, Frame, Opened};
use crate::heights::{depth, is_first, place_depth};
use crate::places::{Around, Attributed, Declared, Declaring, Inner, Listing, Outer, OuterFrame};
use crate::reduce::above;
use c_tree::{Attribute, Form};

/// The height of an operator with an operand of this height.
fn bind_high(b: &Bind, h: u32) -> u32
    ensures { result ≡ hi.bind_high (v.bind b.now) h }
{
    match b {
        Bind::Binary(a, _, _) | Bind::Assign(a, _, _) => above(a.height.max(h)),
        Bind::Prefix(..) => above(h),
        Bind::Cast(_, s, _) => above(above(s.height).max(h)),
        Bind::Else(c, _, a, _) => above(c.height.max(a.height).max(h)),
        Bind::Comma(row, _) => above(row.height.max(h)),
    }
}

fn open_high(o: &Opened, h: u32) -> u32
    ensures { result ≡ hi.open_high (v.opened o.now) h }
{
    match o {
        Opened::Paren(_) => above(h),
        Opened::Index(f, _) | Opened::Then(f, _) => above(f.height.max(h)),
        Opened::Argument(f, _, row, _) => above(f.height.max(row.height).max(h)),
    }
}

/// The height of a frame with what is in it.
fn frame_high(f: &Frame, h: u32) -> u32
    ensures { (k : m.Inner) → hi.high (v.inner_on k f.now) h ≡ hi.high k result }
{
    match f {
        Frame::Bind(b) => bind_high(b, h),
        Frame::Open(o) => open_high(o, h),
        Frame::Constant(_, c) => {
            let constants = above(c.before.height.max(above(h)));
            above(above(c.spoken.height.max(constants)))
        }
    }
}

/// Inside of a declarator.
fn declarator_high(d: &Declaring, h: u32) -> usize
    ensures { result ≡ hi.declarator_high (v.declaring d.now) h }
{
    place_depth(&d.place) + 1 + above(h) as usize
}

/// Parameters of this height, which stand in a function or in a declarator.
pub fn parameters_high(d: &Declaring, h: u32) -> usize
    ensures { result ≡ hi.parameters_high (v.declaring d.now) h }
{
    if is_first(d) {
        h as usize + 1
    } else {
        declarator_high(d, h)
    }
}

/// The height of what must follow.
fn form_needs(f: &Form) -> u32
    ensures { result ≡ hi.form_needs (form_of f.now) }
{
    match f {
        Form::Array(_, None, _) => 2,
        _ => 0,
    }
}

/// Whether it is a function's.
pub fn is_function(f: &Form) -> bool
    ensures { result ≡ hi.is_function (form_of f.now) }
{
    match f {
        Form::Function(_) => true,
        Form::Plain | Form::Array(..) => false,
    }
}

/// A declared name with a part of this height.
pub fn declared_high(d: &Declared, h: u32) -> usize
    ensures { result ≡ hi.declared_high (v.declared d.now) h }
{
    let form = d.form.height;
    if is_function(&d.form.form) {
        parameters_high(&d.around, form.max(h))
    } else {
        declarator_high(&d.around, form.max(form_needs(&d.form.form)).max(h))
    }
}

/// Inside of a statement.
fn outer_high(o: &Outer, h: u32) -> usize
    ensures { result ≡ hi.depth (v.outer o.now) + 1 + h }
{
    depth(o) + 1 + h as usize
}

/// The tree with an expression of this height, where nothing is open around the expression but this.
fn base_high(b: &Base, h: u32) -> usize
    ensures { result ≡ hi.high (v.base b.now) h }
{
    match b {
        Base::Statement(o)
        | Base::Test(_, _, _, o)
        | Base::Do(_, _, _, _, o)
        | Base::Return(_, o)
        | Base::Case(_, o) => outer_high(o, h),
        Base::Start(_, _, _, o) | Base::More(_, _, _, _, o) | Base::Step(_, _, _, _, _, _, o) => {
            outer_high(o, h.max(1))
        }
        Base::Length(d, _) => declarator_high(&d.around, h.max(1)),
        Base::Initial(d, _) => declared_high(d, h),
        Base::Part(d, _, _, _, _) => declared_high(d, above(h.max(1))),
        Base::ParameterConstant(d, _, row, _, c) => {
            let constants = above(c.before.height.max(above(h)));
            let words = above(c.spoken.height.max(constants));
            parameters_high(&d.around, above(row.height.max(words)))
        }
        Base::PlaceConstant(p, c) => {
            let constants = above(c.before.height.max(above(h)));
            let words = above(c.spoken.height.max(constants));
            place_depth(p) + 1 + words as usize
        }
    }
}

/// The tree with an expression of this height.
#[tactic(auto, using(crate::proofs::StackLemmas::inner_push))]
pub fn inner_high(k: &Inner, h: u32) -> usize
    ensures { result ≡ hi.high (v.inner k.now) h }
{
    let mut h = h;
    let mut frames = k.frames.as_slice();
    'frames: while let Some((f, rest)) = frames.split_last() {
        h = frame_high(f, h);
        frames = rest;
    }
    base_high(&k.base, h)
}

/// The tree with words of this height.
pub fn around_high(w: &Around, h: u32) -> usize
    ensures { result ≡ hi.around_high (v.around w.now) h }
{
    match w {
        Around::Cast(_, k) | Around::Sizeof(_, _, k) => inner_high(k, above(above(h))),
        Around::Parameter(d, _, row, _) => {
            parameters_high(&d.around, above(row.height.max(above(h))))
        }
        Around::Place(p) => place_depth(p) + 1 + above(h) as usize,
    }
}

/// Whether statements follow each other here.
#[tactic(auto, using(crate::proofs::StackLemmas::outer_push))]
pub fn is_list(o: &Outer) -> bool
    ensures { result ≡ hi.is_list (v.outer o.now) }
{
    match o.frames.split_last() {
        None => true,
        Some((OuterFrame::Block(..), _)) => true,
        Some(_) => false,
    }
}

/// The height of some attributes.
#[tactic(auto, using(crate::proofs::StackLemmas::height_of_none, crate::proofs::StackLemmas::height_of_some))]
pub fn attributes_height(attributes: &[Attribute]) -> u32
    ensures { result ≡ height_attributes (attributes_of attributes.now) }
{
    if attributes.is_empty() { 0 } else { 1 }
}

/// The tree with an attribute.
pub fn attributed_high(x: &Attributed) -> usize
    ensures { result ≡ hi.attributed_high (v.attributed x.now) }
{
    match x {
        Attributed::Words(s, w) => around_high(w, s.height.max(1)),
        Attributed::Declared(d) => declared_high(d, 1),
        Attributed::Label(_, _, _, _, o) => depth(o) + 2,
    }
}

/// The tree with an enumeration.
pub fn listing_high(l: &Listing) -> usize
    ensures { result ≡ hi.listing_high (v.listing l.now) }
{
    let constants = above(l.before.height.max(1));
    around_high(&l.around, l.spoken.height.max(constants))
}
