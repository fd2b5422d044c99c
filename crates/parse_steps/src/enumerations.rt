ghost use Rattle.std.specs.Prelude.{◌≡◌, Some, IfOk, max};
ghost use Rattle.c_tree.specs.Tree as tr;
ghost use Rattle.c_tree.specs.View.{expr, word, enumerators_of};
ghost use Rattle.parse_machine.specs.Contexts as m;
ghost use Rattle.parse_machine.specs.Making as mk;
ghost use Rattle.parse_machine.specs.Expressions as ex;
ghost use Rattle.parse_machine.specs.Specifiers as sf;
ghost use Rattle.parse_stack.specs.View as v;
ghost use Rattle.parse_values.specs.ModeView.{Gives};

use crate::specifiers::step_specs;
use c_tree::{AssignOp, Bracket, Spec, Symbol};
use lv_base::Text;
use parse_stack::{
    Around, Base, EnumHead, EnumRow, Frame, Listing, Nest, Spoken, StepFail, Valuing, add_word,
    plain_more, push, rooted,
};
use parse_values::{Mode, enumerated};
use std::alloc::Global;
use typedef_names::Names;

/// The `{` of an enumeration.
fn list_start(
    alloc: Global,
    spoken: Spoken,
    around: Box<Around>,
    head: EnumHead,
) -> Result<Mode, StepFail>
    ensures { Gives result (Some (sf.list_start (v.spoken spoken) (v.around around.value) (v.enum_head head))) }
{
    let head = Box::new(alloc, head)?;
    Ok(Mode::Constant(Listing {
        around,
        spoken,
        head,
        before: EnumRow {
            constants: Vec::new(alloc),
            height: 0,
        },
        comma: None,
    }))
}

/// Behind `enum`.
pub fn step_enumeration(
    alloc: Global,
    names: &Names,
    t: Symbol,
    at: u32,
    x: u32,
    s: Spoken,
    w: Box<Around>,
) -> Result<Mode, StepFail>
    ensures { Gives result (sf.step_enumeration names.now t at x (v.spoken s) (v.around w.value)) }
{
    match t {
        Symbol::Name(n) => {
            if names.has(&n) {
                Err(StepFail::Refused)
            } else {
                Ok(Mode::Tagged(x, n, at, s, w))
            }
        }
        Symbol::Open(Bracket::Curly) => list_start(alloc, s, w, EnumHead::Bare(x, at)),
        _ => Err(StepFail::Refused),
    }
}

/// No list behind the tag.
fn only_tag(
    alloc: Global,
    names: &Names,
    t: Symbol,
    at: u32,
    x: u32,
    n: Text,
    y: u32,
    s: Spoken,
    w: Box<Around>,
) -> Result<Mode, StepFail>
    ensures { Gives result (sf.step_specs names.now t at (mk.said (v.spoken s) s.told (tr.wTag x n y) 1) (v.around w.value)) }
{
    let s = add_word(s, Spec::Tag(x, n, y), 1)?;
    step_specs(alloc, names, t, at, s, w)
}

/// Behind `enum NAME`.
pub fn step_tagged(
    alloc: Global,
    names: &Names,
    t: Symbol,
    at: u32,
    x: u32,
    n: Text,
    y: u32,
    s: Spoken,
    w: Box<Around>,
) -> Result<Mode, StepFail>
    ensures { Gives result (sf.step_tagged names.now t at x n y (v.spoken s) (v.around w.value)) }
{
    match t {
        Symbol::Open(b) => match b {
            Bracket::Curly => list_start(alloc, s, w, EnumHead::Tagged(x, n, y, at)),
            b => only_tag(alloc, names, Symbol::Open(b), at, x, n, y, s, w),
        },
        t => only_tag(alloc, names, t, at, x, n, y, s, w),
    }
}

/// The end of the list, behind a comma.
fn list_end(at: u32, l: Listing) -> Result<Mode, StepFail>
    ensures { Gives result (sf.list_end at (v.listing l) l.comma) }
{
    match l.comma {
        None => Err(StepFail::Refused),
        Some(c) => enumerated(l.around, l.spoken, l.head, l.before, Some(c), at),
    }
}

/// Where an enumerator is to come.
pub fn step_constant(names: &Names, t: Symbol, at: u32, l: Listing) -> Result<Mode, StepFail>
    ensures { Gives result (sf.step_constant names.now t at (v.listing l)) }
{
    match t {
        Symbol::Name(n) => {
            if names.has(&n) {
                Err(StepFail::Refused)
            } else {
                Ok(Mode::Named(l, n, at))
            }
        }
        Symbol::Close(Bracket::Curly) => list_end(at, l),
        _ => Err(StepFail::Refused),
    }
}

/// The `=` behind the name of an enumerator.
fn constant_value(
    alloc: Global,
    l: Listing,
    name: Text,
    at: u32,
    assign: u32,
) -> Result<Mode, StepFail>
    ensures { Gives result (Some (m.Operand (m.inConstant (v.around l.around.value) (v.spoken l.spoken) (v.enum_head l.head.value) (v.enum_row l.before) l.comma name at assign))) }
{
    let Listing {
        around,
        spoken,
        head,
        before,
        comma,
    } = l;
    let part = Box::new(
        alloc,
        Valuing {
            spoken,
            head,
            before,
            comma,
            name,
            at,
            assign,
        },
    )?;
    Ok(Mode::Operand(match Box::into_inner(around) {
        Around::Cast(a, k) => push(k, Frame::Constant(Nest::Cast(a), part))?,
        Around::Sizeof(x, a, k) => push(k, Frame::Constant(Nest::Sizeof(x, a), part))?,
        Around::Parameter(d, a, row, c) => {
            rooted(alloc, Base::ParameterConstant(d, a, row, c, part))?
        }
        Around::Place(p) => rooted(alloc, Base::PlaceConstant(p, part))?,
    }))
}

/// Behind the name of an enumerator.
pub fn step_named(
    alloc: Global,
    t: Symbol,
    at: u32,
    l: Listing,
    n: Text,
    x: u32,
) -> Result<Mode, StepFail>
    ensures { Gives result (sf.step_named t at (v.listing l) n x) }
{
    match t {
        Symbol::Assign(AssignOp::Plain) => constant_value(alloc, l, n, x, at),
        Symbol::Comma => {
            let before = plain_more(l.before, l.comma, n, x)?;
            Ok(Mode::Constant(Listing {
                around: l.around,
                spoken: l.spoken,
                head: l.head,
                before,
                comma: Some(at),
            }))
        }
        Symbol::Close(Bracket::Curly) => {
            let before = plain_more(l.before, l.comma, n, x)?;
            enumerated(l.around, l.spoken, l.head, before, None, at)
        }
        _ => Err(StepFail::Refused),
    }
}
