ghost use Rattle.std.specs.Prelude.{◌≡◌, Some, IfOk};
ghost use Rattle.c_tree.specs.View.{enumerators_of};
ghost use Rattle.parse_machine.specs.Contexts as m;
ghost use Rattle.parse_machine.specs.Making as mk;
ghost use Rattle.parse_machine.specs.Expressions as ex;
ghost use Rattle.parse_stack.specs.View as v;
ghost use Rattle.parse_values.specs.ModeView.{Gives};

use crate::modes::Mode;
use parse_stack::{
    Around, EnumHead, EnumRow, Inner, Listing, Nest, Part, Spoken, StepFail, Valuing, above,
    add_word, enumeration, valued_more,
};
use std::alloc::{AllocError, Global};

/// The words of a cast or of `sizeof`.
pub fn nested(alloc: Global, n: Nest, k: Inner) -> Result<Box<Around>, AllocError>
    ensures { IfOk result (λ w. v.around w.value ≡ v.nested n (v.inner k)) }
{
    let w = match n {
        Nest::Cast(a) => Around::Cast(a, k),
        Nest::Sizeof(at, a) => Around::Sizeof(at, a, k),
    };
    Ok(Box::new(alloc, w)?)
}

/// An enumeration is whole.
pub fn enumerated(
    w: Box<Around>,
    s: Spoken,
    head: Box<EnumHead>,
    row: EnumRow,
    comma: Option<u32>,
    at: u32,
) -> Result<Mode, StepFail>
    ensures { Gives result (Some (m.Specifiers (mk.said (v.spoken s) s.told (mk.enumeration (v.enum_head head.value) (enumerators_of row.constants.items) comma at) (mk.above row.height)) (v.around w.value))) }
{
    let height = above(row.height);
    let spec = enumeration(Box::into_inner(head), row, comma, at);
    Ok(Mode::Specifiers(add_word(s, spec, height)?, w))
}

/// The value of a constant, and a comma.
pub fn valued_comma(
    at: u32,
    e: Part,
    around: Box<Around>,
    part: Box<Valuing>,
) -> Result<Mode, StepFail>
    ensures { Gives result (ex.comma at (v.part e) (v.valuing (v.around around.value) part.value)) }
{
    if e.level < 2 {
        return Err(StepFail::Refused);
    }
    let Valuing {
        spoken,
        head,
        before,
        comma,
        name,
        at: x,
        assign,
    } = Box::into_inner(part);
    let before = valued_more(before, comma, name, x, assign, e)?;
    Ok(Mode::Constant(Listing {
        around,
        spoken,
        head,
        before,
        comma: Some(at),
    }))
}

/// The value of a constant, and the end of the list.
pub fn valued_close(
    at: u32,
    e: Part,
    around: Box<Around>,
    part: Box<Valuing>,
) -> Result<Mode, StepFail>
    ensures { Gives result (ex.close_curly at (v.part e) (v.valuing (v.around around.value) part.value)) }
{
    if e.level < 2 {
        return Err(StepFail::Refused);
    }
    let Valuing {
        spoken,
        head,
        before,
        comma,
        name,
        at: x,
        assign,
    } = Box::into_inner(part);
    let before = valued_more(before, comma, name, x, assign, e)?;
    enumerated(around, spoken, head, before, None, at)
}
