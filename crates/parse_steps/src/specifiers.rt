ghost use Rattle.std.specs.Prelude.{◌≡◌, Some, None, IfOk, Option};
ghost use Rattle.c_tree.specs.declared.symbol.Symbol.TheVariants as sy;
ghost use Rattle.c_tree.specs.Shape.{has};
ghost use Rattle.c_tree.specs.View.{word, expr, words_of, option_name};
ghost use Rattle.c_tree.specs.Tree as tr;
ghost use Rattle.parse_machine.specs.Tokens as tk;
ghost use Rattle.parse_machine.specs.Contexts as m;
ghost use Rattle.parse_machine.specs.Making as mk;
ghost use Rattle.parse_machine.specs.Specifiers as sf;
ghost use Rattle.parse_stack.specs.View as v;
ghost use Rattle.parse_values.specs.ModeView.{Gives};

use crate::declarations::{declared_name, parameters_end};
use c_tree::{AttributeWord, Bracket, Known, Name, Site, Spec, Symbol};
use lv_base::Text;
use parse_stack::{
    Around, Attributed, Bind, Declared, Declaring, Frame, Inner, ParamRow, Place, Spoken, StepFail,
    above, add_parameter, is_typed, is_void, make_part, no_declarators, push, say, site_of_place,
    sizeof_node, unspoken, with_named, with_storage, with_type,
};
use parse_values::{Mode, Waiting, end_declaration};
use std::alloc::Global;
use typedef_names::Names;

fn site_of(w: &Around) -> Site
    ensures { result ≡ sf.site_of (v.around w.now) }
{
    match w {
        Around::Cast(..) => Site::Cast,
        Around::Sizeof(..) | Around::Parameter(..) => Site::Bare,
        Around::Place(p) => site_of_place(p),
    }
}

/// One word more, where it may stand with the others.
fn with_word(s: Spoken, w: Box<Around>, x: Spec, told: Option<Known>) -> Result<Mode, StepFail>
    ensures { Gives result (sf.with_word_said (v.spoken s) (v.around w.value) (word x) told) }
{
    match told {
        None => Err(StepFail::Refused),
        Some(k) => Ok(Mode::Specifiers(say(s, k, x, 0)?, w)),
    }
}

/// The `)` of a cast.
fn behind_cast(t: Symbol, at: u32, s: Spoken, a: u32, k: Inner) -> Result<Mode, StepFail>
    ensures { Gives result (sf.behind_cast t at (v.spoken s) a (v.inner k)) }
{
    match t {
        Symbol::Close(Bracket::Round) => {
            Ok(Mode::Operand(push(k, Frame::Bind(Bind::Cast(a, s, at)))?))
        }
        _ => Err(StepFail::Refused),
    }
}

/// The `)` of a `sizeof`.
fn behind_sizeof(
    alloc: Global,
    t: Symbol,
    at: u32,
    s: Spoken,
    x: u32,
    a: u32,
    k: Inner,
) -> Result<Mode, StepFail>
    ensures { Gives result (sf.behind_sizeof t at (v.spoken s) x a (v.inner k)) }
{
    match t {
        Symbol::Close(Bracket::Round) => {
            let height = above(above(s.height));
            let e = make_part(alloc, 14, height, sizeof_node(x, a, s, at))?;
            Ok(Mode::Value(e, k))
        }
        _ => Err(StepFail::Refused),
    }
}

/// A comma behind a parameter.
pub fn parameters_more(
    alloc: Global,
    d: Box<Declared>,
    a: u32,
    row: ParamRow,
    at: u32,
) -> Result<Mode, StepFail>
    ensures { Gives result (Some (sf.parameters_more (v.declared d.value) a (v.param_row row) at)) }
{
    let w = Box::new(alloc, Around::Parameter(d, a, row, Some(at)))?;
    Ok(Mode::Specifiers(unspoken(alloc), w))
}

/// Behind the words of a parameter.
fn behind_parameter(
    alloc: Global,
    t: Symbol,
    at: u32,
    s: Spoken,
    d: Box<Declared>,
    a: u32,
    row: ParamRow,
    c: Option<u32>,
) -> Result<Mode, StepFail>
    ensures { Gives result (sf.behind_parameter t at (v.spoken s) (v.declared d.value) a (v.param_row row) c) }
{
    match t {
        Symbol::Name(n) => Ok(Mode::Parameter(d, a, row, c, s, n, at)),
        Symbol::Comma => {
            let row = add_parameter(row, c, s, None)?;
            parameters_more(alloc, d, a, row, at)
        }
        Symbol::Close(Bracket::Round) => {
            let row = add_parameter(row, c, s, None)?;
            parameters_end(alloc, d, a, row, at)
        }
        _ => Err(StepFail::Refused),
    }
}

/// Behind the words of a declaration.
fn behind_place(
    alloc: Global,
    t: Symbol,
    at: u32,
    s: Spoken,
    p: Box<Place>,
) -> Result<Mode, StepFail>
    ensures { Gives result (sf.behind_place t at (v.spoken s) (v.place p.value)) }
{
    let void = is_void(s.told.typing);
    let d = Declaring {
        place: p,
        spoken: s,
        before: no_declarators(alloc),
    };
    match t {
        Symbol::Name(n) => declared_name(alloc, d, None, n, at),
        Symbol::Semicolon => {
            if void {
                Err(StepFail::Refused)
            } else {
                end_declaration(alloc, d, at)
            }
        }
        _ => Err(StepFail::Refused),
    }
}

/// Behind words that are whole.
fn behind_words(
    alloc: Global,
    t: Symbol,
    at: u32,
    s: Spoken,
    w: Box<Around>,
) -> Result<Mode, StepFail>
    ensures { Gives result (sf.behind_words t at (v.spoken s) (v.around w.value)) }
{
    match Box::into_inner(w) {
        Around::Cast(a, k) => behind_cast(t, at, s, a, k),
        Around::Sizeof(x, a, k) => behind_sizeof(alloc, t, at, s, x, a, k),
        Around::Parameter(d, a, row, c) => behind_parameter(alloc, t, at, s, d, a, row, c),
        Around::Place(p) => behind_place(alloc, t, at, s, p),
    }
}

/// `__attribute__` among words.
fn attribute_word(
    alloc: Global,
    x: AttributeWord,
    at: u32,
    s: Spoken,
    w: Box<Around>,
) -> Result<Mode, StepFail>
    ensures { Gives result (Some (m.Wait (m.waitAttribute x at (m.onWords (v.spoken s) (v.around w.value))))) }
{
    let on = Box::new(alloc, Attributed::Words(s, w))?;
    Ok(Mode::Wait(Box::new(alloc, Waiting::Attribute(x, at, on))?))
}

/// `enum` among words.
fn enum_word(at: u32, s: Spoken, w: Box<Around>, told: Option<Known>) -> Result<Mode, StepFail>
    ensures { Gives result (sf.enum_word at (v.spoken s) (v.around w.value) told) }
{
    match told {
        None => Err(StepFail::Refused),
        Some(told) => Ok(Mode::Enumeration(
            at,
            Spoken {
                words: s.words,
                told,
                height: s.height,
            },
            w,
        )),
    }
}

/// What follows the words, where they are whole.
fn after_words(
    alloc: Global,
    t: Symbol,
    at: u32,
    s: Spoken,
    w: Box<Around>,
) -> Result<Mode, StepFail>
    ensures { Gives result (sf.step_kind tk.spOther t at (v.spoken s) (v.around w.value)) }
{
    if is_typed(s.told.typing) {
        behind_words(alloc, t, at, s, w)
    } else {
        Err(StepFail::Refused)
    }
}

/// A name where a word may come.
fn name_word(
    alloc: Global,
    names: &Names,
    n: Text,
    at: u32,
    s: Spoken,
    w: Box<Around>,
) -> Result<Mode, StepFail>
    ensures { Gives result (sf.step_specs names.now (sy.Name n) at (v.spoken s) (v.around w.value)) }
{
    if names.has(&n) {
        let told = with_named(s.told);
        with_word(s, w, Spec::Typedef(n, at), told)
    } else {
        after_words(alloc, Symbol::Name(n), at, s, w)
    }
}

/// Where a word of a declaration may come.
pub fn step_specs(
    alloc: Global,
    names: &Names,
    t: Symbol,
    at: u32,
    s: Spoken,
    w: Box<Around>,
) -> Result<Mode, StepFail>
    ensures { Gives result (sf.step_specs names.now t at (v.spoken s) (v.around w.value)) }
{
    let told = s.told;
    match t {
        Symbol::Type(x) => {
            let told = with_type(site_of(&w), x, told);
            with_word(s, w, Spec::Type(x, at), told)
        }
        Symbol::Storage(x) => {
            let told = with_storage(site_of(&w), x, told);
            with_word(s, w, Spec::Storage(x, at), told)
        }
        Symbol::Const(x) => with_word(s, w, Spec::Const(x, at), Some(told)),
        Symbol::Extension => with_word(s, w, Spec::Extension(at), Some(told)),
        Symbol::Attribute(x) => attribute_word(alloc, x, at, s, w),
        Symbol::Enum => enum_word(at, s, w, with_named(told)),
        Symbol::Name(n) => name_word(alloc, names, n, at, s, w),
        t => after_words(alloc, t, at, s, w),
    }
}
