ghost use Rattle.std.specs.Prelude.{◌≡◌, Some, ◌<◌, ◌-◌, ◌^◌};
ghost use Rattle.c_tree.specs.View.{raw_of, attribute_of};
ghost use Rattle.parse_machine.specs.Tokens as tk;
ghost use Rattle.parse_machine.specs.Contexts as m;
ghost use Rattle.parse_machine.specs.Making as mk;
ghost use Rattle.parse_machine.specs.Specifiers as sf;
ghost use Rattle.parse_machine.specs.Steps as st;
ghost use Rattle.parse_stack.specs.View as v;
ghost use Rattle.parse_values.specs.ModeView.{Gives, GivesTurn, Keeps, mode};
ghost use Rattle.c_parser.specs.Skipping.{SkipsTo, IsNear};
ghost use Rattle.c_tree.specs.declared.symbol.Bracket.TheVariants as br;

use crate::settling::step_whole;
use crate::statements::{function_item, step_begin, step_either, step_goto, step_label, step_wait};
use c_tree::{Attribute, AttributeWord, Body, Bracket, Item, Spec, Symbol, SymbolAt};
use parse_stack::{
    Around, Attributed, FunctionHead, Place, StepFail, add_attribute, add_word, unspoken,
};
use parse_steps::{
    step_behind, step_constant, step_enumeration, step_listed, step_named, step_next,
    step_parameter, step_parameters, step_specs, step_tagged,
};
use parse_values::{Mode, Skip, step_maybe, step_operand, step_sizeof, step_value};
use std::alloc::Global;
use typedef_names::Names;

/// What a token does among tokens that are kept as they stand: how many brackets are open behind it, or the end.
pub enum Run {
    On(usize),
    Close,
    End,
}

fn skip_of(b: Bracket, t: &Symbol, depth: usize) -> Run
    requires { depth < 2 ^ 64 - 1 }
    ensures skips { SkipsTo result (tk.skip_of b t.now depth) }
    ensures near { IsNear result depth }
{
    match t {
        Symbol::Open(c) => {
            if *c == b {
                Run::On(depth + 1)
            } else {
                Run::On(depth)
            }
        }
        Symbol::Close(c) => {
            if *c != b {
                Run::On(depth)
            } else if depth == 0 {
                Run::Close
            } else {
                Run::On(depth - 1)
            }
        }
        Symbol::End => Run::End,
        _ => Run::On(depth),
    }
}

/// An attribute is whole.
fn with_attribute(alloc: Global, on: Box<Attributed>, x: Attribute) -> Result<Mode, StepFail>
    ensures { Gives result (Some (st.with_attribute (v.attributed on.value) (attribute_of x))) }
{
    match Box::into_inner(on) {
        Attributed::Words(s, w) => { Ok(Mode::Specifiers(add_word(s, Spec::Attribute(x), 1)?, w)) }
        Attributed::Declared(d) => {
            let mut d = d;
            let attributes = std::mem::replace(&mut d.attributes, Vec::new(alloc));
            d.attributes = add_attribute(attributes, x)?;
            Ok(Mode::Behind(d))
        }
        Attributed::Label(n, at, b, attributes, o) => {
            Ok(Mode::Label(n, at, b, add_attribute(attributes, x)?, o))
        }
    }
}

/// Among the tokens of an attribute.
#[tactic(auto, using(crate::proofs::Views::raw_push))]
fn step_attribute(
    alloc: Global,
    t: SymbolAt,
    word: AttributeWord,
    at: u32,
    bracket: u32,
    skip: Skip,
    on: Box<Attributed>,
) -> Result<Mode, StepFail>
    ensures { Gives result (st.attribute_skip (tk.skip_of br.Round t.symbol skip.depth) t word at bracket (raw_of skip.tokens.items) (v.attributed on.value)) }
{
    let Skip {
        mut tokens,
        depth: n,
    } = skip;
    match skip_of(Bracket::Round, &t.symbol, n) {
        Run::On(n) => {
            tokens.push(t)?;
            Ok(Mode::Attribute(word, at, bracket, Skip { tokens, depth: n }, on))
        }
        Run::Close => with_attribute(
            alloc,
            on,
            Attribute {
                word,
                at,
                open: bracket,
                tokens,
                close: t.at,
            },
        ),
        Run::End => Err(StepFail::Refused),
    }
}

/// Among the tokens of a block that is skipped.
#[tactic(auto, using(crate::proofs::Views::raw_push))]
fn step_skipped(
    alloc: Global,
    t: SymbolAt,
    head: Box<FunctionHead>,
    bracket: u32,
    skip: Skip,
) -> Result<Mode, StepFail>
    ensures { Gives result (st.body_skip (tk.skip_of br.Curly t.symbol skip.depth) t (v.function_head head.value) bracket (raw_of skip.tokens.items)) }
{
    let Skip {
        mut tokens,
        depth: n,
    } = skip;
    match skip_of(Bracket::Curly, &t.symbol, n) {
        Run::On(n) => {
            tokens.push(t)?;
            Ok(Mode::Skipped(head, bracket, Skip { tokens, depth: n }))
        }
        Run::Close => function_item(alloc, head, Body::Skipped(bracket, tokens, t.at)),
        Run::End => Err(StepFail::Refused),
    }
}

/// The first word of an item.
fn begin_item(alloc: Global, names: &Names, t: Symbol, at: u32) -> Result<Mode, StepFail>
    ensures { Gives result (sf.step_specs names.now t at mk.unspoken (m.aroundPlace m.placeFile)) }
{
    let p = Box::new(alloc, Place::File)?;
    let w = Box::new(alloc, Around::Place(p))?;
    step_specs(alloc, names, t, at, unspoken(alloc), w)
}

/// Where an item is to come.
fn step_file(alloc: Global, names: &Names, t: Symbol, at: u32) -> Result<Mode, StepFail>
    ensures { Gives result (st.step_file names.now t at) }
{
    match t {
        Symbol::Semicolon => Ok(Mode::Ended(Box::new(alloc, Item::Empty(at))?, 0)),
        Symbol::End => Ok(Mode::Finished),
        t => begin_item(alloc, names, t, at),
    }
}

/// One token, in each mode.
#[tactic(auto, using(crate::proofs::TurnLemmas::kept_gives))]
pub fn next(alloc: Global, names: &mut Names, t: SymbolAt, m: Mode) -> Result<Mode, StepFail>
    ensures gives { GivesTurn result names.new (st.next names.old t (mode m)) }
    ensures keeps { Keeps result m names.old names.new }
{
    let SymbolAt { symbol, at } = t;
    match m {
        Mode::File => step_file(alloc, names, symbol, at),
        Mode::Ended(..) | Mode::Finished => Err(StepFail::Refused),
        Mode::Specifiers(s, w) => step_specs(alloc, names, symbol, at, s, w),
        Mode::Enumeration(x, s, w) => step_enumeration(alloc, names, symbol, at, x, s, w),
        Mode::Tagged(x, n, y, s, w) => step_tagged(alloc, names, symbol, at, x, n, y, s, w),
        Mode::Constant(l) => step_constant(names, symbol, at, l),
        Mode::Named(l, n, x) => step_named(alloc, symbol, at, l, n, x),
        Mode::Attribute(w, x, a, skip, on) => {
            step_attribute(alloc, SymbolAt { symbol, at }, w, x, a, skip, on)
        }
        Mode::Next(d, c) => step_next(alloc, names, symbol, at, d, c),
        Mode::Behind(d) => step_behind(alloc, names, symbol, at, d),
        Mode::Listed(d) => step_listed(alloc, symbol, at, d),
        Mode::Parameters(d, a) => step_parameters(alloc, names, symbol, at, d, a),
        Mode::Parameter(d, a, row, c, s, n, x) => {
            step_parameter(alloc, symbol, at, d, a, row, c, s, n, x)
        }
        Mode::Skipped(head, a, skip) => step_skipped(alloc, SymbolAt { symbol, at }, head, a, skip),
        Mode::Begin(o) => step_begin(alloc, names, symbol, at, o),
        Mode::Wait(x) => step_wait(alloc, names, symbol, at, x),
        Mode::Either(f, offsets) => step_either(alloc, names, symbol, at, f, offsets),
        Mode::Goto(x, o) => step_goto(alloc, names, symbol, at, x, o),
        Mode::Operand(k) => step_operand(alloc, names, symbol, at, k),
        Mode::Maybe(k) => step_maybe(alloc, names, symbol, at, k),
        Mode::Sizeof(x, k) => step_sizeof(alloc, names, symbol, at, x, k),
        Mode::Value(e, k) => step_value(alloc, symbol, at, e, k),
        Mode::Label(n, x, b, attributes, o) => {
            step_label(alloc, names, symbol, at, n, x, b, attributes, o)
        }
        Mode::Whole(s, o) => step_whole(alloc, names, symbol, at, s, o),
    }
}
