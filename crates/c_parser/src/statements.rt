ghost use Rattle.std.specs.Prelude.{◌≡◌, Some, None, IfOk, length, ◌++◌, ◌∷◌, []};
ghost use Rattle.c_tree.specs.View.{statement, attributes_of, statements_of, item_of, body_of};
ghost use Rattle.c_tree.specs.Tree as tr;
ghost use Rattle.parse_machine.specs.Tokens as tk;
ghost use Rattle.parse_machine.specs.Contexts as m;
ghost use Rattle.parse_machine.specs.Making as mk;
ghost use Rattle.parse_machine.specs.Expressions as ex;
ghost use Rattle.parse_machine.specs.Specifiers as sf;
ghost use Rattle.parse_machine.specs.Statements as sm;
ghost use Rattle.parse_stack.specs.View as v;
ghost use Rattle.parse_values.specs.ModeView.{Gives, GivesTurn, fork, waiting};
ghost use Rattle.parse_steps.specs.Keeping.{KeepsNames};

use c_tree::{
    Attribute, Body, Bracket, Function, Item, Parameters, PrefixOp, Spec, Statement, StatementWord,
    Symbol,
};
use lv_base::Text;
use parse_stack::{
    Around, Attributed, Base, Bind, Frame, FunctionHead, Inner, Opened, Opening, Outer, OuterFrame,
    Place, Spoken, StepFail, Test, Wrap, add_word, is_list, no_parts, push, push_outer, rooted,
    unspoken,
};
use parse_steps::step_specs;
use parse_values::{
    Fork, Mode, Skip, Waiting, begin_in, function_of, step_maybe, step_operand, whole,
};
use std::alloc::{AllocError, Global};
use typedef_names::Names;

/// The words behind so many `__extension__`.
fn extension_words(alloc: Global, offsets: &[u32]) -> Result<Spoken, AllocError>
    ensures { IfOk result (λ s. v.spoken s ≡ mk.extension_words offsets.now mk.unspoken) }
{
    let mut s = unspoken(alloc);
    let mut rest = offsets;
    'offsets: while let Some((at, behind)) = rest.split_first() {
        s = add_word(s, Spec::Extension(*at), 0)?;
        rest = behind;
    }
    Ok(s)
}

/// So many `__extension__` before an operand.
fn extension_binds(k: Inner, offsets: &[u32]) -> Result<Inner, AllocError>
    ensures { IfOk result (λ r. v.inner r ≡ sm.extension_binds offsets.now (v.inner k)) }
{
    let mut k = k;
    let mut rest = offsets;
    'offsets: while let Some((at, behind)) = rest.split_first() {
        k = push(k, Frame::Bind(Bind::Prefix(PrefixOp::Extension, *at)))?;
        rest = behind;
    }
    Ok(k)
}

fn fork_around(alloc: Global, f: Box<Fork>) -> Result<Box<Around>, AllocError>
    ensures { IfOk result (λ w. v.around w.value ≡ sm.fork_around (fork f.value)) }
{
    let w = match Box::into_inner(f) {
        Fork::Cast(a, k) => Around::Cast(a, k),
        Fork::Sizeof(x, a, k) => Around::Sizeof(x, a, k),
        Fork::Block(o) => Around::Place(Box::new(alloc, Place::Block(o))?),
        Fork::For(mark, x, a, o) => Around::Place(Box::new(alloc, Place::For(mark, x, a, o))?),
    };
    Ok(Box::new(alloc, w)?)
}

fn fork_inner(alloc: Global, f: Box<Fork>) -> Result<Inner, AllocError>
    ensures { IfOk result (λ k. v.inner k ≡ sm.fork_inner (fork f.value)) }
{
    match Box::into_inner(f) {
        Fork::Cast(a, k) => push(k, Frame::Open(Opened::Paren(a))),
        Fork::Sizeof(x, a, k) => {
            let k = push(k, Frame::Bind(Bind::Prefix(PrefixOp::Sizeof, x)))?;
            push(k, Frame::Open(Opened::Paren(a)))
        }
        Fork::Block(o) => rooted(alloc, Base::Statement(o)),
        Fork::For(mark, x, a, o) => rooted(alloc, Base::Start(mark, x, a, o)),
    }
}

/// An expression comes.
fn fork_value(
    alloc: Global,
    names: &Names,
    t: Symbol,
    at: u32,
    f: Box<Fork>,
    offsets: Vec<u32>,
) -> Result<Mode, StepFail>
    ensures { Gives result (ex.step_maybe names.now t at (sm.extension_binds offsets.items (sm.fork_inner (fork f.value)))) }
{
    let k = extension_binds(fork_inner(alloc, f)?, &offsets)?;
    step_maybe(alloc, names, t, at, k)
}

/// Words come.
fn fork_words(
    alloc: Global,
    names: &Names,
    t: Symbol,
    at: u32,
    f: Box<Fork>,
    offsets: Vec<u32>,
) -> Result<Mode, StepFail>
    ensures { Gives result (sf.step_specs names.now t at (mk.extension_words offsets.items mk.unspoken) (sm.fork_around (fork f.value))) }
{
    let s = extension_words(alloc, &offsets)?;
    step_specs(alloc, names, t, at, s, fork_around(alloc, f)?)
}

/// One `__extension__` more.
fn fork_more(at: u32, f: Box<Fork>, offsets: Vec<u32>) -> Result<Mode, StepFail>
    ensures { Gives result (Some (m.Either (fork f.value) (offsets.items ++ at ∷ []))) }
{
    let mut offsets = offsets;
    offsets.push(at)?;
    Ok(Mode::Either(f, offsets))
}

/// Where words or an expression may come.
pub fn step_either(
    alloc: Global,
    names: &Names,
    t: Symbol,
    at: u32,
    f: Box<Fork>,
    offsets: Vec<u32>,
) -> Result<Mode, StepFail>
    ensures { Gives result (sm.step_either names.now t at (fork f.value) offsets.items) }
{
    match t {
        Symbol::Extension => fork_more(at, f, offsets),
        Symbol::Type(_)
        | Symbol::Storage(_)
        | Symbol::Const(_)
        | Symbol::Attribute(_)
        | Symbol::Enum => fork_words(alloc, names, t, at, f, offsets),
        Symbol::Name(n) => {
            if names.has(&n) {
                fork_words(alloc, names, Symbol::Name(n), at, f, offsets)
            } else {
                fork_value(alloc, names, Symbol::Name(n), at, f, offsets)
            }
        }
        t => fork_value(alloc, names, t, at, f, offsets),
    }
}

fn wait(alloc: Global, x: Waiting) -> Result<Mode, StepFail>
    ensures { Gives result (Some (m.Wait (waiting x))) }
{
    Ok(Mode::Wait(Box::new(alloc, x)?))
}

/// A statement that begins with a keyword.
fn begin_word(alloc: Global, w: StatementWord, at: u32, o: Outer) -> Result<Mode, StepFail>
    ensures { Gives result (sm.begin_word w at (v.outer o)) }
{
    match w {
        StatementWord::Break => wait(alloc, Waiting::Break(at, o)),
        StatementWord::Case => Ok(Mode::Operand(rooted(alloc, Base::Case(at, o))?)),
        StatementWord::Continue => wait(alloc, Waiting::Continue(at, o)),
        StatementWord::Default => wait(alloc, Waiting::Default(at, o)),
        StatementWord::Do => Ok(Mode::Begin(push_outer(o, OuterFrame::Do(at))?)),
        StatementWord::Else => Err(StepFail::Refused),
        StatementWord::For => wait(alloc, Waiting::For(at, o)),
        StatementWord::Goto => Ok(Mode::Goto(at, o)),
        StatementWord::If => wait(alloc, Waiting::Test(Test::If, at, o)),
        StatementWord::Return => Ok(Mode::Maybe(rooted(alloc, Base::Return(at, o))?)),
        StatementWord::Switch => wait(alloc, Waiting::Test(Test::Switch, at, o)),
        StatementWord::While => wait(alloc, Waiting::Test(Test::While, at, o)),
    }
}

/// A function is whole.
pub fn function_item(alloc: Global, head: Box<FunctionHead>, body: Body) -> Result<Mode, StepFail>
    ensures { Gives result (Some (m.Ended (sm.function_item (v.function_head head.value) (body_of body)) 0)) }
{
    let FunctionHead {
        words,
        name,
        parameters,
        attributes,
    } = Box::into_inner(head);
    let f = Function {
        specs: words,
        name,
        parameters: Box::into_inner(parameters),
        attributes,
        body,
    };
    Ok(Mode::Ended(Box::new(alloc, Item::Function(f))?, 0))
}

fn block_statement(a: u32, statements: Vec<Statement>, b: u32) -> Statement
    ensures { statement result ≡ tr.sBlock a (statements_of statements.items) b }
{
    Statement::Block(a, statements, b)
}

/// The end of a block.
#[tactic(auto, using(crate::proofs::Stacks::outer_push))]
fn close_block(alloc: Global, names: &mut Names, at: u32, o: Outer) -> Result<Mode, StepFail>
    ensures gives { GivesTurn result names.new (sm.close_block names.old at (v.outer o)) }
    ensures keeps { KeepsNames result names.old names.new }
{
    let Outer { body, mut frames } = o;
    match frames.pop() {
        None => {
            let Opening {
                mark,
                head,
                open,
                statements,
            } = Box::into_inner(body);
            names.leave(mark);
            function_item(alloc, head, Body::Block(open, statements, at))
        }
        Some(OuterFrame::Block(mark, a, statements)) => {
            names.leave(mark);
            let s = block_statement(a, statements, at);
            whole(alloc, s, Outer { body, frames })
        }
        Some(_) => Err(StepFail::Refused),
    }
}

/// A declaration or an expression where a statement may begin.
fn begin_other(alloc: Global, names: &Names, t: Symbol, at: u32, o: Outer) -> Result<Mode, StepFail>
    ensures { Gives result (sm.begin_other names.now t at (v.outer o)) }
{
    if is_list(&o) {
        let f = Box::new(alloc, Fork::Block(o))?;
        step_either(alloc, names, t, at, f, Vec::new(alloc))
    } else {
        let k = rooted(alloc, Base::Statement(o))?;
        step_operand(alloc, names, t, at, k)
    }
}

/// The `{` of a block.
fn open_block(alloc: Global, names: &Names, at: u32, o: Outer) -> Result<Mode, StepFail>
    ensures { Gives result (Some (m.Begin (m.outBlock (length names.now) at tr.no_statements (v.outer o)))) }
{
    let frame = OuterFrame::Block(names.count(), at, Vec::new(alloc));
    Ok(Mode::Begin(push_outer(o, frame)?))
}

/// Where a statement may begin.
#[tactic(auto, using(crate::proofs::TurnLemmas::kept_gives))]
pub fn step_begin(
    alloc: Global,
    names: &mut Names,
    t: Symbol,
    at: u32,
    o: Outer,
) -> Result<Mode, StepFail>
    ensures gives { GivesTurn result names.new (sm.step_begin names.old t at (v.outer o)) }
    ensures keeps { KeepsNames result names.old names.new }
{
    match t {
        Symbol::Semicolon => whole(alloc, Statement::Empty(at), o),
        Symbol::Open(b) => match b {
            Bracket::Curly => open_block(alloc, names, at, o),
            b => begin_other(alloc, names, Symbol::Open(b), at, o),
        },
        Symbol::Close(b) => match b {
            Bracket::Curly => close_block(alloc, names, at, o),
            b => begin_other(alloc, names, Symbol::Close(b), at, o),
        },
        Symbol::Statement(w) => begin_word(alloc, w, at, o),
        t => begin_other(alloc, names, t, at, o),
    }
}

/// Behind `goto`.
pub fn step_goto(
    alloc: Global,
    names: &Names,
    t: Symbol,
    at: u32,
    x: u32,
    o: Outer,
) -> Result<Mode, StepFail>
    ensures { Gives result (sm.step_goto names.now t at x (v.outer o)) }
{
    match t {
        Symbol::Name(n) => {
            if names.has(&n) {
                Err(StepFail::Refused)
            } else {
                wait(alloc, Waiting::Goto(x, n, at, o))
            }
        }
        _ => Err(StepFail::Refused),
    }
}

/// What stands behind a label.
fn begin_labelled(
    alloc: Global,
    names: &mut Names,
    t: Symbol,
    at: u32,
    label: Wrap,
    o: Outer,
) -> Result<Mode, StepFail>
    ensures gives { GivesTurn result names.new (sm.step_begin names.old t at (m.outWrap (v.wrap label) (v.outer o))) }
    ensures keeps { KeepsNames result names.old names.new }
{
    let o = push_outer(o, OuterFrame::Wrap(label))?;
    step_begin(alloc, names, t, at, o)
}

/// Behind a label and its attributes.
pub fn step_label(
    alloc: Global,
    names: &mut Names,
    t: Symbol,
    at: u32,
    n: Text,
    x: u32,
    b: u32,
    attributes: Vec<Attribute>,
    o: Outer,
) -> Result<Mode, StepFail>
    ensures gives { GivesTurn result names.new (sm.step_label names.old t at n x b (attributes_of attributes.items) (v.outer o)) }
    ensures keeps { KeepsNames result names.old names.new }
{
    match t {
        Symbol::Attribute(w) => {
            let on = Box::new(alloc, Attributed::Label(n, x, b, attributes, o))?;
            wait(alloc, Waiting::Attribute(w, at, on))
        }
        t => begin_labelled(alloc, names, t, at, Wrap::Label(n, x, b, attributes), o),
    }
}

/// Whether the one token that may come is this.
fn is_awaited(x: &Waiting, t: &Symbol) -> bool
    ensures { result ≡ tk.is_awaited (sm.awaited (waiting x.now)) t.now }
{
    match x {
        Waiting::Test(..) | Waiting::Do(..) | Waiting::For(..) | Waiting::Attribute(..) => {
            matches!(t, Symbol::Open(Bracket::Round))
        }
        Waiting::List(..) => matches!(t, Symbol::Open(Bracket::Curly)),
        Waiting::While(..) => matches!(t, Symbol::Statement(StatementWord::While)),
        Waiting::Done(..) | Waiting::Goto(..) | Waiting::Break(..) | Waiting::Continue(..) => {
            matches!(t, Symbol::Semicolon)
        }
        Waiting::Default(..) => matches!(t, Symbol::Colon),
        Waiting::Void(..) => matches!(t, Symbol::Close(Bracket::Round)),
    }
}

/// The one token came.
fn arrived(alloc: Global, names: &Names, at: u32, x: Waiting) -> Result<Mode, StepFail>
    ensures { Gives result (Some (sm.arrived names.now at (waiting x))) }
{
    match x {
        Waiting::Test(test, x, o) => {
            Ok(Mode::Operand(rooted(alloc, Base::Test(test, x, at, o))?))
        }
        Waiting::While(x, s, o) => wait(alloc, Waiting::Do(x, s, at, o)),
        Waiting::Do(x, s, y, o) => Ok(Mode::Operand(rooted(alloc, Base::Do(x, s, y, at, o))?)),
        Waiting::Done(x, s, h, o) => whole(alloc, Statement::Do(x, s, h, at), o),
        Waiting::For(x, o) => {
            let f = Box::new(alloc, Fork::For(names.count(), x, at, o))?;
            Ok(Mode::Either(f, Vec::new(alloc)))
        }
        Waiting::Default(x, o) => begin_in(o, Wrap::Default(x, at)),
        Waiting::Goto(x, n, y, o) => whole(alloc, Statement::Goto(x, n, y, at), o),
        Waiting::Break(x, o) => whole(alloc, Statement::Break(x, at), o),
        Waiting::Continue(x, o) => whole(alloc, Statement::Continue(x, at), o),
        Waiting::Void(d, a, x) => function_of(alloc, d, Parameters::Void(a, x, at), 1),
        Waiting::List(d, x) => {
            let base = Base::Part(d, x, at, no_parts(alloc), None);
            Ok(Mode::Operand(rooted(alloc, base)?))
        }
        Waiting::Attribute(w, x, on) => {
            let skip = Skip {
                tokens: Vec::new(alloc),
                depth: 0,
            };
            Ok(Mode::Attribute(w, x, at, skip, on))
        }
    }
}

/// Where one token may come.
pub fn step_wait(
    alloc: Global,
    names: &Names,
    t: Symbol,
    at: u32,
    x: Box<Waiting>,
) -> Result<Mode, StepFail>
    ensures { Gives result (sm.step_wait names.now t at (waiting x.value)) }
{
    if is_awaited(&x, &t) {
        arrived(alloc, names, at, Box::into_inner(x))
    } else {
        Err(StepFail::Refused)
    }
}
