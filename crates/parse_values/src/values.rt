ghost use Rattle.std.specs.Prelude.{◌≡◌, Some, None, ℕ, List};
ghost use Rattle.c_tree.specs.declared.symbol.Symbol.TheVariants as sy;
ghost use Rattle.c_tree.specs.View.{expr, statement, form_of, for_start_of, option_expr, head_of, for_head_of, parts_of};
ghost use Rattle.c_tree.specs.Tree as tr;
ghost use Rattle.parse_machine.specs.Tokens as tk;
ghost use Rattle.parse_machine.specs.Contexts as m;
ghost use Rattle.parse_machine.specs.Making as mk;
ghost use Rattle.parse_machine.specs.Expressions as ex;
ghost use Rattle.parse_stack.specs.View as v;
ghost use Rattle.parse_values.specs.ModeView.{Gives};

use crate::constants::{nested, valued_close, valued_comma};
use crate::declared::{array_of, end_declaration, listed, with_value};
use crate::expressions::{assign, binary, question, sequence, step_operand};
use crate::modes::{Mode, Waiting};
use c_tree::{Bracket, Expr, ForHead, ForStart, Head, Statement, Symbol};
use parse_stack::{
    Around, Base, Bind, Declared, Frame, Inner, Opened, Outer, OuterFrame, Part, PartRow, StepFail,
    Test, Top, Wrap, above, add_part, call_node, make_part, pop, push, push_outer, rooted, tested,
};
use std::alloc::Global;
use typedef_names::Names;

/// A statement is to come inside of this.
pub fn begin_in(o: Outer, w: Wrap) -> Result<Mode, StepFail>
    ensures { Gives result (Some (m.Begin (m.outWrap (v.wrap w) (v.outer o)))) }
{
    Ok(Mode::Begin(push_outer(o, OuterFrame::Wrap(w))?))
}

/// A statement is whole.
pub fn whole(alloc: Global, s: Statement, o: Outer) -> Result<Mode, StepFail>
    ensures { Gives result (Some (m.Whole (statement s) (v.outer o))) }
{
    Ok(Mode::Whole(Box::new(alloc, s)?, o))
}

/// The next part of a list of initial values.
fn part_comma(
    alloc: Global,
    at: u32,
    e: Part,
    d: Box<Declared>,
    x: u32,
    a: u32,
    row: PartRow,
    c: Option<u32>,
) -> Result<Mode, StepFail>
    ensures { Gives result (ex.comma_base at (v.part e) (m.basePart (v.declared d.value) x a (v.part_row row) c)) }
{
    if e.level >= 1 {
        let row = add_part(row, c, e)?;
        let k = rooted(alloc, Base::Part(d, x, a, row, Some(at)))?;
        Ok(Mode::Maybe(k))
    } else {
        Err(StepFail::Refused)
    }
}

/// The initial value of a declared name, and a comma.
fn initial_comma(
    alloc: Global,
    at: u32,
    e: Part,
    d: Box<Declared>,
    x: u32,
) -> Result<Mode, StepFail>
    ensures { Gives result (ex.comma_base at (v.part e) (m.baseInitial (v.declared d.value) x)) }
{
    if e.level >= 1 {
        Ok(Mode::Next(with_value(d, x, e)?, at))
    } else {
        Err(StepFail::Refused)
    }
}

fn comma_base(alloc: Global, at: u32, e: Part, b: Box<Base>) -> Result<Mode, StepFail>
    ensures { Gives result (ex.comma at (v.part e) (v.base b.value)) }
{
    match Box::into_inner(b) {
        Base::Initial(d, x) => initial_comma(alloc, at, e, d, x),
        Base::Part(d, x, a, row, c) => part_comma(alloc, at, e, d, x, a, row, c),
        Base::ParameterConstant(d, a, row, c, part) => {
            let w = Box::new(alloc, Around::Parameter(d, a, row, c))?;
            valued_comma(at, e, w, part)
        }
        Base::PlaceConstant(p, part) => {
            let w = Box::new(alloc, Around::Place(p))?;
            valued_comma(at, e, w, part)
        }
        b => sequence(alloc, at, e, rooted(alloc, b)?),
    }
}

fn comma_bind(at: u32, e: Part, b: Bind, k: Inner) -> Result<Mode, StepFail>
    ensures { Gives result (ex.comma_bind at (v.part e) (v.bind b) (v.inner k)) }
{
    match b {
        Bind::Comma(row, c) if e.level >= 1 => {
            let row = add_part(row, Some(c), e)?;
            Ok(Mode::Operand(push(k, Frame::Bind(Bind::Comma(row, at)))?))
        }
        _ => Err(StepFail::Refused),
    }
}

/// The next argument.
fn argument_comma(
    at: u32,
    e: Part,
    f: Part,
    a: u32,
    row: PartRow,
    c: Option<u32>,
    k: Inner,
) -> Result<Mode, StepFail>
    ensures { Gives result (ex.comma_open at (v.part e) (m.oArgument (v.part f) a (v.part_row row) c) (v.inner k)) }
{
    if e.level >= 1 {
        let row = add_part(row, c, e)?;
        let open = Opened::Argument(f, a, row, Some(at));
        Ok(Mode::Operand(push(k, Frame::Open(open))?))
    } else {
        Err(StepFail::Refused)
    }
}

fn comma_open(alloc: Global, at: u32, e: Part, o: Opened, k: Inner) -> Result<Mode, StepFail>
    ensures { Gives result (ex.comma_open at (v.part e) (v.opened o) (v.inner k)) }
{
    match o {
        Opened::Argument(f, a, row, c) => argument_comma(at, e, f, a, row, c, k),
        o => sequence(alloc, at, e, push(k, Frame::Open(o))?),
    }
}

fn comma(alloc: Global, at: u32, e: Part, k: Inner) -> Result<Mode, StepFail>
    ensures { Gives result (ex.comma at (v.part e) (v.inner k)) }
{
    match pop(k) {
        Top::Base(b) => comma_base(alloc, at, e, b),
        Top::Bind(b, k) => comma_bind(at, e, b, k),
        Top::Open(o, k) => comma_open(alloc, at, e, o, k),
        Top::Constant(n, part, k) => valued_comma(at, e, nested(alloc, n, k)?, part),
    }
}

/// A name before a `:` is a label.
fn label(alloc: Global, at: u32, e: Box<Expr>, o: Outer) -> Result<Mode, StepFail>
    ensures { Gives result (ex.label at (expr e.value) (v.outer o)) }
{
    match Box::into_inner(e) {
        Expr::Name(n, x) => Ok(Mode::Label(n, x, at, Vec::new(alloc), o)),
        _ => Err(StepFail::Refused),
    }
}

fn case_colon(at: u32, e: Part, x: u32, o: Outer) -> Result<Mode, StepFail>
    ensures { Gives result (ex.colon_base at (v.part e) (m.baseCase x (v.outer o))) }
{
    if e.level >= 2 {
        begin_in(o, Wrap::Case(x, e.node, at))
    } else {
        Err(StepFail::Refused)
    }
}

fn colon_base(alloc: Global, at: u32, e: Part, b: Box<Base>) -> Result<Mode, StepFail>
    ensures { Gives result (ex.colon at (v.part e) (v.base b.value)) }
{
    match Box::into_inner(b) {
        Base::Case(x, o) => case_colon(at, e, x, o),
        Base::Statement(o) => label(alloc, at, e.node, o),
        _ => Err(StepFail::Refused),
    }
}

fn colon_open(at: u32, e: Part, o: Opened, k: Inner) -> Result<Mode, StepFail>
    ensures { Gives result (ex.colon_open at (v.part e) (v.opened o) (v.inner k)) }
{
    match o {
        Opened::Then(c, x) => { Ok(Mode::Operand(push(k, Frame::Bind(Bind::Else(c, x, e, at)))?)) }
        _ => Err(StepFail::Refused),
    }
}

fn colon(alloc: Global, at: u32, e: Part, k: Inner) -> Result<Mode, StepFail>
    ensures { Gives result (ex.colon at (v.part e) (v.inner k)) }
{
    match pop(k) {
        Top::Base(b) => colon_base(alloc, at, e, b),
        Top::Open(o, k) => colon_open(at, e, o, k),
        _ => Err(StepFail::Refused),
    }
}

/// A call is whole.
fn called(alloc: Global, f: Part, a: u32, row: PartRow, at: u32, k: Inner) -> Result<Mode, StepFail>
    ensures { Gives result (Some (ex.called (v.part f) a (v.part_row row) at (v.inner k))) }
{
    let height = above(f.height.max(row.height));
    let e = make_part(alloc, 15, height, call_node(f.node, a, row, at))?;
    Ok(Mode::Value(e, k))
}

fn paren(alloc: Global, at: u32, e: Part, a: u32, k: Inner) -> Result<Mode, StepFail>
    ensures { Gives result (ex.close_round_open at (v.part e) (m.oParen a) (v.inner k)) }
{
    let height = above(e.height);
    Ok(Mode::Value(make_part(alloc, 15, height, Expr::Paren(a, e.node, at))?, k))
}

fn last_argument(
    alloc: Global,
    at: u32,
    e: Part,
    f: Part,
    a: u32,
    row: PartRow,
    c: Option<u32>,
    k: Inner,
) -> Result<Mode, StepFail>
    ensures { Gives result (ex.close_round_open at (v.part e) (m.oArgument (v.part f) a (v.part_row row) c) (v.inner k)) }
{
    if e.level >= 1 {
        called(alloc, f, a, add_part(row, c, e)?, at, k)
    } else {
        Err(StepFail::Refused)
    }
}

fn close_round_open(alloc: Global, at: u32, e: Part, o: Opened, k: Inner) -> Result<Mode, StepFail>
    ensures { Gives result (ex.close_round_open at (v.part e) (v.opened o) (v.inner k)) }
{
    match o {
        Opened::Paren(a) => paren(alloc, at, e, a, k),
        Opened::Argument(f, a, row, c) => last_argument(alloc, at, e, f, a, row, c, k),
        _ => Err(StepFail::Refused),
    }
}

/// The head of a `for` is whole.
fn for_head(
    alloc: Global,
    mark: usize,
    at: u32,
    bracket: u32,
    start: Box<ForStart>,
    test: Option<Box<Expr>>,
    semicolon: u32,
    step: Option<Box<Expr>>,
    close: u32,
    o: Outer,
) -> Result<Mode, StepFail>
    ensures { Gives result (Some (m.Begin (m.outWrap (m.wFor mark (tr.for_head at bracket (for_start_of start.value) (option_expr test) semicolon (option_expr step) close)) (v.outer o)))) }
{
    let head = Box::new(
        alloc,
        ForHead {
            at,
            open: bracket,
            start: Box::into_inner(start),
            test,
            semicolon,
            step,
            close,
        },
    )?;
    begin_in(o, Wrap::For(mark, head))
}

/// The condition of a `do` is whole.
fn do_head(alloc: Global, at: u32, s: Box<Statement>, h: Head, o: Outer) -> Result<Mode, StepFail>
    ensures { Gives result (Some (m.Wait (m.waitDone at (statement s.value) (head_of h) (v.outer o)))) }
{
    Ok(Mode::Wait(Box::new(alloc, Waiting::Done(at, s, h, o))?))
}

fn close_round_base(alloc: Global, at: u32, e: Part, b: Box<Base>) -> Result<Mode, StepFail>
    ensures { Gives result (ex.close_round at (v.part e) (v.base b.value)) }
{
    let condition = e.node;
    match Box::into_inner(b) {
        Base::Test(test, x, open, o) => {
            let h = Head {
                at: x,
                open,
                condition,
                close: at,
            };
            begin_in(o, tested(test, h))
        }
        Base::Do(x, s, y, open, o) => {
            let h = Head {
                at: y,
                open,
                condition,
                close: at,
            };
            do_head(alloc, x, s, h, o)
        }
        Base::Step(mark, x, a, start, test, y, o) => {
            for_head(alloc, mark, x, a, start, test, y, Some(condition), at, o)
        }
        _ => Err(StepFail::Refused),
    }
}

fn close_round(alloc: Global, at: u32, e: Part, k: Inner) -> Result<Mode, StepFail>
    ensures { Gives result (ex.close_round at (v.part e) (v.inner k)) }
{
    match pop(k) {
        Top::Base(b) => close_round_base(alloc, at, e, b),
        Top::Open(o, k) => close_round_open(alloc, at, e, o, k),
        _ => Err(StepFail::Refused),
    }
}

fn close_square_open(alloc: Global, at: u32, e: Part, o: Opened, k: Inner) -> Result<Mode, StepFail>
    ensures { Gives result (ex.close_square_open at (v.part e) (v.opened o) (v.inner k)) }
{
    match o {
        Opened::Index(f, x) => {
            let height = above(f.height.max(e.height));
            let e = make_part(alloc, 15, height, Expr::Index(f.node, x, e.node, at))?;
            Ok(Mode::Value(e, k))
        }
        _ => Err(StepFail::Refused),
    }
}

fn length_close(alloc: Global, at: u32, e: Part, d: Box<Declared>, a: u32) -> Result<Mode, StepFail>
    ensures { Gives result (ex.close_square_base at (v.part e) (m.baseLength (v.declared d.value) a)) }
{
    if e.level >= 2 {
        let height = e.height;
        array_of(alloc, d, a, Some(e.node), at, height)
    } else {
        Err(StepFail::Refused)
    }
}

fn close_square_base(alloc: Global, at: u32, e: Part, b: Box<Base>) -> Result<Mode, StepFail>
    ensures { Gives result (ex.close_square at (v.part e) (v.base b.value)) }
{
    match Box::into_inner(b) {
        Base::Length(d, a) => length_close(alloc, at, e, d, a),
        _ => Err(StepFail::Refused),
    }
}

fn close_square(alloc: Global, at: u32, e: Part, k: Inner) -> Result<Mode, StepFail>
    ensures { Gives result (ex.close_square at (v.part e) (v.inner k)) }
{
    match pop(k) {
        Top::Base(b) => close_square_base(alloc, at, e, b),
        Top::Open(o, k) => close_square_open(alloc, at, e, o, k),
        _ => Err(StepFail::Refused),
    }
}

/// The last part of a list of initial values.
fn part_close(
    at: u32,
    e: Part,
    d: Box<Declared>,
    x: u32,
    a: u32,
    row: PartRow,
    c: Option<u32>,
) -> Result<Mode, StepFail>
    ensures { Gives result (ex.close_curly_base at (v.part e) (m.basePart (v.declared d.value) x a (v.part_row row) c)) }
{
    if e.level >= 1 {
        listed(d, x, a, add_part(row, c, e)?, None, at)
    } else {
        Err(StepFail::Refused)
    }
}

fn close_curly_base(alloc: Global, at: u32, e: Part, b: Box<Base>) -> Result<Mode, StepFail>
    ensures { Gives result (ex.close_curly at (v.part e) (v.base b.value)) }
{
    match Box::into_inner(b) {
        Base::Part(d, x, a, row, c) => part_close(at, e, d, x, a, row, c),
        Base::ParameterConstant(d, a, row, c, part) => {
            let w = Box::new(alloc, Around::Parameter(d, a, row, c))?;
            valued_close(at, e, w, part)
        }
        Base::PlaceConstant(p, part) => {
            let w = Box::new(alloc, Around::Place(p))?;
            valued_close(at, e, w, part)
        }
        _ => Err(StepFail::Refused),
    }
}

fn close_curly(alloc: Global, at: u32, e: Part, k: Inner) -> Result<Mode, StepFail>
    ensures { Gives result (ex.close_curly at (v.part e) (v.inner k)) }
{
    match pop(k) {
        Top::Base(b) => close_curly_base(alloc, at, e, b),
        Top::Constant(n, part, k) => valued_close(at, e, nested(alloc, n, k)?, part),
        _ => Err(StepFail::Refused),
    }
}

fn close(alloc: Global, b: Bracket, at: u32, e: Part, k: Inner) -> Result<Mode, StepFail>
    ensures { Gives result (ex.close b at (v.part e) (v.inner k)) }
{
    match b {
        Bracket::Round => close_round(alloc, at, e, k),
        Bracket::Square => close_square(alloc, at, e, k),
        Bracket::Curly => close_curly(alloc, at, e, k),
    }
}

/// The initial value of a declared name, and `;`.
fn initial_end(alloc: Global, at: u32, e: Part, d: Box<Declared>, x: u32) -> Result<Mode, StepFail>
    ensures { Gives result (ex.semicolon_base at (v.part e) (m.baseInitial (v.declared d.value) x)) }
{
    if e.level >= 1 {
        end_declaration(alloc, with_value(d, x, e)?, at)
    } else {
        Err(StepFail::Refused)
    }
}

/// A `for` begins with an expression, or with nothing.
fn for_start(
    alloc: Global,
    mark: usize,
    x: u32,
    a: u32,
    e: Option<Box<Expr>>,
    at: u32,
    o: Outer,
) -> Result<Mode, StepFail>
    ensures { Gives result (Some (m.Maybe (m.inBase (m.baseMore mark x a (tr.forExpr (option_expr e) at) (v.outer o))))) }
{
    let start = Box::new(alloc, ForStart::Expr(e, at))?;
    Ok(Mode::Maybe(rooted(alloc, Base::More(mark, x, a, start, o))?))
}

/// The condition of a `for`, which may be left out.
fn for_test(
    alloc: Global,
    mark: usize,
    x: u32,
    a: u32,
    start: Box<ForStart>,
    e: Option<Box<Expr>>,
    at: u32,
    o: Outer,
) -> Result<Mode, StepFail>
    ensures { Gives result (Some (m.Maybe (m.inBase (m.baseStep mark x a (for_start_of start.value) (option_expr e) at (v.outer o))))) }
{
    let base = Base::Step(mark, x, a, start, e, at, o);
    Ok(Mode::Maybe(rooted(alloc, base)?))
}

fn semicolon_base(alloc: Global, at: u32, e: Part, b: Box<Base>) -> Result<Mode, StepFail>
    ensures { Gives result (ex.semicolon at (v.part e) (v.base b.value)) }
{
    match Box::into_inner(b) {
        Base::Statement(o) => whole(alloc, Statement::Expr(e.node, at), o),
        Base::Return(x, o) => whole(alloc, Statement::Return(x, Some(e.node), at), o),
        Base::Start(mark, x, a, o) => for_start(alloc, mark, x, a, Some(e.node), at, o),
        Base::More(mark, x, a, start, o) => {
            for_test(alloc, mark, x, a, start, Some(e.node), at, o)
        }
        Base::Initial(d, x) => initial_end(alloc, at, e, d, x),
        _ => Err(StepFail::Refused),
    }
}

fn semicolon(alloc: Global, at: u32, e: Part, k: Inner) -> Result<Mode, StepFail>
    ensures { Gives result (ex.semicolon at (v.part e) (v.inner k)) }
{
    match pop(k) {
        Top::Base(b) => semicolon_base(alloc, at, e, b),
        _ => Err(StepFail::Refused),
    }
}

/// A token behind an operand, where all that binds tighter is whole.
pub fn step_folded(alloc: Global, t: Symbol, at: u32, e: Part, k: Inner) -> Result<Mode, StepFail>
    ensures { Gives result (ex.step_folded (tk.suffix_of t) at (v.part e) (v.inner k)) }
{
    match t {
        Symbol::Binary(op) => binary(op, at, e, k),
        Symbol::Assign(op) => assign(op, at, e, k),
        Symbol::Question => question(at, e, k),
        Symbol::Comma => comma(alloc, at, e, k),
        Symbol::Colon => colon(alloc, at, e, k),
        Symbol::Semicolon => semicolon(alloc, at, e, k),
        Symbol::Close(b) => close(alloc, b, at, e, k),
        _ => Err(StepFail::Refused),
    }
}

fn nothing_round_open(alloc: Global, at: u32, o: Opened, k: Inner) -> Result<Mode, StepFail>
    ensures { Gives result (ex.nothing_round at (m.inOpen (v.opened o) (v.inner k))) }
{
    match o {
        Opened::Argument(f, a, row, c) => match c {
            None => called(alloc, f, a, row, at, k),
            Some(_) => Err(StepFail::Refused),
        },
        _ => Err(StepFail::Refused),
    }
}

fn nothing_round(alloc: Global, at: u32, k: Inner) -> Result<Mode, StepFail>
    ensures { Gives result (ex.nothing_round at (v.inner k)) }
{
    match pop(k) {
        Top::Open(o, k) => nothing_round_open(alloc, at, o, k),
        Top::Base(b) => nothing_round_base(alloc, at, b),
        _ => Err(StepFail::Refused),
    }
}

fn nothing_round_base(alloc: Global, at: u32, b: Box<Base>) -> Result<Mode, StepFail>
    ensures { Gives result (ex.nothing_round at (v.base b.value)) }
{
    match Box::into_inner(b) {
        Base::Step(mark, x, a, start, test, y, o) => {
            for_head(alloc, mark, x, a, start, test, y, None, at, o)
        }
        _ => Err(StepFail::Refused),
    }
}

fn nothing_square(alloc: Global, at: u32, k: Inner) -> Result<Mode, StepFail>
    ensures { Gives result (ex.nothing_square at (v.inner k)) }
{
    match pop(k) {
        Top::Base(b) => match Box::into_inner(b) {
            Base::Length(d, a) => array_of(alloc, d, a, None, at, 0),
            _ => Err(StepFail::Refused),
        },
        _ => Err(StepFail::Refused),
    }
}

fn nothing_curly(at: u32, k: Inner) -> Result<Mode, StepFail>
    ensures { Gives result (ex.nothing_curly at (v.inner k)) }
{
    match pop(k) {
        Top::Base(b) => match Box::into_inner(b) {
            Base::Part(d, x, a, row, c) => match c {
                Some(c) => listed(d, x, a, row, Some(c), at),
                None => Err(StepFail::Refused),
            },
            _ => Err(StepFail::Refused),
        },
        _ => Err(StepFail::Refused),
    }
}

fn nothing_semicolon(alloc: Global, at: u32, k: Inner) -> Result<Mode, StepFail>
    ensures { Gives result (ex.nothing_semicolon at (v.inner k)) }
{
    match pop(k) {
        Top::Base(b) => match Box::into_inner(b) {
            Base::Return(x, o) => whole(alloc, Statement::Return(x, None, at), o),
            Base::Start(mark, x, a, o) => for_start(alloc, mark, x, a, None, at, o),
            Base::More(mark, x, a, start, o) => for_test(alloc, mark, x, a, start, None, at, o),
            _ => Err(StepFail::Refused),
        },
        _ => Err(StepFail::Refused),
    }
}

fn nothing_close(alloc: Global, b: Bracket, at: u32, k: Inner) -> Result<Mode, StepFail>
    ensures { (names : List (List ℕ)) → Gives result (ex.step_maybe names (sy.Close b) at (v.inner k)) }
{
    match b {
        Bracket::Round => nothing_round(alloc, at, k),
        Bracket::Square => nothing_square(alloc, at, k),
        Bracket::Curly => nothing_curly(at, k),
    }
}

/// Where an expression may be left out.
pub fn step_maybe(
    alloc: Global,
    names: &Names,
    t: Symbol,
    at: u32,
    k: Inner,
) -> Result<Mode, StepFail>
    ensures { Gives result (ex.step_maybe names.now t at (v.inner k)) }
{
    match t {
        Symbol::Close(b) => nothing_close(alloc, b, at, k),
        Symbol::Semicolon => nothing_semicolon(alloc, at, k),
        t => step_operand(alloc, names, t, at, k),
    }
}
