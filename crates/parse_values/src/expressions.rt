ghost use Rattle.std.specs.Prelude.{◌≡◌, Some};
ghost use Rattle.c_tree.specs.Tree as tr;
ghost use Rattle.c_tree.specs.View.{expr};
ghost use Rattle.parse_machine.specs.Tokens as tk;
ghost use Rattle.parse_machine.specs.Contexts as m;
ghost use Rattle.parse_machine.specs.Making as mk;
ghost use Rattle.parse_machine.specs.Expressions as ex;
ghost use Rattle.parse_stack.specs.View as v;
ghost use Rattle.parse_values.specs.ModeView.{Gives};

use crate::modes::{Fork, Mode};
use crate::values::step_folded;
use c_tree::{AssignOp, BinaryOp, Bracket, Crement, Expr, PrefixOp, Symbol};
use lv_base::Text;
use parse_stack::{
    Bind, Frame, Inner, Opened, Part, StepFail, above, add_part, fold, least, level, make_part,
    no_parts, push,
};
use std::alloc::Global;
use typedef_names::Names;

/// A whole operand that is one token.
fn operand(alloc: Global, e: Expr, k: Inner) -> Result<Mode, StepFail>
    ensures { Gives result (Some (ex.operand (expr e) (v.inner k))) }
{
    Ok(Mode::Value(make_part(alloc, 15, 1, e)?, k))
}

/// `(` before an operand or the words of a cast.
fn open_round(alloc: Global, at: u32, k: Inner) -> Result<Mode, StepFail>
    ensures { Gives result (Some (ex.open_round at (v.inner k))) }
{
    if least(&k) <= 13 {
        let fork = Box::new(alloc, Fork::Cast(at, k))?;
        Ok(Mode::Either(fork, Vec::new(alloc)))
    } else {
        Ok(Mode::Operand(push(k, Frame::Open(Opened::Paren(at)))?))
    }
}

fn name_operand(alloc: Global, names: &Names, n: Text, at: u32, k: Inner) -> Result<Mode, StepFail>
    ensures { Gives result (ex.step_operand names.now (tk.preName n) at (v.inner k)) }
{
    if names.has(&n) {
        Err(StepFail::Refused)
    } else {
        operand(alloc, Expr::Name(n, at), k)
    }
}

/// An operator before its operand.
pub fn prefix(op: PrefixOp, at: u32, k: Inner) -> Result<Mode, StepFail>
    ensures { Gives result (Some (m.Operand (m.inBind (m.bPrefix op at) (v.inner k)))) }
{
    Ok(Mode::Operand(push(k, Frame::Bind(Bind::Prefix(op, at)))?))
}

/// Where an operand is to come.
pub fn step_operand(
    alloc: Global,
    names: &Names,
    t: Symbol,
    at: u32,
    k: Inner,
) -> Result<Mode, StepFail>
    ensures { Gives result (ex.step_operand names.now (tk.prefix_of t) at (v.inner k)) }
{
    match t {
        Symbol::Name(n) => name_operand(alloc, names, n, at, k),
        Symbol::Number(value, form) => operand(alloc, Expr::Number(value, form, at), k),
        Symbol::Letter(value) => operand(alloc, Expr::Letter(value, at), k),
        Symbol::Open(Bracket::Round) => open_round(alloc, at, k),
        Symbol::Sizeof => Ok(Mode::Sizeof(at, k)),
        Symbol::Crement(Crement::Increment) => prefix(PrefixOp::Increment, at, k),
        Symbol::Crement(Crement::Decrement) => prefix(PrefixOp::Decrement, at, k),
        Symbol::Binary(BinaryOp::Add) => prefix(PrefixOp::Plus, at, k),
        Symbol::Binary(BinaryOp::Subtract) => prefix(PrefixOp::Minus, at, k),
        Symbol::Tilde => prefix(PrefixOp::Complement, at, k),
        Symbol::Bang => prefix(PrefixOp::Not, at, k),
        Symbol::Extension => prefix(PrefixOp::Extension, at, k),
        _ => Err(StepFail::Refused),
    }
}

fn is_open_round(t: &Symbol) -> bool
    ensures { result ≡ ex.is_open_round (tk.prefix_of t.now) }
{
    matches!(t, Symbol::Open(Bracket::Round))
}

/// Behind `sizeof`.
pub fn step_sizeof(
    alloc: Global,
    names: &Names,
    t: Symbol,
    at: u32,
    x: u32,
    k: Inner,
) -> Result<Mode, StepFail>
    ensures { Gives result (ex.step_sizeof names.now (tk.prefix_of t) at x (v.inner k)) }
{
    if is_open_round(&t) {
        let fork = Box::new(alloc, Fork::Sizeof(x, at, k))?;
        Ok(Mode::Either(fork, Vec::new(alloc)))
    } else {
        let k = push(k, Frame::Bind(Bind::Prefix(PrefixOp::Sizeof, x)))?;
        step_operand(alloc, names, t, at, k)
    }
}

/// A binary operator.
pub fn binary(op: BinaryOp, at: u32, e: Part, k: Inner) -> Result<Mode, StepFail>
    ensures { Gives result (ex.binary op at (v.part e) (v.inner k)) }
{
    let n = level(op);
    if least(&k) <= n && n <= e.level {
        Ok(Mode::Operand(push(k, Frame::Bind(Bind::Binary(e, op, at)))?))
    } else {
        Err(StepFail::Refused)
    }
}

/// `?`
pub fn question(at: u32, e: Part, k: Inner) -> Result<Mode, StepFail>
    ensures { Gives result (ex.question at (v.part e) (v.inner k)) }
{
    if least(&k) <= 2 && 3 <= e.level {
        Ok(Mode::Operand(push(k, Frame::Open(Opened::Then(e, at)))?))
    } else {
        Err(StepFail::Refused)
    }
}

/// An assignment.
pub fn assign(op: AssignOp, at: u32, e: Part, k: Inner) -> Result<Mode, StepFail>
    ensures { Gives result (ex.assign op at (v.part e) (v.inner k)) }
{
    if least(&k) <= 1 && 14 <= e.level {
        Ok(Mode::Operand(push(k, Frame::Bind(Bind::Assign(e, op, at)))?))
    } else {
        Err(StepFail::Refused)
    }
}

/// The first part of a comma expression.
pub fn sequence(alloc: Global, at: u32, e: Part, k: Inner) -> Result<Mode, StepFail>
    ensures { Gives result (ex.sequence at (v.part e) (v.inner k)) }
{
    if least(&k) == 0 && 1 <= e.level {
        let row = add_part(no_parts(alloc), None, e)?;
        Ok(Mode::Operand(push(k, Frame::Bind(Bind::Comma(row, at)))?))
    } else {
        Err(StepFail::Refused)
    }
}

/// The level down to which a token makes whole.
fn fold_level(t: &Symbol) -> u8
    ensures { result ≡ ex.fold_level (tk.suffix_of t.now) }
{
    match t {
        Symbol::Binary(op) => level(*op),
        Symbol::Assign(_) | Symbol::Question => 2,
        Symbol::Comma => 1,
        _ => 0,
    }
}

fn is_postfix(t: &Symbol) -> bool
    ensures { result ≡ ex.is_postfix (tk.suffix_of t.now) }
{
    matches!(
        t,
        Symbol::Open(Bracket::Round) | Symbol::Open(Bracket::Square) | Symbol::Crement(_)
    )
}

/// `++` or `--` behind an operand.
fn crement(alloc: Global, c: Crement, at: u32, e: Part, k: Inner) -> Result<Mode, StepFail>
    ensures { Gives result (ex.postfix (tk.sufCrement c) at (v.part e) (v.inner k)) }
{
    let height = above(e.height);
    Ok(Mode::Value(
        make_part(alloc, 15, height, Expr::Postfix(e.node, c, at))?,
        k,
    ))
}

fn step_postfix(alloc: Global, t: Symbol, at: u32, e: Part, k: Inner) -> Result<Mode, StepFail>
    ensures { Gives result (ex.step_postfix (tk.suffix_of t) at (v.part e) (v.inner k)) }
{
    if e.level < 15 {
        return Err(StepFail::Refused);
    }
    match t {
        Symbol::Open(Bracket::Round) => {
            let open = Opened::Argument(e, at, no_parts(alloc), None);
            Ok(Mode::Maybe(push(k, Frame::Open(open))?))
        }
        Symbol::Open(Bracket::Square) => {
            Ok(Mode::Operand(push(k, Frame::Open(Opened::Index(e, at)))?))
        }
        Symbol::Crement(c) => crement(alloc, c, at, e, k),
        _ => Err(StepFail::Refused),
    }
}

/// Where an operand is whole.
pub fn step_value(alloc: Global, t: Symbol, at: u32, e: Part, k: Inner) -> Result<Mode, StepFail>
    ensures { Gives result (ex.step_value (tk.suffix_of t) at (v.part e) (v.inner k)) }
{
    if is_postfix(&t) {
        step_postfix(alloc, t, at, e, k)
    } else {
        let held = fold(alloc, k, fold_level(&t), e)?;
        step_folded(alloc, t, at, held.value, held.around)
    }
}
