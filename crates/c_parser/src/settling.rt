ghost use Rattle.std.specs.Prelude.{◌≡◌, IfOk, vec_len};
ghost use Rattle.c_tree.specs.View.{statement};
ghost use Rattle.parse_machine.specs.Tokens as tk;
ghost use Rattle.parse_machine.specs.Statements as sm;
ghost use Rattle.parse_stack.specs.View as v;
ghost use Rattle.parse_values.specs.ModeView.{GivesTurn};
ghost use Rattle.c_parser.specs.Settling.{settled, SettlesTo, OtherwiseTo, IsShorter, IsShorterElse};

use crate::statements::{step_begin, step_wait};
use c_tree::{Statement, StatementWord, Symbol};
use parse_stack::{Opening, Outer, OuterFrame, StepFail, Wrap, add_statement, wrapped};
use parse_values::{Mode, Waiting};
use std::alloc::{AllocError, Global};
use typedef_names::Names;

/// Where a whole statement stands: behind the others of a block, or in a `do`.
#[derive(Drop)]
pub enum Settled {
    Block(Outer),
    Do(u32, Box<Statement>, Outer),
}

/// One step outward from a whole statement.
#[derive(Drop)]
pub enum Outward {
    More(Box<Statement>, Outer),
    Done(Settled),
}

/// One step outward from a whole statement that an `else` follows.
#[derive(Drop)]
pub enum Elseward {
    More(Box<Statement>, Outer),
    Found(Outer),
    Nothing,
}

/// A `for` ends the scope of what it declares.
fn leave(names: &mut Names, w: &Wrap)
    ensures { names.new ≡ sm.left (v.wrap w.now) names.old }
{
    if let Wrap::For(mark, _) = w {
        names.leave(*mark);
    }
}

/// One step outward.
#[tactic(auto, using(crate::proofs::Stacks::outer_push))]
fn go_outward(
    alloc: Global,
    names: &mut Names,
    o: Outer,
    s: Box<Statement>,
) -> Result<Outward, AllocError>
    ensures settles { IfOk result (SettlesTo names.new (sm.settle names.old (v.outer o) (statement s.value))) }
    ensures less { IfOk result (IsShorter (vec_len o.frames)) }
{
    let Outer { body, mut frames } = o;
    match frames.pop() {
        None => {
            let Opening {
                mark,
                head,
                open,
                statements,
            } = Box::into_inner(body);
            let statements = add_statement(statements, s)?;
            let body = Box::new(
                alloc,
                Opening {
                    mark,
                    head,
                    open,
                    statements,
                },
            )?;
            Ok(Outward::Done(Settled::Block(Outer { body, frames })))
        }
        Some(OuterFrame::Block(mark, a, statements)) => {
            let statements = add_statement(statements, s)?;
            frames.push(OuterFrame::Block(mark, a, statements))?;
            Ok(Outward::Done(Settled::Block(Outer { body, frames })))
        }
        Some(OuterFrame::Do(x)) => Ok(Outward::Done(Settled::Do(x, s, Outer { body, frames }))),
        Some(OuterFrame::Wrap(w)) => {
            leave(names, &w);
            let s = wrapped(alloc, w, s)?;
            Ok(Outward::More(s, Outer { body, frames }))
        }
    }
}

/// A statement is whole, and no `else` follows.
fn settle(
    alloc: Global,
    names: &mut Names,
    o: Outer,
    s: Box<Statement>,
) -> Result<Settled, AllocError>
    ensures { IfOk result (λ r. sm.settle names.old (v.outer o) (statement s.value) ≡ settled r names.new) }
{
    let mut o = o;
    let mut s = s;
    'outward: loop {
        match go_outward(alloc, names, o, s)? {
            Outward::More(more, rest) => {
                s = more;
                o = rest;
            }
            Outward::Done(done) => return Ok(done),
        }
    }
}

/// One step outward, where an `else` follows.
#[tactic(auto, using(crate::proofs::Stacks::outer_push))]
fn go_elseward(
    alloc: Global,
    names: &mut Names,
    at: u32,
    o: Outer,
    s: Box<Statement>,
) -> Result<Elseward, AllocError>
    ensures ends { IfOk result (OtherwiseTo names.new at (sm.otherwise names.old at (v.outer o) (statement s.value))) }
    ensures less { IfOk result (IsShorterElse (vec_len o.frames)) }
{
    let Outer { body, mut frames } = o;
    match frames.pop() {
        Some(OuterFrame::Wrap(Wrap::Then(h))) => {
            frames.push(OuterFrame::Wrap(Wrap::Else(h, s, at)))?;
            Ok(Elseward::Found(Outer { body, frames }))
        }
        Some(OuterFrame::Wrap(w)) => {
            leave(names, &w);
            let s = wrapped(alloc, w, s)?;
            Ok(Elseward::More(s, Outer { body, frames }))
        }
        _ => Ok(Elseward::Nothing),
    }
}

/// A statement is whole, and an `else` follows.
fn otherwise(
    alloc: Global,
    names: &mut Names,
    at: u32,
    o: Outer,
    s: Box<Statement>,
) -> Result<Mode, StepFail>
    ensures { GivesTurn result names.new (sm.otherwise names.old at (v.outer o) (statement s.value)) }
{
    let mut o = o;
    let mut s = s;
    'outward: loop {
        match go_elseward(alloc, names, at, o, s)? {
            Elseward::More(more, rest) => {
                s = more;
                o = rest;
            }
            Elseward::Found(o) => return Ok(Mode::Begin(o)),
            Elseward::Nothing => return Err(StepFail::Refused),
        }
    }
}

fn is_else(t: &Symbol) -> bool
    ensures { result ≡ tk.is_else t.now }
{
    matches!(t, Symbol::Statement(StatementWord::Else))
}

/// A statement is whole.
pub fn step_whole(
    alloc: Global,
    names: &mut Names,
    t: Symbol,
    at: u32,
    s: Box<Statement>,
    o: Outer,
) -> Result<Mode, StepFail>
    ensures { GivesTurn result names.new (sm.step_whole names.old t at (statement s.value) (v.outer o)) }
{
    if is_else(&t) {
        return otherwise(alloc, names, at, o, s);
    }
    match settle(alloc, names, o, s)? {
        Settled::Block(o) => step_begin(alloc, names, t, at, o),
        Settled::Do(x, s, o) => {
            let wait = Box::new(alloc, Waiting::While(x, s, o))?;
            step_wait(alloc, names, t, at, wait)
        }
    }
}
