ghost use Rattle.std.specs.Prelude.{◌≡◌, IfOk, None, Some};
ghost use Rattle.c_typed.specs.Tree as t;
ghost use Rattle.c_typed.specs.View as tv;

use c_typed::{Step, Value};
use lv_base::{Kind, Memory, Text};
use std::alloc::Global;

#[tactic(auto, using(crate::proofs::Views::step_Block))]
fn block_node(steps: Vec<Step>) -> Step
    ensures { tv.step result ≡ t.pBlock (tv.steps_of steps.items) }
{
    Step::Block(steps)
}

/// A block of some steps.
pub fn block(alloc: Global, steps: Vec<Step>) -> Result<Box<Step>, Memory>
    ensures { IfOk result (λ r. tv.step r.value ≡ t.pBlock (tv.steps_of steps.items)) }
{
    Ok(Box::new(alloc, block_node(steps))?)
}

/// A statement that does nothing.
pub fn empty(alloc: Global) -> Result<Box<Step>, Memory>
    ensures { IfOk result (λ r. tv.step r.value ≡ t.pEmpty) }
{
    Ok(Box::new(alloc, Step::Empty)?)
}

/// A value that is not used.
pub fn effect(alloc: Global, value: Box<Value>) -> Result<Box<Step>, Memory>
    ensures { IfOk result (λ r. tv.step r.value ≡ t.pEffect (tv.value value.value)) }
{
    Ok(Box::new(alloc, Step::Effect(value))?)
}

/// `if`, without an `else`.
pub fn if_node(alloc: Global, test: Box<Value>, body: Box<Step>) -> Result<Box<Step>, Memory>
    ensures { IfOk result (λ r. tv.step r.value ≡ t.pIf (tv.value test.value) (tv.step body.value)) }
{
    Ok(Box::new(alloc, Step::If(test, body))?)
}

/// `if`, with an `else`.
pub fn else_node(
    alloc: Global,
    test: Box<Value>,
    a: Box<Step>,
    b: Box<Step>,
) -> Result<Box<Step>, Memory>
    ensures { IfOk result (λ r. tv.step r.value ≡ t.pIfElse (tv.value test.value) (tv.step a.value) (tv.step b.value)) }
{
    Ok(Box::new(alloc, Step::IfElse(test, a, b))?)
}

/// `while`, of this keyword.
pub fn while_node(
    alloc: Global,
    at: u32,
    test: Box<Value>,
    body: Box<Step>,
) -> Result<Box<Step>, Memory>
    ensures { IfOk result (λ r. tv.step r.value ≡ t.pWhile at (tv.value test.value) (tv.step body.value)) }
{
    Ok(Box::new(alloc, Step::While(at, test, body))?)
}

/// `switch`, of this keyword, on a value of this kind.
pub fn switch_node(
    alloc: Global,
    at: u32,
    kind: Kind,
    value: Box<Value>,
    body: Box<Step>,
) -> Result<Box<Step>, Memory>
    ensures { IfOk result (λ r. tv.step r.value ≡ t.pSwitch at kind (tv.value value.value) (tv.step body.value)) }
{
    Ok(Box::new(alloc, Step::Switch(at, kind, value, body))?)
}

/// `do`, of this keyword.
pub fn do_node(
    alloc: Global,
    at: u32,
    body: Box<Step>,
    test: Box<Value>,
) -> Result<Box<Step>, Memory>
    ensures { IfOk result (λ r. tv.step r.value ≡ t.pDo at (tv.step body.value) (tv.value test.value)) }
{
    Ok(Box::new(alloc, Step::Do(at, body, test))?)
}

#[tactic(auto, using(crate::proofs::Views::step_For))]
fn loop_node(
    at: u32,
    start: Vec<Step>,
    test: Option<Box<Value>>,
    third: Option<Box<Value>>,
    body: Box<Step>,
) -> Step
    ensures { tv.step result ≡ t.pFor at (tv.steps_of start.items) (tv.option_value test) (tv.option_value third) (tv.step body.value) }
{
    Step::For(at, start, test, third, body)
}

/// `for`, of this keyword: what begins it, the condition, the third part and the body.
pub fn for_node(
    alloc: Global,
    at: u32,
    start: Vec<Step>,
    test: Option<Box<Value>>,
    third: Option<Box<Value>>,
    body: Box<Step>,
) -> Result<Box<Step>, Memory>
    ensures { IfOk result (λ r. tv.step r.value ≡ t.pFor at (tv.steps_of start.items) (tv.option_value test) (tv.option_value third) (tv.step body.value)) }
{
    Ok(Box::new(alloc, loop_node(at, start, test, third, body))?)
}

/// `case`, of this keyword and value.
pub fn case_node(alloc: Global, at: u32, value: i128, body: Box<Step>) -> Result<Box<Step>, Memory>
    ensures { IfOk result (λ r. tv.step r.value ≡ t.pCase at value (tv.step body.value)) }
{
    Ok(Box::new(alloc, Step::Case(at, value, body))?)
}

/// `default`, of this keyword.
pub fn default_node(alloc: Global, at: u32, body: Box<Step>) -> Result<Box<Step>, Memory>
    ensures { IfOk result (λ r. tv.step r.value ≡ t.pDefault at (tv.step body.value)) }
{
    Ok(Box::new(alloc, Step::Default(at, body))?)
}

/// A labelled statement.
pub fn label_node(alloc: Global, name: &[u8], at: u32, body: Box<Step>) -> Result<Box<Step>, Memory>
    ensures { IfOk result (λ r. tv.step r.value ≡ t.pLabel name.now at (tv.step body.value)) }
{
    let name = Text::copy_of(alloc, name)?;
    Ok(Box::new(alloc, Step::Label(name, at, body))?)
}

/// `goto`, of this keyword, to a label that is named there.
pub fn goto_node(alloc: Global, at: u32, name: &[u8], named_at: u32) -> Result<Box<Step>, Memory>
    ensures { IfOk result (λ r. tv.step r.value ≡ t.pGoto at name.now named_at) }
{
    let name = Text::copy_of(alloc, name)?;
    Ok(Box::new(alloc, Step::Goto(at, name, named_at))?)
}

/// `break`, of this keyword.
pub fn break_node(alloc: Global, at: u32) -> Result<Box<Step>, Memory>
    ensures { IfOk result (λ r. tv.step r.value ≡ t.pBreak at) }
{
    Ok(Box::new(alloc, Step::Break(at))?)
}

/// `continue`, of this keyword.
pub fn continue_node(alloc: Global, at: u32) -> Result<Box<Step>, Memory>
    ensures { IfOk result (λ r. tv.step r.value ≡ t.pContinue at) }
{
    Ok(Box::new(alloc, Step::Continue(at))?)
}

/// `return`, of this keyword.
pub fn return_node(alloc: Global, at: u32, value: Option<Box<Value>>) -> Result<Box<Step>, Memory>
    ensures { IfOk result (λ r. tv.step r.value ≡ t.pReturn at (tv.option_value value)) }
{
    Ok(Box::new(alloc, Step::Return(at, value))?)
}

/// One step more.
#[tactic(auto, using(crate::proofs::Views::steps_push))]
pub fn push_step(steps: &mut Vec<Step>, step: Step) -> Result<(), Memory>
    ensures { IfOk result (λ _. tv.steps_of steps.new.items ≡ t.steps_and (tv.steps_of steps.old.items) (tv.step step)) }
{
    steps.push(step)?;
    Ok(())
}
