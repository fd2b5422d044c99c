ghost use Rattle.std.specs.Prelude.{◌≡◌, IfOk, length};
ghost use Rattle.c_typed.specs.View as v;
ghost use Rattle.c_typed.specs.Rules as r;
ghost use Rattle.first_broken.specs.Seen as lines;
ghost use Rattle.jump_rules.specs.Walk as w;
ghost use Rattle.jump_rules.specs.Seen as seen;

use crate::jumps::{Jump, make_jump};
use crate::places::{case_line, return_line};
use c_typed::Step;
use first_broken::{Found, both, line, none};
use lv_base::{Kind, Memory, SourceFault, Text};
use std::alloc::Global;

/// What a walk over a body has found: the objects in whose scope it stands, the outermost first, the labels and the gotos in
/// their order, and the first of the rules of `break`, `continue`, `case`, `default` and `return` that are broken.
#[derive(Drop)]
pub struct Walk {
    pub scope: Vec<u32>,
    pub labels: Vec<Jump>,
    pub gotos: Vec<Jump>,
    pub found: Found,
}

fn empty(alloc: Global) -> Walk
    ensures { seen.state_of result ≡ w.empty }
{
    Walk {
        scope: Vec::new(alloc),
        labels: Vec::new(alloc),
        gotos: Vec::new(alloc),
        found: none(),
    }
}

fn add_label(alloc: Global, walk: &mut Walk, name: &Text, at: u32) -> Result<(), Memory>
    ensures { IfOk result (λ _. seen.state_of walk.new ≡ w.with_label (seen.state_of walk.old) name.now at) }
{
    let own = make_jump(alloc, name, at, at, &walk.scope)?;
    walk.labels.push(own)?;
    Ok(())
}

fn add_goto(
    alloc: Global,
    walk: &mut Walk,
    at: u32,
    name: &Text,
    named_at: u32,
) -> Result<(), Memory>
    ensures { IfOk result (λ _. seen.state_of walk.new ≡ w.with_goto (seen.state_of walk.old) at name.now named_at) }
{
    let own = make_jump(alloc, name, named_at, at, &walk.scope)?;
    walk.gotos.push(own)?;
    Ok(())
}

fn add_found(walk: &mut Walk, found: Found)
    ensures { seen.state_of walk.new ≡ w.with_found (seen.state_of walk.old) (lines.found_of found) }
{
    walk.found = both(walk.found, found);
}

// How many objects are in scope.
fn depth_of(walk: &Walk) -> usize
    ensures { result ≡ length (seen.state_of walk.now).scope }
{
    walk.scope.len()
}

// In the scope of the first objects alone.
fn leave(walk: &mut Walk, depth: usize)
    ensures { seen.state_of walk.new ≡ w.leaving depth (seen.state_of walk.old) }
{
    walk.scope.truncate(depth);
}

// The object that a statement declares, if it is a declaration.
fn add_declared(walk: &mut Walk, step: &Step) -> Result<(), Memory>
    ensures { IfOk result (λ _. seen.state_of walk.new ≡ w.declaring (seen.state_of walk.old) (r.declared_by (v.step step.now))) }
{
    match step {
        Step::Draw(object) => {
            walk.scope.push(*object)?;
            Ok(())
        }
        Step::Begin(object, _) => {
            walk.scope.push(*object)?;
            Ok(())
        }
        _ => Ok(()),
    }
}

fn add_all_declared(walk: &mut Walk, steps: &[Step]) -> Result<(), Memory>
    ensures { IfOk result (λ _. seen.state_of walk.new ≡ w.declaring (seen.state_of walk.old) (r.declared_in (v.steps_of steps.now))) }
{
    for step in steps {
        add_declared(walk, step)?;
    }
    Ok(())
}

// In a loop or not, and in a switch that stands in the scope of so many objects.
#[cycle(walk)]
fn walk_step(
    alloc: Global,
    kind: Option<Kind>,
    in_loop: bool,
    switch: Option<usize>,
    walk: &mut Walk,
    step: &Step,
) -> Result<(), Memory>
    ensures { IfOk result (λ _. seen.state_of walk.new ≡ w.walked kind in_loop switch (seen.state_of walk.old) (v.step step.now)) }
{
    match step {
        Step::Draw(_) => Ok(()),
        Step::Begin(_, _) => Ok(()),
        Step::Block(steps) => {
            let depth = depth_of(walk);
            walk_steps(alloc, kind, in_loop, switch, walk, steps)?;
            leave(walk, depth);
            Ok(())
        }
        Step::Empty => Ok(()),
        Step::Effect(_) => Ok(()),
        Step::If(_, inner) => walk_step(alloc, kind, in_loop, switch, walk, inner),
        Step::IfElse(_, first, second) => {
            walk_step(alloc, kind, in_loop, switch, walk, first)?;
            walk_step(alloc, kind, in_loop, switch, walk, second)
        }
        Step::While(_, _, inner) => walk_step(alloc, kind, true, switch, walk, inner),
        Step::Switch(_, _, _, inner) => {
            let depth = depth_of(walk);
            walk_step(alloc, kind, in_loop, Some(depth), walk, inner)
        }
        Step::Do(_, inner, _) => walk_step(alloc, kind, true, switch, walk, inner),
        Step::For(_, start, _, _, inner) => {
            let depth = depth_of(walk);
            add_all_declared(walk, start)?;
            walk_step(alloc, kind, true, switch, walk, inner)?;
            leave(walk, depth);
            Ok(())
        }
        Step::Case(at, _, inner) => {
            let own = case_line(&walk.scope, switch, *at);
            add_found(walk, own);
            walk_step(alloc, kind, in_loop, switch, walk, inner)
        }
        Step::Default(at, inner) => {
            let own = case_line(&walk.scope, switch, *at);
            add_found(walk, own);
            walk_step(alloc, kind, in_loop, switch, walk, inner)
        }
        Step::Label(name, at, inner) => {
            add_label(alloc, walk, name, *at)?;
            walk_step(alloc, kind, in_loop, switch, walk, inner)
        }
        Step::Goto(at, name, named_at) => add_goto(alloc, walk, *at, name, *named_at),
        Step::Break(at) => {
            let test = !(in_loop || switch.is_some());
            add_found(walk, line(test, SourceFault::BadJump, *at));
            Ok(())
        }
        Step::Continue(at) => {
            add_found(walk, line(!in_loop, SourceFault::BadJump, *at));
            Ok(())
        }
        Step::Return(at, value) => {
            add_found(walk, return_line(kind, value, *at));
            Ok(())
        }
    }
}

#[cycle(walk)]
fn walk_steps(
    alloc: Global,
    kind: Option<Kind>,
    in_loop: bool,
    switch: Option<usize>,
    walk: &mut Walk,
    steps: &[Step],
) -> Result<(), Memory>
    ensures { IfOk result (λ _. seen.state_of walk.new ≡ w.walked_all kind in_loop switch (seen.state_of walk.old) (v.steps_of steps.now)) }
{
    for step in steps {
        walk_step(alloc, kind, in_loop, switch, walk, step)?;
        add_declared(walk, step)?;
    }
    Ok(())
}

/// The labels and the gotos of a body, in their order and with their scopes, and the first rule of `break`, `continue`, `case`,
/// `default` and `return` that it breaks. `kind` is the result of its function.
///
/// Fails with `Memory` where there is no more memory for these lists.
pub fn walk_body(alloc: Global, kind: Option<Kind>, body: &[Step]) -> Result<Walk, Memory>
    ensures { IfOk result (λ x. seen.state_of x ≡ w.walk_of kind (v.steps_of body.now)) }
{
    let mut walk = empty(alloc);
    walk_steps(alloc, kind, false, None, &mut walk, body)?;
    Ok(walk)
}
