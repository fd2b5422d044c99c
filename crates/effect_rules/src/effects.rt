ghost use Rattle.std.specs.Prelude.{◌≡◌, ◌||◌, IfOk, List};
ghost use Rattle.c_typed.specs.View as v;
ghost use Rattle.c_typed.specs.Rules as r;
ghost use Rattle.effect_rules.specs.Effects as e;
ghost use Rattle.effect_rules.specs.Seen as seen;

use crate::clashes::{clash, has};
use crate::touched::{is_touched, touch, untouched};
use c_typed::{Target, Value};
use first_broken::{Found, both, line, none};
use lv_base::{Memory, SourceFault};
use std::alloc::Global;

// As many objects are looked for one by one.
const FEW: usize = 8;

/// The objects that an expression writes and those that it reads, by number and in the order of its parts, an array as a whole,
/// and the first of the rules that it breaks.
#[derive(Drop)]
pub struct Effects {
    pub writes: Vec<u32>,
    pub reads: Vec<u32>,
    pub found: Found,
}

fn nothing(alloc: Global) -> Effects
    ensures { seen.effects_of result ≡ e.nothing }
{
    Effects {
        writes: Vec::new(alloc),
        reads: Vec::new(alloc),
        found: none(),
    }
}

fn reading(alloc: Global, object: u32) -> Result<Effects, Memory>
    ensures { IfOk result (λ x. seen.effects_of x ≡ e.reading object) }
{
    let mut effects = nothing(alloc);
    effects.reads.push(object)?;
    Ok(effects)
}

fn written(alloc: Global, is_read: bool, object: u32) -> Result<Effects, Memory>
    ensures { IfOk result (λ x. seen.effects_of x ≡ e.written is_read object) }
{
    let mut effects = nothing(alloc);
    effects.writes.push(object)?;
    if is_read {
        effects.reads.push(object)?;
    }
    Ok(effects)
}

// One part behind another.
fn joined(first: Effects, second: &Effects) -> Result<Effects, Memory>
    ensures { IfOk result (λ x. seen.effects_of x ≡ e.joined (seen.effects_of first) (seen.effects_of second.now)) }
{
    let mut writes = first.writes;
    let mut reads = first.reads;
    writes.extend_from_slice(&second.writes)?;
    reads.extend_from_slice(&second.reads)?;
    let found = both(first.found, second.found);
    Ok(Effects {
        writes,
        reads,
        found,
    })
}

// With one more line.
fn lined(effects: Effects, test: bool, at: u32) -> Effects
    ensures { seen.effects_of result ≡ e.lined (seen.effects_of effects) test at }
{
    let found = both(effects.found, line(test, SourceFault::Unsequenced, at));
    Effects {
        writes: effects.writes,
        reads: effects.reads,
        found,
    }
}

// Whether a part touches so few objects that it is tried in pairs.
fn is_few(effects: &Effects) -> bool {
    effects.writes.len() <= FEW && effects.reads.len() <= FEW
}

// By the sets of the objects of the first part.
fn sets_clash(alloc: Global, first: &Effects, second: &Effects) -> Result<bool, Memory>
    ensures { IfOk result (λ b. b ≡ e.parts_clash (seen.effects_of first.now) (seen.effects_of second.now)) }
{
    let mut touched = untouched(alloc);
    touch(&mut touched, &first.writes, &first.reads)?;
    Ok(is_touched(&touched, &second.writes, &second.reads))
}

// By the sets of the objects of the second part.
fn sets_clash_behind(alloc: Global, first: &Effects, second: &Effects) -> Result<bool, Memory>
    ensures { IfOk result (λ b. b ≡ e.parts_clash (seen.effects_of first.now) (seen.effects_of second.now)) }
{
    sets_clash(alloc, second, first)
}

fn is_smaller(first: &Effects, second: &Effects) -> bool {
    let own = first.writes.len().saturating_add(first.reads.len());
    own < second.writes.len().saturating_add(second.reads.len())
}

// In pairs where one part touches few objects, and else by sets of the objects of the smaller one.
fn parts_clash(alloc: Global, first: &Effects, second: &Effects) -> Result<bool, Memory>
    ensures { IfOk result (λ b. b ≡ e.parts_clash (seen.effects_of first.now) (seen.effects_of second.now)) }
{
    if is_few(first) || is_few(second) {
        return Ok(clash(&first.writes, &first.reads, &second.writes, &second.reads));
    }
    if is_smaller(first, second) {
        sets_clash(alloc, first, second)
    } else {
        sets_clash_behind(alloc, first, second)
    }
}

fn either(first: bool, second: bool) -> bool
    ensures { result ≡ (first || second) }
{
    first || second
}

fn operands(alloc: Global, at: u32, first: Effects, second: &Effects) -> Result<Effects, Memory>
    ensures { IfOk result (λ x. seen.effects_of x ≡ e.operands at (seen.effects_of first) (seen.effects_of second.now)) }
{
    let test = parts_clash(alloc, &first, second)?;
    let all = joined(first, second)?;
    Ok(lined(all, test, at))
}

// An element that is read.
fn element(alloc: Global, at: u32, object: u32, index: &Effects) -> Result<Effects, Memory>
    ensures { IfOk result (λ x. seen.effects_of x ≡ e.element at object (seen.effects_of index.now)) }
{
    let own = reading(alloc, object)?;
    let all = joined(own, index)?;
    Ok(lined(all, has(&index.writes, object), at))
}

// A target, by its index, and what is assigned.
fn assigned(
    alloc: Global,
    is_read: bool,
    at: u32,
    object: u32,
    index: &Effects,
    value: &Effects,
) -> Result<Effects, Memory>
    ensures { IfOk result (λ x. seen.effects_of x ≡ e.assigned is_read at object (seen.effects_of index.now) (seen.effects_of value.now)) }
{
    let own = written(alloc, is_read, object)?;
    let target = joined(own, index)?;
    let all = joined(target, value)?;
    let clashes = parts_clash(alloc, index, value)?;
    let test = clashes || (has(&value.writes, object) || has(&index.writes, object));
    Ok(lined(all, test, at))
}

fn changed(alloc: Global, at: u32, object: u32, index: &Effects) -> Result<Effects, Memory>
    ensures { IfOk result (λ x. seen.effects_of x ≡ e.changed at object (seen.effects_of index.now)) }
{
    let own = written(alloc, true, object)?;
    let all = joined(own, index)?;
    Ok(lined(all, has(&index.writes, object), at))
}

fn object_in(target: &Target) -> u32
    ensures { result ≡ r.object_in (v.target target.now) }
{
    match target {
        Target::Object(object) => *object,
        Target::Element(_, object, _) => *object,
    }
}

/// The effects of an expression.
///
/// Fails with `Memory` where there is no more memory for the lists of objects.
#[cycle(effects)]
#[tactic(auto, using(crate::proofs::Views::value_Call, crate::proofs::Views::value_Comma))]
pub fn value_effects(alloc: Global, value: &Value) -> Result<Effects, Memory>
    ensures { IfOk result (λ x. seen.effects_of x ≡ e.effects (v.value value.now)) }
{
    match value {
        Value::Constant(_, _) => Ok(nothing(alloc)),
        Value::Read(_, object) => reading(alloc, *object),
        Value::Element(_, at, object, index) => {
            let index = value_effects(alloc, index)?;
            element(alloc, *at, *object, &index)
        }
        Value::Whole(object) => reading(alloc, *object),
        Value::Nothing => Ok(nothing(alloc)),
        Value::Convert(_, inner) => value_effects(alloc, inner),
        Value::Discard(inner) => value_effects(alloc, inner),
        Value::Negate(_, _, inner) => value_effects(alloc, inner),
        Value::Complement(_, _, inner) => value_effects(alloc, inner),
        Value::Not(inner) => value_effects(alloc, inner),
        Value::Binary(_, _, at, first, second) => {
            let first = value_effects(alloc, first)?;
            let second = value_effects(alloc, second)?;
            operands(alloc, *at, first, &second)
        }
        Value::Both(first, second) => {
            let first = value_effects(alloc, first)?;
            let second = value_effects(alloc, second)?;
            joined(first, &second)
        }
        Value::Either(first, second) => {
            let first = value_effects(alloc, first)?;
            let second = value_effects(alloc, second)?;
            joined(first, &second)
        }
        Value::Cond(_, test, first, second) => {
            let test = value_effects(alloc, test)?;
            let first = value_effects(alloc, first)?;
            let second = value_effects(alloc, second)?;
            let front = joined(test, &first)?;
            joined(front, &second)
        }
        Value::Assign(_, at, target, inner) => {
            let index = goal_effects(alloc, target)?;
            let inner = value_effects(alloc, inner)?;
            assigned(alloc, false, *at, object_in(target), &index, &inner)
        }
        Value::Update(_, _, _, at, target, inner) => {
            let index = goal_effects(alloc, target)?;
            let inner = value_effects(alloc, inner)?;
            assigned(alloc, true, *at, object_in(target), &index, &inner)
        }
        Value::Change(_, _, _, at, target) => {
            let index = goal_effects(alloc, target)?;
            changed(alloc, *at, object_in(target), &index)
        }
        Value::Call(_, _, bracket, _, values) => argument_effects(alloc, *bracket, values),
        Value::Reach(_) => Ok(nothing(alloc)),
        Value::Abort => Ok(nothing(alloc)),
        Value::Draw(_) => Ok(nothing(alloc)),
        Value::Comma(values, last) => {
            let front = list_effects(alloc, values)?;
            let last = value_effects(alloc, last)?;
            joined(front, &last)
        }
    }
}

// Those of a target's index.
#[cycle(effects)]
fn goal_effects(alloc: Global, target: &Target) -> Result<Effects, Memory>
    ensures { IfOk result (λ x. seen.effects_of x ≡ e.goal_effects (v.target target.now)) }
{
    match target {
        Target::Object(_) => Ok(nothing(alloc)),
        Target::Element(_, _, index) => value_effects(alloc, index),
    }
}

#[cycle(effects)]
fn list_effects(alloc: Global, values: &[Value]) -> Result<Effects, Memory>
    ensures { IfOk result (λ x. seen.effects_of x ≡ e.list_effects (v.values_of values.now)) }
{
    let mut all = nothing(alloc);
    for value in values {
        let own = value_effects(alloc, value)?;
        all = joined(all, &own)?;
    }
    Ok(all)
}

// Those of a call's arguments, with the line that two of them break; the `(`.
#[cycle(effects)]
fn argument_effects(alloc: Global, bracket: u32, values: &[Value]) -> Result<Effects, Memory>
    ensures { IfOk result (λ x. seen.effects_of x ≡ e.lined (e.list_effects (v.values_of values.now)) (e.arguments_clash (v.values_of values.now)) bracket) }
{
    let mut all = nothing(alloc);
    let mut touched = untouched(alloc);
    let mut test = false;
    for value in values {
        let own = value_effects(alloc, value)?;
        let clashes = is_touched(&touched, &own.writes, &own.reads);
        test = either(clashes, test);
        touch(&mut touched, &own.writes, &own.reads)?;
        all = joined(all, &own)?;
    }
    Ok(lined(all, test, bracket))
}
