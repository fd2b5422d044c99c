ghost use Rattle.std.specs.Prelude.{◌≡◌, ◌++◌, IfOk, slice_index_or, pos, string_bytes};
ghost use Rattle.trace_lines.specs.Endings as endings;
ghost use Rattle.trace_lines.specs.Scenes.{stage_of};

use crate::excerpts::mark;
use crate::scene::Scene;
use lv_base::{ErrorKind, Memory};
use run_events::{Operands, Trail};
use slot_code::{Ending, Instruction};
use std::alloc::Global;
use trace_sites::Site;
use trace_texts::{
    absent, broken, changed, kind_text, negated, no_element, operated, unfit, wanting,
};

fn element_failed(
    scene: &Scene<'_>,
    object: u32,
    index: i128,
    count: usize,
) -> Result<String, Memory>
    ensures { IfOk result (λ s. string_bytes s ≡ endings.element_failed (stage_of scene.now) object index count) }
{
    let name = scene.object_name(object)?;
    no_element(scene.alloc, name.as_str(), index, count)
}

fn value_absent(scene: &Scene<'_>, slot: usize) -> Result<String, Memory>
    ensures { IfOk result (λ s. string_bytes s ≡ endings.value_absent (stage_of scene.now) slot) }
{
    let name = scene.function_name(slot)?;
    absent(scene.alloc, name.as_str())
}

fn kind_name(alloc: Global, kind: ErrorKind) -> Result<String, Memory>
    ensures { IfOk result (λ s. string_bytes s ≡ endings.kind_name kind) }
{
    Ok(String::from_str(alloc, kind.name())?)
}

// What failed at an instruction, with its operands.
fn failed_of(
    scene: &Scene<'_>,
    operands: Operands,
    kind: ErrorKind,
    instruction: Instruction,
) -> Result<String, Memory>
    ensures { IfOk result (λ s. string_bytes s ≡ endings.failed_of (stage_of scene.now) operands kind instruction) }
{
    match instruction {
        Instruction::Binary(_, op, _, _) => {
            operated(scene.alloc, operands.first, op, operands.second)
        }
        Instruction::Update(_, op, _, _, _, _) => {
            operated(scene.alloc, operands.second, op, operands.third)
        }
        Instruction::Negate(_, _, _) => negated(scene.alloc, operands.first),
        Instruction::Change(_, _, by, _, _, _) => changed(scene.alloc, by, operands.second),
        Instruction::Element(_, _, object, count) => {
            element_failed(scene, object, operands.first, count)
        }
        Instruction::Locate(_, _, object, count) => {
            element_failed(scene, object, operands.first, count)
        }
        Instruction::Take(_, _, slot, _) => value_absent(scene, slot),
        Instruction::Fail(_, at) => scene.name(at),
        _ => kind_name(scene.alloc, kind),
    }
}

// What failed at the last instruction of a run.
fn failed(scene: &Scene<'_>, trail: &Trail, kind: ErrorKind) -> Result<String, Memory>
    ensures { IfOk result (λ s. string_bytes s ≡ endings.failed (stage_of scene.now) trail.now kind) }
{
    match scene.instruction(trail.place) {
        None => kind_name(scene.alloc, kind),
        Some(instruction) => failed_of(scene, trail.operands, kind, instruction),
    }
}

fn site_start(site: Option<Site>) -> Option<u32>
    ensures { result ≡ endings.site_start site }
{
    match site {
        None => None,
        Some(site) => Some(site.from),
    }
}

// Where an instruction stands that asks for a value or a turn.
fn asked_of(scene: &Scene<'_>, place: usize, instruction: Instruction) -> Option<u32>
    ensures { result ≡ endings.asked_of (stage_of scene.now) place instruction }
{
    match instruction {
        Instruction::Draw(_, _) => site_start(scene.site(place)),
        Instruction::Fill(object, _, _) => scene.object_at(object),
        Instruction::Turn(at, _) => Some(at),
        Instruction::Call(at, _, _) => Some(at),
        _ => None,
    }
}

fn asked_at(scene: &Scene<'_>, place: usize) -> Option<u32>
    ensures { result ≡ endings.asked_at (stage_of scene.now) place }
{
    match scene.instruction(place) {
        None => None,
        Some(instruction) => asked_of(scene, place, instruction),
    }
}

// The kind that an instruction draws, as C spells it.
fn drawn_of(instruction: Instruction) -> &'static str
    ensures { result.now ≡ endings.drawn_of instruction }
{
    match instruction {
        Instruction::Draw(_, kind) => kind_text(kind),
        Instruction::Fill(_, kind, _) => kind_text(kind),
        _ => "value",
    }
}

fn drawn_by(instruction: Option<Instruction>) -> &'static str
    ensures { result.now ≡ endings.drawn_by instruction }
{
    match instruction {
        None => "value",
        Some(instruction) => drawn_of(instruction),
    }
}

fn mark_for(alloc: Global, source: &[u8], at: Option<u32>) -> Result<String, Memory>
    ensures { IfOk result (λ s. string_bytes s ≡ endings.mark_for source.now at) }
{
    match at {
        None => Ok(String::new(alloc)),
        Some(at) => mark(alloc, source, at),
    }
}

fn ask_at(scene: &Scene<'_>, at: Option<u32>, what: &str) -> Result<String, Memory>
    ensures { IfOk result (λ s. string_bytes s ≡ endings.ask_at (stage_of scene.now) at what.now) }
{
    let front = scene.front(at)?;
    let mut text = wanting(scene.alloc, front.as_str(), what)?;
    text.push_str(mark_for(scene.alloc, scene.source, at)?.as_str())?;
    Ok(text)
}

// What the run asks for at its last instruction, and the source's line there.
fn ask(scene: &Scene<'_>, place: usize, what: &str) -> Result<String, Memory>
    ensures { IfOk result (λ s. string_bytes s ≡ endings.ask (stage_of scene.now) place what.now) }
{
    ask_at(scene, asked_at(scene, place), what)
}

// The value of this number.
fn value_of(values: &[i128], number: usize) -> i128
    ensures { result ≡ slice_index_or values.now number (pos 0) }
{
    match values.get(number) {
        Some(value) => *value,
        None => 0,
    }
}

fn error_text(scene: &Scene<'_>, trail: &Trail, kind: ErrorKind, at: u32) -> Result<String, Memory>
    ensures { IfOk result (λ s. string_bytes s ≡ endings.error_text (stage_of scene.now) trail.now kind at) }
{
    let front = scene.front(Some(at))?;
    let what = failed(scene, trail, kind)?;
    let mut text = broken(scene.alloc, front.as_str(), kind, what.as_str())?;
    text.push_str(mark(scene.alloc, scene.source, at)?.as_str())?;
    Ok(text)
}

fn unfit_text(scene: &Scene<'_>, place: usize, value: i128) -> Result<String, Memory>
    ensures { IfOk result (λ s. string_bytes s ≡ endings.unfit_text (stage_of scene.now) place value) }
{
    let what = unfit(scene.alloc, value, drawn_by(scene.instruction(place)))?;
    ask(scene, place, what.as_str())
}

fn ending_text(
    scene: &Scene<'_>,
    ending: Ending,
    trail: &Trail,
    values: &[i128],
) -> Result<String, Memory>
    ensures { IfOk result (λ s. string_bytes s ≡ endings.ending_text (stage_of scene.now) ending trail.now values.now) }
{
    match ending {
        Ending::Ended => Ok(String::new(scene.alloc)),
        Ending::Error(kind, at, _) => error_text(scene, trail, kind, at),
        Ending::NoInput => ask(scene, trail.place, "asks for one more value"),
        Ending::BadInput(number) => unfit_text(scene, trail.place, value_of(values, number)),
        Ending::Spent => ask(scene, trail.place, "asks for one more turn"),
    }
}

/// Puts behind a text what ended a run on these values other than its program's end, with the line of the source where that stands.
///
/// Fails with `Memory`.
pub fn ending_lines(
    scene: &Scene<'_>,
    ending: Ending,
    trail: &Trail,
    values: &[i128],
    text: &mut String,
) -> Result<(), Memory>
    ensures { IfOk result (λ _. string_bytes text.new ≡ string_bytes text.old ++ endings.ending_text (stage_of scene.now) ending trail.now values.now) }
{
    text.push_str(ending_text(scene, ending, trail, values)?.as_str())?;
    Ok(())
}
