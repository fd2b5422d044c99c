ghost use Rattle.std.specs.Prelude.{◌≡◌, ◌++◌, IfOk, not, string_bytes};
ghost use Rattle.lv_base.specs.Integers.{is_zero};
ghost use Rattle.trace_lines.specs.Events as events;
ghost use Rattle.trace_lines.specs.Scenes.{stage_of};

use crate::excerpts::{Class, before, between, front_count, range_of, shown};
use crate::scene::Scene;
use event_log::{Event, Log};
use lv_base::{Kind, Memory};
use slot_code::Instruction;
use std::alloc::Global;
use trace_sites::Site;
use trace_texts::{
    assigned, bound, called, decided, drawn, kind_text, left_out, met, returned, undecided, valued,
    valueless_text,
};

// The most bytes of a condition that are shown.
const MOST_SHOWN: usize = 100;

// The offset at which a site begins, without the blanks before it.
fn start_of(source: &[u8], site: Site) -> u32
    ensures { result ≡ events.start_of source.now site }
{
    let from = site.from as usize;
    let blanks = front_count(Class::Blank, range_of(source, from, site.to as usize));
    from.saturating_add(blanks).min(u32::MAX as usize) as u32
}

fn start_in(source: &[u8], site: Option<Site>) -> Option<u32>
    ensures { result ≡ events.start_in source.now site }
{
    match site {
        None => None,
        Some(site) => Some(start_of(source, site)),
    }
}

fn start_at(scene: &Scene<'_>, place: usize) -> Option<u32>
    ensures { result ≡ events.start_at (stage_of scene.now) place }
{
    start_in(scene.source, scene.site(place))
}

fn drawn_name(scene: &Scene<'_>, kind: Kind, at: Option<u32>) -> Result<String, Memory>
    ensures { IfOk result (λ s. string_bytes s ≡ events.drawn_name (stage_of scene.now) kind at) }
{
    match at {
        Some(at) => scene.name(at),
        None => Ok(String::from_str(scene.alloc, kind_text(kind))?),
    }
}

fn drawn_at(scene: &Scene<'_>, event: Event, kind: Kind, at: Option<u32>) -> Result<String, Memory>
    ensures { IfOk result (λ s. string_bytes s ≡ events.drawn_at (stage_of scene.now) event kind at) }
{
    let front = scene.front(at)?;
    let name = drawn_name(scene, kind, at)?;
    drawn(scene.alloc, front.as_str(), name.as_str(), event.value)
}

fn filled_line(scene: &Scene<'_>, event: Event, object: u32, kind: Kind) -> Result<String, Memory>
    ensures { IfOk result (λ s. string_bytes s ≡ events.filled_line (stage_of scene.now) event object kind) }
{
    let front = scene.front(scene.object_at(object))?;
    let element = scene.element(object, event.element)?;
    let valueless = valueless_text(scene.alloc, kind_text(kind), element.as_str())?;
    valued(scene.alloc, front.as_str(), valueless.as_str(), event.value)
}

fn assigned_line(
    scene: &Scene<'_>,
    event: Event,
    at: Option<u32>,
    object: u32,
) -> Result<String, Memory>
    ensures { IfOk result (λ s. string_bytes s ≡ events.assigned_line (stage_of scene.now) event at object) }
{
    let front = scene.front(at)?;
    let element = scene.element(object, event.element)?;
    assigned(scene.alloc, front.as_str(), element.as_str(), event.value)
}

fn bound_line(scene: &Scene<'_>, event: Event, object: u32) -> Result<String, Memory>
    ensures { IfOk result (λ s. string_bytes s ≡ events.bound_line (stage_of scene.now) event object) }
{
    let front = scene.front(scene.object_at(object))?;
    let name = scene.object_name(object)?;
    bound(scene.alloc, front.as_str(), name.as_str(), event.value)
}

fn condition_line(
    alloc: Global,
    front: &str,
    condition: &[u8],
    holds: bool,
) -> Result<String, Memory>
    ensures { IfOk result (λ s. string_bytes s ≡ events.condition_line front.now condition.now holds) }
{
    if condition.len() == 0 {
        return undecided(alloc, front);
    }
    let condition = shown(alloc, before(condition, MOST_SHOWN))?;
    decided(alloc, front, condition.as_str(), holds)
}

fn decided_at(scene: &Scene<'_>, holds: bool, site: Option<Site>) -> Result<String, Memory>
    ensures { IfOk result (λ s. string_bytes s ≡ events.decided_at (stage_of scene.now) holds site) }
{
    match site {
        None => {
            let front = scene.front(None)?;
            decided(scene.alloc, front.as_str(), "a condition", holds)
        }
        Some(site) => {
            let front = scene.front(Some(start_of(scene.source, site)))?;
            let condition = between(scene.source, site.from as usize, site.to as usize);
            condition_line(scene.alloc, front.as_str(), condition, holds)
        }
    }
}

// A condition that has another value than 0 holds.
fn holds(value: i128) -> bool
    ensures { result ≡ not (is_zero value) }
{
    !(value == 0)
}

fn decided_line(scene: &Scene<'_>, event: Event) -> Result<String, Memory>
    ensures { IfOk result (λ s. string_bytes s ≡ events.decided_line (stage_of scene.now) event) }
{
    decided_at(scene, holds(event.value), scene.site(event.place))
}

fn value_in(event: Event) -> Option<i128>
    ensures { result ≡ events.value_in event }
{
    if event.element == 0 {
        None
    } else {
        Some(event.value)
    }
}

fn returned_line(scene: &Scene<'_>, event: Event, at: u32, slot: usize) -> Result<String, Memory>
    ensures { IfOk result (λ s. string_bytes s ≡ events.returned_line (stage_of scene.now) event at slot) }
{
    let front = scene.front(Some(at))?;
    let name = scene.function_name(slot)?;
    returned(scene.alloc, front.as_str(), name.as_str(), value_in(event))
}

fn met_line(scene: &Scene<'_>, event: Event, value: i128) -> Result<String, Memory>
    ensures { IfOk result (λ s. string_bytes s ≡ events.met_line (stage_of scene.now) event value) }
{
    let front = scene.front(start_at(scene, event.place))?;
    met(scene.alloc, front.as_str(), value)
}

fn called_line(scene: &Scene<'_>, at: u32, slot: usize) -> Result<String, Memory>
    ensures { IfOk result (λ s. string_bytes s ≡ events.called_line (stage_of scene.now) at slot) }
{
    let front = scene.front(Some(at))?;
    let name = scene.function_name(slot)?;
    called(scene.alloc, front.as_str(), name.as_str())
}

fn line_of(scene: &Scene<'_>, event: Event, instruction: Instruction) -> Result<String, Memory>
    ensures { IfOk result (λ s. string_bytes s ≡ events.line_of (stage_of scene.now) event instruction) }
{
    match instruction {
        Instruction::Draw(_, kind) => drawn_at(scene, event, kind, start_at(scene, event.place)),
        Instruction::Fill(object, kind, _) => filled_line(scene, event, object, kind),
        Instruction::Begin(_, object, _, _) => {
            assigned_line(scene, event, scene.object_at(object), object)
        }
        Instruction::Bind(_, object) => bound_line(scene, event, object),
        Instruction::Store(_, object) => {
            assigned_line(scene, event, start_at(scene, event.place), object)
        }
        Instruction::Update(_, _, _, _, at, object) => {
            assigned_line(scene, event, Some(at), object)
        }
        Instruction::Change(_, _, _, _, at, object) => {
            assigned_line(scene, event, Some(at), object)
        }
        Instruction::SkipZero(_, _) => decided_line(scene, event),
        Instruction::SkipEqual(_, value, _) => met_line(scene, event, value),
        Instruction::Call(at, _, slot) => called_line(scene, at, slot),
        Instruction::Take(_, at, slot, _) => returned_line(scene, event, at, slot),
        _ => Ok(String::new(scene.alloc)),
    }
}

// The line of an event; nothing where its instruction has none.
fn event_line(scene: &Scene<'_>, event: Event) -> Result<String, Memory>
    ensures { IfOk result (λ s. string_bytes s ≡ events.event_line (stage_of scene.now) event) }
{
    match scene.instruction(event.place) {
        None => Ok(String::new(scene.alloc)),
        Some(instruction) => line_of(scene, event, instruction),
    }
}

fn left_out_text(alloc: Global, count: u64) -> Result<String, Memory>
    ensures { IfOk result (λ s. string_bytes s ≡ events.left_out_text count) }
{
    if count == 0 {
        Ok(String::new(alloc))
    } else {
        left_out(alloc, count)
    }
}

fn add_events(scene: &Scene<'_>, log: &Log, text: &mut String) -> Result<(), Memory>
    ensures { IfOk result (λ _. string_bytes text.new ≡ string_bytes text.old ++ events.events_text (stage_of scene.now) (log.now).events) }
{
    let mut number = 0usize;
    'events: while number < log.count() {
        let Some(event) = log.event(number) else {
            return Ok(());
        };
        text.push_str(event_line(scene, event)?.as_str())?;
        number += 1;
    }
    Ok(())
}

/// Puts the lines of a run's last events behind a text, below one that says how many were left out, where any were.
///
/// Fails with `Memory`.
pub fn event_lines(scene: &Scene<'_>, log: &Log, text: &mut String) -> Result<(), Memory>
    ensures { IfOk result (λ _. string_bytes text.new ≡ string_bytes text.old ++ events.log_text (stage_of scene.now) log.now) }
{
    text.push_str(left_out_text(scene.alloc, log.left_out())?.as_str())?;
    add_events(scene, log, text)
}
