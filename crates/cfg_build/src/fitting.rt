//! What holds of each instruction of a program's code, and of its calls. It is tried at each place, so that no proof has to follow how
//! code is made.

ghost use Rattle.std.specs.Prelude.{◌≡◌, ◌<◌, ◌↔◌, length, true, false, map, slice_get, slice_set, IfOk, IsTrue, Some};
ghost use Rattle.lv_base.specs.declared.kind.Model.{Model};
ghost use Rattle.lv_base.specs.Integers as int;
ghost use Rattle.c_run.specs.Operators as operators;
ghost use Rattle.c_typed.specs.Run as run;
ghost use Rattle.c_typed.specs.View as v;
ghost use Rattle.slot_values.specs.Linked.{links_of};
ghost use Rattle.slot_values.specs.declared.scene.Link.{Link};
ghost use Rattle.cfg_build.specs.Fitting.{AreFit, CallsEnter, Enters, IsEntry, IsFit};
ghost use Rattle.cfg_build.specs.Beginnings.{AreBeginnings, BeginsAt, FindsEntries, FindsEntry, StandBelow};

use c_tree::BinaryOp;
use c_typed::Object;
use lv_base::{Kind, Memory};
use slot_code::Instruction;
use slot_compiler::Code;
use slot_values::{Link, count_of};
use std::alloc::Global;

// Whether a constant is in the range of some kind.
fn is_in_any(value: i128) -> bool
    ensures { IsTrue result ↔ int.InAny value }
{
    i128::from(i64::MIN) <= value && value <= i128::from(u64::MAX)
}

/// Whether promotion leaves a kind as it is.
pub(crate) fn is_promoted(kind: Kind) -> bool
    ensures { result ≡ int.is_promoted kind }
{
    match kind {
        Kind::Bool | Kind::Char | Kind::UChar | Kind::Short | Kind::UShort => false,
        Kind::Int | Kind::UInt | Kind::Long => true,
        Kind::ULong | Kind::LongLong | Kind::ULongLong => true,
    }
}

// Whether the operation is in a promoted kind, and has both operands' values.
fn is_operation(op: BinaryOp, kind: Kind) -> bool
    ensures { IsTrue result ↔ ((int.is_promoted kind ≡ true) × (operators.is_logical op ≡ false)) }
{
    match op {
        BinaryOp::OrElse | BinaryOp::AndAlso => false,
        _ => is_promoted(kind),
    }
}

// Whether an object has so many elements.
fn is_count(objects: &[Object], object: u32, count: usize) -> bool
    ensures { IsTrue result ↔ (count ≡ run.size_of (slice_get (map v.object_of objects.now) object)) }
{
    count == count_of(objects, object)
}

fn own_kind(object: &Object) -> Kind
    ensures { result ≡ (v.object_of object.now).kind }
{
    object.kind
}

fn kind_of(objects: &[Object], object: u32) -> Kind
    ensures { result ≡ run.kind_of (slice_get (map v.object_of objects.now) object) }
{
    match objects.get(object as usize) {
        None => Kind::Int,
        Some(object) => own_kind(object),
    }
}

// Whether the kind is that of an object.
fn is_kind(objects: &[Object], object: u32, kind: Kind) -> bool
    ensures { IsTrue result ↔ (kind ≡ run.kind_of (slice_get (map v.object_of objects.now) object)) }
{
    kind == kind_of(objects, object)
}

// Whether the instruction computes in kinds, and counts elements, as its object asks for.
fn is_fit(objects: &[Object], instruction: Instruction) -> bool
    ensures { (model : Model) → IsTrue result ↔ IsFit model (map v.object_of objects.now) instruction }
{
    match instruction {
        Instruction::Constant(_, value) => is_in_any(value),
        Instruction::Element(_, _, object, count) => is_count(objects, object, count),
        Instruction::Locate(_, _, object, count) => is_count(objects, object, count),
        Instruction::Negate(_, kind, _) => is_promoted(kind),
        Instruction::Complement(_, kind, _) => is_promoted(kind),
        Instruction::Binary(_, op, kind, _) => is_operation(op, kind),
        Instruction::Update(_, op, kind, target, _, object) => {
            is_operation(op, kind) && is_kind(objects, object, target)
        }
        Instruction::Change(_, _, _, kind, _, object) => is_kind(objects, object, kind),
        Instruction::Fill(object, kind, _) => is_kind(objects, object, kind),
        _ => true,
    }
}

pub(crate) fn instruction_at(code: &[Instruction], place: usize) -> Option<Instruction>
    ensures { result ≡ slice_get code.now place }
{
    code.get(place).copied()
}

// Whether each instruction of the code is fit.
fn are_fit(objects: &[Object], code: &[Instruction]) -> bool
    ensures { (model : Model) → IsTrue result ↔ AreFit model (map v.object_of objects.now) code.now }
{
    for place in 0..code.len() {
        let Some(instruction) = instruction_at(code, place) else {
            return false;
        };
        if !is_fit(objects, instruction) {
            return false;
        }
    }
    true
}

// A number for a place, if it is one of these.
fn put_at(numbers: &mut Vec<usize>, place: usize, number: usize)
    ensures { numbers.new.items ≡ slice_set numbers.old.items place number }
{
    if place < numbers.len() {
        numbers[place] = number;
    }
}

// The number of the link whose code seems to begin at each place.
fn beginnings(alloc: Global, links: &[Link], places: usize) -> Result<Vec<usize>, Memory>
    ensures { IfOk result (λ v. AreBeginnings links.now places v.items) }
{
    let mut numbers = vec![in alloc; 0usize; places]?;
    for number in 0..links.len() {
        let Some(link) = link_at(links, number) else {
            return Ok(numbers);
        };
        put_at(&mut numbers, link.entry, number);
    }
    Ok(numbers)
}

fn link_at(links: &[Link], number: usize) -> Option<Link>
    ensures { result ≡ slice_get links.now number }
{
    links.get(number).copied()
}

// Whether the code of the link of this number begins at the place.
fn begins_at(links: &[Link], number: usize, place: usize) -> bool
    ensures enters { IsTrue result → IsEntry (links_of links.now) place }
    ensures whole { (link : Link) → slice_get links.now number ≡ Some link → link.entry ≡ place → IsTrue result }
{
    match link_at(links, number) {
        None => false,
        Some(link) => link.entry == place,
    }
}

// Whether some link's code begins at the place, of those that seem to.
fn is_entry(links: &[Link], beginnings: &[usize], place: usize) -> bool
    ensures enters { IsTrue result → IsEntry (links_of links.now) place }
    ensures whole { BeginsAt links.now beginnings.now place → IsTrue result }
{
    match beginnings.get(place) {
        None => false,
        Some(number) => begins_at(links, *number, place),
    }
}

// Whether the instruction goes to the entry of a function, if it is a call.
fn enters(links: &[Link], beginnings: &[usize], instruction: Instruction) -> bool
    ensures enters { IsTrue result → Enters (links_of links.now) instruction }
    ensures whole { FindsEntry links.now beginnings.now instruction → IsTrue result }
{
    match instruction {
        Instruction::Call(_, goal, _) => is_entry(links, beginnings, goal),
        _ => true,
    }
}

fn all_enter(links: &[Link], beginnings: &[usize], code: &[Instruction]) -> bool
    ensures enter { IsTrue result → CallsEnter (links_of links.now) code.now }
    ensures whole { FindsEntries links.now beginnings.now code.now → IsTrue result }
{
    for place in 0..code.len() {
        let Some(instruction) = instruction_at(code, place) else {
            return false;
        };
        if !enters(links, beginnings, instruction) {
            return false;
        }
    }
    true
}

// Whether each call of the code goes to the entry of a function.
fn calls_enter(alloc: Global, links: &[Link], code: &[Instruction]) -> Result<bool, Memory>
    ensures enter { IfOk result (λ b. IsTrue b → CallsEnter (links_of links.now) code.now) }
    ensures whole { StandBelow (length code.now) links.now → CallsEnter (links_of links.now) code.now → IfOk result (λ b. IsTrue b) }
{
    let beginnings = beginnings(alloc, links, code.len())?;
    Ok(all_enter(links, &beginnings, code))
}

/// Whether each instruction of the code is fit, and each call goes to the entry of a function: in the code of a program all that is so.
pub(crate) fn is_fitting(alloc: Global, objects: &[Object], code: &Code) -> Result<bool, Memory>
    ensures fitting { (model : Model) → IfOk result (λ b. IsTrue b → AreFit model (map v.object_of objects.now) code.now.instructions.items
        × CallsEnter (links_of code.now.links.items) code.now.instructions.items × (length code.now.instructions.items < 18446744073709551616)) }
    ensures whole { (model : Model) → AreFit model (map v.object_of objects.now) code.now.instructions.items → StandBelow (length code.now.instructions.items) code.now.links.items
        → CallsEnter (links_of code.now.links.items) code.now.instructions.items → IfOk result (λ b. IsTrue b) }
{
    if !are_fit(objects, &code.instructions) {
        return Ok(false);
    }
    calls_enter(alloc, &code.links, &code.instructions)
}
