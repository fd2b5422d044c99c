ghost use Rattle.std.specs.Prelude.{◌≡◌, ◌+◌, ◌<◌, ◌≤◌, ◌++◌, ◌∷◌, [], suc, length, take, drop, pos, IfOk, OnErr, option_map};
ghost use Rattle.slot_code.specs.Values as c;
ghost use Rattle.slot_code.specs.declared.flat.Instruction.TheVariants as i;
ghost use Rattle.slot_values.specs.Seen as seen;
ghost use Rattle.slot_values.specs.Ends as ends;

use crate::scene::{Link, Scene, parameters_of};
use lv_base::{Kind, Memory};
use slot_code::Instruction;

/// One instruction more.
///
/// Fails with `Memory` where there is no more memory.
pub fn add(code: &mut Vec<Instruction>, instruction: Instruction) -> Result<(), Memory>
    ensures { IfOk result (λ _. code.new.items ≡ code.old.items ++ instruction ∷ []) }
{
    code.push(instruction)?;
    Ok(())
}

/// A place or a slot behind another by so many.
///
/// Fails with `Memory` where no machine has so many.
pub fn after(first: usize, count: usize) -> Result<usize, Memory>
    ensures value { IfOk result (λ n. n ≡ first + count) }
    ensures cause { OnErr result (18446744073709551616 ≤ first + count) }
{
    match first.checked_add(count) {
        None => Err(Memory),
        Some(sum) => Ok(sum),
    }
}

/// The place or slot behind this one.
///
/// Fails with `Memory` where no machine has so many.
pub fn next(slot: usize) -> Result<usize, Memory>
    ensures value { IfOk result (λ n. n ≡ suc slot) }
    ensures cause { OnErr result (18446744073709551616 ≤ suc slot) }
{
    after(slot, 1)
}

/// So many instructions are left out by a skip.
///
/// Fails with `Memory` where a skip can't be so long.
pub fn distance(count: usize) -> Result<u32, Memory>
    ensures value { IfOk result (λ n. n ≡ count) }
    ensures cause { OnErr result (4294967296 ≤ count) }
{
    match u32::try_from(count) {
        Err(_) => Err(Memory),
        Ok(count) => Ok(count),
    }
}

// The parameters get the values of so many slots.
fn add_binds(
    slot: usize,
    parameters: &[u32],
    count: usize,
    code: &mut Vec<Instruction>,
) -> Result<(), Memory>
    ensures { IfOk result (λ _. code.new.items ≡ code.old.items ++ c.bind_code slot parameters.now count) }
{
    let mut place = slot;
    let mut left = count;
    for object in parameters {
        if left == 0 {
            return Ok(());
        }
        add(code, Instruction::Bind(place, *object))?;
        place = next(place)?;
        left -= 1;
    }
    Ok(())
}

// A call behind its arguments, of a function whose code stands at this link.
fn add_linked(
    slot: usize,
    at: u32,
    needed: bool,
    parameters: &[u32],
    count: usize,
    link: Option<Link>,
    code: &mut Vec<Instruction>,
) -> Result<(), Memory>
    ensures { IfOk result (λ _. code.new.items ≡ code.old.items ++ c.call_code slot at needed parameters.now count (option_map seen.link_of link)) }
{
    match link {
        None => add(code, Instruction::Stop),
        Some(link) => {
            add_binds(slot, parameters, count, code)?;
            add(code, Instruction::Call(at, link.entry, link.slot))?;
            add(code, Instruction::Take(slot, at, link.slot, needed))
        }
    }
}

/// A call behind its arguments, which stand in so many slots from this one on: the called name, whether there has to be a
/// value, and the function. One that doesn't stand there is not called.
pub(crate) fn add_call(
    scene: &Scene<'_>,
    slot: usize,
    at: u32,
    needed: bool,
    function: u32,
    count: usize,
    code: &mut Vec<Instruction>,
) -> Result<(), Memory>
    ensures { IfOk result (λ _. code.new.items ≡ code.old.items ++ ends.call scene.now slot at needed function count) }
{
    let parameters = parameters_of(scene.functions, function);
    let link = scene.links.find(function);
    add_linked(slot, at, needed, parameters, count, link, code)
}

/// A skip or a jump whose length is set later, and its place.
pub(crate) fn open(code: &mut Vec<Instruction>, skip: Instruction) -> Result<usize, Memory>
    ensures code { IfOk result (λ _. code.new.items ≡ code.old.items ++ skip ∷ []) }
    ensures place { IfOk result (λ at. at ≡ length code.old.items) }
{
    let at = code.len();
    add(code, skip)?;
    Ok(at)
}

// So many instructions stand behind this place.
fn count_behind(code: &[Instruction], at: usize) -> usize
    requires { at < length code.now }
    ensures { result ≡ length (drop (suc at) code.now) }
{
    code.len() - at - 1
}

// Another instruction at this place.
fn put(code: &mut Vec<Instruction>, at: usize, instruction: Instruction)
    requires { at < length code.old.items }
    ensures { code.new.items ≡ take at code.old.items ++ instruction ∷ drop (suc at) code.old.items }
{
    code[at] = instruction;
}

/// The skip at this place is over all that stands behind it, and over so many instructions more.
pub(crate) fn close_skip(
    slot: usize,
    at: usize,
    more: usize,
    code: &mut Vec<Instruction>,
) -> Result<(), Memory>
    requires { at < length code.old.items }
    ensures { IfOk result (λ _. code.new.items ≡ ends.skipped slot at more code.old.items) }
{
    let skip = distance(after(count_behind(code, at), more)?)?;
    put(code, at, Instruction::SkipZero(slot, skip));
    Ok(())
}

// The jump at this place is over all that stands behind it, and over so many instructions more.
fn close_jump(at: usize, more: usize, code: &mut Vec<Instruction>) -> Result<(), Memory>
    requires { at < length code.old.items }
    ensures { IfOk result (λ _. code.new.items ≡ ends.jumped at more code.old.items) }
{
    let skip = distance(after(count_behind(code, at), more)?)?;
    put(code, at, Instruction::Jump(skip));
    Ok(())
}

/// What stands behind the second operand of `&&`, and the skip over it at this place.
pub(crate) fn end_both(slot: usize, at: usize, code: &mut Vec<Instruction>) -> Result<(), Memory>
    requires { at < length code.old.items }
    ensures { IfOk result (λ _. code.new.items ≡ ends.skipped slot at 2 code.old.items ++ i.Truth slot ∷ i.Jump 1 ∷ i.Constant slot (pos 0) ∷ []) }
{
    close_skip(slot, at, 2, code)?;
    add(code, Instruction::Truth(slot))?;
    add(code, Instruction::Jump(1))?;
    add(code, Instruction::Constant(slot, 0))
}

/// What stands between the operands of `||`, and the place of the jump over the second one.
pub(crate) fn open_either(slot: usize, code: &mut Vec<Instruction>) -> Result<usize, Memory>
    ensures code { IfOk result (λ _. code.new.items ≡ (code.old.items ++ i.SkipZero slot 2 ∷ i.Constant slot (pos 1) ∷ []) ++ i.Jump 0 ∷ []) }
    ensures place { IfOk result (λ at. at ≡ length (code.old.items ++ i.SkipZero slot 2 ∷ i.Constant slot (pos 1) ∷ [])) }
{
    add(code, Instruction::SkipZero(slot, 2))?;
    add(code, Instruction::Constant(slot, 1))?;
    open(code, Instruction::Jump(0))
}

/// What stands behind the second operand of `||`, and the jump over it at this place.
pub(crate) fn end_either(slot: usize, at: usize, code: &mut Vec<Instruction>) -> Result<(), Memory>
    requires { at < length code.old.items }
    ensures { IfOk result (λ _. code.new.items ≡ ends.jumped at 1 code.old.items ++ i.Truth slot ∷ []) }
{
    close_jump(at, 1, code)?;
    add(code, Instruction::Truth(slot))
}

// A void choice has no value.
fn add_kept(slot: usize, kind: Option<Kind>, code: &mut Vec<Instruction>) -> Result<(), Memory>
    ensures { IfOk result (λ _. code.new.items ≡ code.old.items ++ c.kept_code slot kind) }
{
    match kind {
        None => add(code, Instruction::Constant(slot, 0)),
        Some(_) => Ok(()),
    }
}

/// What stands behind the last operand of `?:`, whose arms have this kind, and the jump over it at this place.
pub(crate) fn end_choice(
    slot: usize,
    kind: Option<Kind>,
    at: usize,
    code: &mut Vec<Instruction>,
) -> Result<(), Memory>
    requires { at < length code.old.items }
    ensures { IfOk result (λ _. code.new.items ≡ ends.jumped at 0 code.old.items ++ c.kept_code slot kind) }
{
    close_jump(at, 0, code)?;
    add_kept(slot, kind, code)
}
