ghost use Rattle.std.specs.Prelude.{◌≡◌, IfOk, Some, slice_get};
ghost use Rattle.c_typed.specs.Parts.{tree_of};
ghost use Rattle.c_typed.specs.View as v;
ghost use Rattle.slot_code.specs.Programs as p;
ghost use Rattle.slot_code.specs.Slots as s;
ghost use Rattle.slot_compiler.specs.Growing as growing;
ghost use Rattle.slot_compiler.specs.Seen as seen;

use crate::bodies::body_code;
use crate::rooms::{larger, slots_in};
use c_typed::{Function, Typed};
use lv_base::Memory;
use slot_code::Instruction;
use slot_values::{Link, Links, Scene};
use std::alloc::Global;

/// Flat code: the instructions, and for each function whose code stands there its place and its slot.
#[derive(Drop)]
pub struct Code {
    pub instructions: Vec<Instruction>,
    pub links: Vec<Link>,
}

// Code that is not whole yet, and how many slots it needs.
#[derive(Drop)]
struct Built {
    instructions: Vec<Instruction>,
    links: Links,
    slots: usize,
}

// One function more. Its slots stand behind all that were used.
fn with_body(
    alloc: Global,
    typed: &Typed,
    built: Built,
    number: u32,
    function: &Function,
) -> Result<Built, Memory>
    requires { built.slots ≡ s.slots_in built.instructions.items }
    ensures code { IfOk result (λ b. growing.built_of b ≡ p.with_function (tree_of typed.now) (growing.built_of built) number (Some (v.function_of function.now))) }
    ensures slots { IfOk result (λ b. b.slots ≡ s.slots_in b.instructions.items) }
{
    let mut instructions = built.instructions;
    let links = built.links;
    let slot = built.slots;
    let entry = instructions.as_slice().len();
    let scene = Scene {
        objects: typed.objects(),
        functions: typed.functions(),
        links: &links,
    };
    let own = body_code(
        alloc,
        &scene,
        typed.model(),
        function.result,
        slot,
        entry,
        &function.body,
    )?;
    let slots = larger(slot, slots_in(&own)?);
    instructions.extend_from_slice(&own)?;
    let links = links.with(Link {
        function: number,
        entry,
        slot,
    })?;
    Ok(Built {
        instructions,
        links,
        slots,
    })
}

// The function of this number more, if there is one.
fn with_function(alloc: Global, typed: &Typed, built: Built, number: u32) -> Result<Built, Memory>
    requires { built.slots ≡ s.slots_in built.instructions.items }
    ensures code { IfOk result (λ b. growing.built_of b ≡ p.with_function (tree_of typed.now) (growing.built_of built) number (slice_get (tree_of typed.now).functions number)) }
    ensures slots { IfOk result (λ b. b.slots ≡ s.slots_in b.instructions.items) }
{
    match typed.functions().get(number as usize) {
        None => Ok(built),
        Some(function) => with_body(alloc, typed, built, number, function),
    }
}

/// The code of a typed tree's functions in this order. Where each stands behind those that it calls and `main` is among them,
/// the code runs as the tree.
///
/// Fails with `Memory` where there is no more memory, or where a place, a slot or a skip has no number.
pub fn compiled(alloc: Global, typed: &Typed, order: &[u32]) -> Result<Code, Memory>
    ensures { IfOk result (λ c. seen.code_of c ≡ p.code_of (tree_of typed.now) order.now) }
{
    let mut built = Built {
        instructions: Vec::new(alloc),
        links: Links::new(alloc),
        slots: 0,
    };
    for number in order {
        built = with_function(alloc, typed, built, *number)?;
    }
    Ok(Code {
        instructions: built.instructions,
        links: built.links.into_vec(),
    })
}
