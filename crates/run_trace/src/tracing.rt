ghost use Rattle.std.specs.Prelude.{◌≡◌, ◌≤◌, ◌<◌, length, IfOk, IsTrue, option_map, pos};
ghost use Rattle.c_typed.specs.Parts.{tree_of};
ghost use Rattle.c_typed.specs.Run as typed;
ghost use Rattle.slot_code.specs.Programs as programs;
ghost use Rattle.slot_code.specs.Slots.{put, slots_in};
ghost use Rattle.slot_code.specs.Machine.{ending_of};
ghost use Rattle.slot_values.specs.Seen as values;
ghost use Rattle.slot_compiler.specs.Seen as seen;
ghost use Rattle.slot_machine.specs.Shapes.{all_fit};
ghost use Rattle.slot_board.specs.Boards.{state_of};
ghost use Rattle.run_trace.specs.Runs.{followed, slots_for, follow_main, follow};

use crate::beginning::{main_link, new_board};
use crate::stepping::trace_from;
use c_rules::Examined;
use lv_base::{Memory, Model};
use run_events::Trail;
use run_replay::{Ending, orders_agree};
use slot_board::{Board, put_value};
use slot_code::Instruction;
use slot_compiler::{Code, compiled, slots_in};
use slot_values::Link;
use std::alloc::Global;

/// A run that was followed: how it ended, its code, and what it left behind.
#[derive(Drop)]
pub struct Trace {
    pub ending: Ending,
    pub code: Code,
    pub trail: Trail,
}

// How many slots the code and the place to return to need.
fn slots_wanted(code: &[Instruction], link: Option<Link>) -> Result<usize, Memory>
    ensures { IfOk result (λ n. n ≡ slots_for code.now (option_map values.link_of link)) }
{
    let own = slots_in(code)?;
    match link {
        None => Ok(own),
        Some(link) => Ok(own.max(link.slot.checked_add(1).ok_or(Memory)?)),
    }
}

// A slot holds the place to return to.
fn enter(board: &mut Board, slot: usize, end: usize)
    requires { slot < length board.old.slots.items }
    ensures slots { board.new.slots.items ≡ put board.old.slots.items slot (pos end) }
    ensures size { length board.new.slots.items ≡ length board.old.slots.items }
    ensures store { board.new.store.items ≡ board.old.store.items }
    ensures state { state_of board.new ≡ state_of board.old }
{
    put_value(&mut board.slots, slot, end as i128);
}

// The run of some code from the place where `main` stands. It returns to the end of the code.
fn ran(
    board: &mut Board,
    trail: &mut Trail,
    code: &[Instruction],
    link: Option<Link>,
    inputs: &[i128],
    model: Model,
) -> Result<Ending, Memory>
    requires slots { slots_for code.now (option_map values.link_of link) ≤ length board.old.slots.items }
    requires sizes { IsTrue (all_fit board.old.store.items code.now) }
    ensures { IfOk result (λ ending. followed ending trail.new ≡ follow_main model inputs.now code.now (option_map values.link_of link) board.old.slots.items (state_of board.old) trail.old) }
{
    let Some(link) = link else {
        return Ok(Ending::Ended);
    };
    enter(board, link.slot, code.len());
    trace_from(board, trail, code, link.entry, inputs, model)
}

/// The run of an examined tree on these inputs, with so many turns, and the last events on the way, up to so many of them. It ends as
/// `Replay::run` on the same inputs says, which has the same clause as `ending`.
///
/// Fails with `Memory` where there is no more memory, or where the code has a place, a skip or a slot without a number.
pub fn traced(
    alloc: Global,
    examined: &Examined,
    inputs: &[i128],
    turns: u64,
    most: usize,
) -> Result<Trace, Memory>
    ensures code { IfOk result (λ trace. seen.code_of trace.code ≡ programs.code_of (tree_of examined.now.typed) examined.now.order) }
    ensures run { IfOk result (λ trace. followed trace.ending trace.trail ≡ follow (tree_of examined.now.typed) examined.now.order inputs.now turns most) }
    ensures ending { IfOk result (λ trace. trace.ending ≡ ending_of (typed.run turns (tree_of examined.now.typed) inputs.now)) }
{
    orders_agree();
    let typed = examined.typed();
    let code = compiled(alloc, typed, examined.order())?;
    let link = main_link(typed.functions(), &code)?;
    let slots = slots_wanted(&code.instructions, link)?;
    let mut board = new_board(alloc, typed, slots, turns)?;
    let mut trail = Trail::new(alloc, most);
    let model = typed.model();
    let ending = ran(
        &mut board,
        &mut trail,
        &code.instructions,
        link,
        inputs,
        model,
    )?;
    Ok(Trace {
        ending,
        code,
        trail,
    })
}
