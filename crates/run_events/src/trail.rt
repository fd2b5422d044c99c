ghost use Rattle.std.specs.Prelude.{◌≡◌, ◌≤◌, length, IsTrue, IfOk};
ghost use Rattle.slot_code.specs.Slots.{slots_of};
ghost use Rattle.slot_board.specs.Boards.{shape_of, act_of, next_of};
ghost use Rattle.slot_board.specs.Seen.{fits};
ghost use Rattle.run_events.specs.Told as told;

use crate::operands::{Operands, operands_of};
use crate::telling::tell;
use event_log::Log;
use lv_base::{Memory, Model};
use slot_board::{Board, Step};
use slot_code::Instruction;
use std::alloc::Global;

/// What a run leaves behind: its last events, and the place and the operands of its last instruction.
#[derive(Drop)]
pub struct Trail {
    pub log: Log,
    pub place: usize,
    pub operands: Operands,
}

impl Trail {
    /// Nothing happened yet; so many events will be kept.
    pub fn new(alloc: Global, most: usize) -> Trail
        ensures { result ≡ told.start most }
    {
        Trail {
            log: Log::new(alloc, most),
            place: 0,
            operands: Operands {
                first: 0,
                second: 0,
                third: 0,
            },
        }
    }

    // An instruction begins.
    fn come_to(&mut self, place: usize, operands: Operands)
        ensures { self.new ≡ told.at_place self.old place operands }
    {
        self.place = place;
        self.operands = operands;
    }
}

// Notes what an instruction did, where the run goes on.
fn tell_step(
    trail: &mut Trail,
    step: Step,
    instruction: Instruction,
    board: &Board,
) -> Result<(), Memory>
    ensures { IfOk result (λ _. trail.new ≡ told.step_told step instruction board.now.slots.items board.now.store.items trail.old) }
{
    match step {
        Step::Over(_) => Ok(()),
        Step::Next | Step::Goes(_) => {
            let (place, operands) = (trail.place, trail.operands);
            tell(&mut trail.log, instruction, place, operands, board)
        }
    }
}

/// Does the instruction at this place, and notes what it did where the run goes on behind it.
///
/// Fails with `Memory` where there is no room for an event; the instruction is done all the same.
pub fn follow(
    board: &mut Board,
    trail: &mut Trail,
    instruction: &Instruction,
    place: usize,
    inputs: &[i128],
    model: Model,
) -> Result<Step, Memory>
    requires slots { slots_of instruction.now ≤ length board.old.slots.items }
    requires sizes { IsTrue (fits board.old.store.items instruction.now) }
    ensures next { IfOk result (λ step. next_of place step board.new ≡ act_of model inputs.now instruction.now place board.old) }
    ensures kept { shape_of board.new ≡ shape_of board.old }
    ensures told { IfOk result (λ step. trail.new ≡ told.step_told step instruction.now board.new.slots.items board.new.store.items (told.at_place trail.old place (told.operands_of board.old.slots.items board.old.store.items instruction.now))) }
{
    trail.come_to(place, operands_of(board, *instruction));
    let step = board.act(instruction, place, inputs, model);
    tell_step(trail, step, *instruction, board)?;
    Ok(step)
}
