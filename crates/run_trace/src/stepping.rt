ghost use Rattle.std.specs.Prelude.{◌≡◌, ◌≤◌, length, slice_get, IsTrue, IfOk};
ghost use Rattle.std.specs.Option.{option_copied};
ghost use Rattle.slot_code.specs.Slots.{slots_in};
ghost use Rattle.slot_code.specs.Machine.{machine};
ghost use Rattle.slot_board.specs.Boards.{state_of};
ghost use Rattle.slot_machine.specs.Shapes.{all_fit};
ghost use Rattle.run_trace.specs.Runs.{followed, follow_from};

use lv_base::{Memory, Model};
use run_events::{Trail, follow};
use slot_board::{Board, Step};
use slot_code::{Ending, Instruction};

// The instruction at this place; none stands behind the code.
fn instruction_at(code: &[Instruction], place: usize) -> Option<&Instruction>
    ensures { option_copied result ≡ slice_get code.now place }
{
    code.get(place)
}

/// Runs this code from a place on, until it ends, and notes what happens. Each instruction takes a turn or goes forward, so it
/// does end.
///
/// Fails with `Memory` where there is no room for an event.
pub(crate) fn trace_from(
    board: &mut Board,
    trail: &mut Trail,
    code: &[Instruction],
    start: usize,
    inputs: &[i128],
    model: Model,
) -> Result<Ending, Memory>
    requires slots { slots_in code.now ≤ length board.old.slots.items }
    requires sizes { IsTrue (all_fit board.old.store.items code.now) }
    ensures { IfOk result (λ ending. followed ending trail.new ≡ follow_from model inputs.now code.now (machine start board.old.slots.items (state_of board.old)) trail.old) }
{
    let mut place = start;
    'steps: loop {
        let Some(instruction) = instruction_at(code, place) else {
            return Ok(Ending::Ended);
        };
        match follow(board, trail, instruction, place, inputs, model)? {
            Step::Next => place += 1,
            Step::Goes(goal) => {
                if goal >= code.len() as u128 {
                    return Ok(Ending::Ended);
                }
                place = goal as usize;
            }
            Step::Over(ending) => return Ok(ending),
        }
    }
}
