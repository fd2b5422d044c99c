ghost use Rattle.std.specs.Prelude.{◌≡◌, ◌≤◌, length, slice_get, IsTrue};
ghost use Rattle.std.specs.Option.{option_copied};
ghost use Rattle.typed_range_laws.specs.Guards as guards;
ghost use Rattle.slot_code.specs.Slots.{slots_in};
ghost use Rattle.slot_code.specs.Machine as flat;
ghost use Rattle.slot_board.specs.Boards.{state_of, shape_of};
ghost use Rattle.slot_machine.specs.Shapes.{all_fit};

use lv_base::Model;
use slot_board::{Board, Step};
use slot_code::{Ending, Instruction};

// The instruction at this place; none stands behind the code.
#[inline(always)]
fn instruction_at(code: &[Instruction], place: usize) -> Option<&Instruction>
    ensures { option_copied result ≡ slice_get code.now place }
{
    code.get(place)
}

/// Runs this code from a place on, until it ends. Each instruction takes a turn or goes forward, so it does end.
pub fn run_from(
    board: &mut Board,
    code: &[Instruction],
    start: usize,
    inputs: &[i128],
    model: Model,
) -> Ending
    requires slots { slots_in code.now ≤ length board.old.slots.items }
    requires sizes { IsTrue (all_fit board.old.store.items code.now) }
    ensures run { result ≡ flat.run_from model (λ op kind x y. guards.guarded model op kind x y) inputs.now code.now (flat.machine start board.old.slots.items (state_of board.old)) }
    ensures kept { shape_of board.new ≡ shape_of board.old }
{
    let mut place = start;
    'steps: loop {
        let Some(instruction) = instruction_at(code, place) else {
            return Ending::Ended;
        };
        match board.act(instruction, place, inputs, model) {
            Step::Next => place += 1,
            Step::Goes(goal) => {
                if goal >= code.len() as u128 {
                    return Ending::Ended;
                }
                place = goal as usize;
            }
            Step::Over(ending) => return ending,
        }
    }
}
