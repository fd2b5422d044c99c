ghost use Rattle.std.specs.Prelude.{◌≡◌, IfOk};
ghost use Rattle.c_typed.specs.Tree.{Program};
ghost use Rattle.c_typed.specs.Parts.{tree_of};
ghost use Rattle.c_typed.specs.Run as typed;
ghost use Rattle.slot_code.specs.Machine.{ending_of};
ghost use Rattle.run_replay.specs.Replays.{Replays};

use crate::entries::main_entry;
use c_rules::Examined;
use lv_base::Memory;
use slot_code::Ending;
use slot_compiler::{compiled, slots_in};
use slot_machine::Machine;
use std::alloc::Global;
use std::marker::Model;

/// A typed tree that is ready to run, with all memory that its runs need. Contracts see its machine, but not what is left in the
/// machine's slots, which no run depends on; `Replays` says whose runs it has.
#[derive(Drop)]
pub struct Replay {
    machine: Machine,
}

impl Model for Replay {
    ghost use Rattle.slot_machine.specs.Loaded.{Loaded};
    ghost use Rattle.run_replay.specs.Replays.{forgetful};

    ghost Value = { Loaded };

    ghost view = { λ r. forgetful r.machine };
}

impl Replay {
    /// A replay of this typed tree. It takes all memory that runs need.
    ///
    /// Fails with `Memory` where there is no more memory, or where the code has a place, a skip or a slot without a number.
    pub fn new(alloc: Global, examined: &Examined) -> Result<Replay, Memory>
        ensures { IfOk result (λ r. Replays (tree_of examined.now.typed) r) }
    {
        let typed = examined.typed();
        let code = compiled(alloc, typed, examined.order())?;
        let entry = main_entry(typed.functions(), &code)?;
        let slots = slots_in(&code.instructions)?;
        let machine = Machine::new(alloc, typed, code.instructions, entry, slots)?;
        Ok(Replay { machine })
    }

    /// The run from the start on these inputs, with so many turns, whatever was run before. It takes no memory.
    pub fn run(&mut self, inputs: &[i128], turns: u64) -> Ending
        ensures run { (program : Program) → Replays program self.old → result ≡ ending_of (typed.run turns program inputs.now) }
        ensures kept { self.new ≡ self.old }
    {
        self.machine.run(inputs, turns)
    }
}
