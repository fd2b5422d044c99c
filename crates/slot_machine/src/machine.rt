ghost use Rattle.std.specs.Prelude.{◌≡◌, ◌≤◌, ℕ, Option, IfOk};
ghost use Rattle.c_typed.specs.Tree.{Program};
ghost use Rattle.c_typed.specs.Run as run;
ghost use Rattle.c_typed.specs.Parts.{tree_of};
ghost use Rattle.slot_code.specs.Slots.{slots_in};
ghost use Rattle.slot_code.specs.Values.{Link};
ghost use Rattle.slot_code.specs.Programs.{Code};
ghost use Rattle.slot_code.specs.Machine as flat;
ghost use Rattle.slot_laws.specs.Laws.{AreShaped};
ghost use Rattle.slot_machine.specs.Loaded.{loaded, run_of};

use crate::running::run_from;
use crate::start::{begin, start_rows};
use c_typed::Typed;
use lv_base::{Memory, Model as DataModel};
use slot_board::{Board, Row};
use slot_code::{Ending, Instruction};
use std::alloc::Global;
use std::marker::Model;

/// Where `main` begins, and the slot that gets the place to return to.
#[derive(Clone, Copy)]
pub struct Entry {
    pub place: usize,
    pub slot: usize,
}

/// Flat code with all that its runs need: they take no memory, and none sees what an earlier one left. Contracts see the
/// code, the objects' first values, and what the slots hold.
#[derive(Drop)]
pub struct Machine {
    model: DataModel,
    code: Vec<Instruction>,
    entry: Option<Entry>,
    first: Vec<Row>,
    board: Board,
}

impl Model for Machine {
    ghost use Rattle.slot_machine.specs.Loaded.{Loaded, IsSound};

    ghost Value = { Loaded };

    ghost view = { λ m. record {
      model = m.model;
      code = m.code.items;
      store = m.first.items;
      entry = m.entry;
      slots = m.board.slots.items;
    } };

    ghost invariant = { λ m. IsSound m.code.items m.entry m.first.items m.board.slots.items m.board.store.items };
}

impl Machine {
    /// A machine for the code of a typed tree, which uses so many slots. With no entry there is no `main`, and a run ends at
    /// once. The only error is want of memory.
    pub fn new(
        alloc: Global,
        typed: &Typed,
        code: Vec<Instruction>,
        entry: Option<Entry>,
        slots: usize,
    ) -> Result<Machine, Memory>
        requires slots { slots_in code.items ≤ slots }
        requires shaped { AreShaped (tree_of typed.now).objects code.items }
        ensures { IfOk result (λ m. m ≡ record {
          model = typed.now.model;
          code = code.items;
          store = run.start_store (tree_of typed.now).objects;
          entry = entry;
          slots = m.slots;
        }) }
    {
        let wanted = match entry {
            Some(entry) => slots.max(entry.slot.checked_add(1).ok_or(Memory)?),
            None => slots,
        };
        let first = start_rows(alloc, typed.objects())?;
        let store = start_rows(alloc, typed.objects())?;
        let slots = vec![in alloc; 0i128; wanted]?;
        let board = Board {
            slots,
            store,
            taken: 0,
            turns: 0,
        };
        Ok(Machine {
            model: typed.model(),
            code,
            entry,
            first,
            board,
        })
    }

    /// The run on these inputs, with so many turns.
    pub fn run(&mut self, inputs: &[i128], turns: u64) -> Ending
        ensures run { result ≡ run_of self.old inputs.now turns }
        ensures kept { self.new ≡ record self.old { slots = self.new.slots } }

        // Where it was made of a program's code, the run is that of the program's code.
        ensures code { (program : Program) (code : Code) (link : Option Link) → self.old ≡ loaded program code link self.old.slots → result ≡ flat.run_code program code self.old.slots link inputs.now turns }
    {
        let Some(entry) = self.entry else {
            return Ending::Ended;
        };
        begin(
            &mut self.board,
            &self.first,
            entry.slot,
            self.code.len(),
            turns,
        );
        run_from(&mut self.board, &self.code, entry.place, inputs, self.model)
    }
}
