ghost use Rattle.std.specs.Prelude.{◌≡◌, ℕ, length, nat_eq, if◌then◌else◌, Some, IfOk, IfSome};
ghost use Rattle.std.specs.HashMap.{get};
ghost use Rattle.loop_turns.specs.Turning.{OnlyTurn, only_goal, stands_at, stands_with};
ghost use Rattle.loop_turns.specs.Turning as of;

use lv_base::Memory;
use slot_code::Instruction;
use std::alloc::Global;
use std::collections::HashMap;
use std::marker::Model;

/// What stands at one offset of some code.
#[derive(Clone, Copy)]
pub(crate) enum Standing {
    /// Turns, all to this place.
    To(usize),
    /// Turns to unlike places, or a call.
    Mixed,
}

/// What stands at each offset of some code. Contracts see the code.
#[derive(Drop)]
pub struct TurnGoals<'a> {
    code: &'a [Instruction],
    standings: HashMap<u32, Standing>,
}

impl<'a> Model for TurnGoals<'a> {
    ghost use Rattle.std.specs.Prelude.{List};
    ghost use Rattle.slot_code.specs.declared.flat.Instruction.{Instruction};

    ghost Value = { List Instruction };

    ghost use Rattle.loop_turns.specs.Turning.{AreStandings};

    ghost view = { λ g. g.code.now };

    ghost invariant = { λ g. AreStandings g.code.now g.standings };
}

// What stands at an offset with one turn more, to this place.
fn turned(goal: usize, standing: Option<Standing>) -> Standing
    ensures { result ≡ of.turned goal standing }
{
    match standing {
        None => Standing::To(goal),
        Some(Standing::To(other)) => {
            if other == goal {
                Standing::To(goal)
            } else {
                Standing::Mixed
            }
        }
        Some(Standing::Mixed) => Standing::Mixed,
    }
}

fn put(standings: &mut HashMap<u32, Standing>, at: u32, standing: Standing) -> Result<(), Memory>
    ensures { IfOk result (λ _. (offset : ℕ) → get nat_eq standings.new offset ≡ (if nat_eq at offset then Some standing else get nat_eq standings.old offset)) }
{
    standings.insert(at, standing)?;
    Ok(())
}

// What stands at each offset with one instruction more.
fn add(standings: &mut HashMap<u32, Standing>, instruction: Instruction) -> Result<(), Memory>
    ensures { IfOk result (λ _. (offset : ℕ) → get nat_eq standings.new offset ≡ stands_with offset instruction (get nat_eq standings.old offset)) }
{
    match instruction {
        Instruction::Turn(at, goal) => {
            let standing = turned(goal, standings.get(&at).copied());
            put(standings, at, standing)
        }
        Instruction::Call(at, _, _) => put(standings, at, Standing::Mixed),
        _ => Ok(()),
    }
}

// What stands at each offset of the code.
fn standings_of(alloc: Global, code: &[Instruction]) -> Result<HashMap<u32, Standing>, Memory>
    ensures { IfOk result (λ m. (offset : ℕ) → get nat_eq m offset ≡ stands_at offset code.now (length code.now)) }
{
    let mut standings = HashMap::new(alloc);
    for instruction in code {
        add(&mut standings, *instruction)?;
    }
    Ok(standings)
}

impl<'a> TurnGoals<'a> {
    /// Looks at all instructions of the code once.
    ///
    /// Fails with `Memory` where there is no more memory for an entry of each offset at which a turn or a call stands.
    pub fn new(alloc: Global, code: &'a [Instruction]) -> Result<TurnGoals<'a>, Memory>
        ensures { IfOk result (λ goals. goals ≡ code.now) }
    {
        let standings = standings_of(alloc, code)?;
        Ok(TurnGoals { code, standings })
    }

    /// The place to which all turns at the offset go, if some stand there and no call does. It takes no memory.
    pub fn only(&self, at: u32) -> Option<usize>
        ensures value { result ≡ only_goal (stands_at at self.now (length self.now)) }
        ensures only { IfSome result (OnlyTurn self.now at) }
    {
        match self.standings.get(&at).copied() {
            Some(Standing::To(goal)) => Some(goal),
            _ => None,
        }
    }
}
