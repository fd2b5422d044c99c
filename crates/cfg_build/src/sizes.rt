//! How many nodes the graphs of a program's functions have.

ghost use Rattle.std.specs.Prelude.{◌≡◌, ◌≤◌, length, min, MatchResult};
ghost use Rattle.code_layout.specs.Limits.{IsOver};
ghost use Rattle.cfg_build.specs.Sizes as s;

use crate::fitting::is_promoted;
use c_terms::{is_signed, tests_of};
use code_moves::operation_of;
use lv_base::SourceFail;
use slot_code::Instruction;

/// The most nodes of all function graphs together.
const MOST_NODES: u64 = 65_536;

/// The limit on nodes.
const NODES: u8 = 5;

fn one_if(condition: bool) -> u32
    ensures { result ≡ s.one_if condition }
{
    if condition { 1 } else { 0 }
}

// How many checks an instruction has.
fn checks_in(instruction: Instruction) -> u32
    ensures { result ≡ s.checks_in instruction }
{
    match instruction {
        Instruction::Element(_, _, _, _) | Instruction::Locate(_, _, _, _) => 1,
        Instruction::Negate(_, kind, _) => one_if(is_signed(kind)),
        Instruction::Binary(_, op, kind, _) => tests_of(op, kind),
        Instruction::Update(_, op, kind, _, _, _) => tests_of(op, kind),
        Instruction::Change(_, _, by, kind, _, _) => {
            if is_promoted(kind) {
                tests_of(operation_of(by), kind)
            } else {
                0
            }
        }
        Instruction::Take(_, _, _, needed) => one_if(needed),
        _ => 0,
    }
}

/// How many nodes the place of an instruction has: its own; of two checks one between them; and one for the error of each.
pub(crate) fn nodes_at(instruction: Instruction) -> u32
    ensures { result ≡ s.nodes_at instruction }
{
    let checks = checks_in(instruction);
    if checks == 0 {
        1
    } else if checks == 1 {
        2
    } else {
        4
    }
}

// The nodes of all places, an exit for each function, and the node at which `main` begins; a number that 64 bits don't hold counts as
// the greatest.
fn node_count(code: &[Instruction], functions: usize) -> u64
    ensures { result ≡ min (s.graph_nodes code.now functions) 18446744073709551615 }
{
    let mut nodes = (functions as u64).saturating_add(1);
    for instruction in code {
        nodes = nodes.saturating_add(u64::from(nodes_at(*instruction)));
    }
    nodes
}

/// Whether the graphs of a program with this code and so many functions have at most 65,536 nodes.
///
/// Fails with `Over` for limit 5, with the number of nodes, where they have more.
pub(crate) fn few_nodes(code: &[Instruction], functions: usize) -> Result<(), SourceFail>
    ensures { MatchResult result (λ u. s.graph_nodes code.now functions ≤ 65536) (IsOver 5 65536 (s.graph_nodes code.now functions)) }
{
    let nodes = node_count(code, functions);
    if nodes > MOST_NODES {
        return Err(SourceFail::Over(NODES, nodes));
    }
    Ok(())
}
