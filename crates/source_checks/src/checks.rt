ghost use Rattle.std.specs.Prelude.{ℕ, ◌≡◌, ◌⊎◌, List, None, Some, ℤ, IfErr, IfOk};
ghost use Rattle.c_tree.specs.View as v;
ghost use Rattle.c_meaning.specs.Good.{Good};
ghost use Rattle.c_meaning.specs.Program.{run};
ghost use Rattle.c_typed.specs.Parts.{tree_of};
ghost use Rattle.c_typed.specs.Run as typed;
ghost use Rattle.c_types.specs.Elaborated.{elaborated};
ghost use Rattle.elaboration_laws.specs.Read.{IsRead};
ghost use Rattle.source_checks.specs.Refusals.{source_refusal};

use crate::typing::elaborate;
use c_rules::{Examined, examine};
use c_tree::Unit;
use lv_base::{Model, SourceFail};
use std::alloc::Global;

/// The typed tree of a source that breaks no rule, with its labels and an order of its functions; it runs as the source does,
/// for any number of turns and on any inputs.
///
/// Fails with `Fault`, the first rule that is broken, by its offset, then by its number: of names, types, calls, constants and
/// cases, and where none of these is broken of labels, jumps, effects, calls on cycles and misplaced jumps; with `Over` of limit
/// 4 on cells, before a rule that is broken behind it; or with `Memory`.
pub fn accepted(alloc: Global, unit: &Unit, model: Model) -> Result<Examined, SourceFail>
    requires { IsRead (v.items_of unit.now.items.items) model }
    ensures good { IfOk result (λ _. Good (v.items_of unit.now.items.items) model) }
    ensures free { IfOk result (λ _. source_refusal (v.items_of unit.now.items.items) model ≡ None) }
    ensures tree { IfOk result (λ e. tree_of e.typed ≡ elaborated (v.items_of unit.now.items.items) model) }
    ensures runs { IfOk result (λ e. (turns : ℕ) → (inputs : List ℤ) → typed.run turns (tree_of e.typed) inputs ≡ run turns (v.items_of unit.now.items.items) model inputs) }
    ensures refused { IfErr result (λ fail. (fail ≡ SourceFail.Memory) ⊎ (source_refusal (v.items_of unit.now.items.items) model ≡ Some fail)) }
{
    let typed = elaborate(alloc, unit, model)?;
    examine(alloc, typed)
}
