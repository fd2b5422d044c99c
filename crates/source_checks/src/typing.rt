ghost use Rattle.std.specs.Prelude.{ℕ, ◌≡◌, ◌⊎◌, List, map, None, Some, ℤ, IfErr, IfOk};
ghost use Rattle.c_tree.specs.View as v;
ghost use Rattle.c_meaning.specs.Jumps.{control_faults};
ghost use Rattle.c_meaning.specs.Program.{functions_of, env_of, run};
ghost use Rattle.c_typed.specs.Parts.{tree_of};
ghost use Rattle.c_typed.specs.Rules.{broken};
ghost use Rattle.c_typed.specs.Run as typed;
ghost use Rattle.c_types.specs.Elaborated.{elaborated};
ghost use Rattle.error_call_laws.specs.Reaches.{reached_in, typed_reached};
ghost use Rattle.source_refusals.specs.Refusals.{refusal};
ghost use Rattle.elaboration_laws.specs.Read.{IsRead};

use c_tree::Unit;
use c_typed::Typed;
use elaboration_laws::{places_kept, runs_kept, typed_kept};
use lv_base::{Model, SourceFail};
use source_bindings::bind_all;
use source_refusals::decide;
use std::alloc::Global;
use typed_programs::typed_program;

/// The typed tree of a source (C11 6), which runs as the source does, for any number of turns and on any inputs, and which
/// breaks the rules of labels, jumps, effects and calls on cycles at the tokens at which the source does. Each call of
/// `reach_error` stands at its place in the source, in the function of the same name.
///
/// Fails with `Fault`, the first by its offset, then by its number, of the rules of names, types, calls, constants and cases
/// that the source breaks; with `Over` of limit 4 where its objects have more cells than are allowed, unless a rule is broken
/// before; or with `Memory`.
pub fn elaborate(alloc: Global, unit: &Unit, model: Model) -> Result<Typed, SourceFail>
    requires { IsRead (v.items_of unit.now.items.items) model }
    ensures tree { IfOk result (λ t. tree_of t ≡ elaborated (v.items_of unit.now.items.items) model) }
    ensures right { IfOk result (λ _. refusal (v.items_of unit.now.items.items) model ≡ None) }
    ensures runs { IfOk result (λ t. (turns : ℕ) → (inputs : List ℤ) → typed.run turns (tree_of t) inputs ≡ run turns (v.items_of unit.now.items.items) model inputs) }
    ensures control { IfOk result (λ t. broken (tree_of t) ≡ control_faults (env_of (v.items_of unit.now.items.items) model) (functions_of (env_of (v.items_of unit.now.items.items) model) (v.items_of unit.now.items.items))) }
    ensures calls { IfOk result (λ t. map typed_reached (tree_of t).functions ≡ map (reached_in (env_of (v.items_of unit.now.items.items) model)) (functions_of (env_of (v.items_of unit.now.items.items) model) (v.items_of unit.now.items.items))) }
    ensures refused { IfErr result (λ fail. (fail ≡ SourceFail.Memory) ⊎ (refusal (v.items_of unit.now.items.items) model ≡ Some fail)) }
{
    typed_kept();
    runs_kept();
    places_kept();
    let env = bind_all(alloc, unit, model)?;
    decide(alloc, &env, model, unit)?;
    let program = typed_program(alloc, &env, model, unit)?;
    Ok(Typed::new(program.model, program.objects, program.functions))
}
