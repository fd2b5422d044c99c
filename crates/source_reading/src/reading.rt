ghost use Rattle.std.specs.Prelude.{◌≡◌, ◌⊎◌, ◌≤◌, ◌^◌, length, Ok, Err, IfOk, MatchResult};
ghost use Rattle.lv_base.specs.declared.kind.Model.{Model};
ghost use Rattle.c_typed.specs.Parts as typed;
ghost use Rattle.c_tree.specs.Denotes.{tree_of};
ghost use Rattle.elaboration_laws.specs.Read.{IsRead};
ghost use Rattle.source_reading.specs.Reading.{tree_read, source_read, IsReplay};

use c_parser::parse;
use c_rules::Examined;
use c_tokens::tokens_of;
use c_tree::Unit;
use elaboration_fit_laws::sources_fit;
use elaboration_laws::sources_read;
use elaboration_offset_laws::sources_hold;
use lv_base::{Model, SourceFail};
use source_checks::accepted;
use std::alloc::Global;

/// The typed tree of a source that breaks no rule and passes no limit, ready to run.
///
/// Fails with the first rule that is broken or limit that is passed: of tokens, then of the grammar, then of names, types and
/// cells, then of jumps, effects and calls; or with `Memory`.
pub fn examined(alloc: Global, source: &[u8], model: Model) -> Result<Examined, SourceFail>
    ensures { MatchResult result
        (λ e. IsReplay model source.now (typed.tree_of e.typed))
        (λ fail. (fail ≡ SourceFail.Memory) ⊎ (source_read model source.now ≡ Err fail)) }
{
    sources_hold();
    sources_fit();
    let unit = tree(alloc, source)?;
    accepted(alloc, &unit, model)
}

/// The tree of a source's tokens, be it one that breaks a rule or not.
///
/// Fails with the first rule of tokens or of the grammar that is broken, with a limit that they pass, or with `Memory`.
pub fn tree(alloc: Global, source: &[u8]) -> Result<Unit, SourceFail>
    ensures tree { MatchResult result
        (λ unit. tree_read source.now ≡ Ok (tree_of unit))
        (λ fail. (fail ≡ SourceFail.Memory) ⊎ (tree_read source.now ≡ Err fail)) }
    ensures read { IfOk result (λ unit. (model : Model) → IsRead (tree_of unit) model) }
{
    sources_read();
    match tokens_of(alloc, source) {
        Ok(tokens) => parse(alloc, &tokens),
        Err(fail) => Err(fail),
    }
}
