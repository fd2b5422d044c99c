//! What a source that is not refused keeps: its typed tree keeps its facts and runs as the source does.
#![tactic(auto)]

ghost use Rattle.elaboration_laws.specs.Laws.{PlacesKept, RunsKept, SourcesRead, TypedKept};

use elaboration_body_laws::sources_typed;
use elaboration_offset_laws::{sources_break, sources_run};
use elaboration_source_laws::tokens_rise;
use error_call_laws::calls_kept;

/// The tree of a source's tokens is read: they are its own, rise, and have numbers and characters that are values of their
/// kinds.
pub fn sources_read()
    ensures { SourcesRead }
{
    tokens_rise();
}

/// The typed tree of a source that neither a rule nor the limit on cells refuses keeps the facts of its type.
pub fn typed_kept()
    ensures { TypedKept }
{
    sources_typed();
}

/// It runs as the source does, for any number of turns and on any inputs, and breaks the rules of labels, jumps, effects and
/// calls where the source does.
pub fn runs_kept()
    ensures { RunsKept }
{
    sources_run();
    sources_break();
}

/// Each of its calls of `reach_error` stands at the offset of one of the source, in the function of the same name.
pub fn places_kept()
    ensures { PlacesKept }
{
    calls_kept();
}
