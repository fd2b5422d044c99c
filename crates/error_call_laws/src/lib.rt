//! Calls of `reach_error` in typed trees.
#![tactic(auto)]

ghost use Rattle.error_call_laws.specs.Laws.{CallsKept, ReachesKept};

use elaboration_fit_laws::sources_fit;
use elaboration_offset_laws::sources_hold;
use elaboration_source_laws::tokens_rise;

/// The functions of the typed tree of tokens that rise, which breaks no rule of names, types, calls, constants and cases, have the
/// names of the source's functions with a body, in their order, and each calls `reach_error` at the same offsets in the same order.
pub fn calls_kept()
    ensures { CallsKept }
{
    sources_hold();
    sources_fit();
}

/// The functions of the typed tree of a source that breaks no rule have the names of the source's functions with a body, in their
/// order, and each calls `reach_error` at the same offsets in the same order.
pub fn reaches_kept()
    ensures { ReachesKept }
{
    tokens_rise();
    sources_hold();
    sources_fit();
}
