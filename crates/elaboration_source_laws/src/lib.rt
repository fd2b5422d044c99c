//! Sources from their bytes on: what the laws of tokens, trees and rules say together.
#![tactic(auto)]

ghost use Rattle.elaboration_source_laws.specs.Laws.{CallsFound, GoodPrograms, ObjectsKept, TokensRise};

use elaboration_fit_laws::sources_fit;
use elaboration_offset_laws::{good_sources, objects_typed, parameters_typed, sources_hold};

/// The tokens of a source stand one behind the other, each at a greater offset than the one before.
pub fn tokens_rise()
    ensures { TokensRise }
{}

/// Where a source's tokens are those of a tree that breaks no rule, the typed tree breaks none, and runs as the tree does.
pub fn good_programs()
    ensures { GoodPrograms }
{
    tokens_rise();
    good_sources();
}

/// In the bodies of such a tree each call names a function that means something without a body and takes no arguments, or one
/// that has a body, whose number is that of a function.
pub fn calls_found()
    ensures { CallsFound }
{
    tokens_rise();
    sources_hold();
    sources_fit();
}

/// The objects of the typed tree of a source that breaks no rule keep their facts: their owners are there, and what lives as
/// long as the program has as many values at the start as elements, each in the range of its kind. The parameters of each
/// function are scalars of its own.
pub fn objects_kept()
    ensures { ObjectsKept }
{
    tokens_rise();
    objects_typed();
    parameters_typed();
}
