//! What the bodies of the typed tree of a source keep, where the source breaks no rule.
#![tactic(auto)]

ghost use Rattle.elaboration_body_laws.specs.Laws.{ProgramsTyped, SourcesTyped, ValuesTyped};

use elaboration_main_laws::main_found;
use elaboration_offset_laws::{objects_typed, parameters_typed, sources_hold};
use elaboration_source_laws::tokens_rise;

/// Each value of the typed tree of an expression that breaks no rule has the kind that its place asks for, and so has each of
/// its parts. What scopes, offsets and the rules of declarations say of its names, and the numbers in it, are to hold.
pub fn values_typed()
    ensures { ValuesTyped }
{}

/// The typed tree of a source that breaks no rule of names, types, calls, constants and cases keeps the facts of its type: its
/// numbers of objects and functions are there, each value has the kind that its place asks for, each call has the parameters of
/// its function, and there is one `main`. Its tokens are to rise, their names to have letters and their constants to be values
/// of their kinds, and no array is to have more than 1,024 elements.
pub fn sources_typed()
    ensures { SourcesTyped }
{
    sources_hold();
    objects_typed();
    parameters_typed();
    main_found();
}

/// So does that of a source that breaks no rule at all, from its bytes on, where no array has more than 1,024 elements.
pub fn programs_typed()
    ensures { ProgramsTyped }
{
    tokens_rise();
    sources_typed();
}
