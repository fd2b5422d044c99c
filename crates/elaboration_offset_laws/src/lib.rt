//! What the order of a source's tokens leaves to its typed tree.
#![tactic(auto)]

ghost use Rattle.elaboration_offset_laws.specs.Laws.{GoodSources, ObjectsTyped, ParametersTyped, SourcesBreak, SourcesHold, SourcesRun};

use c_types::same_run;
use control_laws::same_control;
use elaboration_fit_laws::{known_hold, sources_fit};

/// In a source whose tokens rise, each name of a body finds its own declaration and no parameter of a prototype, and a length
/// is the same where it is declared and over the whole source; so that, where no rule of names, types, calls, constants and
/// cases is broken, each array has elements, and each initial value its object.
pub fn sources_hold()
    ensures { SourcesHold }
{
    known_hold();
}

/// The typed tree of a source that breaks no rule of names, types, calls, constants and cases runs as the source does.
pub fn sources_run()
    ensures { SourcesRun }
{
    sources_hold();
    sources_fit();
    same_run();
}

/// The typed tree of such a source breaks the rules of labels, jumps, effects that are not sequenced, and calls that lead back
/// to their caller, exactly where the source does, at the same tokens in the same order.
pub fn sources_break()
    ensures { SourcesBreak }
{
    sources_hold();
    sources_fit();
    same_control();
}

/// The typed tree of a source that breaks no rule at all breaks none, and runs as the source does.
pub fn good_sources()
    ensures { GoodSources }
{
    sources_run();
    sources_break();
}

/// The objects of the typed tree of such a source keep their facts: one that lives as long as the program has as many values at
/// the start as elements, each in the range of its kind, however often and with however many lengths it was declared; one of a
/// function begins with none, and the function is there. Each name among the tokens is to have a letter.
pub fn objects_typed()
    ensures { ObjectsTyped }
{
    sources_hold();
}

/// The parameters of each function of such a typed tree are there, scalars of the function's own.
pub fn parameters_typed()
    ensures { ParametersTyped }
{}
