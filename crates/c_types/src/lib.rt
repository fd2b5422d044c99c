//! From source trees to typed trees: the definition of the typed tree of a source, and that it runs as the source does.
#![tactic(auto)]

ghost use Rattle.c_types.specs.Laws.{SameRun};

/// The run of the typed tree is the run of the source, where calls, indexes, initial values and arrays are as the rules
/// want them.
pub fn same_run()
    ensures { SameRun }
{}
