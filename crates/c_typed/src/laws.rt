ghost use Rattle.c_typed.specs.Laws.{MoreTurns, DrawnInputs};

/// A run that isn't out of turns is the same with more turns.
pub fn more_turns()
    ensures { MoreTurns }
{}

/// The inputs behind those that were drawn don't matter to an error.
pub fn drawn_inputs()
    ensures { DrawnInputs }
{}
