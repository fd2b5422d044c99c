ghost use Rattle.c_meaning.specs.Laws.{MoreTurns, DrawnInputs, DrawnAreThere, ErrorPlaces};

/// A run that isn't out of turns is the same with more turns.
pub fn more_turns()
    ensures { MoreTurns }
{}

/// The inputs behind those that were drawn don't matter to an error.
pub fn drawn_inputs()
    ensures { DrawnInputs }
{}

/// A run that ends in an error has drawn no more inputs than there are.
pub fn drawn_are_there()
    ensures { DrawnAreThere }
{}

/// An error stands at a token of the source that calls, indexes or computes.
pub fn error_places()
    ensures { ErrorPlaces }
{}
