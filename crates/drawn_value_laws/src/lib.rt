//! The values that a run of a graph to an error draws: each fits into 64 bits, and the program draws the same, and all of them.
#![tactic(auto)]

ghost use Rattle.drawn_value_laws.specs.Drawn.{DrawnAreWords, ErrorsMeet};

use c_typed::drawn_inputs;

/// Each value that a run of a graph draws has at most 64 bits, with or without a sign.
pub fn drawn_are_words()
    ensures { DrawnAreWords }
{}

/// The values that a run of a graph draws on its way to an error lead the program to this error, which draws them all, where the graph's
/// errors return to the program.
pub fn errors_meet()
    ensures { ErrorsMeet }
{
    drawn_inputs();
}
