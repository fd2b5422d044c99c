//! What runs of sources that break no rule never meet.
#![tactic(auto)]

ghost use Rattle.good_run_laws.specs.Laws.{BodiesLeft, LabelsFound};

/// The body of a function of a source that breaks no rule, entered at its start or at one of its labels, is never left because
/// a label is absent, and a jump that leaves it names one of its labels, so that it is entered there again. This is so for any
/// arithmetic, any inputs, any number of turns and whatever calls do.
pub fn bodies_left()
    ensures { BodiesLeft }
{}

/// A call of such a function never seeks an absent label: whatever were done where one is absent, the call would be the same.
pub fn labels_found()
    ensures { LabelsFound }
{
    bodies_left();
}
