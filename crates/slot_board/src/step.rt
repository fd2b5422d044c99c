use slot_code::Ending;

/// What an instruction leads to: the place behind its own, another place, or the end of the run. A place is as wide as a
/// value, since a return goes wherever its slot says; behind the code the run ends.
#[derive(Clone, Copy, Debug, PartialEq, Eq)]
pub enum Step {
    Next,
    Goes(u128),
    Over(Ending),
}
