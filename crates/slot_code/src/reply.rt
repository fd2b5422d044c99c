use lv_base::ErrorKind;

/// How a run ends.
#[derive(Clone, Copy, Debug, PartialEq, Eq)]
pub enum Ending {
    /// An error, with the offset of its token, and how many values were drawn.
    Error(ErrorKind, u32, usize),
    /// `main` returned, or `abort` was called.
    Ended,
    /// It asks for one more value.
    NoInput,
    /// The value of this number, from 0, is none of the kind that is drawn.
    BadInput(usize),
    /// It asks for one more turn.
    Spent,
}
