/// Lets the worker of a part in, and hears how far a verification has come. It decides nothing.
pub trait Gate: Sync {
    /// The worker of this part, counted from 0, is about to begin. It returns.
    fn enter(&self, part: u32);

    /// The whole seconds since the gate was made. A gate that isn't to hear of a verification's progress answers 0.
    fn seconds(&self) -> u64 {
        0
    }

    /// A verification has made so many units, so many leaves of its unwinding are open, and its refinements learned so many
    /// clauses. It is called between two units where the seconds have gone on since it was called last.
    fn working(&self, _units: u64, _open: u32, _learned: u64) {}
}

/// A gate through which each worker goes at once, and which hears nothing.
#[derive(Clone, Copy, Debug)]
pub struct FreeGate;

impl Gate for FreeGate {
    fn enter(&self, _part: u32) {}
}
