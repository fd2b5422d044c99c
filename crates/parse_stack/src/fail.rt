ghost use Rattle.std.specs.Prelude.{◌≡◌};
ghost use Rattle.parse_stack.specs.declared.fail.StepFail.TheVariants.{Memory};

use std::alloc::{AllocError, AllocFailed};

/// Why there is no next state.
#[derive(Debug, Drop)]
pub enum StepFail {
    /// Memory ran out.
    Memory,
    /// No tree's tokens go on so.
    Refused,
}

impl From<AllocError> for StepFail {
    ghost from_gives = { λ _ e. e ≡ Memory };

    fn from(_error: AllocError) -> Self
        ensures { result ≡ StepFail.Memory }
    {
        StepFail::Memory
    }
}

impl<T: Drop> From<AllocFailed<T>> for StepFail {
    ghost from_gives = { λ _ e. e ≡ Memory };

    fn from(_error: AllocFailed<T>) -> Self
        ensures { result ≡ StepFail.Memory }
    {
        StepFail::Memory
    }
}

impl From<lv_base::Memory> for StepFail {
    ghost from_gives = { λ _ e. e ≡ Memory };

    fn from(_error: lv_base::Memory) -> Self
        ensures { result ≡ StepFail.Memory }
    {
        StepFail::Memory
    }
}
