//! Why an event is not played.
ghost use Rattle.std.specs.Prelude.{◌≡◌, ◌≢◌};

use model_state::StepFault;
use std::alloc::AllocError;

/// Why an event is not played.
#[derive(Clone, Copy)]
pub enum PlayFault {
    /// It could not be made here, or the bytes are none.
    NotPlayable,
    /// Out of memory.
    Memory,
}

impl From<AllocError> for PlayFault {
    ghost use Rattle.std.specs.Prelude.{◌≡◌};
    ghost use Rattle.repo_state.specs.declared.fault.PlayFault.TheVariants.{Memory};

    ghost from_gives = { λ _ f. f ≡ Memory };

    fn from(_: AllocError) -> PlayFault {
        PlayFault::Memory
    }
}

/// The fault of operations: a step of them can't be taken, or out of memory.
pub(crate) fn package_fault(fault: StepFault) -> PlayFault
    ensures memory { fault ≡ StepFault.Memory → result ≡ PlayFault.Memory }
    ensures other { result ≡ PlayFault.NotPlayable → fault ≢ StepFault.Memory }
{
    match fault {
        StepFault::Memory => PlayFault::Memory,
        _ => PlayFault::NotPlayable,
    }
}
