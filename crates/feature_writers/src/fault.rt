//! Why a question has no answer.
use script_lang::Refusal;
use std::alloc::AllocError;

/// Why a question has no answer.
#[derive(Drop)]
pub(crate) enum Fault {
    /// The first of its words that names nothing has this refusal.
    Refused(Refusal),
    /// The allocator had no memory.
    Memory,
}

impl From<AllocError> for Fault {
    ghost use Rattle.std.specs.Prelude.{◌≡◌};
    ghost use Rattle.feature_writers.specs.declared.fault.Fault.TheVariants.{Memory};

    ghost from_gives = { λ _ e. e ≡ Memory };

    fn from(_: AllocError) -> Fault {
        Fault::Memory
    }
}
