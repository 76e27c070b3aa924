//! Why a policy is not read.
use std::alloc::AllocError;
use thiserror::Error;

/// Why a text was not read as a policy.
#[derive(Clone, Copy, Debug, Error)]
pub enum PolicyFault {
    /// The text is no policy. `at` is the offset, from 0, where the first grant begins that does not fit, or whose
    /// user has one already.
    #[error("bad policy at {at}")]
    BadPolicy { at: u32 },
    /// The allocator had no memory for the names.
    #[error("out of memory")]
    Memory,
}

impl From<AllocError> for PolicyFault {
    ghost use Rattle.std.specs.Prelude.{◌≡◌};
    ghost use Rattle.access_rules.specs.declared.fault.PolicyFault.TheVariants.{Memory};

    ghost from_gives = { λ _ e. e ≡ Memory };

    fn from(_: AllocError) -> PolicyFault {
        PolicyFault::Memory
    }
}
