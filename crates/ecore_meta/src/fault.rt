//! Why a text gives no value.
ghost use Rattle.std.specs.Prelude.{◌≡◌};
ghost use Rattle.ecore_meta.specs.declared.fault.ValueFault.TheVariants.{Memory};

use std::alloc::AllocError;
use thiserror::Error;

/// Why a text gives no value.
#[derive(Debug, Drop, Error)]
pub enum ValueFault {
    #[error("the text is no value of the type")]
    Bad,
    #[error("out of memory")]
    Memory,
}

impl From<AllocError> for ValueFault {
    ghost from_gives = { λ _ e. e ≡ Memory };

    fn from(_: AllocError) -> ValueFault {
        ValueFault::Memory
    }
}
