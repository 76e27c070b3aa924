//! Why a metamodel does not take the place of another.
ghost use Rattle.std.specs.Prelude.{◌≡◌};
ghost use Rattle.metamodel_growth.specs.declared.fault.EvolveFault.TheVariants.{Memory};

use std::alloc::AllocError;
use texts::Text;
use thiserror::Error;

/// Why there is no metamodel in the place of the old one.
#[derive(Debug, Drop, Error)]
pub enum EvolveFault {
    /// The first part of the old one that the new one does not have: `nsURI`, a class, an enum, or `Class.feature`.
    #[error("a part of the metamodel is not kept")]
    NotExtension { name: Text },
    #[error("out of memory")]
    Memory,
}

impl From<AllocError> for EvolveFault {
    ghost from_gives = { λ _ e. e ≡ Memory };

    fn from(_: AllocError) -> EvolveFault {
        EvolveFault::Memory
    }
}
