//! The refusals of an edit of a plain reference: an upper bound, a duplicate, a missing entry, a wrong type.
ghost use Rattle.std.specs.Prelude.{◌≡◌};
ghost use Rattle.edit_steps.specs.LinkRefusals.{edit_fault_of_link};
ghost use Rattle.edit_steps.specs.declared.link_fault.LinkFault.TheVariants.{Memory};

use crate::EditFault;
use std::alloc::AllocError;
use thiserror::Error;

/// Why an edit of a plain reference is refused.
#[derive(Clone, Copy, Debug, PartialEq, Eq, Drop, Error)]
pub enum LinkFault {
    /// A list would get an entry more and is at its upper bound. Or it has no room at that index and is too long to be
    /// renumbered. An entry that the edit itself displaces isn't counted.
    #[error("the list is full")]
    Bound,
    /// The source refers to the target by the feature already.
    #[error("there already")]
    AlreadyThere,
    /// The list has no such index, or the target isn't in it.
    #[error("no such entry")]
    NoEntry,
    /// The target's class isn't the feature's type or below it.
    #[error("a wrong type")]
    WrongType,
    #[error("out of memory")]
    Memory,
}

impl From<AllocError> for LinkFault {
    ghost from_gives = { λ _ e. e ≡ Memory };

    fn from(_: AllocError) -> LinkFault {
        LinkFault::Memory
    }
}

impl From<LinkFault> for EditFault {
    ghost from_gives = { λ fault e. e ≡ edit_fault_of_link fault };

    fn from(fault: LinkFault) -> EditFault {
        match fault {
            LinkFault::Bound => EditFault::Bound,
            LinkFault::AlreadyThere => EditFault::AlreadyThere,
            LinkFault::NoEntry => EditFault::NoEntry,
            LinkFault::WrongType => EditFault::WrongType,
            LinkFault::Memory => EditFault::Memory,
        }
    }
}
