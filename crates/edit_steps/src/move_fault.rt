//! The refusals of a place: a containment cycle, an upper bound, a wrong type, an index that isn't there.
ghost use Rattle.std.specs.Prelude.{◌≡◌};
ghost use Rattle.edit_steps.specs.EditFaults.{edit_fault_of_move};
ghost use Rattle.edit_steps.specs.declared.move_fault.MoveFault.TheVariants.{Memory};

use crate::EditFault;
use std::alloc::AllocError;
use thiserror::Error;

/// Why an element is refused at a place.
#[derive(Clone, Copy, Debug, PartialEq, Eq, Drop, Error)]
pub enum MoveFault {
    /// The element would stand inside itself: it is the parent or one of the parent's containers.
    #[error("a cycle of containers")]
    WouldCycle,
    /// The place would get an element more and is at its upper bound. Or it has no room at that index and is too long
    /// to be renumbered.
    #[error("the place is full")]
    Bound,
    /// The element's class isn't the containment's type or below it.
    #[error("a wrong type")]
    WrongType,
    /// The place has no such index.
    #[error("no such entry")]
    NoEntry,
    #[error("out of memory")]
    Memory,
}

impl From<AllocError> for MoveFault {
    ghost from_gives = { λ _ e. e ≡ Memory };

    fn from(_: AllocError) -> MoveFault {
        MoveFault::Memory
    }
}

impl From<MoveFault> for EditFault {
    ghost from_gives = { λ fault e. e ≡ edit_fault_of_move fault };

    fn from(fault: MoveFault) -> EditFault {
        match fault {
            MoveFault::WouldCycle => EditFault::WouldCycle,
            MoveFault::Bound => EditFault::Bound,
            MoveFault::WrongType => EditFault::WrongType,
            MoveFault::NoEntry => EditFault::NoEntry,
            MoveFault::Memory => EditFault::Memory,
        }
    }
}
