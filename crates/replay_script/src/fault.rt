//! Why an event has no lines.
use std::alloc::AllocError;
use thiserror::Error;

/// Why an event has no lines in a script. Where more than one holds, the first of them is told.
#[derive(Clone, Copy, Debug, PartialEq, Eq, Error)]
pub enum PrintFault {
    /// The lines would name a version or a branch that the history hasn't. No event that could be made there does so.
    #[error("the event names a version or a branch that isn't there")]
    Unknown,
    /// A package has more than 4,194,303 bytes, so that its digits and their line feed are longer than a block.
    #[error("the package is longer than a block")]
    TooLong,
    /// A line is longer than a line may be, or a text would be read otherwise than it stands.
    #[error("a script can't hold the event")]
    NotPrintable,
    /// The allocator had no memory for the lines.
    #[error("out of memory")]
    Memory,
}

impl From<AllocError> for PrintFault {
    ghost use Rattle.std.specs.Prelude.{◌≡◌};
    ghost use Rattle.replay_script.specs.declared.fault.PrintFault.TheVariants.{Memory};

    ghost from_gives = { λ _ e. e ≡ Memory };

    fn from(_: AllocError) -> PrintFault {
        PrintFault::Memory
    }
}
