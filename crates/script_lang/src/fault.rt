//! Why a line is not read.
use std::alloc::AllocError;
use thiserror::Error;

/// Why a line was not read.
#[derive(Clone, Copy, Debug, Error)]
pub enum ParseFault {
    /// The line spells no command. The column is the byte, from 1, at which the first word begins that does not fit.
    /// Where a word is missing, it is one past the line's end.
    #[error("bad line at column {column}")]
    BadLine { column: u32 },
    /// The allocator had no memory for the command's texts.
    #[error("out of memory")]
    Memory,
}

impl From<AllocError> for ParseFault {
    ghost use Rattle.std.specs.Prelude.{◌≡◌};
    ghost use Rattle.script_lang.specs.declared.fault.ParseFault.TheVariants.{Memory};

    ghost from_gives = { λ _ e. e ≡ Memory };

    fn from(_: AllocError) -> ParseFault {
        ParseFault::Memory
    }
}
