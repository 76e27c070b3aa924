//! Why no further turn is read.
use thiserror::Error;

/// Why no further turn is read. `at` is an offset in the input, in bytes from 0.
#[derive(Clone, Copy, Debug, PartialEq, Eq, Error)]
pub enum TurnFault {
    /// No whole frame stands at this offset.
    #[error("no whole frame stands at {at}")]
    NotFrame { at: u64 },
    /// A frame would begin at this offset, which is past the bytes that an input has.
    #[error("the input goes on at {at}")]
    InputTooLong { at: u64 },
    /// The host failed to hand over input.
    #[error("the input can't be read")]
    Failed,
    /// No memory is left.
    #[error("out of memory")]
    Memory,
}
