//! The words of the command line.
use thiserror::Error;

/// Why there are no words of the command line.
#[derive(Clone, Copy, Debug, PartialEq, Eq, Error)]
pub enum WordsFault {
    #[error("a word of the command line is no UTF-8")]
    NotText,
    #[error("there is no memory for the words of the command line")]
    Memory,
}
