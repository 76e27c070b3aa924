//! What a number or a name names, or why it names nothing.

use thiserror::Error;

/// A version, and the branch by which it was found.
#[derive(Clone, Copy)]
pub struct Found {
    /// The version's number.
    pub version: u32,
    /// The number of the branch of that name, or else of the version's own branch.
    pub branch: u32,
}

/// Why nothing was found.
#[derive(Clone, Copy, Debug, PartialEq, Eq, Error)]
pub enum FindFault {
    /// There is no version of that number, or no tag of that name.
    #[error("no version has that number or that tag")]
    NoVersion,
    /// There is no branch of that name.
    #[error("no branch has that name")]
    NoBranch,
}
