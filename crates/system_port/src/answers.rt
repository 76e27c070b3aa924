//! What a call of the system answers beside numbers and handles.
ghost use Rattle.std.specs.Prelude.{◌≡◌, ◌↔◌, IsTrue};

use thiserror::Error;

/// Why a call did nothing, or not all.
#[derive(Clone, Copy, Debug, PartialEq, Eq, Error)]
pub enum Stop {
    /// A signal came before anything was done. The call may be made again.
    #[error("a signal interrupted the call")]
    Interrupted,
    /// What is asked for is there, and may not be had by this program.
    #[error("the program may not do this")]
    Denied,
    /// The system, or the file's file system, has no such call.
    #[error("there is no such call here")]
    Lacking,
    #[error("the call failed")]
    Failed,
}

/// A name under which the system may have a file.
#[derive(Clone, Copy, Debug, PartialEq, Eq)]
pub enum Name {
    /// That of the store, in the working folder.
    Store,
    /// What is open as the standard stream, whatever its own name.
    Input,
    Output,
    Error,
}

/// What the system tells of a file.
#[derive(Clone, Copy, Debug, PartialEq, Eq)]
pub struct Found {
    /// No folder, device, pipe or socket.
    pub is_regular: bool,
    /// In bytes.
    pub len: u64,
    pub device: u64,
    /// The file's number on its device: two names lead to one file where both numbers are equal.
    pub node: u64,
}

impl Found {
    /// Whether it is the other file.
    pub fn is_same(&self, other: &Found) -> bool
        ensures { IsTrue result ↔ (self.now.device ≡ other.now.device) × (self.now.node ≡ other.now.node) }
    {
        self.device == other.device && self.node == other.node
    }
}
