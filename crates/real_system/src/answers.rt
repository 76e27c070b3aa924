//! What the library answers, in the words of the port.
ghost use Rattle.std.specs.Prelude.{◌≡◌, Ok, IfOk};
ghost use Rattle.std.specs.Fs.{metadata_len};

use std::fs::Metadata;
use std::io;
use std::io::ErrorKind;
use std::os::unix::fs::MetadataExt;
use system_port::{Found, Name, Stop};

/// The name of the store in the working folder.
pub(crate) const JOURNAL: &str = "emfstore.journal";

/// What the call gave, or why it stopped, by the number that errno(3) lists: EINTR; EACCES and EPERM; ENOSYS, EOPNOTSUPP and
/// EINVAL; or any other.
pub(crate) fn given<T>(answer: io::Result<T>) -> Result<T, Stop>
    ensures value { IfOk result (λ value. answer ≡ Ok value) }
{
    match answer {
        Ok(value) => Ok(value),
        Err(error) => Err(match error.kind() {
            ErrorKind::Interrupted => Stop::Interrupted,
            ErrorKind::PermissionDenied => Stop::Denied,
            ErrorKind::Unsupported | ErrorKind::InvalidInput => Stop::Lacking,
            _ => Stop::Failed,
        }),
    }
}

/// statx(2): "The file type and mode", "The size of the file (if it is a regular file or a symbolic link) in bytes", "The
/// device on which this file (inode) resides", and "The inode number of the file".
pub(crate) fn found(file: &Metadata) -> Found
    ensures { result.len ≡ metadata_len file.now }
{
    Found {
        is_regular: file.is_file(),
        len: file.len(),
        device: file.dev(),
        node: file.ino(),
    }
}

/// proc(5), of the entries of a process's open files: "0 is standard input, 1 standard output, 2 standard error, and so on."
pub(crate) fn path_of(name: Name) -> &'static str {
    match name {
        Name::Store => JOURNAL,
        Name::Input => "/proc/self/fd/0",
        Name::Output => "/proc/self/fd/1",
        Name::Error => "/proc/self/fd/2",
    }
}
