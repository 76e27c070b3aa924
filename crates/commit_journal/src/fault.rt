//! The faults of reading a journal: damage with its offset, a failed disk call, out of memory.
ghost use Rattle.std.specs.Prelude.{◌≡◌};
ghost use Rattle.commit_journal.specs.declared.fault.JournalFault.TheVariants.{DiskFault, Memory};

use host_port::Failed;
use std::alloc::AllocError;
use thiserror::Error;

/// Why a journal could not be read.
#[derive(Clone, Copy, Debug, PartialEq, Eq, Error)]
pub enum JournalFault {
    /// The file stands for no list of records. The offset, from 0, is that of the header's first byte that differs. Else
    /// neither a closed gate stands there, nor a whole record whose next gate is below 2^40.
    #[error("the journal is damaged at byte {at}")]
    Damaged { at: u64 },
    /// A disk call of the host failed.
    #[error("the disk failed")]
    DiskFault,
    /// There was no memory for a record.
    #[error("out of memory")]
    Memory,
}

impl From<Failed> for JournalFault {
    ghost from_gives = { λ _ e. e ≡ DiskFault };

    fn from(_: Failed) -> Self {
        JournalFault::DiskFault
    }
}

impl From<AllocError> for JournalFault {
    ghost from_gives = { λ _ e. e ≡ Memory };

    fn from(_: AllocError) -> Self {
        JournalFault::Memory
    }
}
