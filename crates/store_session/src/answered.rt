//! How a command is answered, and why one is not.
ghost use Rattle.std.specs.Prelude.{◌≡◌};
ghost use Rattle.plain_repository.specs.Answers.{is_refusal};
ghost use Rattle.store_session.specs.Session.{answered_as, fault_of};

use commit_journal::JournalFault;
use script_lang::{Last, Reply};
use thiserror::Error;

/// How a command was answered.
#[derive(Clone, Copy, PartialEq, Eq)]
pub enum Answered {
    /// The last line of its reply is `ok`.
    Accepted,
    /// Its reply is a refusal, and the repository is as before.
    Refused,
}

/// Why a command was not answered, or the store not opened.
#[derive(Clone, Copy, Debug, PartialEq, Eq, Error)]
pub enum SessionFault {
    /// A disk call of the host failed. What the file holds is known only once it is opened again.
    #[error("the disk failed")]
    DiskFault,
    /// The host failed to print a reply. The command is carried out.
    #[error("a reply could not be printed")]
    SayFault,
    /// The file stands for no list of events; `at` is the offset, in bytes from 0.
    #[error("the store is damaged at byte {at}")]
    Damaged { at: u64 },
    /// No memory was left. No event was added; a file that was too short for a store may now have its header.
    #[error("out of memory")]
    Memory,
}

/// How a command with that reply is answered.
pub(crate) fn kind_of(reply: &Reply) -> Answered
    ensures { result ≡ answered_as (is_refusal reply.now) }
{
    match &reply.last {
        Last::Ok(_) => Answered::Accepted,
        Last::No(_) => Answered::Refused,
    }
}

/// The session's fault for one of its journal.
pub(crate) fn session_fault(fault: JournalFault) -> SessionFault
    ensures { result ≡ fault_of fault }
{
    match fault {
        JournalFault::Damaged { at } => SessionFault::Damaged { at },
        JournalFault::DiskFault => SessionFault::DiskFault,
        JournalFault::Memory => SessionFault::Memory,
    }
}
