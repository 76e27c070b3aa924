//! How a run ends, as a status.
ghost use Rattle.std.specs.Prelude.{◌≡◌};
ghost use Rattle.store_session.specs.Endings.{code_of, session_status};
ghost use Rattle.store_session.specs.Tasks.{input_status};

use crate::answered::SessionFault;
use host_port::LineFault;
use std::fmt;
use std::fmt::{Display, Formatter};

/// How a run ended.
#[derive(Clone, Copy, Debug, PartialEq, Eq)]
pub enum Status {
    /// All was printed, and no reply is a refusal. Input that is read was read to its end.
    Accepted,
    /// All was printed, and some reply is a refusal. Input that is read was read to its end.
    Refused,
    /// The words of the command line are of no form.
    BadWords,
    /// The host failed to hand over input.
    ReadFault,
    /// The host failed to print a reply.
    WriteFault,
    /// A disk call of the host failed.
    DiskFault,
    /// The file stands for no list of events; `at` is the offset, in bytes from 0.
    Damaged { at: u64 },
    /// No memory was left.
    Memory,
    /// The input is no script. 1: a line is too long; 2: a block is too long; 3: a byte is no UTF-8; 4: the input ends
    /// in a block; 5: the input is too long. The offset is in bytes from 0.
    Input { fault: u32, at: u64 },
}

impl Status {
    /// The program's exit status.
    pub fn code(&self) -> u8
        ensures code { result ≡ code_of self.now }
    {
        match self {
            Status::Accepted => 0,
            Status::Refused => 1,
            Status::BadWords => 2,
            Status::ReadFault => 3,
            Status::WriteFault => 4,
            Status::DiskFault => 5,
            Status::Damaged { .. } => 6,
            Status::Memory => 7,
            Status::Input { .. } => 8,
        }
    }
}

/// What a program writes to standard error of a run that ended so, after its own name. Of the first two it writes nothing.
impl Display for Status {
    ghost use Rattle.std.specs.Prelude.{Some};
    ghost use Rattle.store_session.specs.Endings.{status_text};

    ghost output = { λ status. Some (status_text status) };

    fn fmt<W: fmt::Write>(&self, f: &mut Formatter<W>) -> fmt::Result {
        match self {
            Status::Accepted => f.write_str("accepted"),
            Status::Refused => f.write_str("refused"),
            Status::BadWords => f.write_str("bad words"),
            Status::ReadFault => f.write_str("read fault"),
            Status::WriteFault => f.write_str("write fault"),
            Status::DiskFault => f.write_str("disk fault"),
            Status::Damaged { at } => write!(f, "damaged at {at}"),
            Status::Memory => f.write_str("out of memory"),
            Status::Input { fault, at } => write!(f, "input fault {fault} at {at}"),
        }
    }
}

/// The status of a run that ends by a fault of its session.
pub fn status_of(fault: SessionFault) -> Status
    ensures { result ≡ session_status fault }
{
    match fault {
        SessionFault::DiskFault => Status::DiskFault,
        SessionFault::SayFault => Status::WriteFault,
        SessionFault::Damaged { at } => Status::Damaged { at },
        SessionFault::Memory => Status::Memory,
    }
}

/// The status of a run that ends by a fault of its input.
pub fn status_of_input(fault: LineFault) -> Status
    ensures { result ≡ input_status fault }
{
    match fault {
        LineFault::LineTooLong { at } => Status::Input { fault: 1, at },
        LineFault::BlockTooLong { at } => Status::Input { fault: 2, at },
        LineFault::NotText { at } => Status::Input { fault: 3, at },
        LineFault::UnendedBlock { at } => Status::Input { fault: 4, at },
        LineFault::InputTooLong { at } => Status::Input { fault: 5, at },
        LineFault::Failed => Status::ReadFault,
        LineFault::Memory => Status::Memory,
    }
}
