//! Why bytes are no package or no event.
use byte_form::ReadFault;
use std::alloc::AllocError;
use thiserror::Error;

/// Why bytes were not read.
#[derive(Clone, Copy, Debug, PartialEq, Eq, Error)]
pub enum FormFault {
    /// No value is encoded there: the offset is that of the first field that can't be read, or of the first byte left over.
    #[error("no form at {at}")]
    NotForm { at: u64 },
    /// The allocator had no memory for what was read.
    #[error("out of memory")]
    Memory,
}

impl From<ReadFault> for FormFault {
    ghost use Rattle.std.specs.Prelude.{◌≡◌};
    ghost use Rattle.op_reading.specs.Reading.{not_form};

    ghost from_gives = { λ e f. f ≡ not_form e };

    fn from(fault: ReadFault) -> FormFault {
        match fault {
            ReadFault::Short { at } | ReadFault::BadText { at } | ReadFault::Spare { at } => {
                FormFault::NotForm { at }
            }
            ReadFault::Memory => FormFault::Memory,
        }
    }
}

impl From<AllocError> for FormFault {
    ghost use Rattle.std.specs.Prelude.{◌≡◌};
    ghost use Rattle.op_reading.specs.declared.fault.FormFault.TheVariants.{Memory};

    ghost from_gives = { λ _ f. f ≡ Memory };

    fn from(_: AllocError) -> FormFault {
        FormFault::Memory
    }
}
