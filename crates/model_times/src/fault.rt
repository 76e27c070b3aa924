//! Why a measurement ends.

use model_state::IdFault;
use std::alloc::AllocError;
use thiserror::Error;

/// Why nothing was measured.
#[derive(Debug, Drop, Error)]
pub enum TimesFault {
    /// A word is none of the program's, no number of elements from 1,000 on, or no number of models from 1 to 500. Or there are
    /// too few elements for targets beside them.
    #[error("usage: model_times plain|graph ELEMENTS [timed [MODELS]], or model_times growth DOCUMENT DOCUMENT")]
    Usage,
    /// The metamodel was not read.
    #[error("no metamodel")]
    Metamodel,
    /// The first metamodel didn't evolve to the second, or what came of it isn't the same as itself.
    #[error("no growth")]
    Growth,
    /// A step of the measurement can't be taken.
    #[error("a step can't be taken")]
    Step,
    /// There is no model of a number.
    #[error("no such model")]
    Model,
    /// An id that was made has not the form of one.
    #[error("no id: {0}")]
    Id(IdFault),
    #[error("out of memory")]
    Memory,
}

impl From<AllocError> for TimesFault {
    fn from(_: AllocError) -> TimesFault {
        TimesFault::Memory
    }
}

impl From<IdFault> for TimesFault {
    fn from(fault: IdFault) -> TimesFault {
        TimesFault::Id(fault)
    }
}
