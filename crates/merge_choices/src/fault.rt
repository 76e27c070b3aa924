//! Why choices are refused.
use thiserror::Error;

/// Why no list is made of choices.
#[derive(Clone, Copy, Debug, PartialEq, Eq, Drop, Error)]
pub enum ChoiceFault {
    /// There are not as many choices as buckets: as many as are wanted, and as were given.
    #[error("{got} choices for {want} buckets")]
    BadChoice { want: u64, got: u64 },
    /// Out of memory.
    #[error("out of memory")]
    Memory,
}
