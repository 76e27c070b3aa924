//! Frames of 4,096 bytes, taken from one region and given back, and byte strings that lie in frames.
#![tactic(auto)]

mod fault;
mod paged;
mod pool;
mod slot;

pub use fault::PoolFault;
pub use paged::{PagedBytes, Room, count_frames};
pub use pool::{FRAME_SIZE, Frame, POOL_LIMIT, Pool};
