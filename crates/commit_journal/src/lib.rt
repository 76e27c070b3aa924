//! The journal of a store: an append-only file of records, each after a gate. A gate is opened only once all of its
//! record is on the disk. Whatever moment a machine crashes at, the file reads as the records before an append or as
//! these with the new one.
#![tactic(auto)]

mod fault;
mod fit;
mod journal;
mod walk;
mod write;

pub use fault::JournalFault;
pub use fit::{FIRST_GATE, Fit, MOST_BYTES, fits, next_gate};
pub use journal::{Journal, Prepared, give_up};
pub use walk::Walk;
