//! Whether an event could be made at a point, and its playing; the same of an event's bytes.
#![tactic(auto)]

mod foreseen;
mod merging;
mod playing;

pub use foreseen::Foreseen;
pub use merging::{merge_by, update_by};
pub use playing::{play, play_bytes};
