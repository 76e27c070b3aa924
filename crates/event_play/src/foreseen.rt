//! What was found out of an event when it was decided.
use repo_state::{Merged, Updated};

/// What is foreseen of an event, so that it isn't found out once more when the event is made: what an update makes of what is
/// local, or what a merge brings in. Nothing is foreseen of other events, and of those that are read from a store.
#[derive(Drop)]
pub enum Foreseen {
    Nothing,
    Update(Updated),
    Merge(Merged),
}
