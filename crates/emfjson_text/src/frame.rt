//! The frames of the writer's stack: objects and arrays that are begun and not ended.
use model_state::{Entry, Id};
use model_texts::Key;
use texts::List;

/// The object of an element, from one of its keys on.
#[derive(Drop)]
pub(crate) struct Object {
    pub id: Id,
    pub class: u32,
    pub keys: List<Key>,
    /// The place among the keys.
    pub next: usize,
    /// Whether a member stands before.
    pub later: bool,
}

/// What is begun and has more to come.
#[derive(Drop)]
pub(crate) enum Frame {
    Object(Object),
    /// An array of elements, from one of them on.
    Array { entries: List<Entry>, next: usize },
}
