//! A choice.

/// The side whose operations a bucket keeps.
#[derive(Clone, Copy, PartialEq, Eq, Drop)]
pub enum Side {
    Mine,
    Theirs,
}
