//! The keys of an object.

/// What a key of an object is.
#[derive(Clone, Copy)]
pub enum Key {
    /// One that is read before the others: `eClass` or `_id`.
    Own,
    /// The feature of that number.
    Of(u32),
    /// No feature of the class.
    Unknown,
}
