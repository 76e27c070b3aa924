//! What stands in an element's object: its keys.

/// A key of an element's object.
#[derive(Clone, Copy)]
pub enum Key {
    /// `_id`, the element's id.
    Ident,
    /// `eClass`, the element's class.
    Class,
    /// The feature of that number.
    Feature(u32),
}
