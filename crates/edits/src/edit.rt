//! Edits as a user gives them, by ids, names and texts, and what is recorded of one.
use model_state::{Id, Operation};
use texts::Text;

/// Where an element is to stand, as it is given. It comes last there, or at an index.
#[derive(Drop)]
pub enum Destination {
    /// The root.
    Root,
    /// A containment of the element of that id, by the feature's name.
    Inside { parent: Text, feature: Text },
}

/// An edit of a model as it is given: elements by their ids, classes and features by their names, and values as texts.
/// A feature's name is looked up in the element's class, inherited features too.
#[derive(Drop)]
pub enum Edit {
    /// A new element of the class, last in its place, with that id or a fresh one.
    Create {
        class: Text,
        destination: Destination,
        id: Option<Text>,
    },
    /// An element is deleted, with all that it contains and all references from and to these.
    Delete {
        id: Text,
    },
    /// A single attribute gets a value, or a plain reference of upper bound 1 the element whose id the value is.
    Set {
        id: Text,
        feature: Text,
        value: Text,
    },
    /// All values of an attribute are removed, or all targets of a plain reference with their opposites.
    Unset {
        id: Text,
        feature: Text,
    },
    /// A value is inserted into a many-valued attribute, before the value at that index, or last where there is none.
    Add {
        id: Text,
        feature: Text,
        at: Option<u32>,
        value: Text,
    },
    /// The value at an index of a many-valued attribute is removed.
    Remove {
        id: Text,
        feature: Text,
        index: u32,
    },
    /// The value at an index of a many-valued attribute is taken out and put at another.
    Shift {
        id: Text,
        feature: Text,
        from: u32,
        to: u32,
    },
    /// A target is inserted into a plain reference whose upper bound isn't 1, at an index of the others, or last where there is none.
    Link {
        id: Text,
        feature: Text,
        target: Text,
        index: Option<u32>,
    },
    /// A target of a plain reference whose upper bound isn't 1 is removed, and its opposite with it.
    Unlink {
        id: Text,
        feature: Text,
        target: Text,
    },
    /// A target of a plain reference whose upper bound isn't 1 is put at an index of its list.
    Reorder {
        id: Text,
        feature: Text,
        target: Text,
        index: u32,
    },
    /// An element is put into a place, at an index of the others there, or last where there is none.
    Move {
        id: Text,
        destination: Destination,
        index: Option<u32>,
    },
}

/// What is recorded of an edit.
#[derive(Drop)]
pub struct Recorded {
    /// The operation, None where the edit changes nothing.
    pub operation: Option<Operation>,
    /// The id of the element that the edit creates.
    pub id: Option<Id>,
}
