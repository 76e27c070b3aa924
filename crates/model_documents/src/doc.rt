//! The document that a model text describes: a row for each element, with its place, attributes and references by number.
use ecore_meta::Value;
use model_state::Id;
use texts::List;

/// The elements that a model text describes, each after the one that contains it.
#[derive(Drop)]
pub struct Doc {
    pub rows: List<DocRow>,
}

/// An element. Its rows' numbers count from 0.
#[derive(Drop)]
pub struct DocRow {
    /// The `_id` of its object, where it has one.
    pub id: Option<Id>,
    pub class: u32,
    /// Where it stands, `None` for a root.
    pub parent: Option<DocParent>,
    /// The attributes that are set, by number.
    pub attrs: List<DocAttr>,
    /// The plain references of its class by number, with the targets that either side gives.
    pub refs: List<DocRefs>,
}

/// The targets of a plain reference, by the numbers of their rows.
#[derive(Drop)]
pub struct DocRefs {
    pub feature: u32,
    pub targets: List<usize>,
}

/// A containment of an element.
#[derive(Clone, Copy, PartialEq, Eq)]
pub struct DocParent {
    /// The number of the row that contains it.
    pub row: usize,
    pub feature: u32,
}

/// The values of an attribute, one or more, and fewer than 2^32.
#[derive(Drop)]
pub struct DocAttr {
    pub feature: u32,
    pub values: List<Value>,
}
