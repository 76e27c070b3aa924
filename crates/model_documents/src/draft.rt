//! An element as the walk leaves it, with its references still as texts.
use crate::doc::{DocAttr, DocParent};
use model_state::Id;
use texts::{List, Text};

/// An element as the walk finds it, whose references are not looked up yet.
#[derive(Drop)]
pub struct ElementDraft {
    pub id: Option<Id>,
    pub class: u32,
    pub parent: Option<DocParent>,
    pub attrs: List<DocAttr>,
    pub links: List<Links>,
}

/// What stands under the key of a plain reference: the text at each `$ref`, `None` where there is none.
#[derive(Drop)]
pub struct Links {
    pub feature: u32,
    pub entries: List<Option<Text>>,
}
