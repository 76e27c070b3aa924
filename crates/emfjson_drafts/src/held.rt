//! What is read of an object's keys so far.
use model_documents::{DocAttr, Links};
use texts::List;

/// What the keys of an object gave so far.
#[derive(Drop)]
pub(crate) struct Held {
    pub(crate) attrs: List<DocAttr>,
    pub(crate) links: List<Links>,
}
