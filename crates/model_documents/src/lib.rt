//! Which elements a model's text describes, or its first fault: first as drafts, whose references are texts still, and then as rows. The law of
//! documents says what holds of all rows that are read. A law is the contract of a function that does nothing.
#![tactic(auto)]

mod doc;
mod draft;
mod fault;
mod key;
mod laws;

pub use doc::{Doc, DocAttr, DocParent, DocRefs, DocRow};
pub use draft::{ElementDraft, Links};
pub use fault::ModelFault;
pub use key::Key;
pub use laws::law_of_documents;
