//! The reading of a model text: JSON, then the walk that gives drafts, then references looked up and lists completed.
ghost use Rattle.emfjson_drafts.specs.Answers.{Gives};
ghost use Rattle.emfjson_model.specs.Answers.{GivesDoc};
ghost use Rattle.model_documents.specs.Document.{doc_of, resolved};

use crate::completed::rows_by;
use crate::references::given_by;
use ecore_meta::Metamodel;
use emfjson_drafts::walk;
use model_documents::{Doc, DocRow, ElementDraft, ModelFault};
use serde_json::Value;
use std::alloc::Global;
use texts::List;

/// The references of the elements are looked up, and then the lists are completed.
fn resolved(
    alloc: Global,
    meta: &Metamodel,
    drafts: &[ElementDraft],
) -> Result<List<DocRow>, ModelFault>
    ensures { Gives result (resolved meta.now drafts.now) }
{
    let given = given_by(alloc, meta, drafts)?;
    rows_by(alloc, meta, given.as_slice(), drafts)
}

/// The elements that a text in emfjson describes, by a metamodel.
///
/// # Errors
///
/// The first fault, in the order of [`ModelFault`]; `Memory`.
#[tactic(auto, unfolding(model_documents::specs::Document::doc_of))]
pub fn read_model(alloc: Global, text: &str, meta: &Metamodel) -> Result<Doc, ModelFault>
    ensures read { GivesDoc result (doc_of meta.now text.now) }
{
    match Value::from_str(alloc, text) {
        Err(error) => {
            if error.is_memory() {
                Err(ModelFault::Memory)
            } else {
                Err(ModelFault::NotJson)
            }
        }
        Ok(document) => {
            let drafts = walk(alloc, meta, &document)?;
            Ok(Doc {
                rows: resolved(alloc, meta, drafts.as_slice())?,
            })
        }
    }
}
