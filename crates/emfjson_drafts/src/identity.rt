//! The `_id` of an object, tested for its form and for duplicates.
ghost use Rattle.std.specs.Prelude.{option_map};
ghost use Rattle.serde_json.specs.View.{view};
ghost use Rattle.emfjson_drafts.specs.Answers.{Gives};
ghost use Rattle.model_documents.specs.Classes.{id_of};
ghost use Rattle.model_documents.specs.Parts.{ids_of};

use crate::drafts::Drafts;
use model_documents::ModelFault;
use model_state::{Id, IdFault};
use serde_json::Value;
use std::alloc::Global;

/// The id of an object, which no row before has.
pub(crate) fn id_of(
    alloc: Global,
    rows: &Drafts,
    said: Option<&Value>,
) -> Result<Option<Id>, ModelFault>
    ensures { Gives result (id_of (ids_of rows.now) (option_map (λ v. view v.now) said.entry)) }
{
    match said {
        None => Ok(None),
        Some(Value::String(text)) => {
            if rows.has_id(text.as_str()) {
                return Err(ModelFault::DupId);
            }
            match Id::read(alloc, text.as_str()) {
                Ok(id) => Ok(Some(id)),
                Err(IdFault::Bad) => Err(ModelFault::BadId),
                Err(IdFault::Memory) => Err(ModelFault::Memory),
            }
        }
        Some(_) => Err(ModelFault::BadId),
    }
}
