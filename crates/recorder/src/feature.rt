//! The lookup of the words of an edit: its element, its feature, its value.
ghost use Rattle.std.specs.Prelude.{◌≡◌, ◌⊎◌, IfErr, IfOk, OnOk, is_some, true, false};
ghost use Rattle.std.specs.FinMap.{get};
ghost use Rattle.model_state.specs.Good.{Good};
ghost use Rattle.model_state.specs.Steps.{class_has};
ghost use Rattle.emfjson_values.specs.Values.{value_of};
ghost use Rattle.edit_steps.specs.declared.fault.EditFault.TheVariants.{Memory, NoElement};
ghost use Rattle.edits.specs.Edits.{class_at, feature_at};
ghost use Rattle.recorder.specs.Answers.{AnswersFeature, AnswersValue};

use ecore_meta::{Metamodel, Scalar, Value, ValueFault};
use edit_steps::EditFault;
use emfjson_values::read_value;
use model_state::{Id, IdFault, Look};
use std::alloc::Global;
use texts::Text;

/// A live element and a feature of its class.
#[derive(Drop)]
pub struct Named {
    pub id: Id,
    pub feature: u32,
}

impl Named {
    /// The element of the id, and the feature of its class that has the name.
    pub fn find<L: Look>(
        alloc: Global,
        look: &L,
        meta: &Metamodel,
        id: &Text,
        feature: &Text,
    ) -> Result<Named, EditFault>
        requires good { Good meta.now (L.state look.now) }
        ensures held { IfOk result (λ named. class_has meta.now (get (L.state look.now).kind named.id) named.feature ≡ true) }
        ensures id { IfOk result (λ named. named.id ≡ id.now) }
        ensures feature { AnswersFeature result (feature_at meta.now (class_at (L.state look.now) id.now) feature.now) }
    {
        let id = match Id::read(alloc, id.as_str()) {
            Ok(id) => id,
            Err(IdFault::Bad) => return Err(EditFault::NoElement),
            Err(IdFault::Memory) => return Err(EditFault::Memory),
        };
        let Some(class) = look.class(&id) else {
            return Err(EditFault::NoElement);
        };
        match meta.feature_named(class, feature.as_str()) {
            None => Err(EditFault::NoFeature),
            Some(feature) => Ok(Named { id, feature }),
        }
    }
}

/// The live element that a word names.
pub fn live<L: Look>(alloc: Global, look: &L, word: &Text) -> Result<Id, EditFault>
    ensures id { IfOk result (λ id. id ≡ word.now) }
    ensures kind { OnOk result (is_some (get (L.state look.now).kind word.now) ≡ true) }
    ensures live { OnOk result (is_some (class_at (L.state look.now) word.now) ≡ true) }
    ensures none { IfErr result (λ fault. (fault ≡ Memory) ⊎ (fault ≡ NoElement) × (is_some (class_at (L.state look.now) word.now) ≡ false)) }
{
    let id = match Id::read(alloc, word.as_str()) {
        Ok(id) => id,
        Err(IdFault::Bad) => return Err(EditFault::NoElement),
        Err(IdFault::Memory) => return Err(EditFault::Memory),
    };
    if look.class(&id).is_none() {
        return Err(EditFault::NoElement);
    }
    Ok(id)
}

/// The value of the type that the text is.
pub fn read(
    alloc: Global,
    meta: &Metamodel,
    scalar: &Scalar,
    text: &Text,
) -> Result<Value, EditFault>
    ensures { AnswersValue result (value_of meta.now scalar.now text.now) }
{
    match read_value(alloc, text.as_str(), scalar, meta) {
        Ok(value) => Ok(value),
        Err(ValueFault::Bad) => Err(EditFault::BadValue),
        Err(ValueFault::Memory) => Err(EditFault::Memory),
    }
}
