//! The recording of any edit: the call of the crate, which finds the recording of its kind.
ghost use Rattle.std.specs.Prelude.{◌≡◌, IfOk, true};
ghost use Rattle.std.specs.FinMap.{get};
ghost use Rattle.model_state.specs.Good.{Good};
ghost use Rattle.model_state.specs.Steps.{class_has};
ghost use Rattle.model_state.specs.Typing.{kind_of};
ghost use Rattle.emfjson_values.specs.Values.{value_of};
ghost use Rattle.recorder.specs.Features.{effect_on};
ghost use Rattle.edits.specs.RecordingLaws.{KeepsGood};
ghost use Rattle.edits.specs.Recording.{recorded};
ghost use Rattle.edits.specs.Edits.{class_at, feature_at, of_feature, recording_of};
ghost use Rattle.edits.specs.Answers.{Answers};

use crate::feature::Named;
use crate::{attribute, create, many, place, reference};
use ecore_meta::Metamodel;
use edit_steps::EditFault;
use edits::{Edit, Recorded};
use model_state::Look;
use std::alloc::Global;
use texts::Text;

/// What is recorded of an edit of a feature that is found, by the edit's kind. Another edit is refused.
#[tactic(auto, unfolding(crate::specs::Features::effect_on))]
fn record_on<L: Look>(
    alloc: Global,
    look: &L,
    meta: &Metamodel,
    named: &Named,
    edit: &Edit,
) -> Result<Recorded, EditFault>
    requires good { Good meta.now (L.state look.now) }
    requires held { class_has meta.now (get (L.state look.now).kind named.now.id) named.now.feature ≡ true }
    ensures { Answers result (recording_of meta.now (L.state look.now) (effect_on (value_of meta.now) meta.now (L.state look.now) named.now.id edit.now named.now.feature (kind_of meta.now named.now.feature))) }
{
    match edit {
        Edit::Set { value, .. } => attribute::set(alloc, look, meta, named, value),
        Edit::Unset { .. } => attribute::unset(alloc, look, meta, named),
        Edit::Add { at, value, .. } => many::add(alloc, look, meta, named, *at, value),
        Edit::Remove { index, .. } => many::remove(alloc, look, meta, named, *index),
        Edit::Shift { from, to, .. } => many::shift(alloc, look, meta, named, *from, *to),
        Edit::Link { target, index, .. } => {
            reference::link(alloc, look, meta, named, target, *index)
        }
        Edit::Unlink { target, .. } => reference::unlink(alloc, look, meta, named, target),
        Edit::Reorder { target, index, .. } => {
            reference::reorder(alloc, look, meta, named, target, *index)
        }
        _ => Err(EditFault::WrongKind),
    }
}

/// What is recorded of an edit of the feature of that name. Refused with NoElement and NoFeature, and then by the edit's kind.
fn record_in<L: Look>(
    alloc: Global,
    look: &L,
    meta: &Metamodel,
    id: &Text,
    feature: &Text,
    edit: &Edit,
) -> Result<Recorded, EditFault>
    requires good { Good meta.now (L.state look.now) }
    ensures { Answers result (recording_of meta.now (L.state look.now) (of_feature meta.now (feature_at meta.now (class_at (L.state look.now) id.now) feature.now) (effect_on (value_of meta.now) meta.now (L.state look.now) id.now edit.now))) }
{
    let named = Named::find(alloc, look, meta, id, feature)?;
    record_on(alloc, look, meta, &named, edit)
}

#[tactic(auto, unfolding(edits::specs::Edits::recorded_of, edits::specs::Edits::effect_of))]
fn record<L: Look>(
    alloc: Global,
    look: &L,
    meta: &Metamodel,
    ws: u32,
    edit: &Edit,
) -> Result<Recorded, EditFault>
    requires good { Good meta.now (L.state look.now) }
    ensures { Answers result (recorded meta.now (L.state look.now) ws edit.now) }
{
    match edit {
        Edit::Create {
            class,
            destination,
            id,
        } => create::create(alloc, look, meta, ws, class, destination, id),
        Edit::Delete { id } => place::delete_element(alloc, look, meta, id),
        Edit::Set { id, feature, .. } => record_in(alloc, look, meta, id, feature, edit),
        Edit::Unset { id, feature } => record_in(alloc, look, meta, id, feature, edit),
        Edit::Add { id, feature, .. } => record_in(alloc, look, meta, id, feature, edit),
        Edit::Remove { id, feature, .. } => record_in(alloc, look, meta, id, feature, edit),
        Edit::Shift { id, feature, .. } => record_in(alloc, look, meta, id, feature, edit),
        Edit::Link { id, feature, .. } => record_in(alloc, look, meta, id, feature, edit),
        Edit::Unlink { id, feature, .. } => record_in(alloc, look, meta, id, feature, edit),
        Edit::Reorder { id, feature, .. } => record_in(alloc, look, meta, id, feature, edit),
        Edit::Move {
            id,
            destination,
            index,
        } => place::move_element(alloc, look, meta, id, destination, *index),
    }
}

/// What is recorded of an edit in the workspace of that number: one operation, or none where the edit changes nothing.
/// Recorded too is the id of an element that it creates. Its steps lead to a good model again: each reference stands
/// with its opposite.
///
/// The edit is refused with the first of its tests that fails. A destination inside an element is refused with
/// NoElement, NoFeature and WrongKind. The edit of a feature is refused with these three, and then as the table says:
///
/// | Edit | Refusals in order |
/// |---|---|
/// | `Create` | NoClass, Abstract, those of the destination, WrongType, Bound, BadId, IdInUse |
/// | `Delete` | NoElement |
/// | `Move` | NoElement, those of the destination, WrongType, WouldCycle, NoEntry, Bound |
/// | `Set` of an attribute | BadValue |
/// | `Set` of a plain reference of upper bound 1 | BadValue, NoElement, WrongType, Bound |
/// | `Add` | NoEntry, BadValue, AlreadyThere, Bound |
/// | `Remove`, `Shift`, `Unlink` | NoEntry |
/// | `Link` | NoElement, WrongType, AlreadyThere, NoEntry, Bound |
/// | `Reorder` | NoEntry, Bound |
pub fn take_edit<L: Look>(
    alloc: Global,
    look: &L,
    meta: &Metamodel,
    ws: u32,
    edit: &Edit,
) -> Result<Recorded, EditFault>
    requires good { Good meta.now (L.state look.now) }
    ensures recorded { Answers result (recorded meta.now (L.state look.now) ws edit.now) }
    ensures keeps { IfOk result (KeepsGood meta.now (L.state look.now)) }
{
    meta.recall_soundness();
    record(alloc, look, meta, ws, edit)
}
