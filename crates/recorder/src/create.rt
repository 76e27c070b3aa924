//! The recording of `create`: its class and place are looked up, and its id is tested or made.
ghost use Rattle.std.specs.Prelude.{◌≡◌, Some};
ghost use Rattle.ecore_meta.specs.Meta.{class_named};
ghost use Rattle.model_state.specs.Good.{Good};
ghost use Rattle.model_state.specs.Listing.{children};
ghost use Rattle.edit_steps.specs.Spot.{end_spot};
ghost use Rattle.edit_steps.specs.Places.{rerank_places};
ghost use Rattle.edits.specs.FreshIds.{id_or_fresh};
ghost use Rattle.edits.specs.Edits.{create_effect, new_effect, recording_of};
ghost use Rattle.recorder.specs.Answers.{AnswersId, unused};
ghost use Rattle.edits.specs.Answers.{Answers};

use crate::fresh::fresh_id;
use crate::operation::operation;
use crate::place::place_at;
use ecore_meta::Metamodel;
use edit_steps::{EditFault, Spot, create_at, creation_spot};
use edits::{Destination, Recorded};
use model_state::{Id, IdFault, Look, OpKind, Place, is_concrete};
use std::alloc::Global;
use texts::Text;

/// The id that is given, or else a fresh one. BadId where the one that is given isn't of the form of an id.
fn id_or_fresh<L: Look>(
    alloc: Global,
    look: &L,
    ws: u32,
    id: &Option<Text>,
) -> Result<Id, EditFault>
    ensures { AnswersId result (id_or_fresh (L.state look.now) ws id.now) }
{
    match id {
        None => Ok(fresh_id(alloc, look, ws)?),
        Some(text) => match Id::read(alloc, text.as_str()) {
            Ok(id) => Ok(id),
            Err(IdFault::Bad) => Err(EditFault::BadId),
            Err(IdFault::Memory) => Err(EditFault::Memory),
        },
    }
}

/// The id of a new element: the one that is given, or else a fresh one. Refused with BadId before IdInUse.
fn new_id<L: Look>(alloc: Global, look: &L, ws: u32, id: &Option<Text>) -> Result<Id, EditFault>
    ensures { Answers result (unused (L.state look.now) (id_or_fresh (L.state look.now) ws id.now)) }
{
    let e = id_or_fresh(alloc, look, ws, id)?;
    if look.class(&e).is_some() {
        return Err(EditFault::IdInUse);
    }
    Ok(e)
}

/// What is recorded of a new element of a class at its spot, last in a place. Refused with BadId before IdInUse.
fn new_element<L: Look>(
    alloc: Global,
    look: &L,
    meta: &Metamodel,
    ws: u32,
    class: u32,
    place: Place,
    spot: Spot,
    id: &Option<Text>,
) -> Result<Recorded, EditFault>
    requires steps { let xs = children (L.state look.now).place (L.state look.now).prank place in spot.steps ≡ rerank_places xs (end_spot xs).ranks }
    requires rank { (end_spot (children (L.state look.now).place (L.state look.now).prank place)).rank ≡ Some spot.rank }
    ensures { Answers result (recording_of meta.now (L.state look.now) (new_effect (L.state look.now) class place (id_or_fresh (L.state look.now) ws id.now))) }
{
    // Only the contract needs it.
    let _meta = meta;
    let e = new_id(alloc, look, ws, id)?;
    let steps = create_at(alloc, look, &e, class, place, spot)?;
    Ok(Recorded {
        operation: operation(OpKind::Create, steps),
        id: Some(e),
    })
}

/// Records a new element of a class, last in its place, with that id or a fresh one.
///
/// Refused with NoClass, Abstract, with what the destination is refused with, and with WrongType, Bound, BadId and IdInUse,
/// in this order.
pub fn create<L: Look>(
    alloc: Global,
    look: &L,
    meta: &Metamodel,
    ws: u32,
    class: &Text,
    destination: &Destination,
    id: &Option<Text>,
) -> Result<Recorded, EditFault>
    requires good { Good meta.now (L.state look.now) }
    ensures { Answers result (recording_of meta.now (L.state look.now) (create_effect meta.now (L.state look.now) (class_named meta.now class.now) destination.now (id_or_fresh (L.state look.now) ws id.now))) }
{
    let Some(class) = meta.class_named(class.as_str()) else {
        return Err(EditFault::NoClass);
    };
    if !is_concrete(meta, class) {
        return Err(EditFault::Abstract);
    }
    let place = place_at(alloc, look, meta, destination)?;
    let spot = creation_spot(alloc, look, meta, class, &place)?;
    new_element(alloc, look, meta, ws, class, place, spot, id)
}
