//! The recording of `move` and `delete`, and the lookup of the place at which an element is to stand.
ghost use Rattle.std.specs.Prelude.{◌≡◌, IfOk, IfErr, OnOk, None, true};
ghost use Rattle.model_state.specs.Good.{Good};
ghost use Rattle.model_state.specs.State.{is_live};
ghost use Rattle.edit_steps.specs.MoveRefusals.{IsPlace, IsPlaceRefusal, move_refusal, place_of};
ghost use Rattle.edit_steps.specs.Moves.{move_made};
ghost use Rattle.edit_steps.specs.Containers.{containers_of};
ghost use Rattle.edits.specs.Edits.{delete_effect, move_effect, place_at, recording_of};
ghost use Rattle.edits.specs.Answers.{Answers};

use crate::feature::{Named, live};
use crate::operation::operation;
use ecore_meta::Metamodel;
use edit_steps::{EditFault, MoveFault, delete_steps, is_containment, move_steps};
use edits::{Destination, Recorded};
use model_state::{Id, Look, OpKind, Place, Step};
use std::alloc::Global;
use texts::{List, Text};

/// The place of a destination. Refused with NoElement, NoFeature and WrongKind, in this order.
pub fn place_at<L: Look>(
    alloc: Global,
    look: &L,
    meta: &Metamodel,
    destination: &Destination,
) -> Result<Place, EditFault>
    requires good { Good meta.now (L.state look.now) }
    ensures due { Answers result (place_at meta.now (L.state look.now) destination.now) }
    ensures place { IfOk result (λ place. IsPlace meta.now (L.state look.now) place) }
{
    match destination {
        Destination::Root => Ok(Place::Root),
        Destination::Inside { parent, feature } => {
            let named = Named::find(alloc, look, meta, parent, feature)?;
            if !is_containment(meta, named.feature) {
                return Err(EditFault::WrongKind);
            }
            Ok(Place::Inside {
                parent: named.id,
                feature: named.feature,
            })
        }
    }
}

/// The steps that put an element at an index of a place, None for its end.
fn moved<L: Look>(
    alloc: Global,
    look: &L,
    meta: &Metamodel,
    e: &Id,
    place: &Place,
    index: Option<u32>,
) -> Result<List<Step>, MoveFault>
    requires good { Good meta.now (L.state look.now) }
    requires live { is_live (L.state look.now) e.now ≡ true }
    requires place { IsPlace meta.now (L.state look.now) place.now }
    ensures made { IfOk result (λ s. let m = L.state look.now in s ≡ move_made m e.now place.now index (containers_of m (place_of m e.now)) (containers_of m place.now)) }
    ensures taken { OnOk result (move_refusal meta.now (L.state look.now) e.now place.now (containers_of (L.state look.now) place.now) index ≡ None) }
    ensures refused { IfErr result (λ x. IsPlaceRefusal (move_refusal meta.now (L.state look.now) e.now place.now (containers_of (L.state look.now) place.now) index) x) }
{
    move_steps(alloc, look, meta, e, place, index)
}

/// Records that an element is put into a place, at an index of the others there or last.
///
/// Refused with NoElement, with what the destination is refused with, and with WrongType, WouldCycle, NoEntry and Bound, in
/// this order.
pub fn move_element<L: Look>(
    alloc: Global,
    look: &L,
    meta: &Metamodel,
    id: &Text,
    destination: &Destination,
    index: Option<u32>,
) -> Result<Recorded, EditFault>
    requires good { Good meta.now (L.state look.now) }
    ensures { Answers result (recording_of meta.now (L.state look.now) (move_effect meta.now (L.state look.now) id.now destination.now index)) }
{
    let e = live(alloc, look, id)?;
    let place = place_at(alloc, look, meta, destination)?;
    let steps = moved(alloc, look, meta, &e, &place, index)?;
    Ok(Recorded {
        operation: operation(OpKind::Move, steps),
        id: None,
    })
}

/// Records that an element is deleted, with all that it contains. Refused with NoElement.
pub fn delete_element<L: Look>(
    alloc: Global,
    look: &L,
    meta: &Metamodel,
    id: &Text,
) -> Result<Recorded, EditFault>
    requires good { Good meta.now (L.state look.now) }
    ensures { Answers result (recording_of meta.now (L.state look.now) (delete_effect (L.state look.now) id.now)) }
{
    let e = live(alloc, look, id)?;
    let steps = delete_steps(alloc, look, meta, &e)?;
    Ok(Recorded {
        operation: operation(OpKind::Delete, steps),
        id: None,
    })
}
