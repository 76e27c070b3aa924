//! The creation of an element: its rank at the end of its place, and the steps that put it there.
ghost use Rattle.std.specs.Prelude.{◌≡◌, IfOk, IfErr, OnOk, None, Some};
ghost use Rattle.model_state.specs.Listing.{children};
ghost use Rattle.edit_steps.specs.Spot.{end_spot};
ghost use Rattle.edit_steps.specs.Places.{create_made, rerank_places};
ghost use Rattle.edit_steps.specs.MoveRefusals.{IsPlaceRefusal, create_refusal};

use crate::MoveFault;
use crate::spots::{Spot, last_spot};
use ecore_meta::Metamodel;
use model_state::{Id, Look, Place, Step, has_room, may_stand};
use std::alloc::{AllocError, Global};
use texts::List;

/// The spot of a new element of a class, last in a place. Refused with WrongType before Bound.
pub fn creation_spot<L: Look>(
    alloc: Global,
    look: &L,
    meta: &Metamodel,
    class: u32,
    place: &Place,
) -> Result<Spot, MoveFault>
    ensures steps { IfOk result (λ s. let xs = children (L.state look.now).place (L.state look.now).prank place.now in s.steps ≡ rerank_places xs (end_spot xs).ranks) }
    ensures rank { IfOk result (λ s. (end_spot (children (L.state look.now).place (L.state look.now).prank place.now)).rank ≡ Some s.rank) }
    ensures taken { OnOk result (create_refusal meta.now (L.state look.now) class place.now ≡ None) }
    ensures refused { IfErr result (λ x. IsPlaceRefusal (create_refusal meta.now (L.state look.now) class place.now) x) }
{
    if !may_stand(look, meta, class, place) {
        return Err(MoveFault::WrongType);
    }
    if !has_room(look, meta, place) {
        return Err(MoveFault::Bound);
    }
    last_spot(alloc, look, place)
}

/// The steps that create an element of a class at its spot, last in a place. Where there is no room after the last, the
/// others are renumbered first, and then the new element is created.
pub fn create_at<L: Look>(
    alloc: Global,
    look: &L,
    e: &Id,
    class: u32,
    place: Place,
    spot: Spot,
) -> Result<List<Step>, AllocError>
    requires steps { let xs = children (L.state look.now).place (L.state look.now).prank place in spot.steps ≡ rerank_places xs (end_spot xs).ranks }
    requires rank { (end_spot (children (L.state look.now).place (L.state look.now).prank place)).rank ≡ Some spot.rank }
    ensures made { IfOk result (λ s. s ≡ create_made (L.state look.now) e.now class place) }
{
    // Only the contract needs it.
    let _look = look;
    let Spot { mut steps, rank } = spot;
    steps.push(Step::New {
        e: e.copy(alloc)?,
        class,
        place,
        rank,
    })?;
    Ok(steps)
}
