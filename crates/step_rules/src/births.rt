//! The rules of New and Gone, by which an element is created and deleted.
ghost use Rattle.std.specs.Prelude.{◌≡◌, OnOk, OnErr, IfErr, Some, nat_eq};
ghost use Rattle.finite_maps.specs.Equal.{option_eq};
ghost use Rattle.model_state.specs.Steps.{Can, fault, apply};
ghost use Rattle.model_state.specs.Faults.{IsFault};
ghost use Rattle.model_state.specs.Good.{Good};
ghost use Rattle.model_state.specs.declared.step.Step.TheVariants.{New, Gone};

use crate::Write;
use crate::queries::{place_is_live, stands_at, stands_in};
use ecore_meta::Metamodel;
use model_state::{Id, Place, StepFault, has_room, is_concrete, may_stand};

fn same_class(x: Option<u32>, y: u32) -> bool
    ensures { result ≡ option_eq nat_eq x (Some y) }
{
    match x {
        None => false,
        Some(x) => x == y,
    }
}

/// Takes a step of the kind New.
pub fn take_new<S: Write>(
    model: &mut S,
    meta: &Metamodel,
    e: &Id,
    class: u32,
    place: &Place,
    rank: u64,
) -> Result<(), StepFault>
    requires { Good meta.now (S.state model.old) }
    ensures can { OnOk result (Can meta.now (S.state model.old) (New e.now class place.now rank)) }
    ensures done { OnOk result (S.state model.new ≡ apply meta.now (S.state model.old) (New e.now class place.now rank)) }
    ensures cannot { IfErr result (λ f. IsFault (fault meta.now (S.state model.old) (New e.now class place.now rank)) f) }
    ensures unchanged { OnErr result (S.state model.new ≡ S.state model.old) }
{
    if model.class(e).is_some() {
        return Err(StepFault::There);
    }
    if !place_is_live(model, place) {
        return Err(StepFault::NotThere);
    }
    if !is_concrete(meta, class) {
        return Err(StepFault::WrongType);
    }
    if !may_stand(model, meta, class, place) {
        return Err(StepFault::WrongType);
    }
    if !has_room(model, meta, place) {
        return Err(StepFault::Bound);
    }
    match model.make(e, class, place, rank) {
        Ok(()) => Ok(()),
        Err(_) => Err(StepFault::Memory),
    }
}

/// Takes a step of the kind Gone.
pub fn take_gone<S: Write>(
    model: &mut S,
    meta: &Metamodel,
    e: &Id,
    class: u32,
    place: &Place,
    rank: u64,
) -> Result<(), StepFault>
    requires { Good meta.now (S.state model.old) }
    ensures can { OnOk result (Can meta.now (S.state model.old) (Gone e.now class place.now rank)) }
    ensures done { OnOk result (S.state model.new ≡ apply meta.now (S.state model.old) (Gone e.now class place.now rank)) }
    ensures cannot { IfErr result (λ f. IsFault (fault meta.now (S.state model.old) (Gone e.now class place.now rank)) f) }
    ensures unchanged { OnErr result (S.state model.new ≡ S.state model.old) }
{
    if model.class(e).is_none() {
        return Err(StepFault::NotThere);
    }
    if !same_class(model.class(e), class) {
        return Err(StepFault::OldDiffers);
    }
    if !stands_in(model, e, place) {
        return Err(StepFault::OldDiffers);
    }
    if !stands_at(model, e, rank) {
        return Err(StepFault::OldDiffers);
    }
    if !model.has_no_value(e) {
        return Err(StepFault::NotEmpty);
    }
    if !model.has_no_row(e) {
        return Err(StepFault::NotEmpty);
    }
    if !model.has_no_child(e) {
        return Err(StepFault::NotEmpty);
    }
    model.take_out(e, place);
    Ok(())
}
