//! The rules of Move and RerankPlace, with the test of the recorded containers.
ghost use Rattle.std.specs.Prelude.{◌≡◌, OnOk, OnErr, IfErr, Some};
ghost use Rattle.std.specs.List.{list_any};
ghost use Rattle.finite_maps.specs.Equal.{text_eq};
ghost use Rattle.model_state.specs.Steps.{Can, fault, apply, chain_is};
ghost use Rattle.model_state.specs.Faults.{IsFault};
ghost use Rattle.model_state.specs.Good.{Good};
ghost use Rattle.model_state.specs.declared.step.Step.TheVariants.{Move, RerankPlace};

use crate::Write;
use crate::queries::{place_is_live, stands_at, stands_in};
use ecore_meta::Metamodel;
use model_state::{Id, Place, StepFault, has_room, may_move};
use texts::List;

fn names(ids: &[Id], e: &Id) -> bool
    ensures { result ≡ list_any (text_eq e.now) ids.now }
{
    ids.iter().any(|id| e == id)
}

/// Whether the ids are the containers of the place, the innermost first.
fn has_chain<S: Write>(model: &S, place: &Place, ids: &[Id]) -> bool
    ensures { result ≡ chain_is (S.state model.now).place (Some place.now) ids.now }
{
    let mut next = place;
    for id in ids {
        let Some(parent) = next.parent() else {
            return false;
        };
        if id != parent {
            return false;
        }
        let Some(placed) = model.placed(id) else {
            return false;
        };
        next = &placed.place;
    }
    next.parent().is_none()
}

/// Takes a step of the kind Move.
pub fn take_move<S: Write>(
    model: &mut S,
    meta: &Metamodel,
    e: &Id,
    from: &Place,
    from_rank: u64,
    to: &Place,
    to_rank: u64,
    above_from: &List<Id>,
    above_to: &List<Id>,
) -> Result<(), StepFault>
    requires { Good meta.now (S.state model.old) }
    ensures can { OnOk result (Can meta.now (S.state model.old) (Move e.now from.now from_rank to.now to_rank above_from.now above_to.now)) }
    ensures done { OnOk result (S.state model.new ≡ apply meta.now (S.state model.old) (Move e.now from.now from_rank to.now to_rank above_from.now above_to.now)) }
    ensures cannot { IfErr result (λ f. IsFault (fault meta.now (S.state model.old) (Move e.now from.now from_rank to.now to_rank above_from.now above_to.now)) f) }
    ensures unchanged { OnErr result (S.state model.new ≡ S.state model.old) }
{
    if model.class(e).is_none() {
        return Err(StepFault::NotThere);
    }
    if !stands_in(model, e, from) {
        return Err(StepFault::OldDiffers);
    }
    if !stands_at(model, e, from_rank) {
        return Err(StepFault::OldDiffers);
    }
    if from.is_same(to) {
        return Err(StepFault::BadStep);
    }
    if !place_is_live(model, to) {
        return Err(StepFault::NotThere);
    }
    if !may_move(model, meta, model.class(e), to) {
        return Err(StepFault::WrongType);
    }
    if !has_chain(model, from, above_from.as_slice()) {
        return Err(StepFault::Chain);
    }
    if !has_chain(model, to, above_to.as_slice()) {
        return Err(StepFault::Chain);
    }
    if names(above_to.as_slice(), e) {
        return Err(StepFault::Chain);
    }
    if !has_room(model, meta, to) {
        return Err(StepFault::Bound);
    }
    match model.stand(e, from, to, to_rank) {
        Ok(()) => Ok(()),
        Err(_) => Err(StepFault::Memory),
    }
}

/// Takes a step of the kind RerankPlace.
pub fn take_rerank_place<S: Write>(
    model: &mut S,
    meta: &Metamodel,
    e: &Id,
    old: u64,
    new: u64,
) -> Result<(), StepFault>
    requires { Good meta.now (S.state model.old) }
    ensures can { OnOk result (Can meta.now (S.state model.old) (RerankPlace e.now old new)) }
    ensures done { OnOk result (S.state model.new ≡ apply meta.now (S.state model.old) (RerankPlace e.now old new)) }
    ensures cannot { IfErr result (λ f. IsFault (fault meta.now (S.state model.old) (RerankPlace e.now old new)) f) }
    ensures unchanged { OnErr result (S.state model.new ≡ S.state model.old) }
{
    if model.class(e).is_none() {
        return Err(StepFault::NotThere);
    }
    if old == new {
        return Err(StepFault::BadStep);
    }
    if !stands_at(model, e, old) {
        return Err(StepFault::OldDiffers);
    }
    match model.rerank(e, new) {
        Ok(()) => Ok(()),
        Err(_) => Err(StepFault::Memory),
    }
}
