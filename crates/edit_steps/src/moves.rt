//! The move of an element, within its place by a rerank or into another place, which must not make a containment cycle.
ghost use Rattle.std.specs.Prelude.{◌≡◌, IfOk, IfErr, OnOk, None, Some, true, length, unwrap_or};
ghost use Rattle.model_state.specs.Good.{Good};
ghost use Rattle.model_state.specs.Listing.{children, rank_at};
ghost use Rattle.model_state.specs.State.{is_live};
ghost use Rattle.edit_steps.specs.Places.{move_to_made, move_within_made};
ghost use Rattle.edit_steps.specs.References.{without_entry};
ghost use Rattle.edit_steps.specs.Subtree.{is_among};
ghost use Rattle.edit_steps.specs.MoveRefusals.{IsPlace, IsPlaceRefusal, arrival_tests, first_place_refusal, within_tests};
ghost use Rattle.edit_steps.specs.Moves.{HasRefusal, IsMove, IsMoveRefusal};

use crate::spots::{arrival_spot, find_spot};
use crate::{MoveFault, index_or_end, stands_at, without_entry};
use ecore_meta::{Boxed, Metamodel};
use model_state::{Id, Look, Place, Placed, Step, chain, has_room, may_move};
use std::alloc::Global;
use texts::List;

/// Whether the element is one of these.
fn is_among(list: &[Id], e: &Id) -> bool
    ensures { result ≡ is_among list.now e.now }
{
    list.iter().any(|x| e == x)
}

/// The steps that put an element at an index of the others of its place, None for their end.
fn move_within<L: Look>(
    alloc: Global,
    look: &L,
    e: &Id,
    rank: u64,
    place: &Place,
    at: Option<u32>,
) -> Result<List<Step>, MoveFault>
    requires { rank ≡ rank_at (L.state look.now).prank e.now }
    ensures made { IfOk result (λ s. let xs = children (L.state look.now).place (L.state look.now).prank place.now in s ≡ move_within_made (L.state look.now) e.now place.now (unwrap_or at (length (without_entry e.now xs)))) }
    ensures taken { OnOk result (first_place_refusal (within_tests e.now (children (L.state look.now).place (L.state look.now).prank place.now) at) ≡ None) }
    ensures refused { IfErr result (λ x. IsPlaceRefusal (first_place_refusal (within_tests e.now (children (L.state look.now).place (L.state look.now).prank place.now) at)) x) }
{
    let there = look.children(alloc, place)?;
    let others = without_entry(alloc, there.as_slice(), e)?;
    let index = index_or_end(at, others.len());
    if index > others.len() {
        return Err(MoveFault::NoEntry);
    }
    if stands_at(there.as_slice(), index, e) {
        return Ok(List::new(alloc));
    }
    let spot = find_spot(alloc, others, at)?;
    let mut steps = spot.steps;
    if rank != spot.rank {
        steps.push(Step::RerankPlace {
            e: e.copy(alloc)?,
            old: rank,
            new: spot.rank,
        })?;
    }
    Ok(steps)
}

/// The steps that put an element at an index of another place, None for its end.
fn move_to<L: Look>(
    alloc: Global,
    look: &L,
    meta: &Metamodel,
    e: &Id,
    from: &Placed,
    to: &Place,
    at: Option<u32>,
    above_from: List<Id>,
    above_to: List<Id>,
) -> Result<List<Step>, MoveFault>
    requires { from.now.rank ≡ rank_at (L.state look.now).prank e.now }
    ensures made { IfOk result (λ s. let xs = children (L.state look.now).place (L.state look.now).prank to.now in s ≡ move_to_made (L.state look.now) e.now from.now.place to.now (unwrap_or at (length xs)) above_from above_to) }
    ensures taken { OnOk result (first_place_refusal (arrival_tests meta.now (L.state look.now) to.now (children (L.state look.now).place (L.state look.now).prank to.now) at) ≡ None) }
    ensures refused { IfErr result (λ x. IsPlaceRefusal (first_place_refusal (arrival_tests meta.now (L.state look.now) to.now (children (L.state look.now).place (L.state look.now).prank to.now) at)) x) }
{
    let spot = arrival_spot(alloc, look, to, at)?;
    if !has_room(look, meta, to) {
        return Err(MoveFault::Bound);
    }
    let mut steps = spot.steps;
    steps.push(Step::Move {
        e: e.copy(alloc)?,
        from: Boxed::new(alloc, from.place.copy(alloc)?)?,
        from_rank: from.rank,
        to: Boxed::new(alloc, to.copy(alloc)?)?,
        to_rank: spot.rank,
        above_from: Boxed::new(alloc, above_from)?,
        above_to: Boxed::new(alloc, above_to)?,
    })?;
    Ok(steps)
}

/// The steps that put an element at an index of a place, None for its end; no step where it stands there.
///
/// Within its place it gets another rank. Into another it is moved, with the containers of both places. Where there is no
/// room at the index the others there are renumbered before. Refused with WrongType, WouldCycle, NoEntry and Bound, in
/// this order.
pub fn move_steps<L: Look>(
    alloc: Global,
    look: &L,
    meta: &Metamodel,
    e: &Id,
    to: &Place,
    at: Option<u32>,
) -> Result<List<Step>, MoveFault>
    requires good { Good meta.now (L.state look.now) }
    requires live { is_live (L.state look.now) e.now ≡ true }
    requires place { IsPlace meta.now (L.state look.now) to.now }
    ensures made { IfOk result (λ s. IsMove (L.state look.now) e.now to.now at s) }
    ensures taken { OnOk result (HasRefusal meta.now (L.state look.now) e.now to.now at None) }
    ensures refused { IfErr result (λ x. IsMoveRefusal meta.now (L.state look.now) e.now to.now at x) }
{
    if !may_move(look, meta, look.class(e), to) {
        return Err(MoveFault::WrongType);
    }
    let above_to = chain(alloc, look, to)?;
    if is_among(above_to.as_slice(), e) {
        return Err(MoveFault::WouldCycle);
    }
    let Some(from) = look.placed(e) else {
        unreachable!()
    };
    if from.place.is_same(to) {
        return move_within(alloc, look, e, from.rank, to, at);
    }
    let above_from = chain(alloc, look, &from.place)?;
    move_to(alloc, look, meta, e, from, to, at, above_from, above_to)
}
