//! The rank of an element at an index of a place, with the reranks of the others where no rank is free.
ghost use Rattle.std.specs.Prelude.{◌≡◌, ◌<◌, true, not, IfOk, IfErr, OnOk, None, Some, is_some, length, unwrap_or};
ghost use Rattle.edit_steps.specs.Spot.{end_spot, evened, rank_for, ranks_of, spot};
ghost use Rattle.edit_steps.specs.Places.{rerank_places};
ghost use Rattle.model_state.specs.Listing.{children};
ghost use Rattle.edit_steps.specs.MoveRefusals.{IsPlaceRefusal, spot_refusal};
ghost use Rattle.model_state.specs.Ranks.{most_entries};

use crate::{Insertion, MoveFault, index_or_end};
use model_state::{Entry, Look, Place, RANK_GAP, Step, rank_between};
use std::alloc::{AllocError, Global};
use texts::List;

/// The spot of an element among others.
#[derive(Drop)]
pub struct Spot {
    /// The reranks of the others, where there is no room between its neighbours.
    pub steps: List<Step>,
    /// Its rank.
    pub rank: u64,
}

/// A step for each element whose rank changes, where all are spread evenly.
fn even_reranks(alloc: Global, list: &[Entry]) -> Result<List<Step>, AllocError>
    requires { length list.now < most_entries }
    ensures { IfOk result (λ s. s ≡ rerank_places list.now (evened 1 list.now)) }
{
    let mut steps = List::new(alloc);
    for (i, x) in list.iter().enumerate() {
        let new = (i as u64 + 1) * RANK_GAP;
        if x.rank != new {
            steps.push(Step::RerankPlace {
                e: x.id.copy(alloc)?,
                old: x.rank,
                new,
            })?;
        }
    }
    Ok(steps)
}

/// The reranks of the others, where there is no room.
fn reranks(alloc: Global, insertion: &Insertion) -> Result<List<Step>, AllocError>
    requires reranks { insertion.now.reranks ≡ not (is_some (rank_for (ranks_of insertion.now.others) insertion.now.index)) }
    requires small { insertion.now.reranks ≡ true → length insertion.now.others < most_entries }
    ensures { IfOk result (λ s. s ≡ rerank_places insertion.now.others (spot insertion.now.others insertion.now.index).ranks) }
{
    if insertion.reranks {
        even_reranks(alloc, insertion.others.as_slice())
    } else {
        Ok(List::new(alloc))
    }
}

/// The spot at an index of the others, None for their end. Refused with NoEntry before Bound.
pub fn find_spot(alloc: Global, others: List<Entry>, at: Option<u32>) -> Result<Spot, MoveFault>
    ensures steps { IfOk result (λ s. s.steps ≡ rerank_places others (spot others (unwrap_or at (length others))).ranks) }
    ensures rank { IfOk result (λ s. (spot others (unwrap_or at (length others))).rank ≡ Some s.rank) }
    ensures taken { OnOk result (spot_refusal others at ≡ None) }
    ensures refused { IfErr result (λ e. IsPlaceRefusal (spot_refusal others at) e) }
{
    let index = index_or_end(at, others.len());
    if index > others.len() {
        return Err(MoveFault::NoEntry);
    }
    let Some(insertion) = Insertion::find(others, index) else {
        return Err(MoveFault::Bound);
    };
    Ok(Spot {
        steps: reranks(alloc, &insertion)?,
        rank: insertion.rank,
    })
}

/// The rank after the last element of the place, None where there is no room.
fn rank_after<L: Look>(look: &L, place: &Place) -> Option<u64>
    ensures { let xs = children (L.state look.now).place (L.state look.now).prank place.now in result ≡ rank_for (ranks_of xs) (length xs) }
{
    rank_between(look.last_child(place).unwrap_or(0), None)
}

/// The spot after the last element of a place. The elements there are listed only where they are to be renumbered.
/// Refused with Bound.
pub fn last_spot<L: Look>(alloc: Global, look: &L, place: &Place) -> Result<Spot, MoveFault>
    ensures steps { IfOk result (λ s. let xs = children (L.state look.now).place (L.state look.now).prank place.now in s.steps ≡ rerank_places xs (end_spot xs).ranks) }
    ensures rank { IfOk result (λ s. (end_spot (children (L.state look.now).place (L.state look.now).prank place.now)).rank ≡ Some s.rank) }
    ensures taken { OnOk result (spot_refusal (children (L.state look.now).place (L.state look.now).prank place.now) None ≡ None) }
    ensures refused { IfErr result (λ e. IsPlaceRefusal (spot_refusal (children (L.state look.now).place (L.state look.now).prank place.now) None) e) }
{
    if let Some(rank) = rank_after(look, place) {
        return Ok(Spot {
            steps: List::new(alloc),
            rank,
        });
    }
    let there = look.children(alloc, place)?;
    find_spot(alloc, there, None)
}

/// The spot of an element that is put into a place, at an index of the elements there, None for their end. Refused with
/// NoEntry before Bound.
pub fn arrival_spot<L: Look>(
    alloc: Global,
    look: &L,
    place: &Place,
    at: Option<u32>,
) -> Result<Spot, MoveFault>
    ensures steps { IfOk result (λ s. let xs = children (L.state look.now).place (L.state look.now).prank place.now in s.steps ≡ rerank_places xs (spot xs (unwrap_or at (length xs))).ranks) }
    ensures rank { IfOk result (λ s. let xs = children (L.state look.now).place (L.state look.now).prank place.now in (spot xs (unwrap_or at (length xs))).rank ≡ Some s.rank) }
    ensures taken { OnOk result (spot_refusal (children (L.state look.now).place (L.state look.now).prank place.now) at ≡ None) }
    ensures refused { IfErr result (λ e. IsPlaceRefusal (spot_refusal (children (L.state look.now).place (L.state look.now).prank place.now) at) e) }
{
    match at {
        None => last_spot(alloc, look, place),
        Some(_) => {
            let there = look.children(alloc, place)?;
            find_spot(alloc, there, at)
        }
    }
}
