//! The entry of a target into a list of references: its rank, and the renumbering of the others where no rank is free.
ghost use Rattle.std.specs.Prelude.{◌≡◌, ◌++◌, OnOk, IfOk, IfErr, None, Some, length, unwrap_or};
ghost use Rattle.model_state.specs.Listing.{targets};
ghost use Rattle.edit_steps.specs.Spot.{end_spot, rank_for, ranks_of, spot};
ghost use Rattle.edit_steps.specs.Rows.{reranks};
ghost use Rattle.edit_steps.specs.LinkRefusals.{IsLinkRefusal, enter_refusal};

use crate::LinkFault;
use crate::insertions::{Insertion, rerank};
use crate::link::index_or_end;
use model_state::{Entry, Id, Look, Step, rank_between};
use std::alloc::Global;
use texts::List;

/// The rank at an index of the others, None for their end. Refused with NoEntry before Bound.
fn enter_list(
    alloc: Global,
    a: &Id,
    f: u32,
    others: List<Entry>,
    at: Option<u32>,
    steps: &mut List<Step>,
) -> Result<u64, LinkFault>
    ensures steps { OnOk result (steps.new ≡ steps.old ++ reranks a.now f others (spot others (unwrap_or at (length others))).ranks) }
    ensures rank { IfOk result (λ r. (spot others (unwrap_or at (length others))).rank ≡ Some r) }
    ensures taken { OnOk result (enter_refusal others at ≡ None) }
    ensures refused { IfErr result (λ e. IsLinkRefusal (enter_refusal others at) e) }
{
    let index = index_or_end(at, others.len());
    if index > others.len() {
        return Err(LinkFault::NoEntry);
    }
    let Some(insertion) = Insertion::find(others, index) else {
        return Err(LinkFault::Bound);
    };
    rerank(alloc, a, f, &insertion, steps)?;
    Ok(insertion.rank)
}

/// The rank after the last target of a feature, None where none is free.
fn free_rank_after<L: Look>(look: &L, a: &Id, f: u32) -> Option<u64>
    ensures { let xs = targets (L.state look.now).row a.now f in result ≡ rank_for (ranks_of xs) (length xs) }
{
    rank_between(look.last_target(a, f).unwrap_or(0), None)
}

/// The rank after the last target of a feature. The targets are listed only where they are to be renumbered. Refused with
/// Bound.
pub fn enter_last<L: Look>(
    alloc: Global,
    look: &L,
    a: &Id,
    f: u32,
    steps: &mut List<Step>,
) -> Result<u64, LinkFault>
    ensures steps { OnOk result (let xs = targets (L.state look.now).row a.now f in steps.new ≡ steps.old ++ reranks a.now f xs (end_spot xs).ranks) }
    ensures rank { IfOk result (λ r. (end_spot (targets (L.state look.now).row a.now f)).rank ≡ Some r) }
    ensures taken { OnOk result (enter_refusal (targets (L.state look.now).row a.now f) None ≡ None) }
    ensures refused { IfErr result (λ e. IsLinkRefusal (enter_refusal (targets (L.state look.now).row a.now f) None) e) }
{
    if let Some(rank) = free_rank_after(look, a, f) {
        return Ok(rank);
    }
    let there = look.targets(alloc, a, f)?;
    enter_list(alloc, a, f, there, None, steps)
}

/// The rank at an index of the targets of a feature, None for their end. Refused with NoEntry before Bound.
pub fn enter<L: Look>(
    alloc: Global,
    look: &L,
    a: &Id,
    f: u32,
    at: Option<u32>,
    steps: &mut List<Step>,
) -> Result<u64, LinkFault>
    ensures steps { OnOk result (let xs = targets (L.state look.now).row a.now f in steps.new ≡ steps.old ++ reranks a.now f xs (spot xs (unwrap_or at (length xs))).ranks) }
    ensures rank { IfOk result (λ r. let xs = targets (L.state look.now).row a.now f in (spot xs (unwrap_or at (length xs))).rank ≡ Some r) }
    ensures taken { OnOk result (enter_refusal (targets (L.state look.now).row a.now f) at ≡ None) }
    ensures refused { IfErr result (λ e. IsLinkRefusal (enter_refusal (targets (L.state look.now).row a.now f) at) e) }
{
    match at {
        None => enter_last(alloc, look, a, f, steps),
        Some(_) => {
            let there = look.targets(alloc, a, f)?;
            enter_list(alloc, a, f, there, at, steps)
        }
    }
}
