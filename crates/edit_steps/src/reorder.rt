//! The move of a target within its list of references, by its rank.
ghost use Rattle.std.specs.Prelude.{◌≡◌, ◌<◌, true, ◌++◌, ◌∷◌, [], IfOk, OnOk, IfErr, None, is_some, not, length};
ghost use Rattle.std.specs.FinMap.{get};
ghost use Rattle.model_state.specs.Good.{Good};
ghost use Rattle.edit_steps.specs.Spot.{rank_for, ranks_of, spot};
ghost use Rattle.edit_steps.specs.Rows.{reranks};
ghost use Rattle.edit_steps.specs.References.{reorder_made, stands_at, without_entry};
ghost use Rattle.edit_steps.specs.Refusals.{reorder_refusal};
ghost use Rattle.edit_steps.specs.LinkRefusals.{IsReference, IsLinkRefusal};
ghost use Rattle.model_state.specs.Ranks.{most_entries};

use crate::LinkFault;
use crate::insertions::{Insertion, rerank};
use ecore_meta::Metamodel;
use model_state::{Entry, Id, Look, Step};
use std::alloc::{AllocError, Global};
use texts::List;

/// Whether the element stands at the index.
pub fn stands_at(list: &[Entry], at: usize, b: &Id) -> bool
    ensures { result ≡ stands_at b.now at list.now }
{
    match list.get(at) {
        None => false,
        Some(x) => x.id == *b,
    }
}

/// The entries but that of the element.
pub fn without_entry(alloc: Global, list: &[Entry], b: &Id) -> Result<List<Entry>, AllocError>
    ensures { IfOk result (λ l. l ≡ without_entry b.now list.now) }
{
    let mut others = List::new(alloc);
    for x in list {
        if *b != x.id {
            others.push(Entry {
                rank: x.rank,
                id: x.id.copy(alloc)?,
            })?;
        }
    }
    Ok(others)
}

fn reorder(
    alloc: Global,
    a: &Id,
    f: u32,
    b: &Id,
    old: u64,
    here: &Insertion,
) -> Result<List<Step>, AllocError>
    requires reranks { here.now.reranks ≡ not (is_some (rank_for (ranks_of here.now.others) here.now.index)) }
    requires small { here.now.reranks ≡ true → length here.now.others < most_entries }
    ensures { IfOk result (λ s. s ≡ reranks a.now f here.now.others (spot here.now.others here.now.index).ranks ++ reranks a.now f (record { rank = old; id = b.now } ∷ []) (here.now.rank ∷ [])) }
{
    let mut steps = List::new(alloc);
    rerank(alloc, a, f, here, &mut steps)?;
    if old != here.rank {
        steps.push(Step::RerankRow {
            a: a.copy(alloc)?,
            f,
            b: b.copy(alloc)?,
            old,
            new: here.rank,
        })?;
    }
    Ok(steps)
}

/// The steps that put a reference at another index of its list, none where it stands there.
///
/// The other entries are renumbered where there is no room, and then this one gets its rank. A step that would give an
/// entry the rank that it has is left out. Refused with NoEntry before Bound.
pub fn reorder_steps<L: Look>(
    alloc: Global,
    look: &L,
    meta: &Metamodel,
    a: &Id,
    f: u32,
    b: &Id,
    at: u32,
) -> Result<List<Step>, LinkFault>
    requires good { Good meta.now (L.state look.now) }
    requires reference { IsReference meta.now (L.state look.now) a.now f }
    ensures made { IfOk result (λ s. s ≡ reorder_made (L.state look.now).row a.now f b.now at) }
    ensures taken { OnOk result (reorder_refusal (L.state look.now) a.now f b.now at ≡ None) }
    ensures refused { IfErr result (λ e. IsLinkRefusal (reorder_refusal (L.state look.now) a.now f b.now at) e) }
{
    // Only the contract needs it.
    let _meta = meta;
    let Some(old) = look.row(a, f, b) else {
        return Err(LinkFault::NoEntry);
    };
    let mine = look.targets(alloc, a, f)?;
    let index = at as usize;
    if index >= mine.len() {
        return Err(LinkFault::NoEntry);
    }
    if stands_at(mine.as_slice(), index, b) {
        return Ok(List::new(alloc));
    }
    let others = without_entry(alloc, mine.as_slice(), b)?;
    let Some(here) = Insertion::find(others, index) else {
        return Err(LinkFault::Bound);
    };
    Ok(reorder(alloc, a, f, b, old, &here)?)
}
