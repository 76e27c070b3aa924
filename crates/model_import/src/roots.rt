//! The roots of an import, last at the root of the model, which is renumbered where no rank is left.
ghost use Rattle.std.specs.Prelude.{◌≡◌, ◌<◌, ◌⊎◌, ◌++◌, ◌∷◌, ◌+◌, ◌*◌, [], false, true, nat_eq, IfErr, IfOk, OnOk, length};
ghost use Rattle.edit_steps.specs.Places.{rerank_places};
ghost use Rattle.edit_steps.specs.Spot.{evened, rank_for, ranks_of};
ghost use Rattle.edit_steps.specs.declared.fault.EditFault.TheVariants.{Bound, Memory};
ghost use Rattle.model_state.specs.declared.step.Place.TheVariants.{Root};
ghost use Rattle.model_state.specs.declared.step.Step.TheVariants.{New};
ghost use Rattle.import_laws.specs.Roots.{has_end, root_after, root_made, with_ranks};
ghost use Rattle.model_state.specs.Ranks.{most_entries, rank_gap};

use edit_steps::EditFault;
use model_state::{Entry, Id, MOST_ENTRIES, Place, RANK_GAP, Step, rank_between};
use std::alloc::{AllocError, Global};
use texts::List;

/// The rank after the last of the entries, None where none is left.
fn rank_after(list: &[Entry]) -> Option<u64>
    ensures { result ≡ rank_for (ranks_of list.now) (length list.now) }
{
    match list.last() {
        None => rank_between(0, None),
        Some(last) => rank_between(last.rank, None),
    }
}

/// The entries, evenly spread.
fn even_entries(alloc: Global, list: &[Entry]) -> Result<List<Entry>, AllocError>
    requires { length list.now < most_entries }
    ensures { IfOk result (λ even. even ≡ with_ranks list.now (evened 1 list.now)) }
{
    let mut even = List::new(alloc);
    let mut n: u64 = 1;
    for x in list {
        even.push(Entry {
            rank: n * RANK_GAP,
            id: x.id.copy(alloc)?,
        })?;
        n += 1;
    }
    Ok(even)
}

fn is_same(a: u64, b: u64) -> bool
    ensures { result ≡ nat_eq a b }
{
    a == b
}

/// A step for each entry whose rank changes, where all are spread evenly.
fn even_reranks(alloc: Global, list: &[Entry], steps: &mut List<Step>) -> Result<(), AllocError>
    requires { length list.now < most_entries }
    ensures { OnOk result (steps.new ≡ steps.old ++ rerank_places list.now (evened 1 list.now)) }
{
    let mut n: u64 = 1;
    for x in list {
        let new = n * RANK_GAP;
        if !is_same(x.rank, new) {
            steps.push(Step::RerankPlace {
                e: x.id.copy(alloc)?,
                old: x.rank,
                new,
            })?;
        }
        n += 1;
    }
    Ok(())
}

/// A new element after the last at the root, with that rank.
fn push_root(
    alloc: Global,
    roots: &mut List<Entry>,
    steps: &mut List<Step>,
    e: &Id,
    class: u32,
    rank: u64,
) -> Result<(), AllocError>
    ensures roots { OnOk result (roots.new ≡ roots.old ++ record { rank = rank; id = e.now } ∷ []) }
    ensures steps { OnOk result (steps.new ≡ steps.old ++ New e.now class Root rank ∷ []) }
{
    roots.push(Entry {
        rank,
        id: e.copy(alloc)?,
    })?;
    steps.push(Step::New {
        e: e.copy(alloc)?,
        class,
        place: Place::Root,
        rank,
    })?;
    Ok(())
}

/// The same where the others are to be renumbered before.
fn spread_root(
    alloc: Global,
    roots: &mut List<Entry>,
    steps: &mut List<Step>,
    e: &Id,
    class: u32,
) -> Result<(), AllocError>
    requires { length roots.old < most_entries }
    ensures roots { OnOk result (roots.new ≡ with_ranks roots.old (evened 1 roots.old) ++ record { rank = (length roots.old + 1) * rank_gap; id = e.now } ∷ []) }
    ensures steps { OnOk result (steps.new ≡ (steps.old ++ rerank_places roots.old (evened 1 roots.old)) ++ New e.now class Root ((length roots.old + 1) * rank_gap) ∷ []) }
{
    let rank = (roots.len() as u64 + 1) * RANK_GAP;
    even_reranks(alloc, roots.as_slice(), steps)?;
    let mut even = even_entries(alloc, roots.as_slice())?;
    push_root(alloc, &mut even, steps, e, class, rank)?;
    *roots = even;
    Ok(())
}

/// An element is created after the last at the root.
///
/// # Errors
///
/// `Bound` where the root is to be renumbered and has `MOST_ENTRIES` elements or more; `Memory`.
pub(crate) fn add_root(
    alloc: Global,
    roots: &mut List<Entry>,
    steps: &mut List<Step>,
    e: &Id,
    class: u32,
) -> Result<(), EditFault>
    ensures room { OnOk result (has_end roots.old ≡ true) }
    ensures roots { OnOk result (roots.new ≡ root_after roots.old e.now) }
    ensures steps { OnOk result (steps.new ≡ steps.old ++ root_made roots.old e.now class) }
    ensures refused { IfErr result (λ x. (x ≡ Memory) ⊎ ((x ≡ Bound) × (has_end roots.old ≡ false))) }
{
    match rank_after(roots.as_slice()) {
        Some(rank) => match push_root(alloc, roots, steps, e, class, rank) {
            Err(_) => Err(EditFault::Memory),
            Ok(()) => Ok(()),
        },
        None => {
            if roots.len() >= MOST_ENTRIES {
                return Err(EditFault::Bound);
            }
            match spread_root(alloc, roots, steps, e, class) {
                Err(_) => Err(EditFault::Memory),
                Ok(()) => Ok(()),
            }
        }
    }
}
