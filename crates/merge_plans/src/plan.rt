//! The plan of an update and of a merge: two packages that begin at one model, and their buckets.
ghost use Rattle.std.specs.Prelude.{ℕ, List, ◌≡◌, ◌<◌, ◌^◌, ◌-◌, All, IfOk, length, map, true};
ghost use Rattle.footprint.specs.Buckets.{buckets as buckets_of};
ghost use Rattle.merge_laws.specs.Tidy.{tidy as tidy_of};
ghost use Rattle.merge_laws.specs.Merge.{merge_list, update_list};
ghost use Rattle.history_tree.specs.MergeBase.{merge_base};
ghost use Rattle.merge_laws.specs.Choices.{are_choices, side_of};
ghost use Rattle.merge_laws.specs.Plans.{theirs_of_update, mine_of_merge, theirs_of_merge};

use crate::gathering::{copy_operations, operations_after, push_copies};
use crate::letters::sides_of;
use canoniser::tidy;
use conflict_buckets::buckets;
use ecore_meta::Metamodel;
use footprint::Buckets;
use history_tree::History;
use merge_choices::{ChoiceFault, merge_package, update_package};
use model_state::{Operation, Package};
use reversals::reverse;
use std::alloc::{AllocError, Global};
use texts::List;

/// Two packages that begin at one model, and their buckets.
#[derive(Drop)]
pub struct Plan {
    pub theirs: Package,
    pub mine: Package,
    pub buckets: Buckets,
}

/// The positions in the buckets of two packages have numbers of 64 bits, counted from 1 too. It does nothing.
fn recall_numbers(_meta: &Metamodel, theirs: &Package, mine: &Package, _buckets: &Buckets)
    requires same { _buckets.now.rows ≡ buckets_of _meta.now theirs.now mine.now }
    ensures places { All (λ b. All (λ i. i < 2 ^ 64 - 1) b.theirs × All (λ i. i < 2 ^ 64 - 1) b.mine) _buckets.now.rows }
{
    // For the bounds of the lengths.
    let _theirs = theirs.len();
    let _mine = mine.len();
}

/// The plan of an update: theirs are the operations of the branch's versions after the base, mine the local ones.
pub fn plan_update(
    alloc: Global,
    meta: &Metamodel,
    history: &History,
    branch: u32,
    base: u32,
    local: &[Operation],
) -> Result<Plan, AllocError>
    requires branch { branch < length history.now.history.branches }
    ensures theirs { IfOk result (λ p. p.theirs ≡ theirs_of_update history.now.history branch base) }
    ensures mine { IfOk result (λ p. p.mine ≡ local.now) }
    ensures buckets { IfOk result (λ p. p.buckets.rows ≡ buckets_of meta.now (theirs_of_update history.now.history branch base) local.now) }
    ensures places { IfOk result (λ p. All (λ b. All (λ i. i < 2 ^ 64 - 1) b.theirs × All (λ i. i < 2 ^ 64 - 1) b.mine) p.buckets.rows) }
{
    let theirs = operations_after(alloc, history, base, history.head(branch))?;
    let mine = copy_operations(alloc, local)?;
    let buckets = buckets(alloc, &theirs, &mine, meta)?;
    recall_numbers(meta, &theirs, &mine, &buckets);
    Ok(Plan {
        theirs,
        mine,
        buckets,
    })
}

/// The operations that lead from where a merge begins to the working model. It begins at `start`.
fn mine_from(
    alloc: Global,
    history: &History,
    base: u32,
    start: u32,
    local: &[Operation],
    other: u32,
) -> Result<Package, AllocError>
    requires base { base < length history.now.history.versions }
    requires other { other < length history.now.history.versions }
    requires start { start < length history.now.history.versions }
    ensures { IfOk result (λ p. (pending : List ℕ) → start ≡ merge_base history.now.history base pending other → p ≡ mine_of_merge history.now.history base pending local.now other) }
{
    let common = history.last_common(base, other);
    let taken = operations_after(alloc, history, common, start)?;
    let mut mine = reverse(alloc, &taken)?;
    let since = operations_after(alloc, history, common, base)?;
    push_copies(alloc, &mut mine, since.as_slice())?;
    push_copies(alloc, &mut mine, local)?;
    Ok(mine)
}

/// The plan of a merge of a version. Theirs are the operations on its path after the one where the merge begins. Mine
/// are those that lead from there to the working model, tidied.
pub fn plan_merge(
    alloc: Global,
    meta: &Metamodel,
    history: &History,
    base: u32,
    pending: &List<u32>,
    local: &[Operation],
    other: u32,
) -> Result<Plan, AllocError>
    requires base { base < length history.now.history.versions }
    requires other { other < length history.now.history.versions }
    requires pending { All (λ v. v < length history.now.history.versions) pending.now }
    ensures theirs { IfOk result (λ p. p.theirs ≡ theirs_of_merge history.now.history base pending.now other) }
    ensures mine { IfOk result (λ p. p.mine ≡ tidy_of meta.now (mine_of_merge history.now.history base pending.now local.now other)) }
    ensures buckets { IfOk result (λ p. p.buckets.rows ≡ buckets_of meta.now (theirs_of_merge history.now.history base pending.now other) (tidy_of meta.now (mine_of_merge history.now.history base pending.now local.now other))) }
    ensures places { IfOk result (λ p. All (λ b. All (λ i. i < 2 ^ 64 - 1) b.theirs × All (λ i. i < 2 ^ 64 - 1) b.mine) p.buckets.rows) }
{
    let start = history.merge_base(alloc, base, pending, other)?;
    let theirs = operations_after(alloc, history, start, other)?;
    let mine = mine_from(alloc, history, base, start, local, other)?;
    let mine = tidy(alloc, &mine, meta)?;
    let buckets = buckets(alloc, &theirs, &mine, meta)?;
    recall_numbers(meta, &theirs, &mine, &buckets);
    Ok(Plan {
        theirs,
        mine,
        buckets,
    })
}

/// The list of choices that fit.
fn fitting(made: Result<Package, ChoiceFault>) -> Result<Package, AllocError>
    ensures { IfOk result (λ p. made ≡ Rattle.std.specs.Prelude.Ok p) }
{
    match made {
        Ok(list) => Ok(list),
        Err(_) => Err(AllocError),
    }
}

impl Plan {
    /// What an update leaves as local operations, by choices that fit.
    pub fn update_list(
        &self,
        alloc: Global,
        meta: &Metamodel,
        letters: &str,
    ) -> Result<Package, AllocError>
        requires buckets { self.now.buckets.rows ≡ buckets_of meta.now self.now.theirs self.now.mine }
        requires fit { are_choices letters.now self.now.buckets.rows ≡ true }
        ensures list { IfOk result (λ p. p ≡ update_list self.now.theirs self.now.mine self.now.buckets.rows (map side_of letters.now)) }
    {
        let sides = sides_of(alloc, letters)?;
        fitting(update_package(
            alloc,
            &self.theirs,
            &self.mine,
            &self.buckets,
            sides.as_slice(),
            meta,
        ))
    }

    /// What a merge appends to the local operations, by choices that fit.
    pub fn merge_list(
        &self,
        alloc: Global,
        meta: &Metamodel,
        letters: &str,
    ) -> Result<Package, AllocError>
        requires buckets { self.now.buckets.rows ≡ buckets_of meta.now self.now.theirs self.now.mine }
        requires fit { are_choices letters.now self.now.buckets.rows ≡ true }
        ensures list { IfOk result (λ p. p ≡ merge_list self.now.theirs self.now.mine self.now.buckets.rows (map side_of letters.now)) }
    {
        let sides = sides_of(alloc, letters)?;
        fitting(merge_package(
            alloc,
            &self.theirs,
            &self.mine,
            &self.buckets,
            sides.as_slice(),
            meta,
        ))
    }
}
