//! What the events Tidy, Update and Merge make of a workspace. Each call changes nothing when out of memory.
ghost use Rattle.std.specs.Prelude.{◌≡◌, IfOk, IsErrOf, OnErr, OnOk, Some, false, true};
ghost use Rattle.history_tree.specs.History.{head};
ghost use Rattle.merge_laws.specs.Choices.{are_choices};
ghost use Rattle.op_form.specs.declared.event.Event.TheVariants.{Merge, Tidy, Update};
ghost use Rattle.op_form.specs.Formed.{IsEvent};
ghost use Rattle.plain_repository.specs.Events.{effect, playable_with};
ghost use Rattle.plain_repository.specs.State.{with_changed, workspace_of};
ghost use Rattle.repo_state.specs.Keeping.{plain_of};
ghost use Rattle.repo_state.specs.Planning.{IsMergePlan, IsUpdatePlan, KeepModel, replaced};
ghost use Rattle.event_play.specs.Foreseen.{IsForeseen, IsMerge, IsUpdate};

use crate::foreseen::Foreseen;
use canoniser::{is_tidy, tidy as tidy_package};
use merge_plans::{Plan, are_choices, copy_operations};
use model_state::Package;
use repo_state::{Begun, Merged, PlayFault, Repo, Updated, Workspace};
use std::alloc::{AllocError, Global};
use texts::Text;

/// The operations of a workspace once it is tidied.
fn tidied(alloc: Global, repo: &Repo, ws: u32) -> Result<Package, PlayFault>
    ensures could { IfOk result (λ _. playable_with repo.now repo.now.meta (Tidy ws) ≡ true) }
    ensures leads { IfOk result (λ l. with_changed (replaced l) ws repo.now ≡ effect repo.now (Tidy ws)) }
    ensures model { IfOk result (λ l. KeepModel repo.now ws l) }
    ensures cannot { IsErrOf result PlayFault.NotPlayable → playable_with repo.now repo.now.meta (Tidy ws) ≡ false }
{
    let Some(begun) = repo.begun() else {
        return Err(PlayFault::NotPlayable);
    };
    let Some(workspace) = repo.workspace(ws) else {
        return Err(PlayFault::NotPlayable);
    };
    if workspace.is_open() {
        return Err(PlayFault::NotPlayable);
    }
    let package = copy_operations(alloc, workspace.operations())?;
    if is_tidy(alloc, &package, &begun.meta)? {
        return Err(PlayFault::NotPlayable);
    }
    repo.recall_order();
    let list = tidy_package(alloc, &package, &begun.meta)?;
    Ok(list)
}

/// What is local in a workspace once it is updated to the head of its branch by a plan, and by choices that fit it.
pub fn update_by(
    alloc: Global,
    _repo: &Repo,
    begun: &Begun,
    _ws: u32,
    _workspace: &Workspace,
    base: u32,
    plan: Plan,
    letters: &Text,
) -> Result<Updated, AllocError>
    requires meta { _repo.now.meta ≡ Some begun.now.meta }
    requires history { _repo.now.history ≡ begun.now.history.history }
    requires there { workspace_of _repo.now _ws ≡ Some (plain_of _workspace.now) }
    requires at { base ≡ head begun.now.history.history _workspace.now.branch }
    requires plan { IsUpdatePlan begun.now.meta begun.now.history.history (plain_of _workspace.now) plan }
    requires fit { are_choices letters.now plan.buckets.rows ≡ true }
    requires could { playable_with _repo.now _repo.now.meta (Update _ws letters.now) ≡ true }
    ensures { IfOk result (λ u. IsUpdate _repo.now _ws letters.now u) }
{
    _repo.recall_order();
    let operations = plan.update_list(alloc, &begun.meta, letters.as_str())?;
    Ok(Updated {
        base,
        theirs: plan.theirs,
        operations,
    })
}

/// The same, by choices that may not fit.
fn updated(alloc: Global, repo: &Repo, ws: u32, letters: &Text) -> Result<Updated, PlayFault>
    ensures update { IfOk result (λ u. IsUpdate repo.now ws letters.now u) }
    ensures cannot { IsErrOf result PlayFault.NotPlayable → playable_with repo.now repo.now.meta (Update ws letters.now) ≡ false }
{
    let Some(begun) = repo.begun() else {
        return Err(PlayFault::NotPlayable);
    };
    let Some(workspace) = repo.workspace(ws) else {
        return Err(PlayFault::NotPlayable);
    };
    repo.recall_order();
    let head = begun.history.head(workspace.branch);
    if workspace.is_open() || workspace.base == head {
        return Err(PlayFault::NotPlayable);
    }
    let plan = begun.update_plan(alloc, workspace)?;
    if !are_choices(letters.as_str(), plan.buckets.rows.as_slice()) {
        return Err(PlayFault::NotPlayable);
    }
    let updated = update_by(alloc, repo, begun, ws, workspace, head, plan, letters)?;
    Ok(updated)
}

/// What was foreseen of an update, or else what is found out now.
fn update_seen(
    alloc: Global,
    repo: &Repo,
    ws: u32,
    letters: &Text,
    foreseen: Foreseen,
) -> Result<Updated, PlayFault>
    requires foreseen { IsForeseen repo.now (Update ws letters.now) foreseen }
    ensures update { IfOk result (λ u. IsUpdate repo.now ws letters.now u) }
    ensures cannot { IsErrOf result PlayFault.NotPlayable → playable_with repo.now repo.now.meta (Update ws letters.now) ≡ false }
{
    match foreseen {
        Foreseen::Update(updated) => Ok(updated),
        Foreseen::Nothing => updated(alloc, repo, ws, letters),
        Foreseen::Merge(_) => unreachable!(),
    }
}

/// What a merge of another branch, whose head the version is, brings into a workspace by a plan, and by choices that fit it.
pub fn merge_by(
    alloc: Global,
    _repo: &Repo,
    begun: &Begun,
    _ws: u32,
    _workspace: &Workspace,
    _branch: u32,
    version: u32,
    plan: Plan,
    letters: &Text,
) -> Result<Merged, AllocError>
    requires meta { _repo.now.meta ≡ Some begun.now.meta }
    requires history { _repo.now.history ≡ begun.now.history.history }
    requires there { workspace_of _repo.now _ws ≡ Some (plain_of _workspace.now) }
    requires at { version ≡ head begun.now.history.history _branch }
    requires plan { IsMergePlan begun.now.meta begun.now.history.history (plain_of _workspace.now) version plan }
    requires fit { are_choices letters.now plan.buckets.rows ≡ true }
    requires could { playable_with _repo.now _repo.now.meta (Merge _ws _branch letters.now) ≡ true }
    ensures { IfOk result (λ m. IsMerge _repo.now _ws _branch letters.now m) }
{
    let more = plan.merge_list(alloc, &begun.meta, letters.as_str())?;
    Ok(Merged { more, version })
}

/// The same, by choices that may not fit.
fn merged(
    alloc: Global,
    repo: &Repo,
    ws: u32,
    branch: u32,
    letters: &Text,
) -> Result<Merged, PlayFault>
    ensures merge { IfOk result (λ m. IsMerge repo.now ws branch letters.now m) }
    ensures cannot { IsErrOf result PlayFault.NotPlayable → playable_with repo.now repo.now.meta (Merge ws branch letters.now) ≡ false }
{
    let Some(begun) = repo.begun() else {
        return Err(PlayFault::NotPlayable);
    };
    let Some(workspace) = repo.workspace(ws) else {
        return Err(PlayFault::NotPlayable);
    };
    if workspace.is_open() || branch >= begun.history.branch_count() || branch == workspace.branch {
        return Err(PlayFault::NotPlayable);
    }
    repo.recall_order();
    let version = begun.history.head(branch);
    let plan = begun.merge_plan(alloc, workspace, version)?;
    if plan.theirs.len() == 0 || !are_choices(letters.as_str(), plan.buckets.rows.as_slice()) {
        return Err(PlayFault::NotPlayable);
    }
    let merged = merge_by(
        alloc, repo, begun, ws, workspace, branch, version, plan, letters,
    )?;
    Ok(merged)
}

/// What was foreseen of a merge, or else what is found out now.
fn merge_seen(
    alloc: Global,
    repo: &Repo,
    ws: u32,
    branch: u32,
    letters: &Text,
    foreseen: Foreseen,
) -> Result<Merged, PlayFault>
    requires foreseen { IsForeseen repo.now (Merge ws branch letters.now) foreseen }
    ensures merge { IfOk result (λ m. IsMerge repo.now ws branch letters.now m) }
    ensures cannot { IsErrOf result PlayFault.NotPlayable → playable_with repo.now repo.now.meta (Merge ws branch letters.now) ≡ false }
{
    match foreseen {
        Foreseen::Merge(merged) => Ok(merged),
        Foreseen::Nothing => merged(alloc, repo, ws, branch, letters),
        Foreseen::Update(_) => unreachable!(),
    }
}

/// Tidies a workspace.
pub(crate) fn tidy(alloc: Global, repo: &mut Repo, ws: u32) -> Result<(), PlayFault>
    requires spelled { IsEvent (Tidy ws) }
    ensures could { OnOk result (playable_with repo.old repo.old.meta (Tidy ws) ≡ true) }
    ensures done { OnOk result (repo.new ≡ effect repo.old (Tidy ws)) }
    ensures same { OnErr result (repo.new ≡ repo.old) }
    ensures cannot { IsErrOf result PlayFault.NotPlayable → playable_with repo.old repo.old.meta (Tidy ws) ≡ false }
{
    repo.recall_order();
    let operations = tidied(alloc, repo, ws)?;
    repo.replace_operations(alloc, ws, operations);
    Ok(())
}

/// Updates a workspace by choices.
pub(crate) fn update(
    alloc: Global,
    repo: &mut Repo,
    ws: u32,
    letters: &Text,
    foreseen: Foreseen,
) -> Result<(), PlayFault>
    requires spelled { IsEvent (Update ws letters.now) }
    requires foreseen { IsForeseen repo.old (Update ws letters.now) foreseen }
    ensures could { OnOk result (playable_with repo.old repo.old.meta (Update ws letters.now) ≡ true) }
    ensures done { OnOk result (repo.new ≡ effect repo.old (Update ws letters.now)) }
    ensures same { OnErr result (repo.new ≡ repo.old) }
    ensures cannot { IsErrOf result PlayFault.NotPlayable → playable_with repo.old repo.old.meta (Update ws letters.now) ≡ false }
{
    repo.recall_order();
    let updated = update_seen(alloc, repo, ws, letters, foreseen)?;
    repo.update(alloc, ws, updated);
    Ok(())
}

/// Merges another branch into a workspace by choices.
pub(crate) fn merge(
    alloc: Global,
    repo: &mut Repo,
    ws: u32,
    branch: u32,
    letters: &Text,
    foreseen: Foreseen,
) -> Result<(), PlayFault>
    requires spelled { IsEvent (Merge ws branch letters.now) }
    requires foreseen { IsForeseen repo.old (Merge ws branch letters.now) foreseen }
    ensures could { OnOk result (playable_with repo.old repo.old.meta (Merge ws branch letters.now) ≡ true) }
    ensures done { OnOk result (repo.new ≡ effect repo.old (Merge ws branch letters.now)) }
    ensures same { OnErr result (repo.new ≡ repo.old) }
    ensures cannot { IsErrOf result PlayFault.NotPlayable → playable_with repo.old repo.old.meta (Merge ws branch letters.now) ≡ false }
{
    repo.recall_order();
    let merged = merge_seen(alloc, repo, ws, branch, letters, foreseen)?;
    repo.take_up(alloc, ws, merged)?;
    Ok(())
}
