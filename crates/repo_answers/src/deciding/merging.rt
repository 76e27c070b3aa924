//! The commands `update` and `merge`.
ghost use Rattle.std.specs.Prelude.{◌≡◌, ◌≢◌, ◌<◌, [], IfOk, Some, false, length, unwrap_or};
ghost use Rattle.history_tree.specs.History.{head};
ghost use Rattle.plain_repository.specs.Choices.{chosen};
ghost use Rattle.plain_repository.specs.Merging.{decide_merge, decide_update, merge_buckets, merge_to, update_buckets, update_to};
ghost use Rattle.plain_repository.specs.State.{is_open, workspace_of};
ghost use Rattle.repo_state.specs.Keeping.{plain_of};
ghost use Rattle.repo_state.specs.Planning.{IsMergePlan, IsUpdatePlan};
ghost use Rattle.repo_answers.specs.Decisions.{plain_decision, CanMakeIt};

use crate::deciding::answers::{Decision, refuse, tell_number, with_number_foreseen};
use crate::deciding::choosing::{refused_choices, text_or_empty};
use event_play::{Foreseen, merge_by, update_by};
use merge_plans::Plan;
use op_form::Event;
use repo_state::{Begun, Repo, Workspace};
use script_lang::Refusal;
use std::alloc::{AllocError, Global};
use texts::Text;

/// `update WS [CHOICES]`: the workspace comes to its branch's head.
#[tactic(auto, unfolding(plain_repository::specs::Merging::decide_update))]
pub(crate) fn decide_update(
    alloc: Global,
    repo: &Repo,
    begun: &Begun,
    ws: u32,
    choices: &Option<Text>,
) -> Result<Decision, AllocError>
    requires meta { repo.now.meta ≡ Some begun.now.meta }
    requires history { repo.now.history ≡ begun.now.history.history }
    ensures decision { IfOk result (λ d. plain_decision d ≡ decide_update repo.now begun.now.meta ws choices.now) }
    ensures made { IfOk result (λ d. CanMakeIt repo.now d.made) }
{
    let Some(workspace) = repo.workspace(ws) else {
        return Ok(refuse(alloc, Refusal::NoWorkspace));
    };
    if workspace.is_open() {
        return Ok(refuse(alloc, Refusal::CompositeOpen));
    }
    repo.recall_order();
    let plan = begun.update_plan(alloc, workspace)?;
    decide_update_of(alloc, repo, begun, ws, workspace, plan, choices)
}

/// The same, by the plan of the update, of a workspace without an open composite.
fn decide_update_of(
    alloc: Global,
    repo: &Repo,
    begun: &Begun,
    ws: u32,
    workspace: &Workspace,
    plan: Plan,
    choices: &Option<Text>,
) -> Result<Decision, AllocError>
    requires meta { repo.now.meta ≡ Some begun.now.meta }
    requires history { repo.now.history ≡ begun.now.history.history }
    requires there { workspace_of repo.now ws ≡ Some (plain_of workspace.now) }
    requires closed { is_open (Some (plain_of workspace.now)) ≡ false }
    requires plan { IsUpdatePlan begun.now.meta begun.now.history.history (plain_of workspace.now) plan }
    requires branch { workspace.now.branch < length begun.now.history.history.branches }
    ensures decision { IfOk result (λ d. plain_decision d ≡ chosen (update_buckets begun.now.meta repo.now.history (plain_of workspace.now)) choices.now (update_to repo.now ws (plain_of workspace.now) (unwrap_or choices.now []) (head repo.now.history workspace.now.branch))) }
    ensures made { IfOk result (λ d. CanMakeIt repo.now d.made) }
{
    if let Some(refused) = refused_choices(alloc, &plan.buckets, choices)? {
        return Ok(refused);
    }
    let head = begun.history.head(workspace.branch);
    if workspace.base == head {
        return tell_number(alloc, head as u64);
    }
    let choices = text_or_empty(alloc, choices)?;
    let updated = update_by(alloc, repo, begun, ws, workspace, head, plan, &choices)?;
    let event = Event::Update { ws, choices };
    with_number_foreseen(alloc, repo, head as u64, event, Foreseen::Update(updated))
}

/// `merge WS BRANCH [CHOICES]`: what another branch has comes after what the workspace has.
#[tactic(auto, unfolding(plain_repository::specs::Merging::decide_merge))]
pub(crate) fn decide_merge(
    alloc: Global,
    repo: &Repo,
    begun: &Begun,
    ws: u32,
    name: &Text,
    choices: &Option<Text>,
) -> Result<Decision, AllocError>
    requires meta { repo.now.meta ≡ Some begun.now.meta }
    requires history { repo.now.history ≡ begun.now.history.history }
    ensures decision { IfOk result (λ d. plain_decision d ≡ decide_merge repo.now begun.now.meta ws name.now choices.now) }
    ensures made { IfOk result (λ d. CanMakeIt repo.now d.made) }
{
    let Some(workspace) = repo.workspace(ws) else {
        return Ok(refuse(alloc, Refusal::NoWorkspace));
    };
    if workspace.is_open() {
        return Ok(refuse(alloc, Refusal::CompositeOpen));
    }
    let Some(branch) = begun.history.branch_named(name.as_str()) else {
        return Ok(refuse(alloc, Refusal::NoBranch));
    };
    if branch == workspace.branch {
        return Ok(refuse(alloc, Refusal::SameBranch));
    }
    repo.recall_order();
    decide_merge_of(alloc, repo, begun, ws, workspace, branch, choices)
}

/// The same, of a branch that is there and another than the workspace's.
fn decide_merge_of(
    alloc: Global,
    repo: &Repo,
    begun: &Begun,
    ws: u32,
    workspace: &Workspace,
    branch: u32,
    choices: &Option<Text>,
) -> Result<Decision, AllocError>
    requires meta { repo.now.meta ≡ Some begun.now.meta }
    requires history { repo.now.history ≡ begun.now.history.history }
    requires there { workspace_of repo.now ws ≡ Some (plain_of workspace.now) }
    requires closed { is_open (Some (plain_of workspace.now)) ≡ false }
    requires branch { branch < length repo.now.history.branches }
    requires other { branch ≢ workspace.now.branch }
    ensures decision { IfOk result (λ d. plain_decision d ≡ chosen (merge_buckets begun.now.meta repo.now.history (plain_of workspace.now) (head repo.now.history branch)) choices.now (merge_to repo.now ws (plain_of workspace.now) branch (unwrap_or choices.now []) (head repo.now.history branch))) }
    ensures made { IfOk result (λ d. CanMakeIt repo.now d.made) }
{
    repo.recall_order();
    let head = begun.history.head(branch);
    let plan = begun.merge_plan(alloc, workspace, head)?;
    decide_merge_by(
        alloc, repo, begun, ws, workspace, branch, head, plan, choices,
    )
}

/// The same, by the plan of the merge of the branch's head.
fn decide_merge_by(
    alloc: Global,
    repo: &Repo,
    begun: &Begun,
    ws: u32,
    workspace: &Workspace,
    branch: u32,
    other: u32,
    plan: Plan,
    choices: &Option<Text>,
) -> Result<Decision, AllocError>
    requires meta { repo.now.meta ≡ Some begun.now.meta }
    requires history { repo.now.history ≡ begun.now.history.history }
    requires there { workspace_of repo.now ws ≡ Some (plain_of workspace.now) }
    requires closed { is_open (Some (plain_of workspace.now)) ≡ false }
    requires branch { branch < length repo.now.history.branches }
    requires apart { branch ≢ workspace.now.branch }
    requires at { other ≡ head begun.now.history.history branch }
    requires plan { IsMergePlan begun.now.meta begun.now.history.history (plain_of workspace.now) other plan }
    ensures decision { IfOk result (λ d. plain_decision d ≡ chosen (merge_buckets begun.now.meta repo.now.history (plain_of workspace.now) (head repo.now.history branch)) choices.now (merge_to repo.now ws (plain_of workspace.now) branch (unwrap_or choices.now []) (head repo.now.history branch))) }
    ensures made { IfOk result (λ d. CanMakeIt repo.now d.made) }
{
    if let Some(refused) = refused_choices(alloc, &plan.buckets, choices)? {
        return Ok(refused);
    }
    if plan.theirs.len() == 0 {
        return tell_number(alloc, other as u64);
    }
    let choices = text_or_empty(alloc, choices)?;
    let merged = merge_by(
        alloc, repo, begun, ws, workspace, branch, other, plan, &choices,
    )?;
    let event = Event::Merge {
        ws,
        branch,
        choices,
    };
    with_number_foreseen(alloc, repo, other as u64, event, Foreseen::Merge(merged))
}
