//! The commands that only show: `changes`, `show`, `validate`, `cat`, `package` and `log`.
ghost use Rattle.std.specs.Prelude.{◌≡◌, IfOk, IfNone, IfSome, OnOk, ◌++◌, None, Some};
ghost use Rattle.std.specs.Option.{option_copied, option_map};
ghost use Rattle.plain_repository.specs.State.{workspace_of};
ghost use Rattle.plain_repository.specs.Views.{lines_of_open, decide_changes, decide_show, decide_cat, decide_validate, decide_log, decide_package};
ghost use Rattle.shown_lines.specs.Typed.{AreTyped};
ghost use Rattle.plain_repository.specs.Specs.{found_by_spec};
ghost use Rattle.version_states.specs.Cached.{MayUse, Uses};
ghost use Rattle.repo_answers.specs.Shown.{FoundFirst};
ghost use Rattle.repo_state.specs.Cached.{HasEncodings};
ghost use Rattle.repo_state.specs.Keeping.{plain_composite};
ghost use Rattle.repo_state.specs.Working.{IsWorkingModel};
ghost use Rattle.repo_answers.specs.Decisions.{plain_decision, CanMakeIt};

use crate::deciding::answers::{Decision, refuse, tell_lines};
use crate::deciding::models::recall_settled;
use crate::deciding::naming::{find, model_lines, text_of, unknown};
use data_lines::{log_lines, open_lines, operation_lines, package_lines, validate_lines};
use ecore_meta::Metamodel;
use merge_plans::copy_operations;
use model_graph::Graph;
use op_form::is_package;
use page_pool::Pool;
use repo_state::{Begun, Composite, Repo};
use script_lang::{Refusal, Spec};
use state_cache::Cache;
use std::alloc::{AllocError, Global};
use texts::{List, Text};

/// Lines come after others.
fn push_lines(alloc: Global, lines: &mut List<Text>, more: &List<Text>) -> Result<(), AllocError>
    ensures { OnOk result (lines.new ≡ lines.old ++ more.now) }
{
    for line in more.as_slice() {
        lines.push(line.copy(alloc)?)?;
    }
    Ok(())
}

/// The lines of the composite that is open come after others.
fn push_open_lines(
    alloc: Global,
    lines: &mut List<Text>,
    composite: Option<&Composite>,
    meta: &Metamodel,
) -> Result<(), AllocError>
    requires typed { IfSome composite (λ c. AreTyped meta.now c.now.steps.items) }
    ensures lines { OnOk result (lines.new ≡ lines.old ++ lines_of_open meta.now (option_map plain_composite (option_copied composite.entry))) }
{
    let Some(composite) = composite else {
        return Ok(());
    };
    let open = open_lines(alloc, &composite.name, composite.steps.as_slice(), meta)?;
    push_lines(alloc, lines, &open)
}

/// `changes WS`: the operations and the open composite, line by line.
#[tactic(auto, unfolding(plain_repository::specs::Views::decide_changes))]
pub(crate) fn decide_changes(
    alloc: Global,
    repo: &Repo,
    begun: &Begun,
    ws: u32,
) -> Result<Decision, AllocError>
    requires meta { repo.now.meta ≡ Some begun.now.meta }
    requires history { repo.now.history ≡ begun.now.history.history }
    ensures decision { IfOk result (λ d. plain_decision d ≡ decide_changes repo.now begun.now.meta ws) }
    ensures made { IfOk result (λ d. CanMakeIt repo.now d.made) }
{
    let Some(workspace) = repo.workspace(ws) else {
        return Ok(refuse(alloc, Refusal::NoWorkspace));
    };
    repo.recall_order();
    begun.meta.recall_soundness();
    let mut lines = operation_lines(alloc, workspace.operations(), &begun.meta)?;
    push_open_lines(alloc, &mut lines, workspace.composite(), &begun.meta)?;
    tell_lines(alloc, lines)
}

/// `show WS`: the text of the working model.
#[tactic(auto, unfolding(plain_repository::specs::Views::decide_show))]
pub(crate) fn decide_show(
    alloc: Global,
    repo: &Repo,
    begun: &Begun,
    ws: u32,
    model: Option<&Graph>,
) -> Result<Decision, AllocError>
    requires meta { repo.now.meta ≡ Some begun.now.meta }
    requires history { repo.now.history ≡ begun.now.history.history }
    requires model { IfSome model (λ m. IsWorkingModel repo.now ws m.now) }
    requires none { IfNone model (workspace_of repo.now ws ≡ None) }
    ensures decision { IfOk result (λ d. plain_decision d ≡ decide_show repo.now begun.now.meta ws) }
    ensures made { IfOk result (λ d. CanMakeIt repo.now d.made) }
{
    let Some(workspace) = repo.workspace(ws) else {
        return Ok(refuse(alloc, Refusal::NoWorkspace));
    };
    let Some(model) = model else {
        return Ok(refuse(alloc, Refusal::NoWorkspace));
    };
    recall_settled(repo, begun, ws, workspace, model);
    let lines = model_lines(alloc, model, &begun.meta)?;
    tell_lines(alloc, lines)
}

/// `validate WS`: the features that are below their lower bounds.
#[tactic(auto, unfolding(plain_repository::specs::Views::decide_validate))]
pub(crate) fn decide_validate(
    alloc: Global,
    repo: &Repo,
    begun: &Begun,
    ws: u32,
    model: Option<&Graph>,
) -> Result<Decision, AllocError>
    requires meta { repo.now.meta ≡ Some begun.now.meta }
    requires history { repo.now.history ≡ begun.now.history.history }
    requires model { IfSome model (λ m. IsWorkingModel repo.now ws m.now) }
    requires none { IfNone model (workspace_of repo.now ws ≡ None) }
    ensures decision { IfOk result (λ d. plain_decision d ≡ decide_validate repo.now begun.now.meta ws) }
    ensures made { IfOk result (λ d. CanMakeIt repo.now d.made) }
{
    let Some(workspace) = repo.workspace(ws) else {
        return Ok(refuse(alloc, Refusal::NoWorkspace));
    };
    let Some(model) = model else {
        return Ok(refuse(alloc, Refusal::NoWorkspace));
    };
    recall_settled(repo, begun, ws, workspace, model);
    let lines = validate_lines(alloc, model, &begun.meta)?;
    tell_lines(alloc, lines)
}

/// `cat SPEC`: the text of the version.
#[tactic(auto, unfolding(plain_repository::specs::Views::decide_cat), using(version_states::proofs::Caching::uses_none))]
pub(crate) fn decide_cat(
    alloc: Global,
    cache: &mut Cache,
    pool: &mut Pool,
    repo: &Repo,
    begun: &Begun,
    spec: &Spec,
) -> Result<Decision, AllocError>
    requires meta { repo.now.meta ≡ Some begun.now.meta }
    requires history { repo.now.history ≡ begun.now.history.history }
    requires usable { MayUse pool.old cache.old }
    requires forms { HasEncodings repo.now pool.old cache.old }
    ensures decision { IfOk result (λ d. plain_decision d ≡ decide_cat repo.now begun.now.meta spec.now) }
    ensures made { IfOk result (λ d. CanMakeIt repo.now d.made) }
    ensures first { OnOk result (FoundFirst begun.now.meta repo.now.history (found_by_spec repo.now.history spec.now) cache.new) }
    ensures uses { Uses pool.old pool.new cache.old cache.new }
    ensures forms { HasEncodings repo.now pool.new cache.new }
{
    let found = match find(&begun.history, spec) {
        Ok(found) => found,
        Err(fault) => return Ok(refuse(alloc, unknown(fault))),
    };
    let lines = text_of(alloc, cache, pool, repo, begun, found.version)?;
    tell_lines(alloc, lines)
}

/// `package SPEC`: the operations of the version, and their bytes.
#[tactic(auto, unfolding(plain_repository::specs::Views::decide_package))]
pub(crate) fn decide_package(
    alloc: Global,
    repo: &Repo,
    begun: &Begun,
    spec: &Spec,
) -> Result<Decision, AllocError>
    requires meta { repo.now.meta ≡ Some begun.now.meta }
    requires history { repo.now.history ≡ begun.now.history.history }
    ensures decision { IfOk result (λ d. plain_decision d ≡ decide_package repo.now begun.now.meta spec.now) }
    ensures made { IfOk result (λ d. CanMakeIt repo.now d.made) }
{
    let found = match find(&begun.history, spec) {
        Ok(found) => found,
        Err(fault) => return Ok(refuse(alloc, unknown(fault))),
    };
    let version = begun.history.version(found.version);
    let package = copy_operations(alloc, version.package.as_slice())?;
    if !is_package(&package) {
        return Ok(refuse(alloc, Refusal::TooLarge));
    }
    repo.recall_order();
    begun.meta.recall_soundness();
    let lines = package_lines(alloc, &package, &begun.meta)?;
    tell_lines(alloc, lines)
}

/// `log`: the versions.
#[tactic(auto, unfolding(plain_repository::specs::Views::decide_log))]
pub(crate) fn decide_log(alloc: Global, _repo: &Repo, begun: &Begun) -> Result<Decision, AllocError>
    requires history { _repo.now.history ≡ begun.now.history.history }
    ensures decision { IfOk result (λ d. plain_decision d ≡ decide_log _repo.now) }
    ensures made { IfOk result (λ d. CanMakeIt _repo.now d.made) }
{
    let lines = log_lines(alloc, &begun.history)?;
    tell_lines(alloc, lines)
}
