//! The commands `commit`, `signed`, `upgrade`, `branch` and `tag`.
ghost use Rattle.std.specs.Prelude.{◌≡◌, [], IfOk, is_some, unwrap_or, true, Some};
ghost use Rattle.plain_repository.specs.Commits.{decide_branch, decide_commit, decide_signed, decide_tag, decide_upgrade, version_event, version_made};
ghost use Rattle.model_state.specs.Names.{is_name};
ghost use Rattle.plain_repository.specs.State.{workspace_of};
ghost use Rattle.repo_state.specs.Keeping.{plain_of};
ghost use Rattle.repo_answers.specs.Decisions.{plain_decision, CanMakeIt, IsAuthor};

use crate::deciding::answers::{Decision, refuse, tell_lines, with_event, with_number};
use crate::deciding::choosing::text_or_empty;
use crate::deciding::naming::{find, unknown};
use history_tree::Signature;
use op_form::Event;
use repo_state::{Begun, Repo, Workspace};
use script_lang::{Refusal, Spec};
use std::alloc::{AllocError, Global};
use texts::{List, Text};

/// The event by which a workspace makes a version: Signed where there is a signature.
fn version_event(ws: u32, signature: Option<Signature>, message: Text) -> Event
    ensures { result ≡ version_event ws signature message }
{
    match signature {
        None => Event::Commit { ws, message },
        Some(Signature { author, moment }) => Event::Signed {
            ws,
            author,
            moment,
            message,
        },
    }
}

/// What is local is a new version, where the base is the head of its branch.
fn make_version(
    alloc: Global,
    repo: &Repo,
    begun: &Begun,
    ws: u32,
    workspace: &Workspace,
    signature: Option<Signature>,
    message: &Option<Text>,
) -> Result<Decision, AllocError>
    requires meta { repo.now.meta ≡ Some begun.now.meta }
    requires history { repo.now.history ≡ begun.now.history.history }
    requires there { workspace_of repo.now ws ≡ Some (plain_of workspace.now) }
    requires suits { repo.now.upgraded ≡ is_some signature }
    requires author { IsAuthor signature }
    ensures decision { IfOk result (λ d. plain_decision d ≡ version_made repo.now (plain_of workspace.now) (version_event ws signature (unwrap_or message.now []))) }
    ensures made { IfOk result (λ d. CanMakeIt repo.now d.made) }
{
    repo.recall_order();
    let head = begun.history.head(workspace.branch);
    if workspace.base != head {
        return Ok(refuse(
            alloc,
            Refusal::Stale {
                base: workspace.base,
                head,
            },
        ));
    }
    if workspace.is_open() {
        return Ok(refuse(alloc, Refusal::CompositeOpen));
    }
    if !workspace.has_local() {
        return Ok(refuse(alloc, Refusal::NothingLocal));
    }
    let message = text_or_empty(alloc, message)?;
    let number = begun.history.version_count() as u64;
    with_number(alloc, repo, number, version_event(ws, signature, message))
}

/// `commit WS [MESSAGE]`: what is local is a new version, where the store is not upgraded.
#[tactic(auto, unfolding(plain_repository::specs::Commits::decide_commit))]
pub(crate) fn decide_commit(
    alloc: Global,
    repo: &Repo,
    begun: &Begun,
    ws: u32,
    message: &Option<Text>,
) -> Result<Decision, AllocError>
    requires meta { repo.now.meta ≡ Some begun.now.meta }
    requires history { repo.now.history ≡ begun.now.history.history }
    ensures decision { IfOk result (λ d. plain_decision d ≡ decide_commit repo.now ws message.now) }
    ensures made { IfOk result (λ d. CanMakeIt repo.now d.made) }
{
    let Some(workspace) = repo.workspace(ws) else {
        return Ok(refuse(alloc, Refusal::NoWorkspace));
    };
    if repo.is_upgraded() {
        return Ok(refuse(alloc, Refusal::Unsigned));
    }
    make_version(alloc, repo, begun, ws, workspace, None, message)
}

/// `signed WS AUTHOR MOMENT [MESSAGE]`: the same with author and moment, where the store is upgraded.
#[tactic(auto, unfolding(plain_repository::specs::Commits::decide_signed))]
pub(crate) fn decide_signed(
    alloc: Global,
    repo: &Repo,
    begun: &Begun,
    ws: u32,
    author: &Text,
    moment: u64,
    message: &Option<Text>,
) -> Result<Decision, AllocError>
    requires meta { repo.now.meta ≡ Some begun.now.meta }
    requires history { repo.now.history ≡ begun.now.history.history }
    requires author { is_name author.now ≡ true }
    ensures decision { IfOk result (λ d. plain_decision d ≡ decide_signed repo.now ws author.now moment message.now) }
    ensures made { IfOk result (λ d. CanMakeIt repo.now d.made) }
{
    let Some(workspace) = repo.workspace(ws) else {
        return Ok(refuse(alloc, Refusal::NoWorkspace));
    };
    if !repo.is_upgraded() {
        return Ok(refuse(alloc, Refusal::OldForm));
    }
    let signature = Signature {
        author: author.copy(alloc)?,
        moment,
    };
    make_version(alloc, repo, begun, ws, workspace, Some(signature), message)
}

/// `upgrade`: each later version is signed.
#[tactic(auto, unfolding(plain_repository::specs::Commits::decide_upgrade))]
pub(crate) fn decide_upgrade(alloc: Global, repo: &Repo) -> Result<Decision, AllocError>
    requires begun { is_some repo.now.meta ≡ true }
    ensures decision { IfOk result (λ d. plain_decision d ≡ decide_upgrade repo.now) }
    ensures made { IfOk result (λ d. CanMakeIt repo.now d.made) }
{
    if repo.is_upgraded() {
        return tell_lines(alloc, List::new(alloc));
    }
    with_event(alloc, repo, Event::Upgrade)
}

/// `branch WS NAME`: a branch that starts at the base.
#[tactic(auto, unfolding(plain_repository::specs::Commits::decide_branch))]
pub(crate) fn decide_branch(
    alloc: Global,
    repo: &Repo,
    begun: &Begun,
    ws: u32,
    name: &Text,
) -> Result<Decision, AllocError>
    requires meta { repo.now.meta ≡ Some begun.now.meta }
    requires history { repo.now.history ≡ begun.now.history.history }
    requires name { is_name name.now ≡ true }
    ensures decision { IfOk result (λ d. plain_decision d ≡ decide_branch repo.now ws name.now) }
    ensures made { IfOk result (λ d. CanMakeIt repo.now d.made) }
{
    let Some(workspace) = repo.workspace(ws) else {
        return Ok(refuse(alloc, Refusal::NoWorkspace));
    };
    if workspace.is_open() {
        return Ok(refuse(alloc, Refusal::CompositeOpen));
    }
    if begun.history.branch_named(name.as_str()).is_some() {
        return Ok(refuse(alloc, Refusal::BranchExists));
    }
    let name = name.copy(alloc)?;
    with_event(alloc, repo, Event::Branch { ws, name })
}

/// `tag NAME SPEC`.
#[tactic(auto, unfolding(plain_repository::specs::Commits::decide_tag))]
pub(crate) fn decide_tag(
    alloc: Global,
    repo: &Repo,
    begun: &Begun,
    name: &Text,
    spec: &Spec,
) -> Result<Decision, AllocError>
    requires meta { repo.now.meta ≡ Some begun.now.meta }
    requires history { repo.now.history ≡ begun.now.history.history }
    requires name { is_name name.now ≡ true }
    ensures decision { IfOk result (λ d. plain_decision d ≡ decide_tag repo.now name.now spec.now) }
    ensures made { IfOk result (λ d. CanMakeIt repo.now d.made) }
{
    if begun.history.has_tag(name.as_str()) {
        return Ok(refuse(alloc, Refusal::TagExists));
    }
    let found = match find(&begun.history, spec) {
        Ok(found) => found,
        Err(fault) => return Ok(refuse(alloc, unknown(fault))),
    };
    let name = name.copy(alloc)?;
    let version = found.version;
    with_event(alloc, repo, Event::Tag { name, version })
}
