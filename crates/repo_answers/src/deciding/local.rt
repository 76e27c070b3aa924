//! The commands `undo` and `discard`.
ghost use Rattle.std.specs.Prelude.{◌≡◌, ◌≢◌, IfOk, None};
ghost use Rattle.plain_repository.specs.Local.{decide_undo, decide_discard};
ghost use Rattle.repo_answers.specs.Decisions.{plain_decision, CanMakeIt};

use crate::deciding::answers::{Decision, refuse, tell_lines, with_event};
use op_form::Event;
use repo_state::Repo;
use script_lang::Refusal;
use std::alloc::{AllocError, Global};
use texts::List;

/// `undo WS`.
#[tactic(auto, unfolding(plain_repository::specs::Local::decide_undo))]
pub(crate) fn decide_undo(alloc: Global, repo: &Repo, ws: u32) -> Result<Decision, AllocError>
    requires begun { repo.now.meta ≢ None }
    ensures decision { IfOk result (λ d. plain_decision d ≡ decide_undo repo.now ws) }
    ensures made { IfOk result (λ d. CanMakeIt repo.now d.made) }
{
    let Some(workspace) = repo.workspace(ws) else {
        return Ok(refuse(alloc, Refusal::NoWorkspace));
    };
    if workspace.is_open() {
        return Ok(refuse(alloc, Refusal::CompositeOpen));
    }
    if !workspace.has_operations() {
        return Ok(refuse(alloc, Refusal::NothingLocal));
    }
    with_event(alloc, repo, Event::Undo { ws })
}

/// `discard WS`.
#[tactic(auto, unfolding(plain_repository::specs::Local::decide_discard))]
pub(crate) fn decide_discard(alloc: Global, repo: &Repo, ws: u32) -> Result<Decision, AllocError>
    requires begun { repo.now.meta ≢ None }
    ensures decision { IfOk result (λ d. plain_decision d ≡ decide_discard repo.now ws) }
    ensures made { IfOk result (λ d. CanMakeIt repo.now d.made) }
{
    let Some(workspace) = repo.workspace(ws) else {
        return Ok(refuse(alloc, Refusal::NoWorkspace));
    };
    if !workspace.is_open() && !workspace.has_local() {
        return tell_lines(alloc, List::new(alloc));
    }
    with_event(alloc, repo, Event::Discard { ws })
}
