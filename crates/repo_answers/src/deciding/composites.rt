//! The commands `begin` and `end`.
ghost use Rattle.std.specs.Prelude.{◌≡◌, ◌≢◌, IfOk, None, true};
ghost use Rattle.plain_repository.specs.Composites.{decide_begin, decide_end};
ghost use Rattle.model_state.specs.Names.{is_name};
ghost use Rattle.repo_answers.specs.Decisions.{plain_decision, CanMakeIt};

use crate::deciding::answers::{Decision, refuse, with_event};
use op_form::Event;
use repo_state::Repo;
use script_lang::Refusal;
use std::alloc::{AllocError, Global};
use texts::Text;

/// `begin WS NAME`.
#[tactic(auto, unfolding(plain_repository::specs::Composites::decide_begin))]
pub(crate) fn decide_begin(
    alloc: Global,
    repo: &Repo,
    ws: u32,
    name: &Text,
) -> Result<Decision, AllocError>
    requires begun { repo.now.meta ≢ None }
    requires name { is_name name.now ≡ true }
    ensures decision { IfOk result (λ d. plain_decision d ≡ decide_begin repo.now ws name.now) }
    ensures made { IfOk result (λ d. CanMakeIt repo.now d.made) }
{
    let Some(workspace) = repo.workspace(ws) else {
        return Ok(refuse(alloc, Refusal::NoWorkspace));
    };
    if workspace.is_open() {
        return Ok(refuse(alloc, Refusal::CompositeOpen));
    }
    let name = name.copy(alloc)?;
    with_event(alloc, repo, Event::Begin { ws, name })
}

/// `end WS`.
#[tactic(auto, unfolding(plain_repository::specs::Composites::decide_end))]
pub(crate) fn decide_end(alloc: Global, repo: &Repo, ws: u32) -> Result<Decision, AllocError>
    requires begun { repo.now.meta ≢ None }
    ensures decision { IfOk result (λ d. plain_decision d ≡ decide_end repo.now ws) }
    ensures made { IfOk result (λ d. CanMakeIt repo.now d.made) }
{
    let Some(workspace) = repo.workspace(ws) else {
        return Ok(refuse(alloc, Refusal::NoWorkspace));
    };
    if !workspace.is_open() {
        return Ok(refuse(alloc, Refusal::NoComposite));
    }
    with_event(alloc, repo, Event::End { ws })
}
