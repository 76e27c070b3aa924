//! The command `tidy`.
ghost use Rattle.std.specs.Prelude.{◌≡◌, IfOk, Some};
ghost use Rattle.plain_repository.specs.Tidying.{decide_tidy};
ghost use Rattle.merge_laws.specs.Tidy.{is_tidy};
ghost use Rattle.repo_answers.specs.Decisions.{plain_decision, CanMakeIt};

use crate::deciding::answers::{Decision, refuse, tell_lines, with_event};
use canoniser::is_tidy;
use ecore_meta::Metamodel;
use merge_plans::copy_operations;
use model_state::Operation;
use op_form::Event;
use repo_state::{Begun, Repo};
use script_lang::Refusal;
use std::alloc::{AllocError, Global};
use texts::List;

/// Whether operations are tidy.
fn are_tidy(alloc: Global, operations: &[Operation], meta: &Metamodel) -> Result<bool, AllocError>
    ensures { IfOk result (λ b. b ≡ is_tidy meta.now operations.now) }
{
    let package = copy_operations(alloc, operations)?;
    is_tidy(alloc, &package, meta)
}

/// `tidy WS`.
#[tactic(auto, unfolding(plain_repository::specs::Tidying::decide_tidy))]
pub(crate) fn decide_tidy(
    alloc: Global,
    repo: &Repo,
    begun: &Begun,
    ws: u32,
) -> Result<Decision, AllocError>
    requires meta { repo.now.meta ≡ Some begun.now.meta }
    ensures decision { IfOk result (λ d. plain_decision d ≡ decide_tidy repo.now begun.now.meta ws) }
    ensures made { IfOk result (λ d. CanMakeIt repo.now d.made) }
{
    let Some(workspace) = repo.workspace(ws) else {
        return Ok(refuse(alloc, Refusal::NoWorkspace));
    };
    if workspace.is_open() {
        return Ok(refuse(alloc, Refusal::CompositeOpen));
    }
    if are_tidy(alloc, workspace.operations(), &begun.meta)? {
        return tell_lines(alloc, List::new(alloc));
    }
    with_event(alloc, repo, Event::Tidy { ws })
}
