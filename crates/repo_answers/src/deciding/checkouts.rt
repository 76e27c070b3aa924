//! The commands `checkout` and `drop`, and the text of a version.
ghost use Rattle.std.specs.Prelude.{◌≡◌, ◌≢◌, ◌<◌, IfOk, None, OnOk, Some, length, true};
ghost use Rattle.op_form.specs.declared.event.Event.TheVariants.{Checkout};
ghost use Rattle.plain_repository.specs.Answers.{with_room};
ghost use Rattle.plain_repository.specs.Checkouts.{checkout_words, decide_checkout, decide_drop};
ghost use Rattle.plain_repository.specs.Events.{playable_with};
ghost use Rattle.plain_repository.specs.Specs.{found_by_spec};
ghost use Rattle.version_states.specs.Cached.{MayUse, Uses};
ghost use Rattle.repo_answers.specs.Shown.{FoundFirst};
ghost use Rattle.repo_state.specs.Cached.{HasEncodings};
ghost use Rattle.repo_answers.specs.Decisions.{plain_decision, CanMakeIt};

use crate::deciding::answers::{Decision, refuse, with_event, with_words};
use crate::deciding::naming::{find, text_of, unknown};
use history_tree::Found;
use op_form::Event;
use page_pool::Pool;
use repo_state::{Begun, Repo};
use script_lang::{Refusal, Spec};
use state_cache::Cache;
use std::alloc::{AllocError, Global};
use std::fmt::Write;
use texts::{List, Text};

/// `checkout SPEC`: a workspace at the version, whose text is printed.
#[tactic(auto, unfolding(plain_repository::specs::Checkouts::decide_checkout), using(version_states::proofs::Caching::uses_none))]
pub(crate) fn decide_checkout(
    alloc: Global,
    cache: &mut Cache,
    pool: &mut Pool,
    repo: &Repo,
    begun: &Begun,
    spec: &Spec,
) -> Result<Decision, AllocError>
    requires meta { repo.now.meta ≡ Some begun.now.meta }
    requires history { repo.now.history ≡ begun.now.history.history }
    requires usable { MayUse pool.old cache.old }
    requires forms { HasEncodings repo.now pool.old cache.old }
    ensures decision { IfOk result (λ d. plain_decision d ≡ decide_checkout repo.now begun.now.meta spec.now) }
    ensures made { IfOk result (λ d. CanMakeIt repo.now d.made) }
    ensures first { OnOk result (FoundFirst begun.now.meta repo.now.history (found_by_spec repo.now.history spec.now) cache.new) }
    ensures uses { Uses pool.old pool.new cache.old cache.new }
    ensures forms { HasEncodings repo.now pool.new cache.new }
{
    let found = match find(&begun.history, spec) {
        Ok(found) => found,
        Err(fault) => return Ok(refuse(alloc, unknown(fault))),
    };
    let lines = text_of(alloc, cache, pool, repo, begun, found.version)?;
    check_out(alloc, repo, begun, found, lines)
}

/// The words of a checkout: the number of the workspace, the version, and the branch's name.
fn checkout_words(
    alloc: Global,
    repo: &Repo,
    begun: &Begun,
    found: Found,
) -> Result<Text, AllocError>
    requires history { repo.now.history ≡ begun.now.history.history }
    requires branch { found.branch < length begun.now.history.history.branches }
    ensures { IfOk result (λ words. words ≡ checkout_words repo.now found) }
{
    let number = repo.made_workspaces() as u128 + 1;
    let branch = begun.history.branch_name(found.branch);
    let mut words = String::new(alloc);
    write!(words, "{} {} {}", number, found.version, branch)?;
    Text::new(alloc, words.as_str())
}

/// The answer to a checkout of a version that was found, with its text.
fn check_out(
    alloc: Global,
    repo: &Repo,
    begun: &Begun,
    found: Found,
    lines: List<Text>,
) -> Result<Decision, AllocError>
    requires history { repo.now.history ≡ begun.now.history.history }
    requires branch { found.branch < length begun.now.history.history.branches }
    requires could { playable_with repo.now repo.now.meta (Checkout found.version found.branch) ≡ true }
    ensures decision { IfOk result (λ d. plain_decision d ≡ with_room repo.now lines (checkout_words repo.now found) (Checkout found.version found.branch)) }
    ensures made { IfOk result (λ d. CanMakeIt repo.now d.made) }
{
    let (version, branch) = (found.version, found.branch);
    let words = checkout_words(alloc, repo, begun, found);
    let event = Event::Checkout { version, branch };
    with_words(alloc, repo, lines, words, event)
}

/// `drop WS`.
#[tactic(auto, unfolding(plain_repository::specs::Checkouts::decide_drop))]
pub(crate) fn decide_drop(alloc: Global, repo: &Repo, ws: u32) -> Result<Decision, AllocError>
    requires begun { repo.now.meta ≢ None }
    ensures decision { IfOk result (λ d. plain_decision d ≡ decide_drop repo.now ws) }
    ensures made { IfOk result (λ d. CanMakeIt repo.now d.made) }
{
    if repo.workspace(ws).is_none() {
        return Ok(refuse(alloc, Refusal::NoWorkspace));
    }
    with_event(alloc, repo, Event::Drop { ws })
}
