//! The commands `init` and `evolve`.
ghost use Rattle.std.specs.Prelude.{◌≡◌, ◌-◌, ◌<◌, ◌^◌, Err, Ok, Some, IfErr, IfOk, OnOk, is_ok, length, true};
ghost use Rattle.ecore_json.specs.Metamodel.{GivesMetamodel, metamodel_of};
ghost use Rattle.metamodel_growth.specs.Extension.{missing};
ghost use Rattle.plain_repository.specs.Metamodels.{decide_evolve, decide_init, extended};
ghost use Rattle.repo_answers.specs.Decisions.{plain_decision, CanMakeIt};

use crate::deciding::answers::{Decision, refuse, tell_lines, with_event};
use ecore_json::{EcoreFault, read_metamodel};
use ecore_meta::Metamodel;
use metamodel_growth::{EvolveFault, evolve, is_same};
use op_form::Event;
use repo_state::{Begun, Repo};
use script_lang::Refusal;
use std::alloc::{AllocError, Global};
use texts::{List, Text};

/// Whether a text is read as a metamodel, or its first fault.
fn reads(alloc: Global, text: &str) -> Result<(), EcoreFault>
    requires short { length text.now < 2 ^ 32 - 1 }
    ensures reads { OnOk result (is_ok (metamodel_of text.now) ≡ true) }
    ensures fault { IfErr result (λ fault. GivesMetamodel (Err fault) (metamodel_of text.now)) }
{
    read_metamodel(alloc, text)?;
    Ok(())
}

/// The metamodel of a text takes the place of the present one, where it has all its parts.
fn evolve_to(
    alloc: Global,
    repo: &Repo,
    begun: &Begun,
    text: &str,
    next: Metamodel,
) -> Result<Decision, AllocError>
    requires meta { repo.now.meta ≡ Some begun.now.meta }
    requires read { metamodel_of text.now ≡ Ok next }
    ensures decision { IfOk result (λ d. plain_decision d ≡ extended repo.now text.now begun.now.meta next (missing begun.now.meta next)) }
    ensures made { IfOk result (λ d. CanMakeIt repo.now d.made) }
{
    let meta = match evolve(alloc, &begun.meta, next) {
        Ok(meta) => meta,
        Err(EvolveFault::NotExtension { name }) => {
            return Ok(refuse(alloc, Refusal::NotExtension { name }));
        }
        Err(EvolveFault::Memory) => return Err(AllocError),
    };
    if is_same(&begun.meta, &meta) {
        return tell_lines(alloc, List::new(alloc));
    }
    let text = Text::new(alloc, text)?;
    with_event(alloc, repo, Event::Evolve { text })
}

/// `evolve`, with the text of a metamodel that extends the present one.
#[tactic(auto, unfolding(plain_repository::specs::Metamodels::decide_evolve))]
pub(crate) fn decide_evolve(
    alloc: Global,
    repo: &Repo,
    begun: &Begun,
    text: &str,
) -> Result<Decision, AllocError>
    requires meta { repo.now.meta ≡ Some begun.now.meta }
    requires short { length text.now < 2 ^ 32 - 1 }
    ensures decision { IfOk result (λ d. plain_decision d ≡ decide_evolve repo.now begun.now.meta text.now) }
    ensures made { IfOk result (λ d. CanMakeIt repo.now d.made) }
{
    match read_metamodel(alloc, text) {
        Ok(next) => evolve_to(alloc, repo, begun, text, next),
        Err(EcoreFault::Memory) => Err(AllocError),
        Err(fault) => Ok(refuse(alloc, Refusal::BadMetamodel { n: fault.number() })),
    }
}

/// `init`, with the text of the metamodel.
#[tactic(auto, unfolding(plain_repository::specs::Metamodels::decide_init))]
pub(crate) fn decide_init(alloc: Global, repo: &Repo, text: &str) -> Result<Decision, AllocError>
    requires short { length text.now < 2 ^ 32 - 1 }
    ensures decision { IfOk result (λ d. plain_decision d ≡ decide_init repo.now repo.now.meta text.now) }
    ensures made { IfOk result (λ d. CanMakeIt repo.now d.made) }
{
    if repo.begun().is_some() {
        return Ok(refuse(alloc, Refusal::AlreadyInit));
    }
    match reads(alloc, text) {
        Ok(()) => {
            let text = Text::new(alloc, text)?;
            with_event(alloc, repo, Event::Init { text })
        }
        Err(EcoreFault::Memory) => Err(AllocError),
        Err(fault) => Ok(refuse(alloc, Refusal::BadMetamodel { n: fault.number() })),
    }
}
