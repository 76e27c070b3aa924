//! The edits of a model, and the command `import`.
ghost use Rattle.std.specs.Prelude.{◌≡◌, ◌≢◌, ◌-◌, ◌<◌, ◌^◌, [], ◌∷◌, IfOk, IfNone, IfSome, None, length, true, Some};
ghost use Rattle.plain_repository.specs.State.{workspace_of};
ghost use Rattle.plain_repository.specs.Edits.{with_operation, refusal_of, id_words, decide_edit, decide_import};
ghost use Rattle.plain_repository.specs.Events.{playable_with};
ghost use Rattle.repo_state.specs.Working.{IsWorkingModel};
ghost use Rattle.repo_answers.specs.Decisions.{plain_decision, CanMakeIt};

use crate::deciding::answers::{Decision, number_words, refuse, tell, with_room};
use crate::deciding::models::recall_settled;
use edit_steps::EditFault;
use edits::{Edit, Recorded};
use emfjson_model::read_model;
use model_documents::ModelFault;
use model_graph::Graph;
use model_import::import_doc;
use model_state::{Id, Operation};
use op_form::Event;
use recorder::take_edit;
use repo_state::{Begun, Repo};
use script_lang::Refusal;
use std::alloc::{AllocError, Global};
use texts::{List, Text};

/// The refusal that an edit's fault is; out of memory is none.
fn refusal_of(fault: EditFault) -> Option<Refusal>
    ensures none { IfNone result (fault ≡ EditFault.Memory) }
    ensures some { IfSome result (λ refusal. (refusal ≡ refusal_of fault) × (fault ≢ EditFault.Memory)) }
{
    match fault {
        EditFault::NoElement => Some(Refusal::NoElement),
        EditFault::IdInUse => Some(Refusal::IdInUse),
        EditFault::BadId => Some(Refusal::BadId),
        EditFault::NoClass => Some(Refusal::NoClass),
        EditFault::Abstract => Some(Refusal::Abstract),
        EditFault::NoFeature => Some(Refusal::NoFeature),
        EditFault::WrongKind => Some(Refusal::WrongKind),
        EditFault::BadValue => Some(Refusal::BadValue),
        EditFault::WrongType => Some(Refusal::WrongType),
        EditFault::Bound => Some(Refusal::Bound),
        EditFault::AlreadyThere => Some(Refusal::AlreadyThere),
        EditFault::NoEntry => Some(Refusal::NoEntry),
        EditFault::WouldCycle => Some(Refusal::WouldCycle),
        EditFault::Memory => None,
    }
}

/// The id of a new element, or nothing.
fn id_words(alloc: Global, id: &Option<Id>) -> Result<Text, AllocError>
    ensures { IfOk result (λ words. words ≡ id_words id.now) }
{
    match id {
        None => Text::new(alloc, ""),
        Some(id) => Text::new(alloc, id.as_str()),
    }
}

/// An edit of the working model.
#[tactic(auto, unfolding(plain_repository::specs::Edits::decide_edit))]
pub(crate) fn decide_edit(
    alloc: Global,
    repo: &Repo,
    begun: &Begun,
    ws: u32,
    edit: &Edit,
    model: Option<&Graph>,
) -> Result<Decision, AllocError>
    requires meta { repo.now.meta ≡ Some begun.now.meta }
    requires history { repo.now.history ≡ begun.now.history.history }
    requires model { IfSome model (λ m. IsWorkingModel repo.now ws m.now) }
    requires none { IfNone model (workspace_of repo.now ws ≡ None) }
    ensures decision { IfOk result (λ d. plain_decision d ≡ decide_edit repo.now begun.now.meta ws edit.now) }
    ensures made { IfOk result (λ d. CanMakeIt repo.now d.made) }
{
    let Some(workspace) = repo.workspace(ws) else {
        return Ok(refuse(alloc, Refusal::NoWorkspace));
    };
    let Some(model) = model else {
        return Ok(refuse(alloc, Refusal::NoWorkspace));
    };
    recall_settled(repo, begun, ws, workspace, model);
    begun.meta.recall_soundness();
    let Recorded { operation, id } = match take_edit(alloc, model, &begun.meta, ws, edit) {
        Ok(recorded) => recorded,
        Err(fault) => match refusal_of(fault) {
            Some(refusal) => return Ok(refuse(alloc, refusal)),
            None => return Err(AllocError),
        },
    };
    let words = id_words(alloc, &id)?;
    with_operation(alloc, repo, ws, words, operation)
}

/// `import WS`, with the text of a model.
#[tactic(auto, unfolding(plain_repository::specs::Edits::decide_import))]
pub(crate) fn decide_import(
    alloc: Global,
    repo: &Repo,
    begun: &Begun,
    ws: u32,
    text: &str,
    model: Option<&Graph>,
) -> Result<Decision, AllocError>
    requires meta { repo.now.meta ≡ Some begun.now.meta }
    requires history { repo.now.history ≡ begun.now.history.history }
    requires short { length text.now < 2 ^ 32 - 1 }
    requires model { IfSome model (λ m. IsWorkingModel repo.now ws m.now) }
    requires none { IfNone model (workspace_of repo.now ws ≡ None) }
    ensures decision { IfOk result (λ d. plain_decision d ≡ decide_import repo.now begun.now.meta ws text.now) }
    ensures made { IfOk result (λ d. CanMakeIt repo.now d.made) }
{
    let Some(workspace) = repo.workspace(ws) else {
        return Ok(refuse(alloc, Refusal::NoWorkspace));
    };
    let Some(model) = model else {
        return Ok(refuse(alloc, Refusal::NoWorkspace));
    };
    recall_settled(repo, begun, ws, workspace, model);
    let doc = match read_model(alloc, text, &begun.meta) {
        Ok(doc) => doc,
        Err(ModelFault::Memory) => return Err(AllocError),
        Err(fault) => return Ok(refuse(alloc, Refusal::BadModel { n: fault.number() })),
    };
    begun.meta.recall_promises();
    let operation = match import_doc(alloc, model, &begun.meta, ws, &doc) {
        Ok(operation) => operation,
        Err(fault) => match refusal_of(fault) {
            Some(refusal) => return Ok(refuse(alloc, refusal)),
            None => return Err(AllocError),
        },
    };
    let words = number_words(alloc, doc.rows.len() as u64)?;
    with_operation(alloc, repo, ws, words, operation)
}

/// Makes an event of what is recorded; where there is no operation, nothing changes.
fn with_operation(
    alloc: Global,
    repo: &Repo,
    ws: u32,
    words: Text,
    operation: Option<Operation>,
) -> Result<Decision, AllocError>
    requires could { IfSome operation (λ o. playable_with repo.now repo.now.meta (Event.Edit ws (o ∷ [])) ≡ true) }
    ensures decision { IfOk result (λ d. plain_decision d ≡ with_operation repo.now ws words operation) }
    ensures made { IfOk result (λ d. CanMakeIt repo.now d.made) }
{
    let Some(operation) = operation else {
        return Ok(tell(List::new(alloc), words));
    };
    let mut package = List::new(alloc);
    package.push(operation)?;
    with_room(
        alloc,
        repo,
        List::new(alloc),
        words,
        Event::Edit { ws, package },
    )
}
