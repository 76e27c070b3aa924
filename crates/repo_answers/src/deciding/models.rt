//! The working model that a command needs.
ghost use Rattle.std.specs.Prelude.{◌≡◌, IfNone, IfSome, OnOk, Some, is_some, true};
ghost use Rattle.plain_repository.specs.State.{model_of, workspace_of};
ghost use Rattle.model_state.specs.Good.{Good};
ghost use Rattle.repo_answers.specs.Shown.{reads_version};
ghost use Rattle.repo_state.specs.Keeping.{plain_of};
ghost use Rattle.repo_state.specs.Working.{IsWorkingModel};
ghost use Rattle.repo_answers.specs.Needs.{NeedsNone, creation_without_id, given_id, model_for, with_id};
ghost use Rattle.script_lang.specs.Spelling.{IsCommand};

use command_facts::{Needs, facts};
use edits::Edit;
use model_graph::Graph;
use repo_state::{Begun, Repo, Workspace};
use script_lang::Command;
use std::alloc::{AllocError, Global};
use texts::Text;
use working_model::Working;

/// The workspace whose working model a command needs.
fn model_for(command: &Command) -> Option<u32>
    ensures { result ≡ model_for command.now }
{
    let row = facts(command);
    match row.needs {
        Needs::Model => row.workspace,
        Needs::Nothing | Needs::Steps | Needs::Opens | Needs::Shows => None,
    }
}

/// The same, where that workspace is there.
pub(crate) fn wanted(repo: &Repo, command: &Command) -> Option<u32>
    ensures needs { IfSome result (λ ws. model_for command.now ≡ Some ws) }
    ensures there { IfSome result (λ ws. is_some (workspace_of repo.now ws) ≡ true) }
    ensures none { IfNone result (NeedsNone repo.now command.now) }
{
    let Some(ws) = model_for(command) else {
        return None;
    };
    if repo.workspace(ws).is_none() {
        return None;
    }
    Some(ws)
}

/// Whether a command reads the state of a version.
pub(crate) fn reads_version(command: &Command) -> bool
    ensures { result ≡ reads_version command.now }
{
    match facts(command).needs {
        Needs::Steps | Needs::Opens | Needs::Shows => true,
        Needs::Nothing | Needs::Model => false,
    }
}

/// The workspace of a creation without an id.
fn creation_without_id(command: &Command) -> Option<u32>
    ensures { result ≡ creation_without_id command.now }
{
    match command {
        Command::Edit {
            ws,
            edit: Edit::Create { id: None, .. },
        } => Some(*ws),
        _ => None,
    }
}

/// A creation has this id from now on.
fn give_id(command: &mut Command, id: Text)
    ensures { command.new ≡ given_id id command.old }
{
    match command {
        Command::Edit {
            edit: Edit::Create { id: place, .. },
            ..
        } => {
            *place = Some(id);
        }
        _ => {}
    }
}

/// A creation without an id gets the fresh one of its workspace, which the model finds without a search from the first.
pub(crate) fn name_creation(
    alloc: Global,
    command: &mut Command,
    model: &mut Working,
) -> Result<(), AllocError>
    requires command { IsCommand command.old }
    ensures named { OnOk result (command.new ≡ with_id model.old command.old) }
    ensures command { OnOk result (IsCommand command.new) }
    ensures model { model.new ≡ model.old }
{
    let Some(ws) = creation_without_id(command) else {
        return Ok(());
    };
    let fresh = model.fresh_id(alloc, ws)?;
    let id = Text::new(alloc, fresh.as_str())?;
    give_id(command, id);
    Ok(())
}

/// What is known of a working model, said of the workspace that it is of. It does nothing.
pub(crate) fn recall_settled(
    _repo: &Repo,
    _begun: &Begun,
    _ws: u32,
    _workspace: &Workspace,
    _model: &Graph,
)
    requires meta { _repo.now.meta ≡ Some _begun.now.meta }
    requires there { workspace_of _repo.now _ws ≡ Some (plain_of _workspace.now) }
    requires model { IsWorkingModel _repo.now _ws _model.now }
    ensures model { _model.now ≡ model_of _begun.now.meta _repo.now.history (plain_of _workspace.now) }
    ensures good { Good _begun.now.meta _model.now }
{
    // Only the contract needs it.
}
