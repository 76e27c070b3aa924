//! The table of commands: what each is for, and what it needs. A further command has its row here, and in the definition.
ghost use Rattle.std.specs.Prelude.{◌≡◌};
ghost use Rattle.command_facts.specs.Facts.{facts};

use script_lang::Command;

/// What a command is for.
#[derive(Clone, Copy, Drop)]
pub enum CommandKind {
    /// It shows something, or opens a workspace.
    Looks,
    /// It changes a workspace, or makes a version or a branch of it.
    Works,
    /// It changes what all workspaces have in common.
    Keeps,
}

/// What a command needs to be answered, beside the history and what is recorded in its workspace.
#[derive(Clone, Copy, Drop)]
pub enum Needs {
    /// Nothing.
    Nothing,
    /// The working model of its workspace.
    Model,
    /// The state from which the steps of its workspace lead on.
    Steps,
    /// The state of the version that it opens a workspace at.
    Opens,
    /// The state of the version that it shows.
    Shows,
}

/// What the code asks of a command.
#[derive(Clone, Copy, Drop)]
pub struct CommandFacts {
    /// What it is for.
    pub kind: CommandKind,
    /// The number of the workspace that it names, if it names one.
    pub workspace: Option<u32>,
    /// What it needs.
    pub needs: Needs,
}

fn plain(kind: CommandKind, needs: Needs) -> CommandFacts
    ensures { result ≡ record { kind = kind; workspace = None; needs = needs } }
{
    CommandFacts {
        kind,
        workspace: None,
        needs,
    }
}

fn within(kind: CommandKind, ws: u32, needs: Needs) -> CommandFacts
    ensures { result ≡ record { kind = kind; workspace = Some ws; needs = needs } }
{
    CommandFacts {
        kind,
        workspace: Some(ws),
        needs,
    }
}

/// What a command is for, the workspace that it names, and what it needs.
pub fn facts(command: &Command) -> CommandFacts
    ensures kind { result.kind ≡ (facts command.now).kind }
    ensures workspace { result.workspace ≡ (facts command.now).workspace }
    ensures needs { result.needs ≡ (facts command.now).needs }
{
    use CommandKind::{Keeps, Looks, Works};
    use Needs::{Model, Nothing, Opens, Shows, Steps};
    match command {
        Command::Init => plain(Keeps, Nothing),
        Command::Evolve => plain(Keeps, Nothing),
        Command::Import { ws } => within(Works, *ws, Model),
        Command::Load { ws } => within(Works, *ws, Steps),
        Command::Checkout { .. } => plain(Looks, Opens),
        Command::Edit { ws, .. } => within(Works, *ws, Model),
        Command::Begin { ws, .. } => within(Works, *ws, Nothing),
        Command::End { ws } => within(Works, *ws, Nothing),
        Command::Undo { ws } => within(Works, *ws, Nothing),
        Command::Discard { ws } => within(Works, *ws, Nothing),
        Command::Tidy { ws } => within(Works, *ws, Nothing),
        Command::Apply { ws, .. } => within(Works, *ws, Steps),
        Command::Changes { ws } => within(Looks, *ws, Nothing),
        Command::Show { ws } => within(Looks, *ws, Model),
        Command::Cat { .. } => plain(Looks, Shows),
        Command::Validate { ws } => within(Looks, *ws, Model),
        Command::Commit { ws, .. } => within(Works, *ws, Nothing),
        Command::Signed { ws, .. } => within(Works, *ws, Nothing),
        Command::Branch { ws, .. } => within(Works, *ws, Nothing),
        Command::Tag { .. } => plain(Keeps, Nothing),
        Command::Log => plain(Looks, Nothing),
        Command::Package { .. } => plain(Looks, Nothing),
        Command::Update { ws, .. } => within(Works, *ws, Nothing),
        Command::Merge { ws, .. } => within(Works, *ws, Nothing),
        Command::Revert { ws, .. } => within(Works, *ws, Nothing),
        Command::Drop { ws } => within(Works, *ws, Nothing),
        Command::Upgrade => plain(Keeps, Nothing),
    }
}
