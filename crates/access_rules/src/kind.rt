//! What each command is for, and the workspace that it names, by the table of commands.
ghost use Rattle.std.specs.Prelude.{◌≡◌};
ghost use Rattle.access_rules.specs.Rule.{command_kind, workspace_in};

use command_facts::{CommandKind, facts};
use script_lang::Command;

/// What kind of a command it is.
pub fn command_kind(command: &Command) -> CommandKind
    ensures { result ≡ command_kind command.now }
{
    facts(command).kind
}

/// The number of the workspace that a command names, if it names one.
pub fn workspace_in(command: &Command) -> Option<u32>
    ensures { result ≡ workspace_in command.now }
{
    facts(command).workspace
}
