//! The event that a line `load` makes, known by its bytes before it is known whether it can be made.
ghost use Rattle.std.specs.Prelude.{◌≡◌, ◌∷◌, ◌++◌, ◌-◌, ◌<◌, ◌^◌, IfOk, IfSome, Ok, length};
ghost use Rattle.byte_form.specs.Fields.{u32_encoding};
ghost use Rattle.script_lang.specs.Command.{command_of};
ghost use Rattle.script_lang.specs.declared.command.Command.TheVariants.{Load};
ghost use Rattle.repo_answers.specs.Decisions.{IsShortBlock};
ghost use Rattle.repo_answers.specs.Loads.{MakesEventOf};

use crate::deciding::{block_text, bytes_of_block};
use repo_state::Repo;
use script_lang::{Command, parse_line};
use std::alloc::{AllocError, Global};
use texts::Text;

/// The bytes of the event Edit that records the operations of a package, given by the package's bytes.
#[tactic(auto, unfolding(byte_form::specs::Fields::u32_encoding))]
fn edit_of(alloc: Global, ws: u32, bytes: &[u8]) -> Result<Vec<u8>, AllocError>
    ensures { IfOk result (λ form. form.items ≡ 3 ∷ (u32_encoding ws ++ bytes.now)) }
{
    let mut form = Vec::with_capacity(alloc, bytes.len() + 5)?;
    form.push(3)?;
    form.extend_from_slice(&ws.to_be_bytes())?;
    form.extend_from_slice(bytes)?;
    Ok(form)
}

/// The workspace of a command `load`.
fn workspace_loaded(command: &Command) -> Option<u32>
    ensures { IfSome result (λ ws. command.now ≡ Load ws) }
{
    if let Command::Load { ws } = command {
        Some(*ws)
    } else {
        None
    }
}

/// The workspace of a line `load WS`.
fn workspace_of_line(alloc: Global, line: &str) -> Option<u32>
    requires line { length line.now < 2 ^ 32 - 1 }
    ensures load { IfSome result (λ ws. command_of line.now ≡ Ok (Load ws)) }
    ensures small { IfSome result (λ ws. ws < 2 ^ 32) }
{
    let Ok(command) = parse_line(alloc, line) else {
        return None;
    };
    let ws = workspace_loaded(&command);
    drop(command);
    ws
}

/// The bytes of the event that a line `load WS` with its block makes, wherever an event of these bytes can be made. Any other line has none,
/// nor has a workspace that isn't there, a block that spells no bytes, or a line for whose reading there is no memory.
pub fn event_of_load(
    alloc: Global,
    repo: &Repo,
    line: &str,
    block: &Option<Text>,
) -> Result<Option<Vec<u8>>, AllocError>
    requires line { length line.now < 2 ^ 32 - 1 }
    requires block { IsShortBlock block.now }
    ensures { IfOk result (λ found. IfSome found (λ form. MakesEventOf line.now block.now form.items)) }
{
    if !line.starts_with("load ") {
        return Ok(None);
    }
    let Some(ws) = workspace_of_line(alloc, line) else {
        return Ok(None);
    };
    if repo.workspace(ws).is_none() {
        return Ok(None);
    }
    let Some(bytes) = bytes_of_block(alloc, block_text(block))? else {
        return Ok(None);
    };
    let form = edit_of(alloc, ws, bytes.as_slice())?;
    Ok(Some(form))
}
