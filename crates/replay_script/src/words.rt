//! The line of an event: one case an event, on the history that the events before it leave.
ghost use Rattle.std.specs.Prelude.{◌≡◌, ◌++◌, ◌∷◌, [], ◌<◌, IfOk, OnOk, codes, length};
ghost use Rattle.std.specs.Fmt.{decimal};
ghost use Rattle.script_lang.specs.Spelling.{spaced};
ghost use Rattle.replay_script.specs.Lines.{last_word, place_word};
ghost use Rattle.replay_script.specs.Answers.{history_of, GivesLine};

use crate::PrintFault;
use crate::draft::Draft;
use history_tree::History;
use op_form::Event;
use std::alloc::{AllocError, Global};

/// The line of an event, without its line feed.
///
/// # Errors
///
/// `Unknown` where it names a version or a branch that the history hasn't, or `Memory`.
pub(crate) fn event_line(
    alloc: Global,
    history: Option<&History>,
    event: &Event,
) -> Result<Draft, PrintFault>
    ensures { GivesLine result (history_of history.entry) event.now }
{
    match event {
        Event::Init { .. } => Ok(of_word(alloc, "init")?),
        Event::Checkout { version, branch } => checkout(alloc, history, *version, *branch),
        Event::Edit { ws, .. } => Ok(of_workspace(alloc, "load", *ws)?),
        Event::Begin { ws, name } => Ok(with_name(alloc, "begin", *ws, name.as_str())?),
        Event::End { ws } => Ok(of_workspace(alloc, "end", *ws)?),
        Event::Undo { ws } => Ok(of_workspace(alloc, "undo", *ws)?),
        Event::Discard { ws } => Ok(of_workspace(alloc, "discard", *ws)?),
        Event::Tidy { ws } => Ok(of_workspace(alloc, "tidy", *ws)?),
        Event::Commit { ws, message } => Ok(with_last(alloc, "commit", *ws, message.as_str())?),
        Event::Branch { ws, name } => Ok(with_name(alloc, "branch", *ws, name.as_str())?),
        Event::Tag { name, version } => tag(alloc, history, name.as_str(), *version),
        Event::Update { ws, choices } => Ok(with_last(alloc, "update", *ws, choices.as_str())?),
        Event::Merge {
            ws,
            branch,
            choices,
        } => merge(alloc, history, *ws, *branch, choices.as_str()),
        Event::Drop { ws } => Ok(of_workspace(alloc, "drop", *ws)?),
        Event::Evolve { .. } => Ok(of_word(alloc, "evolve")?),
        Event::Upgrade => Ok(of_word(alloc, "upgrade")?),
        Event::Signed {
            ws,
            author,
            moment,
            message,
        } => Ok(signed(alloc, *ws, author.as_str(), *moment, message.as_str())?),
    }
}

/// A line of one word.
fn of_word(alloc: Global, word: &str) -> Result<Draft, AllocError>
    ensures { IfOk result (λ line. line ≡ word.now) }
{
    let mut line = Draft::new(alloc);
    line.push(word)?;
    Ok(line)
}

/// A word, and a workspace's number.
fn of_workspace(alloc: Global, word: &str, ws: u32) -> Result<Draft, AllocError>
    ensures { IfOk result (λ line. line ≡ spaced (word.now ∷ decimal ws ∷ [])) }
{
    let mut line = of_word(alloc, word)?;
    line.push_number(ws as u64)?;
    Ok(line)
}

/// A word, a workspace's number, and a name.
fn with_name(alloc: Global, word: &str, ws: u32, name: &str) -> Result<Draft, AllocError>
    ensures { IfOk result (λ line. line ≡ spaced (word.now ∷ decimal ws ∷ name.now ∷ [])) }
{
    let mut line = of_workspace(alloc, word, ws)?;
    line.push_word(name)?;
    Ok(line)
}

/// A word, a workspace's number, and a last word where it isn't empty.
#[tactic(auto, using(crate::proofs::Spaced::spaced_last))]
fn with_last(alloc: Global, word: &str, ws: u32, last: &str) -> Result<Draft, AllocError>
    ensures { IfOk result (λ line. line ≡ spaced (word.now ∷ decimal ws ∷ last_word last.now)) }
{
    let mut line = of_workspace(alloc, word, ws)?;
    line.push_last_word(last)?;
    Ok(line)
}

/// The line of a version's event with its author and its moment.
#[tactic(auto, using(crate::proofs::Spaced::spaced_last))]
fn signed(
    alloc: Global,
    ws: u32,
    author: &str,
    moment: u64,
    message: &str,
) -> Result<Draft, AllocError>
    ensures { IfOk result (λ line. line ≡ spaced (codes "signed" ∷ decimal ws ∷ author.now ∷ decimal moment ∷ last_word message.now)) }
{
    let mut line = with_name(alloc, "signed", ws, author)?;
    line.push_number(moment)?;
    line.push_last_word(message)?;
    Ok(line)
}

/// The line of a checkout.
fn checkout(
    alloc: Global,
    history: Option<&History>,
    version: u32,
    branch: u32,
) -> Result<Draft, PrintFault>
    ensures { GivesLine result (history_of history.entry) (Event.Checkout version branch) }
{
    let Some(history) = history else {
        return Err(PrintFault::Unknown);
    };
    if version >= history.version_count() || branch >= history.branch_count() {
        return Err(PrintFault::Unknown);
    }
    let mut line = of_word(alloc, "checkout")?;
    push_place(&mut line, history, version, branch)?;
    Ok(line)
}

/// Adds what names a version on a branch: the version where the branch is its own, else the branch, whose head it is.
fn push_place(
    line: &mut Draft,
    history: &History,
    version: u32,
    branch: u32,
) -> Result<(), AllocError>
    requires version { version < length history.now.history.versions }
    requires branch { branch < length history.now.history.branches }
    ensures { OnOk result (line.new ≡ line.old ++ 32 ∷ place_word history.now.history version branch) }
{
    if history.version(version).branch == branch {
        return line.push_number(version as u64);
    }
    line.push_word(history.branch_name(branch))
}

/// The line of a tag.
fn tag(
    alloc: Global,
    history: Option<&History>,
    name: &str,
    version: u32,
) -> Result<Draft, PrintFault>
    ensures { GivesLine result (history_of history.entry) (Event.Tag name.now version) }
{
    let Some(history) = history else {
        return Err(PrintFault::Unknown);
    };
    if version >= history.version_count() {
        return Err(PrintFault::Unknown);
    }
    let mut line = of_word(alloc, "tag")?;
    line.push_word(name)?;
    line.push_number(version as u64)?;
    Ok(line)
}

/// The line of a merge.
#[tactic(auto, using(crate::proofs::Spaced::spaced_last))]
fn merge(
    alloc: Global,
    history: Option<&History>,
    ws: u32,
    branch: u32,
    choices: &str,
) -> Result<Draft, PrintFault>
    ensures { GivesLine result (history_of history.entry) (Event.Merge ws branch choices.now) }
{
    let Some(history) = history else {
        return Err(PrintFault::Unknown);
    };
    if branch >= history.branch_count() {
        return Err(PrintFault::Unknown);
    }
    let mut line = with_name(alloc, "merge", ws, history.branch_name(branch))?;
    line.push_last_word(choices)?;
    Ok(line)
}
