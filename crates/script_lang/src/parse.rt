//! A line as a command: one private function a command.
ghost use Rattle.std.specs.Prelude.{◌≡◌, ◌-◌, ◌<◌, ◌^◌, length, IfOk, IfNone, IfSome, None, Some};
ghost use Rattle.script_lang.specs.Words.{Gives};
ghost use Rattle.script_lang.specs.Command.{GivesCommand, GivesSpec, command_of, command_of_word, feature_commands, work_commands, version_commands, init_at, evolve_at, import_at, load_at, checkout_at, create_at, delete_at, move_at, destination_at, set_at, unset_at, add_at, remove_at, shift_at, link_at, unlink_at, reorder_at, begin_at, end_line_at, undo_at, discard_at, tidy_at, apply_at, bytes_at, changes_at, show_at, cat_at, validate_at, commit_at, signed_at, branch_at, tag_at, log_at, package_at, update_at, merge_at, revert_at, drop_at, upgrade_at, spec_of, spec_at, tag_of};
ghost use Rattle.script_lang.specs.declared.command.Spec.TheVariants.{Tag};

use crate::words::{Words, bad_line, number_of};
use crate::{Bytes, Command, ParseFault, Spec};
use edits::{Destination, Edit};
use hex::FromHexError;
use model_state::is_name;
use std::alloc::{AllocError, Global};
use texts::Text;

/// The command that a line spells.
///
/// # Errors
///
/// `BadLine` with the column, from 1, of the first word that does not fit. Where a word is missing, the column is one
/// past the end. Else `Memory`.
#[tactic(auto, unfolding(crate::specs::Command::command_of))]
pub fn parse_line(alloc: Global, line: &str) -> Result<Command, ParseFault>
    requires short { length line.now < 2 ^ 32 - 1 }
    ensures command { GivesCommand result (command_of line.now) }
{
    let mut words = Words::new(line);
    let first = words.word()?;
    match first {
        "init" => init(&words),
        "evolve" => evolve(&words),
        "import" => import(&mut words),
        "load" => load(&mut words),
        "checkout" => checkout(alloc, &mut words),
        "create" => create(alloc, &mut words),
        "delete" => delete(alloc, &mut words),
        "move" => move_element(alloc, &mut words),
        _ => feature_line(alloc, first, &mut words),
    }
}

/// The command that a line spells whose first word names an edit of a feature, or stands after those in the table.
#[tactic(auto, unfolding(crate::specs::Command::feature_commands))]
fn feature_line(alloc: Global, word: &str, words: &mut Words<'_>) -> Result<Command, ParseFault>
    ensures { GivesCommand result (command_of_word feature_commands word.now words.old) }
{
    match word {
        "set" => set(alloc, words),
        "unset" => unset(alloc, words),
        "add" => add(alloc, words),
        "remove" => remove(alloc, words),
        "shift" => shift(alloc, words),
        "link" => link(alloc, words),
        "unlink" => unlink(alloc, words),
        "reorder" => reorder(alloc, words),
        _ => work_line(alloc, word, words),
    }
}

/// The same of the commands of a workspace's local work and of what is shown, and of those after them.
#[tactic(auto, unfolding(crate::specs::Command::work_commands))]
fn work_line(alloc: Global, word: &str, words: &mut Words<'_>) -> Result<Command, ParseFault>
    ensures { GivesCommand result (command_of_word work_commands word.now words.old) }
{
    match word {
        "begin" => begin(alloc, words),
        "end" => end(words),
        "undo" => undo(words),
        "discard" => discard(words),
        "tidy" => tidy(words),
        "apply" => apply(alloc, words),
        "changes" => changes(words),
        "show" => show(words),
        "cat" => cat(alloc, words),
        "validate" => validate(words),
        _ => version_line(alloc, word, words),
    }
}

/// The same of the commands by which versions are shared: the last of the table.
#[tactic(auto, unfolding(crate::specs::Command::version_commands))]
fn version_line(alloc: Global, word: &str, words: &mut Words<'_>) -> Result<Command, ParseFault>
    ensures { GivesCommand result (command_of_word version_commands word.now words.old) }
{
    match word {
        "commit" => commit(alloc, words),
        "signed" => signed(alloc, words),
        "branch" => branch(alloc, words),
        "tag" => tag(alloc, words),
        "log" => log(words),
        "package" => package_of(alloc, words),
        "update" => update(alloc, words),
        "merge" => merge(alloc, words),
        "revert" => revert(words),
        "drop" => drop_workspace(words),
        "upgrade" => upgrade(words),
        _ => Err(ParseFault::BadLine { column: 1 }),
    }
}

#[tactic(auto, unfolding(crate::specs::Command::init_at))]
fn init(words: &Words<'_>) -> Result<Command, ParseFault>
    ensures { GivesCommand result (init_at words.now) }
{
    words.end()?;
    Ok(Command::Init)
}

#[tactic(auto, unfolding(crate::specs::Command::evolve_at))]
fn evolve(words: &Words<'_>) -> Result<Command, ParseFault>
    ensures { GivesCommand result (evolve_at words.now) }
{
    words.end()?;
    Ok(Command::Evolve)
}

#[tactic(auto, unfolding(crate::specs::Command::import_at))]
fn import(words: &mut Words<'_>) -> Result<Command, ParseFault>
    ensures { GivesCommand result (import_at words.old) }
{
    let ws = words.workspace()?;
    words.end()?;
    Ok(Command::Import { ws })
}

#[tactic(auto, unfolding(crate::specs::Command::load_at))]
fn load(words: &mut Words<'_>) -> Result<Command, ParseFault>
    ensures { GivesCommand result (load_at words.old) }
{
    let ws = words.workspace()?;
    words.end()?;
    Ok(Command::Load { ws })
}

#[tactic(auto, unfolding(crate::specs::Command::checkout_at))]
fn checkout(alloc: Global, words: &mut Words<'_>) -> Result<Command, ParseFault>
    ensures { GivesCommand result (checkout_at words.old) }
{
    let spec = spec(alloc, words)?;
    words.end()?;
    Ok(Command::Checkout { spec })
}

#[tactic(auto, unfolding(crate::specs::Command::create_at))]
fn create(alloc: Global, words: &mut Words<'_>) -> Result<Command, ParseFault>
    ensures { GivesCommand result (create_at words.old) }
{
    let ws = words.workspace()?;
    let class = words.word()?;
    let destination = destination(alloc, words)?;
    let id = words.optional_word()?;
    words.end()?;
    Ok(Command::Edit {
        ws,
        edit: Edit::Create {
            class: Text::new(alloc, class)?,
            destination,
            id: match id {
                None => None,
                Some(id) => Some(Text::new(alloc, id)?),
            },
        },
    })
}

#[tactic(auto, unfolding(crate::specs::Command::delete_at))]
fn delete(alloc: Global, words: &mut Words<'_>) -> Result<Command, ParseFault>
    ensures { GivesCommand result (delete_at words.old) }
{
    let ws = words.workspace()?;
    let id = words.word()?;
    words.end()?;
    Ok(Command::Edit {
        ws,
        edit: Edit::Delete {
            id: Text::new(alloc, id)?,
        },
    })
}

#[tactic(auto, unfolding(crate::specs::Command::move_at))]
fn move_element(alloc: Global, words: &mut Words<'_>) -> Result<Command, ParseFault>
    ensures { GivesCommand result (move_at words.old) }
{
    let ws = words.workspace()?;
    let id = words.word()?;
    let destination = destination(alloc, words)?;
    let index = words.optional_number()?;
    words.end()?;
    Ok(Command::Edit {
        ws,
        edit: Edit::Move {
            id: Text::new(alloc, id)?,
            destination,
            index,
        },
    })
}

/// The next words, which name a place: `/` for the root, or a parent and the name of its feature.
#[tactic(auto, unfolding(crate::specs::Command::destination_at))]
fn destination(alloc: Global, words: &mut Words<'_>) -> Result<Destination, ParseFault>
    ensures { Gives words.new result (destination_at words.old) }
{
    let first = words.word()?;
    if first == "/" {
        return Ok(Destination::Root);
    }
    let feature = words.word()?;
    Ok(Destination::Inside {
        parent: Text::new(alloc, first)?,
        feature: Text::new(alloc, feature)?,
    })
}

#[tactic(auto, unfolding(crate::specs::Command::set_at))]
fn set(alloc: Global, words: &mut Words<'_>) -> Result<Command, ParseFault>
    ensures { GivesCommand result (set_at words.old) }
{
    let ws = words.workspace()?;
    let id = words.word()?;
    let feature = words.word()?;
    let value = words.rest()?;
    let (id, feature, value) = three_texts(alloc, id, feature, value)?;
    Ok(Command::Edit {
        ws,
        edit: Edit::Set { id, feature, value },
    })
}

#[tactic(auto, unfolding(crate::specs::Command::unset_at))]
fn unset(alloc: Global, words: &mut Words<'_>) -> Result<Command, ParseFault>
    ensures { GivesCommand result (unset_at words.old) }
{
    let ws = words.workspace()?;
    let id = words.word()?;
    let feature = words.word()?;
    words.end()?;
    let (id, feature) = two_texts(alloc, id, feature)?;
    Ok(Command::Edit {
        ws,
        edit: Edit::Unset { id, feature },
    })
}

#[tactic(auto, unfolding(crate::specs::Command::add_at))]
fn add(alloc: Global, words: &mut Words<'_>) -> Result<Command, ParseFault>
    ensures { GivesCommand result (add_at words.old) }
{
    let ws = words.workspace()?;
    let id = words.word()?;
    let feature = words.word()?;
    let at = words.index_or_end()?;
    let value = words.rest()?;
    let (id, feature, value) = three_texts(alloc, id, feature, value)?;
    Ok(Command::Edit {
        ws,
        edit: Edit::Add {
            id,
            feature,
            at,
            value,
        },
    })
}

#[tactic(auto, unfolding(crate::specs::Command::remove_at))]
fn remove(alloc: Global, words: &mut Words<'_>) -> Result<Command, ParseFault>
    ensures { GivesCommand result (remove_at words.old) }
{
    let ws = words.workspace()?;
    let id = words.word()?;
    let feature = words.word()?;
    let index = words.number(0)?;
    words.end()?;
    let (id, feature) = two_texts(alloc, id, feature)?;
    Ok(Command::Edit {
        ws,
        edit: Edit::Remove { id, feature, index },
    })
}

#[tactic(auto, unfolding(crate::specs::Command::shift_at))]
fn shift(alloc: Global, words: &mut Words<'_>) -> Result<Command, ParseFault>
    ensures { GivesCommand result (shift_at words.old) }
{
    let ws = words.workspace()?;
    let id = words.word()?;
    let feature = words.word()?;
    let from = words.number(0)?;
    let to = words.number(0)?;
    words.end()?;
    let (id, feature) = two_texts(alloc, id, feature)?;
    Ok(Command::Edit {
        ws,
        edit: Edit::Shift {
            id,
            feature,
            from,
            to,
        },
    })
}

#[tactic(auto, unfolding(crate::specs::Command::link_at))]
fn link(alloc: Global, words: &mut Words<'_>) -> Result<Command, ParseFault>
    ensures { GivesCommand result (link_at words.old) }
{
    let ws = words.workspace()?;
    let id = words.word()?;
    let feature = words.word()?;
    let target = words.word()?;
    let index = words.optional_number()?;
    words.end()?;
    let (id, feature, target) = three_texts(alloc, id, feature, target)?;
    Ok(Command::Edit {
        ws,
        edit: Edit::Link {
            id,
            feature,
            target,
            index,
        },
    })
}

#[tactic(auto, unfolding(crate::specs::Command::unlink_at))]
fn unlink(alloc: Global, words: &mut Words<'_>) -> Result<Command, ParseFault>
    ensures { GivesCommand result (unlink_at words.old) }
{
    let ws = words.workspace()?;
    let id = words.word()?;
    let feature = words.word()?;
    let target = words.word()?;
    words.end()?;
    let (id, feature, target) = three_texts(alloc, id, feature, target)?;
    Ok(Command::Edit {
        ws,
        edit: Edit::Unlink {
            id,
            feature,
            target,
        },
    })
}

#[tactic(auto, unfolding(crate::specs::Command::reorder_at))]
fn reorder(alloc: Global, words: &mut Words<'_>) -> Result<Command, ParseFault>
    ensures { GivesCommand result (reorder_at words.old) }
{
    let ws = words.workspace()?;
    let id = words.word()?;
    let feature = words.word()?;
    let target = words.word()?;
    let index = words.number(0)?;
    words.end()?;
    let (id, feature, target) = three_texts(alloc, id, feature, target)?;
    Ok(Command::Edit {
        ws,
        edit: Edit::Reorder {
            id,
            feature,
            target,
            index,
        },
    })
}

#[tactic(auto, unfolding(crate::specs::Command::begin_at))]
fn begin(alloc: Global, words: &mut Words<'_>) -> Result<Command, ParseFault>
    ensures { GivesCommand result (begin_at words.old) }
{
    let ws = words.workspace()?;
    let name = words.name()?;
    words.end()?;
    Ok(Command::Begin {
        ws,
        name: Text::new(alloc, name)?,
    })
}

#[tactic(auto, unfolding(crate::specs::Command::end_line_at))]
fn end(words: &mut Words<'_>) -> Result<Command, ParseFault>
    ensures { GivesCommand result (end_line_at words.old) }
{
    let ws = words.workspace()?;
    words.end()?;
    Ok(Command::End { ws })
}

#[tactic(auto, unfolding(crate::specs::Command::undo_at))]
fn undo(words: &mut Words<'_>) -> Result<Command, ParseFault>
    ensures { GivesCommand result (undo_at words.old) }
{
    let ws = words.workspace()?;
    words.end()?;
    Ok(Command::Undo { ws })
}

#[tactic(auto, unfolding(crate::specs::Command::discard_at))]
fn discard(words: &mut Words<'_>) -> Result<Command, ParseFault>
    ensures { GivesCommand result (discard_at words.old) }
{
    let ws = words.workspace()?;
    words.end()?;
    Ok(Command::Discard { ws })
}

#[tactic(auto, unfolding(crate::specs::Command::tidy_at))]
fn tidy(words: &mut Words<'_>) -> Result<Command, ParseFault>
    ensures { GivesCommand result (tidy_at words.old) }
{
    let ws = words.workspace()?;
    words.end()?;
    Ok(Command::Tidy { ws })
}

#[tactic(auto, unfolding(crate::specs::Command::apply_at))]
fn apply(alloc: Global, words: &mut Words<'_>) -> Result<Command, ParseFault>
    ensures { GivesCommand result (apply_at words.old) }
{
    let ws = words.workspace()?;
    let bytes = bytes(alloc, words)?;
    words.end()?;
    Ok(Command::Apply { ws, bytes })
}

/// The next word, which spells bytes in hexadecimal digits.
#[tactic(auto, unfolding(crate::specs::Command::bytes_at))]
fn bytes(alloc: Global, words: &mut Words<'_>) -> Result<Bytes, ParseFault>
    ensures { Gives words.new result (bytes_at words.old) }
{
    let column = words.column();
    let word = words.word()?;
    match hex::decode(alloc, word) {
        Ok(bytes) => Ok(Bytes::from_vec(bytes)),
        Err(FromHexError::OutOfMemory) => Err(ParseFault::Memory),
        Err(
            FromHexError::InvalidHexCharacter { .. }
            | FromHexError::OddLength
            | FromHexError::InvalidStringLength,
        ) => Err(bad_line(column)),
    }
}

#[tactic(auto, unfolding(crate::specs::Command::changes_at))]
fn changes(words: &mut Words<'_>) -> Result<Command, ParseFault>
    ensures { GivesCommand result (changes_at words.old) }
{
    let ws = words.workspace()?;
    words.end()?;
    Ok(Command::Changes { ws })
}

#[tactic(auto, unfolding(crate::specs::Command::show_at))]
fn show(words: &mut Words<'_>) -> Result<Command, ParseFault>
    ensures { GivesCommand result (show_at words.old) }
{
    let ws = words.workspace()?;
    words.end()?;
    Ok(Command::Show { ws })
}

#[tactic(auto, unfolding(crate::specs::Command::cat_at))]
fn cat(alloc: Global, words: &mut Words<'_>) -> Result<Command, ParseFault>
    ensures { GivesCommand result (cat_at words.old) }
{
    let spec = spec(alloc, words)?;
    words.end()?;
    Ok(Command::Cat { spec })
}

#[tactic(auto, unfolding(crate::specs::Command::validate_at))]
fn validate(words: &mut Words<'_>) -> Result<Command, ParseFault>
    ensures { GivesCommand result (validate_at words.old) }
{
    let ws = words.workspace()?;
    words.end()?;
    Ok(Command::Validate { ws })
}

#[tactic(auto, unfolding(crate::specs::Command::commit_at))]
fn commit(alloc: Global, words: &mut Words<'_>) -> Result<Command, ParseFault>
    ensures { GivesCommand result (commit_at words.old) }
{
    let ws = words.workspace()?;
    let message = words.optional_rest()?;
    Ok(Command::Commit {
        ws,
        message: match message {
            None => None,
            Some(message) => Some(Text::new(alloc, message)?),
        },
    })
}

#[tactic(auto, unfolding(crate::specs::Command::signed_at))]
fn signed(alloc: Global, words: &mut Words<'_>) -> Result<Command, ParseFault>
    ensures { GivesCommand result (signed_at words.old) }
{
    let ws = words.workspace()?;
    let author = words.name()?;
    let moment = words.moment()?;
    let message = words.optional_rest()?;
    Ok(Command::Signed {
        ws,
        author: Text::new(alloc, author)?,
        moment,
        message: match message {
            None => None,
            Some(message) => Some(Text::new(alloc, message)?),
        },
    })
}

#[tactic(auto, unfolding(crate::specs::Command::branch_at))]
fn branch(alloc: Global, words: &mut Words<'_>) -> Result<Command, ParseFault>
    ensures { GivesCommand result (branch_at words.old) }
{
    let ws = words.workspace()?;
    let name = words.name()?;
    words.end()?;
    Ok(Command::Branch {
        ws,
        name: Text::new(alloc, name)?,
    })
}

#[tactic(auto, unfolding(crate::specs::Command::tag_at))]
fn tag(alloc: Global, words: &mut Words<'_>) -> Result<Command, ParseFault>
    ensures { GivesCommand result (tag_at words.old) }
{
    let name = words.name()?;
    let spec = spec(alloc, words)?;
    words.end()?;
    Ok(Command::Tag {
        name: Text::new(alloc, name)?,
        spec,
    })
}

#[tactic(auto, unfolding(crate::specs::Command::log_at))]
fn log(words: &Words<'_>) -> Result<Command, ParseFault>
    ensures { GivesCommand result (log_at words.now) }
{
    words.end()?;
    Ok(Command::Log)
}

#[tactic(auto, unfolding(crate::specs::Command::package_at))]
fn package_of(alloc: Global, words: &mut Words<'_>) -> Result<Command, ParseFault>
    ensures { GivesCommand result (package_at words.old) }
{
    let spec = spec(alloc, words)?;
    words.end()?;
    Ok(Command::Package { spec })
}

#[tactic(auto, unfolding(crate::specs::Command::update_at))]
fn update(alloc: Global, words: &mut Words<'_>) -> Result<Command, ParseFault>
    ensures { GivesCommand result (update_at words.old) }
{
    let ws = words.workspace()?;
    let choices = words.optional_word()?;
    words.end()?;
    Ok(Command::Update {
        ws,
        choices: match choices {
            None => None,
            Some(choices) => Some(Text::new(alloc, choices)?),
        },
    })
}

#[tactic(auto, unfolding(crate::specs::Command::merge_at))]
fn merge(alloc: Global, words: &mut Words<'_>) -> Result<Command, ParseFault>
    ensures { GivesCommand result (merge_at words.old) }
{
    let ws = words.workspace()?;
    let branch = words.name()?;
    let choices = words.optional_word()?;
    words.end()?;
    Ok(Command::Merge {
        ws,
        branch: Text::new(alloc, branch)?,
        choices: match choices {
            None => None,
            Some(choices) => Some(Text::new(alloc, choices)?),
        },
    })
}

#[tactic(auto, unfolding(crate::specs::Command::revert_at))]
fn revert(words: &mut Words<'_>) -> Result<Command, ParseFault>
    ensures { GivesCommand result (revert_at words.old) }
{
    let ws = words.workspace()?;
    let version = words.number(0)?;
    words.end()?;
    Ok(Command::Revert { ws, version })
}

#[tactic(auto, unfolding(crate::specs::Command::drop_at))]
fn drop_workspace(words: &mut Words<'_>) -> Result<Command, ParseFault>
    ensures { GivesCommand result (drop_at words.old) }
{
    let ws = words.workspace()?;
    words.end()?;
    Ok(Command::Drop { ws })
}

#[tactic(auto, unfolding(crate::specs::Command::upgrade_at))]
fn upgrade(words: &Words<'_>) -> Result<Command, ParseFault>
    ensures { GivesCommand result (upgrade_at words.now) }
{
    words.end()?;
    Ok(Command::Upgrade)
}

/// Two words as texts.
fn two_texts(alloc: Global, first: &str, second: &str) -> Result<(Text, Text), AllocError>
    ensures { IfOk result (λ texts. (texts.0 ≡ first.now) × (texts.1 ≡ second.now)) }
{
    let first = Text::new(alloc, first)?;
    let second = Text::new(alloc, second)?;
    Ok((first, second))
}

/// Three words as texts.
fn three_texts(
    alloc: Global,
    first: &str,
    second: &str,
    third: &str,
) -> Result<(Text, Text, Text), AllocError>
    ensures { IfOk result (λ texts. (texts.0 ≡ first.now) × (texts.1 ≡ second.now) × (texts.2 ≡ third.now)) }
{
    let (first, second) = two_texts(alloc, first, second)?;
    let third = Text::new(alloc, third)?;
    Ok((first, second, third))
}

/// The next word, which names a version.
#[tactic(auto, unfolding(crate::specs::Command::spec_at))]
fn spec(alloc: Global, words: &mut Words<'_>) -> Result<Spec, ParseFault>
    ensures { GivesSpec words.new result (spec_at words.old) }
{
    let column = words.column();
    let word = words.word()?;
    match spec_of(alloc, word)? {
        Some(spec) => Ok(spec),
        None => Err(bad_line(column)),
    }
}

/// The version that a word names, if it is of the form.
#[tactic(auto, unfolding(crate::specs::Command::spec_of))]
fn spec_of(alloc: Global, word: &str) -> Result<Option<Spec>, AllocError>
    ensures { IfOk result (λ spec. spec ≡ spec_of word.now) }
{
    if let Some(number) = number_of(word) {
        return Ok(Some(Spec::Number(number)));
    }
    if is_name(word) {
        return Ok(Some(Spec::Branch(Text::new(alloc, word)?)));
    }
    match tag_name(word) {
        Some(name) => Ok(Some(Spec::Tag(Text::new(alloc, name)?))),
        None => Ok(None),
    }
}

/// The name after `@`, if the word is a tag's.
fn tag_name(word: &str) -> Option<&str>
    ensures none { IfNone result (tag_of word.now ≡ None) }
    ensures some { IfSome result (λ name. tag_of word.now ≡ Some (Tag name.now)) }
{
    match word.strip_prefix('@') {
        Some(name) => { if is_name(name) { Some(name) } else { None } }
        None => None,
    }
}
