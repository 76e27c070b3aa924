//! Which events could be made, and what is made of them, one by one and read again from their bytes.
ghost use Rattle.std.specs.Prelude.{◌≡◌, ◌≢◌, ◌+◌, ◌<◌, ◌≤◌, ◌^◌, ◌||◌, OnOk, OnErr, IsErrOf, IsTrue, length, is_some, true, false};
ghost use Rattle.commit_journal.specs.Journal.{most_bytes, next_gate};
ghost use Rattle.op_form.specs.declared.event.Event.{Event};
ghost use Rattle.op_form.specs.declared.event.Event.TheVariants.{Begin, Branch, Checkout, Commit, Drop, End, Signed, Tag, Undo, Discard, Upgrade};
ghost use Rattle.op_form.specs.Events.{event_encoding};
ghost use Rattle.op_form.specs.Formed.{is_event, IsEvent};
ghost use Rattle.plain_repository.specs.State.{workspace_of, is_closed, is_open, has_operations, has_local};
ghost use Rattle.plain_repository.specs.Events.{effect, play, playable, playable_with, suits};
ghost use Rattle.version_states.specs.Cached.{MayUse, Uses};
ghost use Rattle.repo_state.specs.Cached.{HasEncodings};
ghost use Rattle.event_play.specs.Foreseen.{IsForeseen};
ghost use Rattle.event_play.specs.Playing.{is_at_head, is_tested_late};

use crate::foreseen::Foreseen;
use crate::merging::{merge, tidy, update};
use commit_journal::{MOST_BYTES, next_gate};
use history_tree::Signature;
use model_state::is_name;
use op_form::Event;
use op_reading::{FormFault, decode_event};
use page_pool::Pool;
use repo_state::{PlayFault, Repo};
use state_cache::Cache;
use std::alloc::{AllocError, Global};
use texts::Text;

fn is_closed(repo: &Repo, ws: u32) -> bool
    ensures { result ≡ is_closed (workspace_of repo.now ws) }
{
    match repo.workspace(ws) {
        None => false,
        Some(workspace) => !workspace.is_open(),
    }
}

fn is_open(repo: &Repo, ws: u32) -> bool
    ensures { result ≡ is_open (workspace_of repo.now ws) }
{
    match repo.workspace(ws) {
        None => false,
        Some(workspace) => workspace.is_open(),
    }
}

fn has_operations(repo: &Repo, ws: u32) -> bool
    ensures { result ≡ has_operations (workspace_of repo.now ws) }
{
    match repo.workspace(ws) {
        None => false,
        Some(workspace) => workspace.has_operations(),
    }
}

fn has_local(repo: &Repo, ws: u32) -> bool
    ensures { result ≡ has_local (workspace_of repo.now ws) }
{
    match repo.workspace(ws) {
        None => false,
        Some(workspace) => workspace.has_local(),
    }
}

/// Whether a workspace could be made at a version on a branch.
fn could_check_out(repo: &Repo, version: u32, branch: u32) -> bool
    ensures { result ≡ playable_with repo.now repo.now.meta (Checkout version branch) }
{
    let Some(begun) = repo.begun() else {
        return false;
    };
    let history = &begun.history;
    version < history.version_count()
        && branch < history.branch_count()
        && (history.version(version).branch == branch || history.head(branch) == version)
}

/// Whether a command could open a composite of that name in a workspace.
fn could_begin(repo: &Repo, ws: u32, name: &Text) -> bool
    ensures { result ≡ playable_with repo.now repo.now.meta (Begin ws name.now) }
{
    repo.begun().is_some() && is_name(name.as_str()) && is_closed(repo, ws)
}

/// Whether a command could close the composite that is open in a workspace.
fn could_end(repo: &Repo, ws: u32) -> bool
    ensures { result ≡ playable_with repo.now repo.now.meta (End ws) }
{
    repo.begun().is_some() && is_open(repo, ws)
}

/// Whether a command could drop the last operation of a workspace.
fn could_undo(repo: &Repo, ws: u32) -> bool
    ensures { result ≡ playable_with repo.now repo.now.meta (Undo ws) }
{
    repo.begun().is_some() && is_closed(repo, ws) && has_operations(repo, ws)
}

/// Whether a command could drop all that is local in a workspace.
fn could_discard(repo: &Repo, ws: u32) -> bool
    ensures { result ≡ playable_with repo.now repo.now.meta (Discard ws) }
{
    repo.begun().is_some() && (is_open(repo, ws) || has_local(repo, ws))
}

/// Whether a version could be made of a workspace's operations.
fn could_commit(repo: &Repo, ws: u32, message: &Text) -> bool
    ensures { result ≡ playable_with repo.now repo.now.meta (Commit ws message.now) }
{
    // The message may be any text.
    let _message = message;
    repo.begun().is_some() && is_at_head(repo, ws) && is_closed(repo, ws) && has_local(repo, ws)
}

/// The same, of a version that is signed.
fn could_sign(repo: &Repo, ws: u32, author: &Text, moment: u64, message: &Text) -> bool
    ensures { result ≡ playable_with repo.now repo.now.meta (Signed ws author.now moment message.now) }
{
    // The moment may be any number, and the message any text.
    let _moment = moment;
    let _message = message;
    repo.begun().is_some()
        && is_name(author.as_str())
        && (is_at_head(repo, ws) && is_closed(repo, ws) && has_local(repo, ws))
}

/// Whether a command could upgrade the store, as far as it is not upgraded.
fn could_upgrade(repo: &Repo) -> bool
    ensures { result ≡ playable_with repo.now repo.now.meta Upgrade }
{
    repo.begun().is_some()
}

/// Whether a workspace is there, and its base is the head of its branch.
fn is_at_head(repo: &Repo, ws: u32) -> bool
    ensures { result ≡ is_at_head repo.now.history (workspace_of repo.now ws) }
{
    repo.recall_order();
    let Some(begun) = repo.begun() else {
        return false;
    };
    match repo.workspace(ws) {
        None => false,
        Some(workspace) => workspace.base == begun.history.head(workspace.branch),
    }
}

/// Whether a command could start a branch of that name at a workspace's base.
fn could_branch(repo: &Repo, ws: u32, name: &Text) -> bool
    ensures { result ≡ playable_with repo.now repo.now.meta (Branch ws name.now) }
{
    let Some(begun) = repo.begun() else {
        return false;
    };
    is_name(name.as_str())
        && begun.history.branch_named(name.as_str()).is_none()
        && is_closed(repo, ws)
}

/// Whether a tag of that name could be made.
fn could_tag(repo: &Repo, name: &Text, version: u32) -> bool
    ensures { result ≡ playable_with repo.now repo.now.meta (Tag name.now version) }
{
    let Some(begun) = repo.begun() else {
        return false;
    };
    is_name(name.as_str())
        && !begun.history.has_tag(name.as_str())
        && version < begun.history.version_count()
}

/// Whether a command could drop a workspace.
fn could_drop(repo: &Repo, ws: u32) -> bool
    ensures { result ≡ playable_with repo.now repo.now.meta (Drop ws) }
{
    repo.begun().is_some() && repo.workspace(ws).is_some()
}

/// Whether an event could be made, as far as this is known without making it.
fn could(repo: &Repo, event: &Event) -> bool
    ensures { result ≡ (is_tested_late event.now || playable_with repo.now repo.now.meta event.now) }
{
    match event {
        Event::Init { .. } => true,
        Event::Checkout { version, branch } => could_check_out(repo, *version, *branch),
        Event::Edit { .. } => true,
        Event::Begin { ws, name } => could_begin(repo, *ws, name),
        Event::End { ws } => could_end(repo, *ws),
        Event::Undo { ws } => could_undo(repo, *ws),
        Event::Discard { ws } => could_discard(repo, *ws),
        Event::Tidy { .. } => true,
        Event::Commit { ws, message } => could_commit(repo, *ws, message),
        Event::Branch { ws, name } => could_branch(repo, *ws, name),
        Event::Tag { name, version } => could_tag(repo, name, *version),
        Event::Update { .. } => true,
        Event::Merge { .. } => true,
        Event::Drop { ws } => could_drop(repo, *ws),
        Event::Evolve { .. } => true,
        Event::Upgrade => could_upgrade(repo),
        Event::Signed {
            ws,
            author,
            moment,
            message,
        } => could_sign(repo, *ws, author, *moment, message),
    }
}

/// Whether an event suits the store: a version is signed in one that is upgraded, and in no other.
fn suits(repo: &Repo, event: &Event) -> bool
    ensures { result ≡ suits repo.now.upgraded event.now }
{
    match event {
        Event::Commit { .. } => !repo.is_upgraded(),
        Event::Upgrade => !repo.is_upgraded(),
        Event::Signed { .. } => repo.is_upgraded(),
        Event::Init { .. } => true,
        Event::Checkout { .. } => true,
        Event::Edit { .. } => true,
        Event::Begin { .. } => true,
        Event::End { .. } => true,
        Event::Undo { .. } => true,
        Event::Discard { .. } => true,
        Event::Tidy { .. } => true,
        Event::Branch { .. } => true,
        Event::Tag { .. } => true,
        Event::Update { .. } => true,
        Event::Merge { .. } => true,
        Event::Drop { .. } => true,
        Event::Evolve { .. } => true,
    }
}

/// What an event changes beside the numbers that every event raises.
#[tactic(auto, using(version_states::proofs::Caching::uses_none))]
fn change(
    alloc: Global,
    cache: &mut Cache,
    pool: &mut Pool,
    repo: &mut Repo,
    event: Event,
    foreseen: Foreseen,
) -> Result<(), PlayFault>
    requires tested { (is_tested_late event || playable_with repo.old repo.old.meta event) ≡ true }
    requires spelled { IsEvent event }
    requires short { length (event_encoding event) ≤ most_bytes }
    requires foreseen { IsForeseen repo.old event foreseen }
    requires usable { MayUse pool.old cache.old }
    requires forms { HasEncodings repo.old pool.old cache.old }
    ensures could { OnOk result (playable_with repo.old repo.old.meta event ≡ true) }
    ensures done { OnOk result (repo.new ≡ effect repo.old event) }
    ensures same { OnErr result (repo.new ≡ repo.old) }
    ensures cannot { IsErrOf result PlayFault.NotPlayable → playable_with repo.old repo.old.meta event ≡ false }
    ensures uses { Uses pool.old pool.new cache.old cache.new }
    ensures forms { HasEncodings repo.old pool.new cache.new }
{
    match event {
        Event::Init { text } => repo.begin(alloc, &text),
        Event::Checkout { version, branch } => Ok(repo.check_out(alloc, version, branch)?),
        Event::Edit { ws, package } => repo.record(alloc, cache, pool, ws, package),
        Event::Begin { ws, name } => {
            repo.open_composite(alloc, ws, name);
            Ok(())
        }
        Event::End { ws } => Ok(repo.close_composite(ws)?),
        Event::Undo { ws } => {
            repo.undo(alloc, ws);
            Ok(())
        }
        Event::Discard { ws } => {
            repo.discard(alloc, ws);
            Ok(())
        }
        Event::Tidy { ws } => tidy(alloc, repo, ws),
        Event::Commit { ws, message } => Ok(repo.commit(alloc, ws, None, message)?),
        Event::Branch { ws, name } => Ok(repo.branch(ws, name)?),
        Event::Tag { name, version } => Ok(repo.tag(name, version)?),
        Event::Update { ws, choices } => update(alloc, repo, ws, &choices, foreseen),
        Event::Merge {
            ws,
            branch,
            choices,
        } => merge(alloc, repo, ws, branch, &choices, foreseen),
        Event::Drop { ws } => {
            repo.drop_workspace(ws);
            Ok(())
        }
        Event::Evolve { text } => repo.evolve(alloc, &text),
        Event::Upgrade => {
            repo.upgrade();
            Ok(())
        }
        Event::Signed {
            ws,
            author,
            moment,
            message,
        } => {
            let signature = Some(Signature { author, moment });
            let signed = repo.commit(alloc, ws, signature, message);
            Ok(signed?)
        }
    }
}

/// Makes an event whose bytes are so many, where it could be made.
#[tactic(auto, unfolding(plain_repository::specs::Events::play, plain_repository::specs::Events::playable), using(version_states::proofs::Caching::uses_none))]
fn make(
    alloc: Global,
    cache: &mut Cache,
    pool: &mut Pool,
    repo: &mut Repo,
    event: Event,
    foreseen: Foreseen,
    size: usize,
) -> Result<(), PlayFault>
    requires event { is_event event ≡ true }
    requires foreseen { IsForeseen repo.old event foreseen }
    requires size { size ≡ length (event_encoding event) }
    requires room { next_gate repo.old.end size < 2 ^ 40 }
    requires usable { MayUse pool.old cache.old }
    requires forms { HasEncodings repo.old pool.old cache.old }
    ensures could { OnOk result (IsTrue (playable repo.old event)) }
    ensures made { OnOk result (repo.new ≡ play repo.old event) }
    ensures same { OnErr result (repo.new ≡ repo.old) }
    ensures cannot { IsErrOf result PlayFault.NotPlayable → playable repo.old event ≡ false }
    ensures uses { Uses pool.old pool.new cache.old cache.new }
    ensures forms { HasEncodings repo.new pool.new cache.new }
{
    if repo.is_full() || size as u64 > MOST_BYTES {
        drop(event);
        return Err(PlayFault::NotPlayable);
    }
    if !suits(repo, &event) || !could(repo, &event) {
        drop(event);
        return Err(PlayFault::NotPlayable);
    }
    repo.recall_order();
    let events = repo.event_count() + 1;
    let end = next_gate(repo.end(), size as u64);
    change(alloc, cache, pool, repo, event, foreseen)?;
    repo.set_journal(events, end);
    Ok(())
}

/// Makes an event that could be made, whose bytes are so many, with what was foreseen of it. What the event has is moved into the repository. When out of memory
/// the repository stays as it is.
pub fn play(
    alloc: Global,
    cache: &mut Cache,
    pool: &mut Pool,
    repo: &mut Repo,
    event: Event,
    foreseen: Foreseen,
    size: usize,
) -> Result<(), AllocError>
    requires can { IsTrue (playable repo.old event) }
    requires foreseen { IsForeseen repo.old event foreseen }
    requires size { size ≡ length (event_encoding event) }
    requires room { next_gate repo.old.end size < 2 ^ 40 }
    requires usable { MayUse pool.old cache.old }
    requires forms { HasEncodings repo.old pool.old cache.old }
    ensures played { OnOk result (repo.new ≡ play repo.old event) }
    ensures same { OnErr result (repo.new ≡ repo.old) }
    ensures uses { Uses pool.old pool.new cache.old cache.new }
    ensures forms { HasEncodings repo.new pool.new cache.new }
{
    match make(alloc, cache, pool, repo, event, foreseen, size) {
        Ok(()) => Ok(()),
        Err(PlayFault::Memory) => Err(AllocError),
        Err(PlayFault::NotPlayable) => unreachable!(),
    }
}

/// Makes the event whose encoding the bytes are.
///
/// # Errors
///
/// `NotPlayable` where they are no event that could be made here, and out of memory. The repository stays as it is.
#[tactic(auto, using(version_states::proofs::Caching::uses_none))]
pub fn play_bytes(
    alloc: Global,
    cache: &mut Cache,
    pool: &mut Pool,
    repo: &mut Repo,
    bytes: &[u8],
) -> Result<(), PlayFault>
    requires room { next_gate repo.old.end (length bytes.now) < 2 ^ 40 }
    requires usable { MayUse pool.old cache.old }
    requires forms { HasEncodings repo.old pool.old cache.old }
    ensures played { OnOk result ((event : Event) × IsTrue (playable repo.old event) × (bytes.now ≡ event_encoding event) × (repo.new ≡ play repo.old event)) }
    ensures refused { IsErrOf result PlayFault.NotPlayable → (event : Event) → IsTrue (playable repo.old event) → bytes.now ≢ event_encoding event }
    ensures same { OnErr result (repo.new ≡ repo.old) }
    ensures uses { Uses pool.old pool.new cache.old cache.new }
    ensures forms { HasEncodings repo.new pool.new cache.new }
{
    let event = match decode_event(alloc, bytes) {
        Ok(event) => event,
        Err(FormFault::NotForm { .. }) => return Err(PlayFault::NotPlayable),
        Err(FormFault::Memory) => return Err(PlayFault::Memory),
    };
    make(
        alloc,
        cache,
        pool,
        repo,
        event,
        Foreseen::Nothing,
        bytes.len(),
    )
}
