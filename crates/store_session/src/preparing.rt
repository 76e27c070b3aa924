//! The parts of a command: all that it takes is made ready, its event enters the store, and its reply is printed.
ghost use Rattle.std.specs.Prelude.{◌≡◌, [], ◌⊎◌, ◌++◌, ◌^◌, ◌-◌, ◌<◌, ℕ, length, List, Option, IsTrue, IfOk, OnOk, IfErr, OnErr, IsErrOf, IfSome, IsSome, None, Some, true, false};
ghost use Rattle.host_port.specs.Host.{disk_now, said_now, Rose, GoesOn, Throughout, KeepsDisk, KeepsSaid, KeepsInput, AddsPart};
ghost use Rattle.command_runs.specs.Runs.{listed, after};
ghost use Rattle.command_runs.specs.Crashes.{IsStepping};
ghost use Rattle.op_form.specs.declared.event.Event.{Event};
ghost use Rattle.plain_repository.specs.State.{State};
ghost use Rattle.op_form.specs.Events.{event_encoding};
ghost use Rattle.plain_repository.specs.Events.{play, playable};
ghost use Rattle.plain_repository.specs.Repository.{decide_line};
ghost use Rattle.plain_repository.specs.Store.{StandsForEvents};
ghost use Rattle.commit_journal.specs.Journal.{HoldsRecord, IsShort, RecordFits};
ghost use Rattle.state_cache.specs.Entries.{HoldsAll, stands};
ghost use Rattle.repo_state.specs.Cached.{HasEncodings};
ghost use Rattle.repo_answers.specs.Decisions.{IsShortBlock};
ghost use Rattle.repo_answers.specs.Loads.{MakesEventOf};
ghost use Rattle.event_play.specs.Foreseen.{IsForeseen};
ghost use Rattle.script_lang.specs.Reply.{printed};
ghost use Rattle.script_lang.specs.declared.reply.Last.TheVariants as last;
ghost use Rattle.store_session.specs.Session.{answer_to, answered_as, IsStoreOf, IsEntering, IfMade, IsPrepared, IsRecordOf, HoldsBoth, LeavesRecord};
ghost use Rattle.store_session.specs.declared.answered.SessionFault.TheVariants.{DiskFault};

use crate::answered::{Answered, SessionFault, kind_of};
use commit_journal::{Fit, Journal, Prepared, fits, give_up};
use event_play::{Foreseen, play, play_bytes};
use host_port::Host;
use op_form::Event;
use page_pool::{Pool, count_frames};
use repo_answers::{Decision, Made, decide, event_of_load};
use repo_state::{PlayFault, Repo};
use script_lang::print_reply;
use state_cache::Cache;
use std::alloc::{AllocError, Global};
use texts::Text;

/// All that answering a command takes: the bytes of the reply, and the record of the event. No more memory is needed.
#[derive(Drop)]
pub(crate) struct PreparedAnswer {
    pub(crate) reply: Vec<u8>,
    pub(crate) answered: Answered,
    pub(crate) ready: Option<Prepared>,
}

/// The record of an event's bytes, in frames of the pool. The cache yields as many as are wanting, and no more.
fn make_ready(
    alloc: Global,
    pool: &mut Pool,
    cache: &mut Cache,
    _repo: &Repo,
    journal: &Journal,
    form: &[u8],
) -> Result<Prepared, AllocError>
    requires short { IsShort form.now }
    requires all { HoldsAll pool.old cache.old }
    requires forms { HasEncodings _repo.now pool.old cache.old }
    ensures holds { IfOk result (λ prepared. HoldsRecord pool.new prepared form.now) }
    ensures held { IfOk result (λ prepared. HoldsBoth pool.new cache.new (Some prepared)) }
    ensures kept { LeavesRecord (length form.now) cache.old cache.new }
    ensures all { OnErr result (HoldsAll pool.new cache.new) }
    ensures forms { HasEncodings _repo.now pool.new cache.new }
{
    let frames = count_frames(form.len() + 5);
    cache.yield_frames(pool, frames as u32);
    let prepared = journal.prepare(alloc, pool, form)?;
    Ok(prepared)
}

/// Makes an event in memory whose record is ready. When out of memory the record's frames are given back.
fn play_ready(
    alloc: Global,
    pool: &mut Pool,
    cache: &mut Cache,
    repo: &mut Repo,
    event: Event,
    foreseen: Foreseen,
    form: &[u8],
    prepared: Prepared,
) -> Result<Prepared, AllocError>
    requires can { IsTrue (playable repo.old event) }
    requires foreseen { IsForeseen repo.old event foreseen }
    requires form { form.now ≡ event_encoding event }
    requires fits { RecordFits repo.old.end (length form.now) }
    requires holds { HoldsRecord pool.old prepared form.now }
    requires held { HoldsBoth pool.old cache.old (Some prepared) }
    requires forms { HasEncodings repo.old pool.old cache.old }
    ensures played { OnOk result (repo.new ≡ play repo.old event) }
    ensures same { OnErr result (repo.new ≡ repo.old) }
    ensures holds { IfOk result (λ prepared. HoldsRecord pool.new prepared form.now) }
    ensures held { IfOk result (λ prepared. HoldsBoth pool.new cache.new (Some prepared)) }
    ensures all { OnErr result (HoldsAll pool.new cache.new) }
    ensures forms { HasEncodings repo.new pool.new cache.new }
{
    match play(alloc, cache, pool, repo, event, foreseen, form.len()) {
        Ok(()) => Ok(prepared),
        Err(fault) => {
            give_up(prepared, pool);
            Err(fault)
        }
    }
}

/// Answers a command in memory: its event is made there, its record is ready in frames of the pool, and its reply is printed.
/// Where memory runs out, the working models of all workspaces are let go, and all of this is done once more.
pub(crate) fn prepare(
    alloc: Global,
    pool: &mut Pool,
    cache: &mut Cache,
    repo: &mut Repo,
    journal: &Journal,
    line: &str,
    block: &Option<Text>,
) -> Result<PreparedAnswer, AllocError>
    requires line { length line.now < 2 ^ 32 - 1 }
    requires block { IsShortBlock block.now }
    requires all { HoldsAll pool.old cache.old }
    requires forms { HasEncodings repo.old pool.old cache.old }
    ensures prepared_answer { IfOk result (IsPrepared pool.new repo.old (decide_line repo.old line.now block.now)) }
    ensures held { IfOk result (λ prepared_answer. HoldsBoth pool.new cache.new prepared_answer.ready) }
    ensures all { OnErr result (HoldsAll pool.new cache.new) }
    ensures forms { HasEncodings repo.new pool.new cache.new }
    ensures state { OnOk result (repo.new ≡ after play repo.old (decide_line repo.old line.now block.now).event) }
    ensures same { OnErr result (repo.new ≡ repo.old) }
{
    match prepare_once(alloc, pool, cache, repo, journal, line, block) {
        Ok(prepared_answer) => Ok(prepared_answer),
        Err(_) => {
            repo.let_models_go();
            prepare_once(alloc, pool, cache, repo, journal, line, block)
        }
    }
}

/// The same, and without a second try.
fn prepare_once(
    alloc: Global,
    pool: &mut Pool,
    cache: &mut Cache,
    repo: &mut Repo,
    journal: &Journal,
    line: &str,
    block: &Option<Text>,
) -> Result<PreparedAnswer, AllocError>
    requires line { length line.now < 2 ^ 32 - 1 }
    requires block { IsShortBlock block.now }
    requires all { HoldsAll pool.old cache.old }
    requires forms { HasEncodings repo.old pool.old cache.old }
    ensures prepared_answer { IfOk result (IsPrepared pool.new repo.old (decide_line repo.old line.now block.now)) }
    ensures held { IfOk result (λ prepared_answer. HoldsBoth pool.new cache.new prepared_answer.ready) }
    ensures all { OnErr result (HoldsAll pool.new cache.new) }
    ensures forms { HasEncodings repo.new pool.new cache.new }
    ensures state { OnOk result (repo.new ≡ after play repo.old (decide_line repo.old line.now block.now).event) }
    ensures same { OnErr result (repo.new ≡ repo.old) }
{
    match prepare_load(alloc, pool, cache, repo, journal, line, block) {
        Ok(prepared_answer) => Ok(prepared_answer),
        Err(PlayFault::Memory) => Err(AllocError),
        Err(PlayFault::NotPlayable) => {
            prepare_decided(alloc, pool, cache, repo, journal, line, block)
        }
    }
}

/// The bytes of the event that a line `load` makes with its block, where the journal has room for its record.
fn event_with_room(
    alloc: Global,
    repo: &Repo,
    line: &str,
    block: &Option<Text>,
) -> Result<Option<Vec<u8>>, AllocError>
    requires line { length line.now < 2 ^ 32 - 1 }
    requires block { IsShortBlock block.now }
    ensures { IfOk result (λ found. IfSome found (λ form. MakesEventOf line.now block.now form.items × RecordFits repo.now.end (length form.items))) }
{
    let Some(form) = event_of_load(alloc, repo, line, block)? else {
        return Ok(None);
    };
    match fits(repo.end(), form.len() as u64) {
        Fit::Yes => Ok(Some(form)),
        Fit::TooLarge | Fit::Full => Ok(None),
    }
}

/// The bytes of the reply `ok` alone.
fn print_done(alloc: Global) -> Result<Vec<u8>, AllocError>
    ensures { IfOk result (λ bytes. bytes.items ≡ printed (record { lines = []; last = last.Ok [] })) }
{
    b"ok\n".to_vec(alloc)
}

/// All that answering takes, of a line `load` whose event can be made: it is played by its bytes, and nothing is decided.
/// `NotPlayable` where the line is another, or is answered otherwise.
fn prepare_load(
    alloc: Global,
    pool: &mut Pool,
    cache: &mut Cache,
    repo: &mut Repo,
    journal: &Journal,
    line: &str,
    block: &Option<Text>,
) -> Result<PreparedAnswer, PlayFault>
    requires line { length line.now < 2 ^ 32 - 1 }
    requires block { IsShortBlock block.now }
    requires all { HoldsAll pool.old cache.old }
    requires forms { HasEncodings repo.old pool.old cache.old }
    ensures prepared_answer { IfOk result (IsPrepared pool.new repo.old (decide_line repo.old line.now block.now)) }
    ensures held { IfOk result (λ prepared_answer. HoldsBoth pool.new cache.new prepared_answer.ready) }
    ensures all { OnErr result (HoldsAll pool.new cache.new) }
    ensures forms { HasEncodings repo.new pool.new cache.new }
    ensures state { OnOk result (repo.new ≡ after play repo.old (decide_line repo.old line.now block.now).event) }
    ensures same { OnErr result (repo.new ≡ repo.old) }
{
    let Some(form) = event_with_room(alloc, repo, line, block)? else {
        return Err(PlayFault::NotPlayable);
    };
    let reply = print_done(alloc)?;
    let prepared = make_ready(alloc, pool, cache, repo, journal, &form)?;
    let prepared = play_form(alloc, pool, cache, repo, &form, prepared)?;
    Ok(PreparedAnswer {
        reply,
        answered: Answered::Accepted,
        ready: Some(prepared),
    })
}

/// Makes the event of bytes whose record is ready. Where it can't be made, or memory runs out, the record's frames are given back.
fn play_form(
    alloc: Global,
    pool: &mut Pool,
    cache: &mut Cache,
    repo: &mut Repo,
    form: &[u8],
    prepared: Prepared,
) -> Result<Prepared, PlayFault>
    requires fits { RecordFits repo.old.end (length form.now) }
    requires holds { HoldsRecord pool.old prepared form.now }
    requires held { HoldsBoth pool.old cache.old (Some prepared) }
    requires forms { HasEncodings repo.old pool.old cache.old }
    ensures played { OnOk result ((event : Event) × IsTrue (playable repo.old event) × (form.now ≡ event_encoding event) × (repo.new ≡ play repo.old event)) }
    ensures same { OnErr result (repo.new ≡ repo.old) }
    ensures holds { IfOk result (λ prepared. HoldsRecord pool.new prepared form.now) }
    ensures held { IfOk result (λ prepared. HoldsBoth pool.new cache.new (Some prepared)) }
    ensures all { OnErr result (HoldsAll pool.new cache.new) }
    ensures forms { HasEncodings repo.new pool.new cache.new }
{
    match play_bytes(alloc, cache, pool, repo, form) {
        Ok(()) => Ok(prepared),
        Err(fault) => {
            give_up(prepared, pool);
            Err(fault)
        }
    }
}

/// All that answering a line takes, where it is decided first.
#[tactic(auto, using(crate::proofs::Holding::all_on, crate::proofs::Holding::none_both))]
fn prepare_decided(
    alloc: Global,
    pool: &mut Pool,
    cache: &mut Cache,
    repo: &mut Repo,
    journal: &Journal,
    line: &str,
    block: &Option<Text>,
) -> Result<PreparedAnswer, AllocError>
    requires line { length line.now < 2 ^ 32 - 1 }
    requires block { IsShortBlock block.now }
    requires all { HoldsAll pool.old cache.old }
    requires forms { HasEncodings repo.old pool.old cache.old }
    ensures prepared_answer { IfOk result (IsPrepared pool.new repo.old (decide_line repo.old line.now block.now)) }
    ensures held { IfOk result (λ prepared_answer. HoldsBoth pool.new cache.new prepared_answer.ready) }
    ensures all { OnErr result (HoldsAll pool.new cache.new) }
    ensures forms { HasEncodings repo.new pool.new cache.new }
    ensures state { OnOk result (repo.new ≡ after play repo.old (decide_line repo.old line.now block.now).event) }
    ensures same { OnErr result (repo.new ≡ repo.old) }
{
    let Decision { reply, made } = decide(alloc, cache, pool, repo, line, block)?;
    let answered = kind_of(&reply);
    let reply = print_reply(alloc, &reply)?;
    let Some(
        Made {
            event,
            form,
            foreseen,
        },
    ) = made
    else {
        return Ok(PreparedAnswer {
            reply,
            answered,
            ready: None,
        });
    };
    let prepared = make_ready(alloc, pool, cache, repo, journal, &form)?;
    let prepared = play_ready(alloc, pool, cache, repo, event, foreseen, &form, prepared)?;
    Ok(PreparedAnswer {
        reply,
        answered,
        ready: Some(prepared),
    })
}

/// Writes an event's record, if there is one; its frames are given back either way.
pub(crate) fn enter<H: Host>(
    pool: &mut Pool,
    _cache: &Cache,
    journal: &mut Journal,
    host: &mut H,
    ready: Option<Prepared>,
) -> Result<(), SessionFault>
    requires whole { journal.old.broken ≡ false }
    requires ready { (state : State) × (event : Option Event) × IsRecordOf pool.old state event ready × (state.end ≡ journal.old.end) }
    requires holds { IsTrue (H.told host.old).tells → ((state : State) × (made : List Event) × IsStoreOf (disk_now (H.told host.old)) state made × (state.end ≡ journal.old.end)) }
    requires held { HoldsBoth pool.old _cache.now ready }
    ensures all { HoldsAll pool.new _cache.now }
    ensures stands { stands pool.new _cache.now ≡ stands pool.old _cache.now }
    ensures whole { OnOk result (journal.new.broken ≡ false) }
    ensures end { OnOk result ((state : State) (event : Option Event) → state.end ≡ journal.old.end → IsRecordOf pool.old state event ready → (after play state event).end ≡ journal.new.end) }
    ensures added { OnOk result (IsTrue (H.told host.old).tells → (state : State) (event : Option Event) → state.end ≡ journal.old.end → IsRecordOf pool.old state event ready
        → (made : List Event) → IsStoreOf (disk_now (H.told host.old)) state made → IsStoreOf (disk_now (H.told host.new)) (after play state event) (made ++ listed event)) }
    ensures entering { (state : State) (event : Option Event) → state.end ≡ journal.old.end → IsRecordOf pool.old state event ready
        → (made : List Event) → IsStoreOf (disk_now (H.told host.old)) state made → Throughout (H.told host.old) (H.told host.new) (λ disk _. IsEntering made event disk) }
    ensures fault { IfErr result (λ e. e ≡ DiskFault) }
    ensures broken { OnErr result (journal.new.broken ≡ true) }
    ensures event { OnErr result (IsSome ready) }
    ensures still { ready ≡ None → KeepsDisk (H.told host.old) (H.told host.new) }
    ensures cause { IsErrOf result SessionFault.DiskFault → Rose (H.told host.old).disk_faults (H.told host.new).disk_faults }
    ensures course { GoesOn (H.told host.old) (H.told host.new) }
    ensures said { KeepsSaid (H.told host.old) (H.told host.new) }
    ensures input { KeepsInput (H.told host.old) (H.told host.new) }
{
    let Some(prepared) = ready else {
        return Ok(());
    };
    match journal.append(pool, host, prepared) {
        Ok(()) => Ok(()),
        Err(_) => Err(SessionFault::DiskFault),
    }
}

/// A command that was carried out: the bytes of its reply, which are not printed yet.
#[derive(Drop)]
pub(crate) struct Carried {
    pub(crate) reply: Vec<u8>,
    pub(crate) answered: Answered,
}

/// Carries a command out: its event is made in memory and written to the file, and nothing is printed.
fn carry_out<H: Host>(
    alloc: Global,
    host: &mut H,
    pool: &mut Pool,
    cache: &mut Cache,
    repo: &mut Repo,
    journal: &mut Journal,
    line: &str,
    block: &Option<Text>,
) -> Result<Carried, SessionFault>
    requires line { length line.now < 2 ^ 32 - 1 }
    requires block { IsShortBlock block.now }
    requires whole { journal.old.broken ≡ false }
    requires end { repo.old.end ≡ journal.old.end }
    requires open { IsTrue (H.told host.old).tells → ((made : List Event) × IsStoreOf (disk_now (H.told host.old)) repo.old made) }
    requires all { HoldsAll pool.old cache.old }
    requires forms { HasEncodings repo.old pool.old cache.old }
    ensures all { HoldsAll pool.new cache.new }
    ensures forms { HasEncodings repo.new pool.new cache.new }
    ensures reply { IfOk result (λ c. c.reply.items ≡ (answer_to repo.old line.now block.now).reply) }
    ensures refused { IfOk result (λ c. c.answered ≡ answered_as (answer_to repo.old line.now block.now).refused) }
    ensures state { OnOk result (repo.new ≡ after play repo.old (answer_to repo.old line.now block.now).event) }
    ensures added { OnOk result (IsTrue (H.told host.old).tells → (made : List Event) → IsStoreOf (disk_now (H.told host.old)) repo.old made
        → IsStoreOf (disk_now (H.told host.new)) repo.new (made ++ listed (answer_to repo.old line.now block.now).event)) }
    ensures whole { OnOk result (journal.new.broken ≡ false) }
    ensures end { OnOk result (repo.new.end ≡ journal.new.end) }
    ensures faults { IfErr result (λ e. (e ≡ SessionFault.DiskFault) ⊎ (e ≡ SessionFault.Memory)) }
    ensures event { IsErrOf result SessionFault.DiskFault → IsSome (answer_to repo.old line.now block.now).event }
    ensures broken { IsErrOf result SessionFault.DiskFault → journal.new.broken ≡ true }
    ensures cause { IsErrOf result SessionFault.DiskFault → Rose (H.told host.old).disk_faults (H.told host.new).disk_faults }
    ensures faulted { IsErrOf result SessionFault.DiskFault → repo.new ≡ after play repo.old (answer_to repo.old line.now block.now).event }
    ensures still { (answer_to repo.old line.now block.now).event ≡ None → KeepsDisk (H.told host.old) (H.told host.new) }
    ensures memory { IsErrOf result SessionFault.Memory → KeepsDisk (H.told host.old) (H.told host.new) }
    ensures same_repo { IsErrOf result SessionFault.Memory → repo.new ≡ repo.old }
    ensures same_journal { IsErrOf result SessionFault.Memory → journal.new ≡ journal.old }
    ensures entering { (made : List Event) → IsStoreOf (disk_now (H.told host.old)) repo.old made
        → Throughout (H.told host.old) (H.told host.new) (λ disk _. IsEntering made (answer_to repo.old line.now block.now).event disk) }
    ensures course { GoesOn (H.told host.old) (H.told host.new) }
    ensures said { KeepsSaid (H.told host.old) (H.told host.new) }
    ensures input { KeepsInput (H.told host.old) (H.told host.new) }
{
    let Ok(prepared_answer) = prepare(alloc, pool, cache, repo, journal, line, block) else {
        return Err(SessionFault::Memory);
    };
    let PreparedAnswer {
        reply,
        answered,
        ready,
    } = prepared_answer;
    match enter(pool, cache, journal, host, ready) {
        Ok(()) => Ok(Carried { reply, answered }),
        Err(_) => Err(SessionFault::DiskFault),
    }
}

/// Answers a command: its event is in the file before its reply is printed.
pub(crate) fn answer<H: Host>(
    alloc: Global,
    host: &mut H,
    pool: &mut Pool,
    cache: &mut Cache,
    repo: &mut Repo,
    journal: &mut Journal,
    line: &str,
    block: &Option<Text>,
) -> Result<Answered, SessionFault>
    requires line { length line.now < 2 ^ 32 - 1 }
    requires block { IsShortBlock block.now }
    requires whole { journal.old.broken ≡ false }
    requires end { repo.old.end ≡ journal.old.end }
    requires open { IsTrue (H.told host.old).tells → ((made : List Event) × IsStoreOf (disk_now (H.told host.old)) repo.old made) }
    requires all { HoldsAll pool.old cache.old }
    requires forms { HasEncodings repo.old pool.old cache.old }
    ensures all { HoldsAll pool.new cache.new }
    ensures forms { HasEncodings repo.new pool.new cache.new }
    ensures refused { IfOk result (λ a. a ≡ answered_as (answer_to repo.old line.now block.now).refused) }
    ensures replied { OnOk result (IsTrue (H.told host.old).tells → said_now (H.told host.new) ≡ said_now (H.told host.old) ++ (answer_to repo.old line.now block.now).reply) }
    ensures state { IfMade result (repo.new ≡ after play repo.old (answer_to repo.old line.now block.now).event) }
    ensures added { IfMade result (IsTrue (H.told host.old).tells → (made : List Event) → IsStoreOf (disk_now (H.told host.old)) repo.old made
        → IsStoreOf (disk_now (H.told host.new)) repo.new (made ++ listed (answer_to repo.old line.now block.now).event)) }
    ensures whole { IfMade result (journal.new.broken ≡ false) }
    ensures end { journal.new.broken ≡ false → repo.new.end ≡ journal.new.end }
    ensures event { IsErrOf result SessionFault.DiskFault → IsSome (answer_to repo.old line.now block.now).event }
    ensures unsaid { IsErrOf result SessionFault.DiskFault → KeepsSaid (H.told host.old) (H.told host.new) }
    ensures broken { IsErrOf result SessionFault.DiskFault → journal.new.broken ≡ true }
    ensures part { Throughout (H.told host.old) (H.told host.new) (λ _ said. AddsPart (said_now (H.told host.old)) (answer_to repo.old line.now block.now).reply said) }
    ensures moments { (made : List Event) → IsStoreOf (disk_now (H.told host.old)) repo.old made
        → Throughout (H.told host.old) (H.told host.new) (IsStepping StandsForEvents made (answer_to repo.old line.now block.now).event (said_now (H.told host.old))) }
    ensures course { GoesOn (H.told host.old) (H.told host.new) }
    ensures input { KeepsInput (H.told host.old) (H.told host.new) }
    ensures disk_cause { IsErrOf result SessionFault.DiskFault → Rose (H.told host.old).disk_faults (H.told host.new).disk_faults }
    ensures say_cause { IsErrOf result SessionFault.SayFault → Rose (H.told host.old).say_faults (H.told host.new).say_faults }
    ensures faulted { IsErrOf result SessionFault.DiskFault → repo.new ≡ after play repo.old (answer_to repo.old line.now block.now).event }
    ensures still { (answer_to repo.old line.now block.now).event ≡ None → KeepsDisk (H.told host.old) (H.told host.new) }
    ensures memory { IsErrOf result SessionFault.Memory → KeepsDisk (H.told host.old) (H.told host.new) × KeepsSaid (H.told host.old) (H.told host.new) }
    ensures same_repo { IsErrOf result SessionFault.Memory → repo.new ≡ repo.old }
    ensures same_journal { IsErrOf result SessionFault.Memory → journal.new ≡ journal.old }
    ensures never { IfErr result (λ e. (at : ℕ) → e ≡ SessionFault.Damaged at → ⊥) }
{
    let carried = match carry_out(alloc, host, pool, cache, repo, journal, line, block) {
        Ok(carried) => carried,
        Err(fault) => return Err(fault),
    };
    match host.say(&carried.reply) {
        Ok(()) => Ok(carried.answered),
        Err(_) => Err(SessionFault::SayFault),
    }
}

/// Carries a command out, and prints nothing.
pub(crate) fn answer_quietly<H: Host>(
    alloc: Global,
    host: &mut H,
    pool: &mut Pool,
    cache: &mut Cache,
    repo: &mut Repo,
    journal: &mut Journal,
    line: &str,
    block: &Option<Text>,
) -> Result<Answered, SessionFault>
    requires line { length line.now < 2 ^ 32 - 1 }
    requires block { IsShortBlock block.now }
    requires whole { journal.old.broken ≡ false }
    requires end { repo.old.end ≡ journal.old.end }
    requires open { IsTrue (H.told host.old).tells → ((made : List Event) × IsStoreOf (disk_now (H.told host.old)) repo.old made) }
    requires all { HoldsAll pool.old cache.old }
    requires forms { HasEncodings repo.old pool.old cache.old }
    ensures all { HoldsAll pool.new cache.new }
    ensures forms { HasEncodings repo.new pool.new cache.new }
    ensures refused { IfOk result (λ a. a ≡ answered_as (answer_to repo.old line.now block.now).refused) }
    ensures state { OnOk result (repo.new ≡ after play repo.old (answer_to repo.old line.now block.now).event) }
    ensures added { OnOk result (IsTrue (H.told host.old).tells → (made : List Event) → IsStoreOf (disk_now (H.told host.old)) repo.old made
        → IsStoreOf (disk_now (H.told host.new)) repo.new (made ++ listed (answer_to repo.old line.now block.now).event)) }
    ensures whole { OnOk result (journal.new.broken ≡ false) }
    ensures end { journal.new.broken ≡ false → repo.new.end ≡ journal.new.end }
    ensures faults { IfErr result (λ e. (e ≡ SessionFault.DiskFault) ⊎ (e ≡ SessionFault.Memory)) }
    ensures event { IsErrOf result SessionFault.DiskFault → IsSome (answer_to repo.old line.now block.now).event }
    ensures broken { IsErrOf result SessionFault.DiskFault → journal.new.broken ≡ true }
    ensures cause { IsErrOf result SessionFault.DiskFault → Rose (H.told host.old).disk_faults (H.told host.new).disk_faults }
    ensures faulted { IsErrOf result SessionFault.DiskFault → repo.new ≡ after play repo.old (answer_to repo.old line.now block.now).event }
    ensures still { (answer_to repo.old line.now block.now).event ≡ None → KeepsDisk (H.told host.old) (H.told host.new) }
    ensures memory { IsErrOf result SessionFault.Memory → KeepsDisk (H.told host.old) (H.told host.new) }
    ensures same_repo { IsErrOf result SessionFault.Memory → repo.new ≡ repo.old }
    ensures same_journal { IsErrOf result SessionFault.Memory → journal.new ≡ journal.old }
    ensures entering { (made : List Event) → IsStoreOf (disk_now (H.told host.old)) repo.old made
        → Throughout (H.told host.old) (H.told host.new) (λ disk _. IsEntering made (answer_to repo.old line.now block.now).event disk) }
    ensures course { GoesOn (H.told host.old) (H.told host.new) }
    ensures said { KeepsSaid (H.told host.old) (H.told host.new) }
    ensures input { KeepsInput (H.told host.old) (H.told host.new) }
{
    match carry_out(alloc, host, pool, cache, repo, journal, line, block) {
        Ok(carried) => Ok(carried.answered),
        Err(fault) => Err(fault),
    }
}
