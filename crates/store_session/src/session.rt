//! One command after another: decided, written, made, and answered.
ghost use Rattle.std.specs.Prelude.{◌≡◌, ◌≢◌, ◌⊎◌, ◌+◌, ◌-◌, ◌^◌, ◌<◌, ◌++◌, ℕ, List, length, IsTrue, IfOk, OnOk, IfErr, IsErrOf, IsSome, None, true, false};
ghost use Rattle.host_port.specs.Host.{disk_now, said_now, Rose, GoesOn, Throughout, KeepsDisk, KeepsSaid, KeepsInput, AddsPart, CrashLeaves};
ghost use Rattle.command_runs.specs.Runs.{listed, after};
ghost use Rattle.command_runs.specs.Crashes.{IsStepping};
ghost use Rattle.op_form.specs.declared.event.Event.{Event};
ghost use Rattle.plain_repository.specs.Events.{play};
ghost use Rattle.plain_repository.specs.Store.{StandsForEvents, IsDamaged, StandsForNoEvents};
ghost use Rattle.commit_journal.specs.Journal.{IsAtMostSynced, StandsForSame, new_size};
ghost use Rattle.state_cache.specs.Entries.{HoldsAll};
ghost use Rattle.repo_state.specs.Cached.{HasEncodings};
ghost use Rattle.repo_answers.specs.Counting.{AreCounts, element_count};
ghost use Rattle.repo_answers.specs.Decisions.{IsShortBlock};
ghost use Rattle.store_session.specs.Session.{answer_to, IsStoreOf, IsEntering, IfMade, AtDamage, answered_as};

use crate::answered::{Answered, SessionFault};
use crate::opening::Opening;
use crate::preparing::{answer, answer_quietly};
use commit_journal::Journal;
use host_port::Host;
use page_pool::Pool;
use repo_answers::{Counts, elements_at_head};
use repo_state::Repo;
use state_cache::Cache;
use std::alloc::{AllocError, Global};
use std::marker::Model;
use texts::Text;

/// A store that is open, its repository, and a pool of frames for its records and for states of versions, which a cache keeps. Between two
/// commands the cache's frames alone are out.
#[derive(Drop)]
pub struct Session {
    repo: Repo,
    journal: Journal,
    pool: Pool,
    cache: Cache,
}

impl Model for Session {
    ghost use Rattle.std.specs.Prelude.{◌≡◌, false};
    ghost use Rattle.state_cache.specs.Entries.{HoldsAll};
    ghost use Rattle.repo_state.specs.Cached.{HasEncodings};
    ghost use Rattle.store_session.specs.State.{SessionState};

    ghost Value = { SessionState };

    ghost view = { λ s. record { state = s.repo; end = s.journal.end; broken = s.journal.broken } };

    ghost invariant = { λ s. (s.journal.broken ≡ false → s.repo.end ≡ s.journal.end) × HoldsAll s.pool s.cache × HasEncodings s.repo s.pool s.cache };
}

impl Session {
    /// Opens the store: its records are read, and their events played.
    pub fn mount<H: Host>(alloc: Global, host: &mut H) -> Result<Session, SessionFault>
        ensures whole { IfOk result (λ s. s.broken ≡ false) }
        ensures opened { IfOk result (λ s. IsTrue (H.told host.old).tells → ((made : List Event) × IsStoreOf (disk_now (H.told host.new)) s.state made × StandsForEvents (disk_now (H.told host.old)).now made)) }
        ensures moments { Throughout (H.told host.old) (H.told host.new) (λ disk _. (disk ≡ disk_now (H.told host.old)) ⊎ CrashLeaves (StandsForSame (disk_now (H.told host.old)).now) disk) }
        ensures damaged { IfErr result (λ e. AtDamage e (λ at. IsTrue (H.told host.old).tells → IsDamaged (disk_now (H.told host.old)).now at × StandsForNoEvents (disk_now (H.told host.old)).now)) }
        // A file of more than 17 bytes is at each moment as it was, or that synced, whatever the answer.
        ensures long { new_size < length (disk_now (H.told host.old)).now → Throughout (H.told host.old) (H.told host.new) (λ disk _. IsAtMostSynced (disk_now (H.told host.old)) disk) }
        ensures never { IfErr result (λ e. e ≢ SessionFault.SayFault) }
        ensures cause { IsErrOf result SessionFault.DiskFault → Rose (H.told host.old).disk_faults (H.told host.new).disk_faults }
        ensures course { GoesOn (H.told host.old) (H.told host.new) }
        ensures said { KeepsSaid (H.told host.old) (H.told host.new) }
        ensures input { KeepsInput (H.told host.old) (H.told host.new) }
    {
        let mut opening = match Opening::begin(alloc, host) {
            Ok(opening) => opening,
            Err(fault) => return Err(fault),
        };
        'records: loop {
            match opening.next_event(alloc, host) {
                Err(fault) => return Err(fault),
                Ok(Some(_)) => {}
                Ok(None) => return Ok(opening.finish()),
            }
        }
    }

    /// A session over a journal that was read to its end, with the repository of its events.
    pub(crate) fn at_rest(repo: Repo, journal: Journal, pool: Pool, cache: Cache) -> Session
        requires end { repo.end ≡ journal.end }
        requires all { HoldsAll pool cache }
        requires forms { HasEncodings repo pool cache }
        ensures { result ≡ record { state = repo; end = journal.end; broken = journal.broken } }
    {
        Session {
            repo,
            journal,
            pool,
            cache,
        }
    }

    /// The repository in memory.
    pub fn repo(&self) -> &Repo
        ensures { result.now ≡ self.now.state }
    {
        &self.repo
    }

    /// What there is of each in the repository.
    pub fn counts(&self) -> Counts
        ensures { AreCounts self.now.state result }
    {
        repo_answers::counts_of(&self.repo)
    }

    /// How many elements the state at trunk's head has; none before there is a metamodel. Where memory runs out, the working
    /// models of all workspaces are let go, and they are counted once more.
    pub fn elements(&mut self, alloc: Global) -> Result<u64, AllocError>
        ensures elements { IfOk result (λ n. n ≡ element_count self.old.state) }
        ensures same { self.new ≡ self.old }
    {
        match elements_at_head(alloc, &mut self.cache, &mut self.pool, &self.repo) {
            Ok(elements) => Ok(elements),
            Err(_) => {
                self.repo.let_models_go();
                elements_at_head(alloc, &mut self.cache, &mut self.pool, &self.repo)
            }
        }
    }

    /// Answers a command: its event is in the file before its reply is printed.
    ///
    /// # Errors
    ///
    /// `DiskFault` breaks the session, and nothing of the reply is printed. After `SayFault` the command is carried out.
    /// After `Memory` the state, the disk and the console are as before; the cache may have changed. `Damaged` is never
    /// answered.
    pub fn step<H: Host>(
        &mut self,
        alloc: Global,
        host: &mut H,
        line: &str,
        block: &Option<Text>,
    ) -> Result<Answered, SessionFault>
        requires line { length line.now < 2 ^ 32 - 1 }
        requires block { IsShortBlock block.now }
        requires whole { self.old.broken ≡ false }
        requires open { IsTrue (H.told host.old).tells → ((made : List Event) × IsStoreOf (disk_now (H.told host.old)) self.old.state made) }
        // The answer is the plain repository's.
        ensures refused { IfOk result (λ a. a ≡ answered_as (answer_to self.old.state line.now block.now).refused) }
        ensures replied { OnOk result (IsTrue (H.told host.old).tells → said_now (H.told host.new) ≡ said_now (H.told host.old) ++ (answer_to self.old.state line.now block.now).reply) }
        ensures state { IfMade result (self.new.state ≡ after play self.old.state (answer_to self.old.state line.now block.now).event) }
        ensures added { IfMade result (IsTrue (H.told host.old).tells → (made : List Event) → IsStoreOf (disk_now (H.told host.old)) self.old.state made
            → IsStoreOf (disk_now (H.told host.new)) self.new.state (made ++ listed (answer_to self.old.state line.now block.now).event)) }
        ensures whole { IfMade result (self.new.broken ≡ false) }
        // A disk fault comes with a command that makes an event, before any byte of the reply is printed. It breaks the session,
        // whose state is that with the event.
        ensures event { IsErrOf result SessionFault.DiskFault → IsSome (answer_to self.old.state line.now block.now).event }
        ensures unsaid { IsErrOf result SessionFault.DiskFault → KeepsSaid (H.told host.old) (H.told host.new) }
        ensures broken { IsErrOf result SessionFault.DiskFault → self.new.broken ≡ true }
        ensures faulted { IsErrOf result SessionFault.DiskFault → self.new.state ≡ after play self.old.state (answer_to self.old.state line.now block.now).event }
        // Where no event is made the disk stays.
        ensures still { (answer_to self.old.state line.now block.now).event ≡ None → KeepsDisk (H.told host.old) (H.told host.new) }
        // At each moment a prefix of the reply is printed, and none of it before a crash leaves the event.
        ensures part { Throughout (H.told host.old) (H.told host.new) (λ _ said. AddsPart (said_now (H.told host.old)) (answer_to self.old.state line.now block.now).reply said) }
        ensures moments { (made : List Event) → IsStoreOf (disk_now (H.told host.old)) self.old.state made
            → Throughout (H.told host.old) (H.told host.new) (IsStepping StandsForEvents made (answer_to self.old.state line.now block.now).event (said_now (H.told host.old))) }
        ensures course { GoesOn (H.told host.old) (H.told host.new) }
        ensures input { KeepsInput (H.told host.old) (H.told host.new) }
        ensures disk_cause { IsErrOf result SessionFault.DiskFault → Rose (H.told host.old).disk_faults (H.told host.new).disk_faults }
        ensures say_cause { IsErrOf result SessionFault.SayFault → Rose (H.told host.old).say_faults (H.told host.new).say_faults }
        // Out of memory: nothing changed.
        ensures memory { IsErrOf result SessionFault.Memory → KeepsDisk (H.told host.old) (H.told host.new) × KeepsSaid (H.told host.old) (H.told host.new) }
        ensures same { IsErrOf result SessionFault.Memory → self.new ≡ self.old }
        ensures never { IfErr result (λ e. (at : ℕ) → e ≡ SessionFault.Damaged at → ⊥) }
    {
        answer(
            alloc,
            host,
            &mut self.pool,
            &mut self.cache,
            &mut self.repo,
            &mut self.journal,
            line,
            block,
        )
    }

    /// Answers a command as `step` does, and prints nothing.
    ///
    /// # Errors
    ///
    /// `DiskFault` breaks the session. After `Memory` the state and the disk are as before; the cache may have changed. No
    /// other fault is answered.
    pub fn step_quiet<H: Host>(
        &mut self,
        alloc: Global,
        host: &mut H,
        line: &str,
        block: &Option<Text>,
    ) -> Result<Answered, SessionFault>
        requires line { length line.now < 2 ^ 32 - 1 }
        requires block { IsShortBlock block.now }
        requires whole { self.old.broken ≡ false }
        requires open { IsTrue (H.told host.old).tells → ((made : List Event) × IsStoreOf (disk_now (H.told host.old)) self.old.state made) }
        // The command is answered and carried out as the plain repository has it.
        ensures refused { IfOk result (λ a. a ≡ answered_as (answer_to self.old.state line.now block.now).refused) }
        ensures state { OnOk result (self.new.state ≡ after play self.old.state (answer_to self.old.state line.now block.now).event) }
        ensures added { OnOk result (IsTrue (H.told host.old).tells → (made : List Event) → IsStoreOf (disk_now (H.told host.old)) self.old.state made
            → IsStoreOf (disk_now (H.told host.new)) self.new.state (made ++ listed (answer_to self.old.state line.now block.now).event)) }
        ensures whole { OnOk result (self.new.broken ≡ false) }
        ensures faults { IfErr result (λ e. (e ≡ SessionFault.DiskFault) ⊎ (e ≡ SessionFault.Memory)) }
        ensures event { IsErrOf result SessionFault.DiskFault → IsSome (answer_to self.old.state line.now block.now).event }
        ensures broken { IsErrOf result SessionFault.DiskFault → self.new.broken ≡ true }
        ensures faulted { IsErrOf result SessionFault.DiskFault → self.new.state ≡ after play self.old.state (answer_to self.old.state line.now block.now).event }
        // Where no event is made the disk stays.
        ensures still { (answer_to self.old.state line.now block.now).event ≡ None → KeepsDisk (H.told host.old) (H.told host.new) }
        ensures cause { IsErrOf result SessionFault.DiskFault → Rose (H.told host.old).disk_faults (H.told host.new).disk_faults }
        ensures memory { IsErrOf result SessionFault.Memory → KeepsDisk (H.told host.old) (H.told host.new) }
        ensures same { IsErrOf result SessionFault.Memory → self.new ≡ self.old }
        // At each moment a crash leaves the event whole or not at all.
        ensures entering { (made : List Event) → IsStoreOf (disk_now (H.told host.old)) self.old.state made
            → Throughout (H.told host.old) (H.told host.new) (λ disk _. IsEntering made (answer_to self.old.state line.now block.now).event disk) }
        ensures course { GoesOn (H.told host.old) (H.told host.new) }
        ensures said { KeepsSaid (H.told host.old) (H.told host.new) }
        ensures input { KeepsInput (H.told host.old) (H.told host.new) }
    {
        answer_quietly(
            alloc,
            host,
            &mut self.pool,
            &mut self.cache,
            &mut self.repo,
            &mut self.journal,
            line,
            block,
        )
    }
}
