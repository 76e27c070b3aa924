//! A store that is being opened: its records are read, and the event of each is played.
ghost use Rattle.std.specs.Prelude.{◌≡◌, ◌≢◌, ◌+◌, ◌<◌, ◌^◌, ◌++◌, [], ◌∷◌, List, ℕ, length, IsTrue, IfOk, OnOk, IfErr, OnErr, IfSome, IfNone, IsErrOf, true, false};
ghost use Rattle.host_port.specs.Host.{disk_now, Rose, GoesOn, Throughout, KeepsDisk, KeepsSaid, KeepsInput};
ghost use Rattle.commit_journal.specs.Journal.{IsAtMostSynced, IsJournalAtRest, IsNoHeader, IsShort, IsStuck, IsWalked, StandsForNone, new_size, next_gate};
ghost use Rattle.commit_journal.specs.Walk.{IfDamaged};
ghost use Rattle.op_form.specs.declared.event.Event.{Event};
ghost use Rattle.op_form.specs.Events.{event_encoding};
ghost use Rattle.op_form.specs.Formed.{IsEvent};
ghost use Rattle.plain_repository.specs.Events.{play, playable};
ghost use Rattle.plain_repository.specs.Store.{IsDamaged, StandsForNoEvents};
ghost use Rattle.version_states.specs.Cached.{MayUse, Uses};
ghost use Rattle.repo_state.specs.Cached.{HasEncodings};
ghost use Rattle.store_session.specs.Opening.{IsMounting, IsOpenedSince, PlaysEvent};
ghost use Rattle.store_session.specs.Session.{AtDamage, IsPlayedUpTo, IsStoreOf};

use crate::answered::{SessionFault, session_fault};
use crate::session::Session;
use commit_journal::{JournalFault, Walk};
use event_play::play_bytes;
use host_port::Host;
use op_form::Event;
use op_reading::{FormFault, decode_event};
use page_pool::Pool;
use repo_state::{PlayFault, Repo};
use state_cache::Cache;
use std::alloc::{AllocError, Global};
use std::marker::Model;

/// A record that was read, whose event was played.
#[derive(Drop)]
pub struct Played {
    bytes: Vec<u8>,
}

impl Model for Played {
    ghost use Rattle.std.specs.Prelude.{ℕ, List};
    ghost use Rattle.store_session.specs.Opening.{SpellsEvent};

    ghost Value = { List ℕ };

    ghost view = { λ p. p.bytes.items };

    ghost invariant = { λ p. SpellsEvent p.bytes.items };
}

impl Played {
    /// The event, read from the record's bytes once more.
    pub fn event(&self, alloc: Global) -> Result<Event, AllocError>
        ensures { IfOk result (λ found. (event : Event) → IsEvent event → self.now ≡ event_encoding event → found ≡ event) }
    {
        match decode_event(alloc, &self.bytes) {
            Ok(event) => Ok(event),
            Err(FormFault::Memory) => Err(AllocError),
            Err(FormFault::NotForm { .. }) => unreachable!(),
        }
    }
}

/// The bytes of the next record, or `None` at the closed gate. Where memory runs out, the working models of all workspaces
/// are let go, and the record is read once more.
fn next_record<H: Host>(
    alloc: Global,
    host: &mut H,
    walk: &mut Walk,
    repo: &mut Repo,
) -> Result<Option<Vec<u8>>, JournalFault>
    requires walked { IsTrue (H.told host.old).tells → ((forms : List (List ℕ)) × IsWalked (disk_now (H.told host.old)) forms walk.old.next) }
    ensures some { IfOk result (λ next. IfSome next (λ form. (walk.new ≡ record { offset = walk.old.next; next = walk.old.next + 5 + length form.items; ended = walk.old.ended }) × IsShort form.items)) }
    ensures none { IfOk result (λ next. IfNone next (walk.new ≡ record walk.old { ended = true })) }
    ensures err { OnErr result (walk.new ≡ walk.old) }
    ensures low { walk.new.next < 2 ^ 40 }
    ensures walked { IfOk result (λ next. IfSome next (λ form. IsTrue (H.told host.old).tells → (forms : List (List ℕ)) → IsWalked (disk_now (H.told host.old)) forms walk.old.next
        → IsWalked (disk_now (H.told host.new)) (forms ++ form.items ∷ []) walk.new.next)) }
    ensures ended { IfOk result (λ next. IfNone next (IsTrue (H.told host.old).tells → (forms : List (List ℕ)) → IsWalked (disk_now (H.told host.old)) forms walk.old.next
        → IsJournalAtRest (disk_now (H.told host.new)) forms walk.new.next)) }
    ensures damaged { IfErr result (λ fault. IfDamaged fault (λ at. (at ≡ walk.old.next) × (IsTrue (H.told host.old).tells → IsStuck (disk_now (H.told host.old)).now at))) }
    ensures nothing { IfErr result (λ fault. IfDamaged fault (λ _. IsTrue (H.told host.old).tells → StandsForNone (disk_now (H.told host.old)).now)) }
    ensures cause { IsErrOf result JournalFault.DiskFault → Rose (H.told host.old).disk_faults (H.told host.new).disk_faults }
    ensures course { GoesOn (H.told host.old) (H.told host.new) }
    ensures disk { KeepsDisk (H.told host.old) (H.told host.new) }
    ensures said { KeepsSaid (H.told host.old) (H.told host.new) }
    ensures input { KeepsInput (H.told host.old) (H.told host.new) }
    ensures same { repo.new ≡ repo.old }
{
    match walk.next_bytes(alloc, host) {
        Err(JournalFault::Memory) => {
            repo.let_models_go();
            walk.next_bytes(alloc, host)
        }
        other => other,
    }
}

/// Plays the event of a record. Where memory runs out, the working models of all workspaces are let go, and it is played
/// once more.
fn play_record(
    alloc: Global,
    cache: &mut Cache,
    pool: &mut Pool,
    repo: &mut Repo,
    bytes: &[u8],
) -> Result<(), PlayFault>
    requires room { next_gate repo.old.end (length bytes.now) < 2 ^ 40 }
    requires usable { MayUse pool.old cache.old }
    requires forms { HasEncodings repo.old pool.old cache.old }
    ensures played { OnOk result ((event : Event) × IsTrue (playable repo.old event) × (bytes.now ≡ event_encoding event) × (repo.new ≡ play repo.old event)) }
    ensures refused { IsErrOf result PlayFault.NotPlayable → (event : Event) → IsTrue (playable repo.old event) → bytes.now ≢ event_encoding event }
    ensures uses { Uses pool.old pool.new cache.old cache.new }
    ensures forms { HasEncodings repo.new pool.new cache.new }
{
    match play_bytes(alloc, cache, pool, repo, bytes) {
        Err(PlayFault::Memory) => {
            repo.let_models_go();
            play_bytes(alloc, cache, pool, repo, bytes)
        }
        other => other,
    }
}

/// A store whose records are being read, with the repository of the events so far. The pool's frames that are out are those of
/// the cache, which keeps states of versions.
#[derive(Drop)]
pub struct Opening {
    walk: Walk,
    repo: Repo,
    pool: Pool,
    cache: Cache,
}

impl Model for Opening {
    ghost use Rattle.state_cache.specs.Entries.{HoldsAll};
    ghost use Rattle.repo_state.specs.Cached.{HasEncodings};
    ghost use Rattle.store_session.specs.State.{OpeningState};

    ghost Value = { OpeningState };

    ghost view = { λ o. record { state = o.repo; next = o.walk.next; ended = o.walk.ended } };

    ghost invariant = { λ o. HoldsAll o.pool o.cache × HasEncodings o.repo o.pool o.cache };
}

impl Opening {
    /// Begins to open the store, before its first record. The file is synced, and gets the header and a closed gate where it has at
    /// most 17 bytes; else its header is tested.
    ///
    /// # Errors
    ///
    /// `Damaged` at the first byte that is not the header's, `DiskFault` and `Memory`.
    pub fn begin<H: Host>(alloc: Global, host: &mut H) -> Result<Opening, SessionFault>
        ensures at { IfOk result (λ o. o.state.end ≡ o.next) }
        ensures played_up_to { IfOk result (λ o. IsTrue (H.told host.old).tells → IsPlayedUpTo (disk_now (H.told host.new)) o.state o.next []) }
        ensures since { OnOk result (IsOpenedSince (H.told host.old) (H.told host.new)) }
        ensures moments { Throughout (H.told host.old) (H.told host.new) (λ disk _. IsMounting (disk_now (H.told host.old)) disk) }
        ensures damaged { IfErr result (λ e. AtDamage e (λ at. IsTrue (H.told host.old).tells → IsDamaged (disk_now (H.told host.old)).now at × StandsForNoEvents (disk_now (H.told host.old)).now)) }
        ensures header { IfErr result (λ e. AtDamage e (λ at. IsTrue (H.told host.old).tells → IsNoHeader (disk_now (H.told host.old)).now at)) }
        // A file of more than 17 bytes is at each moment as it was, or that synced, whatever the answer.
        ensures long { new_size < length (disk_now (H.told host.old)).now → Throughout (H.told host.old) (H.told host.new) (λ disk _. IsAtMostSynced (disk_now (H.told host.old)) disk) }
        ensures never { IfErr result (λ e. e ≢ SessionFault.SayFault) }
        ensures cause { IsErrOf result SessionFault.DiskFault → Rose (H.told host.old).disk_faults (H.told host.new).disk_faults }
        ensures course { GoesOn (H.told host.old) (H.told host.new) }
        ensures said { KeepsSaid (H.told host.old) (H.told host.new) }
        ensures input { KeepsInput (H.told host.old) (H.told host.new) }
    {
        let walk = match Walk::mount(host) {
            Ok(walk) => walk,
            Err(fault) => return Err(session_fault(fault)),
        };
        let Ok(cache) = Cache::new(alloc) else {
            return Err(SessionFault::Memory);
        };
        Ok(Opening {
            walk,
            repo: Repo::new(alloc),
            pool: Pool::new(alloc),
            cache,
        })
    }

    /// The repository of the events that were played.
    pub fn repo(&self) -> &Repo
        ensures { result.now ≡ self.now.state }
    {
        &self.repo
    }

    /// Reads the next record and plays its event, which is handed back; `None` at the closed gate.
    ///
    /// # Errors
    ///
    /// `Damaged` at the gate of a record that is none, or whose bytes are no event that could be made there; `DiskFault` and
    /// `Memory`. After an error the opening is of no use.
    pub fn next_event<H: Host>(
        &mut self,
        alloc: Global,
        host: &mut H,
    ) -> Result<Option<Played>, SessionFault>
        requires at { self.old.state.end ≡ self.old.next }
        requires played_up_to { IsTrue (H.told host.old).tells → ((made : List Event) × IsPlayedUpTo (disk_now (H.told host.old)) self.old.state self.old.next made) }
        ensures played { IfOk result (λ next. IfSome next (PlaysEvent (H.told host.old) (H.told host.new) self.old self.new)) }
        ensures at { OnOk result (self.new.state.end ≡ self.new.next) }
        ensures advances { IfOk result (λ next. IfSome next (λ _. self.old.next < self.new.next)) }
        ensures low { self.new.next < 2 ^ 40 }
        ensures ended { IfOk result (λ next. IfNone next (self.new ≡ record self.old { ended = true })) }
        ensures store { IfOk result (λ next. IfNone next (IsTrue (H.told host.old).tells → (made : List Event) → IsPlayedUpTo (disk_now (H.told host.old)) self.old.state self.old.next made
            → IsStoreOf (disk_now (H.told host.new)) self.new.state made)) }
        ensures damaged { IfErr result (λ e. AtDamage e (λ at. IsTrue (H.told host.old).tells → IsDamaged (disk_now (H.told host.old)).now at × StandsForNoEvents (disk_now (H.told host.old)).now)) }
        ensures offset { IfErr result (λ e. AtDamage e (λ at. at ≡ self.old.next)) }
        ensures never { IfErr result (λ e. e ≢ SessionFault.SayFault) }
        ensures cause { IsErrOf result SessionFault.DiskFault → Rose (H.told host.old).disk_faults (H.told host.new).disk_faults }
        ensures course { GoesOn (H.told host.old) (H.told host.new) }
        ensures disk { KeepsDisk (H.told host.old) (H.told host.new) }
        ensures said { KeepsSaid (H.told host.old) (H.told host.new) }
        ensures input { KeepsInput (H.told host.old) (H.told host.new) }
    {
        let bytes = match next_record(alloc, host, &mut self.walk, &mut self.repo) {
            Err(fault) => return Err(session_fault(fault)),
            Ok(None) => return Ok(None),
            Ok(Some(bytes)) => bytes,
        };
        match play_record(
            alloc,
            &mut self.cache,
            &mut self.pool,
            &mut self.repo,
            &bytes,
        ) {
            Ok(()) => Ok(Some(Played { bytes })),
            Err(PlayFault::NotPlayable) => Err(SessionFault::Damaged {
                at: self.walk.offset(),
            }),
            Err(PlayFault::Memory) => Err(SessionFault::Memory),
        }
    }

    /// The session over the store, once its closed gate was found.
    pub fn finish(self) -> Session
        requires ended { self.ended ≡ true }
        requires at { self.state.end ≡ self.next }
        ensures { result ≡ record { state = self.state; end = self.next; broken = false } }
    {
        let Opening {
            walk,
            repo,
            pool,
            cache,
        } = self;
        Session::at_rest(repo, walk.finish(), pool, cache)
    }
}
