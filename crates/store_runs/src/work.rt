//! What a run does over a store: the store is opened, and then the work is done.
ghost use Rattle.std.specs.Prelude.{◌≡◌, ◌≢◌, ◌<◌, ◌⊎◌, false, ℕ, List, [], length, IsTrue};
ghost use Rattle.host_port.specs.Host.{disk_now, said_now, Rose, GoesOn, Throughout, AddsPart, KeepsSaid, KeepsInput};
ghost use Rattle.commit_journal.specs.Journal.{IsAtMostSynced, new_size};
ghost use Rattle.command_runs.specs.Runs.{played, replies, events, events_due};
ghost use Rattle.command_runs.specs.Crashes.{IsOpenedRunning};
ghost use Rattle.op_form.specs.declared.event.Event.{Event};
ghost use Rattle.plain_repository.specs.State.{State, empty};
ghost use Rattle.plain_repository.specs.Events.{play};
ghost use Rattle.plain_repository.specs.Store.{StandsForEvents, StandsForNoEvents};
ghost use Rattle.store_session.specs.Session.{IsStoreOf};
ghost use Rattle.store_session.specs.Endings.{Ends, IsDone, IsFoundDamaged, IsKept, KeepsFile, KeepsUnread, NothingRose};
ghost use Rattle.store_session.specs.Tasks.{Task};

use host_port::Host;
use std::alloc::Global;
use store_session::{Session, Status, status_of};

/// What is to be done over a store that is open.
pub trait Work {
    /// What there is to do, by the state of the store and the input.
    ghost task: { Self → State → List ℕ → Task };

    /// Does it.
    fn fulfil<H: Host>(&self, alloc: Global, host: &mut H, session: &mut Session) -> Status
        requires whole { session.old.broken ≡ false }
        requires open { IsTrue (H.told host.old).tells → ((made : List Event) × IsStoreOf (disk_now (H.told host.old)) session.old.state made) }
        ensures done { (made : List Event) → IsStoreOf (disk_now (H.told host.old)) session.old.state made
            → IsDone (task self.now session.old.state (H.told host.old).left) made (H.told host.old) (H.told host.new) result }
        ensures unread { KeepsUnread (task self.now session.old.state (H.told host.old).left) (H.told host.old) (H.told host.new) }
        ensures words { result ≢ Status.BadWords }
        ensures read { result ≡ Status.ReadFault → Rose (H.told host.old).take_faults (H.told host.new).take_faults }
        ensures write { result ≡ Status.WriteFault → Rose (H.told host.old).say_faults (H.told host.new).say_faults }
        ensures disk { result ≡ Status.DiskFault → Rose (H.told host.old).disk_faults (H.told host.new).disk_faults }
        ensures damaged { (at : ℕ) → result ≢ Status.Damaged at }
        ensures course { GoesOn (H.told host.old) (H.told host.new) };

    /// Whether the input is read goes by the work alone.
    ghost reads_alike: { (work : Self) (s t : State) (one two : List ℕ) → (task work s one).reads ≡ (task work t two).reads };
}

/// Opens the store and does the work over it.
pub fn over_store<H: Host, W: Work>(alloc: Global, work: &W, host: &mut H) -> Status
    ensures ends { IsTrue (H.told host.old).tells → (first : List Event) → StandsForEvents (disk_now (H.told host.old)).now first
        → Ends (W.task work.now (played play empty first) (H.told host.old).left) first (H.told host.old) (H.told host.new) result }
    ensures part { (first : List Event) → StandsForEvents (disk_now (H.told host.old)).now first
        → Throughout (H.told host.old) (H.told host.new) (λ _ said. AddsPart (said_now (H.told host.old)) (replies (W.task work.now (played play empty first) (H.told host.old).left).answers) said) }
    ensures moments { (first : List Event) → StandsForEvents (disk_now (H.told host.old)).now first
        → Throughout (H.told host.old) (H.told host.new) (IsOpenedRunning (disk_now (H.told host.old)) StandsForEvents first (events (W.task work.now (played play empty first) (H.told host.old).left).answers)
        (events_due (W.task work.now (played play empty first) (H.told host.old).left).answers) (said_now (H.told host.old))) }
    // However it ends, the file stands for the first events and some of the new ones, none in part. All whose reply is
    // begun are among them. The command that was being written at a disk fault is kept whole or not at all.
    ensures stopped { IsTrue (H.told host.old).tells → (first : List Event) → StandsForEvents (disk_now (H.told host.old)).now first
        → IsKept (W.task work.now (played play empty first) (H.told host.old).left) first (H.told host.old) (H.told host.new) }
    // Where no count rises, it ends as the task does, or memory ran out.
    ensures complete { IsTrue (H.told host.old).tells → (first : List Event) → StandsForEvents (disk_now (H.told host.old)).now first
        → NothingRose (H.told host.old) (H.told host.new) → (result ≡ (W.task work.now (played play empty first) (H.told host.old).left).end) ⊎ (result ≡ Status.Memory) }
    ensures still { (first : List Event) → StandsForEvents (disk_now (H.told host.old)).now first
        → events (W.task work.now (played play empty first) (H.told host.old).left).answers ≡ [] → new_size < length (disk_now (H.told host.old)).now
        → Throughout (H.told host.old) (H.told host.new) (λ disk _. IsAtMostSynced (disk_now (H.told host.old)) disk) }
    ensures unread { (first : List Event) → KeepsUnread (W.task work.now (played play empty first) (H.told host.old).left) (H.told host.old) (H.told host.new) }
    ensures words { result ≢ Status.BadWords }
    ensures read { result ≡ Status.ReadFault → Rose (H.told host.old).take_faults (H.told host.new).take_faults }
    ensures write { result ≡ Status.WriteFault → Rose (H.told host.old).say_faults (H.told host.new).say_faults }
    ensures disk { result ≡ Status.DiskFault → Rose (H.told host.old).disk_faults (H.told host.new).disk_faults }
    ensures damaged { (at : ℕ) → result ≡ Status.Damaged at → IsFoundDamaged (H.told host.old) (H.told host.new) at }
    ensures kept { StandsForNoEvents (disk_now (H.told host.old)).now → KeepsFile (H.told host.old) (H.told host.new) }
    ensures silent { IsTrue (H.told host.old).tells → StandsForNoEvents (disk_now (H.told host.old)).now
        → KeepsSaid (H.told host.old) (H.told host.new) × KeepsInput (H.told host.old) (H.told host.new) }
    ensures damages { IsTrue (H.told host.old).tells → StandsForNoEvents (disk_now (H.told host.old)).now
        → ((at : ℕ) × (result ≡ Status.Damaged at)) ⊎ (result ≡ Status.DiskFault) ⊎ (result ≡ Status.Memory) }
    ensures course { GoesOn (H.told host.old) (H.told host.new) }
{
    let mut session = match Session::mount(alloc, host) {
        Ok(session) => session,
        Err(fault) => return status_of(fault),
    };
    work.fulfil(alloc, host, &mut session)
}
