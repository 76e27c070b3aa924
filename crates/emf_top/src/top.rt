//! The top call.
ghost use Rattle.std.specs.Prelude.{◌≡◌, ◌<◌, ◌⊎◌, ◌↔◌, ℕ, List, [], length, map, string_bytes, IsTrue};
ghost use Rattle.host_port.specs.Host.{disk_now, said_now, Rose, GoesOn, Throughout, AddsPart, KeepsSaid, KeepsInput};
ghost use Rattle.commit_journal.specs.Journal.{IsAtMostSynced, new_size};
ghost use Rattle.command_runs.specs.Runs.{played, replies, events, events_due};
ghost use Rattle.command_runs.specs.Crashes.{IsOpenedRunning};
ghost use Rattle.op_form.specs.declared.event.Event.{Event};
ghost use Rattle.plain_repository.specs.State.{empty};
ghost use Rattle.plain_repository.specs.Events.{play};
ghost use Rattle.plain_repository.specs.Store.{StandsForEvents, StandsForNoEvents};
ghost use Rattle.script_items.specs.Words.{AskFor, AreBad};
ghost use Rattle.script_items.specs.declared.words.Request.{Request};
ghost use Rattle.store_session.specs.Endings.{Ends, NothingRose, IsKept, KeepsFile, KeepsUnread, IsFoundDamaged};
ghost use Rattle.emf_top.specs.Tasks.{task_of};

use crate::asked::Asked;
use host_port::Host;
use script_items::request_of;
use std::alloc::Global;
use store_runs::over_store;
use store_session::Status;

/// All that the program does: it opens the store and does what the words ask for. Without words it answers the lines of the
/// input, one after the other.
pub fn run<H: Host>(alloc: Global, words: &[String], host: &mut H) -> Status
    // What is printed and kept, where the file stands for a list of events. With Accepted, Refused and Input these are
    // all of the task's replies, and all of its events. With WriteFault these are the replies before the one that
    // failed and a part of that one, and the events up to its own. With the other statuses these are the first replies
    // and their events, and at a disk fault the one event more or not.
    ensures ends { IsTrue (H.told host.old).tells → (request : Request) (first : List Event) → StandsForEvents (disk_now (H.told host.old)).now first → AskFor (map string_bytes words.now) request
        → Ends (task_of request (played play empty first) (H.told host.old).left) first (H.told host.old) (H.told host.new) result }
    // At each moment a prefix of the replies is printed.
    ensures part { (request : Request) (first : List Event) → StandsForEvents (disk_now (H.told host.old)).now first → AskFor (map string_bytes words.now) request
        → Throughout (H.told host.old) (H.told host.new) (λ _ said. AddsPart (said_now (H.told host.old)) (replies (task_of request (played play empty first) (H.told host.old).left).answers) said) }
    // At each moment whatever a crash leaves stands for the first events and some of the new ones, none in part. All
    // whose reply is begun are among them. Or the disk is still that of the entry, and nothing is printed.
    ensures moments { (request : Request) (first : List Event) → StandsForEvents (disk_now (H.told host.old)).now first → AskFor (map string_bytes words.now) request
        → Throughout (H.told host.old) (H.told host.new) (IsOpenedRunning (disk_now (H.told host.old)) StandsForEvents first (events (task_of request (played play empty first) (H.told host.old).left).answers)
        (events_due (task_of request (played play empty first) (H.told host.old).left).answers) (said_now (H.told host.old))) }
    // However it ends, the file stands for the first events and some of the new ones, none in part. All whose reply is
    // begun are among them. The command that was being written at a disk fault is kept whole or not at all.
    ensures stopped { IsTrue (H.told host.old).tells → (request : Request) (first : List Event) → StandsForEvents (disk_now (H.told host.old)).now first → AskFor (map string_bytes words.now) request
        → IsKept (task_of request (played play empty first) (H.told host.old).left) first (H.told host.old) (H.told host.new) }
    // Where no count rises, it ends as the task does, or memory ran out.
    ensures complete { IsTrue (H.told host.old).tells → (request : Request) (first : List Event) → StandsForEvents (disk_now (H.told host.old)).now first → AskFor (map string_bytes words.now) request
        → NothingRose (H.told host.old) (H.told host.new) → (result ≡ (task_of request (played play empty first) (H.told host.old).left).end) ⊎ (result ≡ Status.Memory) }
    // Where the task makes no event and the file has more than 17 bytes, the disk at each moment is that of the entry, or that one
    // synced.
    ensures still { (request : Request) (first : List Event) → StandsForEvents (disk_now (H.told host.old)).now first → AskFor (map string_bytes words.now) request
        → events (task_of request (played play empty first) (H.told host.old).left).answers ≡ [] → new_size < length (disk_now (H.told host.old)).now
        → Throughout (H.told host.old) (H.told host.new) (λ disk _. IsAtMostSynced (disk_now (H.told host.old)) disk) }
    // With `--check` and `--generate` the input stays unread.
    ensures unread { (request : Request) (first : List Event) → StandsForEvents (disk_now (H.told host.old)).now first → AskFor (map string_bytes words.now) request → KeepsUnread (task_of request (played play empty first) (H.told host.old).left) (H.told host.old) (H.told host.new) }
    ensures words { result ≡ Status.BadWords ↔ AreBad (map string_bytes words.now) }
    ensures untouched { result ≡ Status.BadWords → H.told host.new ≡ H.told host.old }
    ensures read { result ≡ Status.ReadFault → Rose (H.told host.old).take_faults (H.told host.new).take_faults }
    ensures write { result ≡ Status.WriteFault → Rose (H.told host.old).say_faults (H.told host.new).say_faults }
    ensures disk { result ≡ Status.DiskFault → Rose (H.told host.old).disk_faults (H.told host.new).disk_faults }
    // Damaged comes where the file stands for no list of events, with the exact offset. Such a file reads as it was at each
    // moment, nothing is printed and no input taken, whatever the status.
    ensures damaged { (at : ℕ) → result ≡ Status.Damaged at → IsFoundDamaged (H.told host.old) (H.told host.new) at }
    ensures kept { StandsForNoEvents (disk_now (H.told host.old)).now → KeepsFile (H.told host.old) (H.told host.new) }
    ensures silent { IsTrue (H.told host.old).tells → StandsForNoEvents (disk_now (H.told host.old)).now
        → KeepsSaid (H.told host.old) (H.told host.new) × KeepsInput (H.told host.old) (H.told host.new) }
    ensures damages { IsTrue (H.told host.old).tells → StandsForNoEvents (disk_now (H.told host.old)).now
        → AreBad (map string_bytes words.now) ⊎ ((at : ℕ) × (result ≡ Status.Damaged at)) ⊎ (result ≡ Status.DiskFault) ⊎ (result ≡ Status.Memory) }
    ensures course { GoesOn (H.told host.old) (H.told host.new) }
{
    match request_of(words) {
        None => Status::BadWords,
        Some(request) => over_store(alloc, &Asked { request }, host),
    }
}
