//! The top call.
ghost use Rattle.std.specs.Prelude.{◌≡◌, ◌≢◌, ◌<◌, ◌⊎◌, ℕ, List, [], length, map, string_bytes, IsTrue};
ghost use Rattle.host_port.specs.Host.{disk_now, said_now, Rose, GoesOn, Throughout, AddsPart, KeepsSaid, KeepsInput};
ghost use Rattle.commit_journal.specs.Journal.{IsAtMostSynced, new_size};
ghost use Rattle.command_runs.specs.Runs.{played, replies, events, events_due};
ghost use Rattle.command_runs.specs.Crashes.{IsOpenedRunning};
ghost use Rattle.op_form.specs.declared.event.Event.{Event};
ghost use Rattle.plain_repository.specs.State.{empty};
ghost use Rattle.plain_repository.specs.Events.{play};
ghost use Rattle.plain_repository.specs.Store.{StandsForEvents, StandsForNoEvents};
ghost use Rattle.store_session.specs.Endings.{Ends, NothingRose, IsKept, KeepsFile, KeepsUnread, IsFoundDamaged};
ghost use Rattle.store_replay.specs.Endings.{EndsPrinted, IsReplay, end_of_events};
ghost use Rattle.tool_requests.specs.Words.{AskFor, AskForReplay, AreBad};
ghost use Rattle.tool_requests.specs.declared.tool.Tool.{Tool};
ghost use Rattle.tools_top.specs.Tasks.{task_of};

use crate::asked::Asked;
use host_port::Host;
use std::alloc::Global;
use store_replay::replay_store;
use store_runs::over_store;
use store_session::Status;
use tool_requests::{Request, request_of};

/// All that the program does: it opens the store and does what the words ask for. `query` and `blame` are answered by one
/// reply. Behind a guard the lines of the input are answered, one after the other, but for those that the policy denies.
/// With `replay` the store is printed as the script that makes it again.
pub fn tools<H: Host>(alloc: Global, words: &[String], host: &mut H) -> Status
    // What is printed and kept, where the file stands for a list of events. With Accepted, Refused and Input these are
    // all of the task's replies, and all of its events. With WriteFault these are the replies before the one that
    // failed and a part of that one, and the events up to its own. With the other statuses these are the first replies
    // and their events, and at a disk fault the one event more or not.
    ensures ends { IsTrue (H.told host.old).tells → (tool : Tool) (first : List Event) → StandsForEvents (disk_now (H.told host.old)).now first → AskFor (map string_bytes words.now) tool
        → Ends (task_of tool (played play empty first) (H.told host.old).left) first (H.told host.old) (H.told host.new) result }
    // At each moment a prefix of the replies is printed.
    ensures part { (tool : Tool) (first : List Event) → StandsForEvents (disk_now (H.told host.old)).now first → AskFor (map string_bytes words.now) tool
        → Throughout (H.told host.old) (H.told host.new) (λ _ said. AddsPart (said_now (H.told host.old)) (replies (task_of tool (played play empty first) (H.told host.old).left).answers) said) }
    // At each moment whatever a crash leaves stands for the first events and some of the new ones, none in part. All
    // whose reply is begun are among them. Or the disk is still that of the entry, and nothing is printed.
    ensures moments { (tool : Tool) (first : List Event) → StandsForEvents (disk_now (H.told host.old)).now first → AskFor (map string_bytes words.now) tool
        → Throughout (H.told host.old) (H.told host.new) (IsOpenedRunning (disk_now (H.told host.old)) StandsForEvents first (events (task_of tool (played play empty first) (H.told host.old).left).answers)
        (events_due (task_of tool (played play empty first) (H.told host.old).left).answers) (said_now (H.told host.old))) }
    // However it ends, the file stands for the first events and some of the new ones, none in part. All whose reply is
    // begun are among them. The command that was being written at a disk fault is kept whole or not at all.
    ensures stopped { IsTrue (H.told host.old).tells → (tool : Tool) (first : List Event) → StandsForEvents (disk_now (H.told host.old)).now first → AskFor (map string_bytes words.now) tool
        → IsKept (task_of tool (played play empty first) (H.told host.old).left) first (H.told host.old) (H.told host.new) }
    // Where no count rises, it ends as the task does, or memory ran out.
    ensures complete { IsTrue (H.told host.old).tells → (tool : Tool) (first : List Event) → StandsForEvents (disk_now (H.told host.old)).now first → AskFor (map string_bytes words.now) tool
        → NothingRose (H.told host.old) (H.told host.new) → (result ≡ (task_of tool (played play empty first) (H.told host.old).left).end) ⊎ (result ≡ Status.Memory) }
    // Where the task makes no event and the file has more than 17 bytes, the disk at each moment is that of the entry, or that one
    // synced.
    ensures still { (tool : Tool) (first : List Event) → StandsForEvents (disk_now (H.told host.old)).now first → AskFor (map string_bytes words.now) tool
        → events (task_of tool (played play empty first) (H.told host.old).left).answers ≡ [] → new_size < length (disk_now (H.told host.old)).now
        → Throughout (H.told host.old) (H.told host.new) (λ disk _. IsAtMostSynced (disk_now (H.told host.old)) disk) }
    // With `query` and `blame` the input stays unread.
    ensures unread { (tool : Tool) (first : List Event) → StandsForEvents (disk_now (H.told host.old)).now first → AskFor (map string_bytes words.now) tool → KeepsUnread (task_of tool (played play empty first) (H.told host.old).left) (H.told host.old) (H.told host.new) }
    // Bad words are answered so before any call of the host. What words ask for takes memory, so where there is none that is
    // the answer to any words.
    ensures bad { result ≡ Status.BadWords → AreBad (map string_bytes words.now) }
    ensures words { AreBad (map string_bytes words.now) → (result ≡ Status.BadWords) ⊎ (result ≡ Status.Memory) }
    ensures untouched { result ≡ Status.BadWords → H.told host.new ≡ H.told host.old }
    // Words that ask for nothing make no call of the host, also where memory ran out.
    ensures unasked { AreBad (map string_bytes words.now) → H.told host.new ≡ H.told host.old }
    ensures read { result ≡ Status.ReadFault → Rose (H.told host.old).take_faults (H.told host.new).take_faults }
    ensures write { result ≡ Status.WriteFault → Rose (H.told host.old).say_faults (H.told host.new).say_faults }
    ensures disk { result ≡ Status.DiskFault → Rose (H.told host.old).disk_faults (H.told host.new).disk_faults }
    // Damaged comes where the file stands for no list of events, with the exact offset. Such a file reads as it was at each
    // moment, nothing is printed and no input taken, whatever the status. With `replay` what stands before the damage is printed.
    ensures damaged { ¬ AskForReplay (map string_bytes words.now) → (at : ℕ) → result ≡ Status.Damaged at → IsFoundDamaged (H.told host.old) (H.told host.new) at }
    ensures kept { StandsForNoEvents (disk_now (H.told host.old)).now → KeepsFile (H.told host.old) (H.told host.new) }
    ensures silent { ¬ AskForReplay (map string_bytes words.now) → IsTrue (H.told host.old).tells → StandsForNoEvents (disk_now (H.told host.old)).now
        → KeepsSaid (H.told host.old) (H.told host.new) × KeepsInput (H.told host.old) (H.told host.new) }
    ensures damages { ¬ AskForReplay (map string_bytes words.now) → IsTrue (H.told host.old).tells → StandsForNoEvents (disk_now (H.told host.old)).now
        → AreBad (map string_bytes words.now) ⊎ ((at : ℕ) × (result ≡ Status.Damaged at)) ⊎ (result ≡ Status.DiskFault) ⊎ (result ≡ Status.Memory) }
    // With `replay` the store is printed as a script: what is printed and kept at each moment, and how it ends, whatever the file holds.
    ensures replay { AskForReplay (map string_bytes words.now) → IsReplay (H.told host.old) (H.told host.new) result }
    // Where the file stands for events: with Accepted their script is printed, and with Refused what there is up to the line that says why.
    ensures script { AskForReplay (map string_bytes words.now) → IsTrue (H.told host.old).tells → (first : List Event) → StandsForEvents (disk_now (H.told host.old)).now first
        → EndsPrinted first (H.told host.old) (H.told host.new) result }
    ensures whole { AskForReplay (map string_bytes words.now) → IsTrue (H.told host.old).tells → (first : List Event) → StandsForEvents (disk_now (H.told host.old)).now first
        → NothingRose (H.told host.old) (H.told host.new) → (result ≡ end_of_events first) ⊎ (result ≡ Status.Memory) }
    ensures broken { AskForReplay (map string_bytes words.now) → IsTrue (H.told host.old).tells → StandsForNoEvents (disk_now (H.told host.old)).now → result ≢ Status.Accepted }
    ensures course { GoesOn (H.told host.old) (H.told host.new) }
{
    let Ok(asked) = request_of(alloc, words) else {
        return Status::Memory;
    };
    match asked {
        None => Status::BadWords,
        Some(Request::Replay) => replay_store(alloc, host),
        Some(Request::Work(tool)) => {
            let work = Asked { tool };
            let status = over_store(alloc, &work, host);
            drop(work);
            status
        }
    }
}
