//! The events of a store, read one after another, each printed before the next one is read.
ghost use Rattle.std.specs.Prelude.{◌≡◌, ◌≢◌, ◌⊎◌, ℕ, List, IsTrue};
ghost use Rattle.host_port.specs.Host.{disk_now};
ghost use Rattle.op_form.specs.declared.event.Event.{Event};
ghost use Rattle.plain_repository.specs.Store.{StandsForEvents, StandsForNoEvents};
ghost use Rattle.store_session.specs.Endings.{NothingRose};
ghost use Rattle.store_replay.specs.Endings.{EndsPrinted, IsReplay, end_of_events};

use crate::event::event_said;
use host_port::Host;
use std::alloc::Global;
use store_session::{Opening, Status, status_of};

/// Prints the store as the script that makes its events again on an empty one: the lines of one event after another, each printed before
/// the next event is read. The input is not read, and the file stays as it was but for the sync of an opening.
///
/// It ends `Refused` at the first event that a script can't hold, after the line `no 42 TooLong N` or `no 43 NotPrintable N`, where N is
/// the event's number, from 1. It ends `Damaged` at the gate of a record that is no event, after the lines of those before it.
pub fn replay_store<H: Host>(alloc: Global, host: &mut H) -> Status
    // What is printed and kept at each moment, and how it ends, whatever the file holds.
    ensures replay { IsReplay (H.told host.old) (H.told host.new) result }
    // Where the file stands for events: with Accepted their script is printed, and with Refused what there is up to the line that says why.
    ensures ends { IsTrue (H.told host.old).tells → (events : List Event) → StandsForEvents (disk_now (H.told host.old)).now events
        → EndsPrinted events (H.told host.old) (H.told host.new) result }
    // Where no count rises, it ends as the events have it, or memory ran out.
    ensures complete { IsTrue (H.told host.old).tells → (events : List Event) → StandsForEvents (disk_now (H.told host.old)).now events
        → NothingRose (H.told host.old) (H.told host.new) → (result ≡ end_of_events events) ⊎ (result ≡ Status.Memory) }
    // What stands for no events is not accepted.
    ensures damages { IsTrue (H.told host.old).tells → StandsForNoEvents (disk_now (H.told host.old)).now → result ≢ Status.Accepted }
{
    print_events(alloc, host)
}

/// The same, with all that is said of it in one fact.
fn print_events<H: Host>(alloc: Global, host: &mut H) -> Status
    ensures { IsReplay (H.told host.old) (H.told host.new) result }
{
    let mut opening = match Opening::begin(alloc, host) {
        Ok(opening) => opening,
        Err(fault) => return status_of(fault),
    };
    'events: loop {
        match opening.next_event(alloc, host) {
            Err(fault) => return status_of(fault),
            Ok(None) => return Status::Accepted,
            Ok(Some(played)) => {
                let Ok(said) = event_said(alloc, opening.repo(), &played) else {
                    return Status::Memory;
                };
                if host.say(&said.bytes).is_err() {
                    return Status::WriteFault;
                }
                if !said.printable {
                    return Status::Refused;
                }
            }
        }
    }
}
