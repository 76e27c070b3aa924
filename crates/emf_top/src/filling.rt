//! What `--generate` does: items are answered quietly, and one line says what came of it.
ghost use Rattle.std.specs.Prelude.{◌≡◌, ◌≢◌, ◌≤◌, ℕ, List, Bool, All, IfOk, IsTrue, false, if◌then◌else◌, string_bytes};
ghost use Rattle.host_port.specs.Host.{disk_now, Rose, GoesOn};
ghost use Rattle.op_form.specs.declared.event.Event.{Event};
ghost use Rattle.store_session.specs.Session.{IsStoreOf, answered_as};
ghost use Rattle.store_session.specs.Endings.{IsDone, KeepsUnread};
ghost use Rattle.script_items.specs.Items.{IsAnswered};
ghost use Rattle.emf_top.specs.Tasks.{filling, outcome_line};

use host_port::Host;
use script_items::{Item, push_count};
use std::alloc::{AllocError, Global};
use store_session::{Answered, Session, Status, status_of};

/// How many refusals an answer is.
fn refusals(answered: Answered) -> u64
    ensures count { (refused : Bool) → answered ≡ answered_as refused → result ≡ (if refused then 1 else 0) }
    ensures most { result ≤ 1 }
{
    match answered {
        Answered::Accepted => 0,
        Answered::Refused => 1,
    }
}

/// The line that says how many lines were accepted and refused, and what there is now.
fn outcome_line(
    alloc: Global,
    session: &mut Session,
    accepted: u64,
    refused: u64,
) -> Result<String, AllocError>
    ensures line { IfOk result (λ line. string_bytes line ≡ outcome_line accepted refused session.old.state) }
    ensures same { session.new ≡ session.old }
{
    let versions = session.counts().versions;
    let elements = session.elements(alloc)?;
    let mut line = String::new(alloc);
    push_count(alloc, &mut line, "accepted ", accepted)?;
    push_count(alloc, &mut line, " refused ", refused)?;
    push_count(alloc, &mut line, " versions ", versions as u64)?;
    push_count(alloc, &mut line, " elements ", elements)?;
    line.push_str("\n")?;
    Ok(line)
}

/// Answers items and prints none of the replies, but one line at the end.
pub(crate) fn fill<H: Host>(
    alloc: Global,
    host: &mut H,
    session: &mut Session,
    items: &[Item],
) -> Status
    requires whole { session.old.broken ≡ false }
    requires open { IsTrue (H.told host.old).tells → ((made : List Event) × IsStoreOf (disk_now (H.told host.old)) session.old.state made) }
    requires plain { All IsAnswered items.now }
    ensures done { (made : List Event) → IsStoreOf (disk_now (H.told host.old)) session.old.state made
        → IsDone (filling session.old.state items.now) made (H.told host.old) (H.told host.new) result }
    ensures unread { KeepsUnread (filling session.old.state items.now) (H.told host.old) (H.told host.new) }
    ensures words { result ≢ Status.BadWords }
    ensures read { result ≡ Status.ReadFault → Rose (H.told host.old).take_faults (H.told host.new).take_faults }
    ensures write { result ≡ Status.WriteFault → Rose (H.told host.old).say_faults (H.told host.new).say_faults }
    ensures disk { result ≡ Status.DiskFault → Rose (H.told host.old).disk_faults (H.told host.new).disk_faults }
    ensures damaged { (at : ℕ) → result ≢ Status.Damaged at }
    ensures course { GoesOn (H.told host.old) (H.told host.new) }
{
    let mut refused: u64 = 0;
    'items: for item in items {
        match session.step_quiet(alloc, host, item.line(), item.block()) {
            Ok(answered) => refused += refusals(answered),
            Err(fault) => return status_of(fault),
        }
    }
    let accepted = items.len() as u64 - refused;
    let Ok(line) = outcome_line(alloc, session, accepted, refused) else {
        return Status::Memory;
    };
    let said = host.say(line.as_bytes());
    match said {
        Ok(()) => Status::Accepted,
        Err(_) => Status::WriteFault,
    }
}
