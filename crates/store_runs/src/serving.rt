//! A script is served: each of its items is answered in its turn, unless a gate refuses it.
ghost use Rattle.std.specs.Prelude.{◌≡◌, ◌≢◌, ◌++◌, ◌||◌, true, false, Bool, ℕ, List, None, IsTrue, IfOk, OnOk, IfErr, IsErrOf, IsSome};
ghost use Rattle.host_port.specs.Host.{disk_now, said_now, Rose, GoesOn, Throughout, AddsPart, KeepsDisk, KeepsSaid, KeepsInput};
ghost use Rattle.host_port.specs.Cut.{script_from};
ghost use Rattle.command_runs.specs.Runs.{listed, after};
ghost use Rattle.command_runs.specs.Crashes.{IsStepping};
ghost use Rattle.op_form.specs.declared.event.Event.{Event};
ghost use Rattle.plain_repository.specs.Lines.{is_skipped, takes_block};
ghost use Rattle.plain_repository.specs.Events.{play};
ghost use Rattle.plain_repository.specs.Store.{StandsForEvents};
ghost use Rattle.script_items.specs.Items.{IsShortItem, script};
ghost use Rattle.store_session.specs.Session.{IfMade, IsStoreOf, answered_as};
ghost use Rattle.store_session.specs.Endings.{IsDone, KeepsUnread};
ghost use Rattle.store_session.specs.Tasks.{gated, serving_by};

use crate::gate::Gate;
use host_port::{Host, Lines};
use script_items::{Item, next_item};
use std::alloc::Global;
use store_session::{Answered, Session, SessionFault, Status, status_of, status_of_input};

/// Whether a reply was a refusal, once more was answered.
fn refused_so_far(refused: bool, answered: Answered) -> bool
    ensures { (last : Bool) → answered ≡ answered_as last → result ≡ (refused || last) }
{
    refused || answered == Answered::Refused
}

/// Answers an item that gets a reply: by the gate's refusal of its line, or as ever.
pub fn answer_item<H: Host, G: Gate>(
    alloc: Global,
    host: &mut H,
    session: &mut Session,
    gate: &G,
    item: &Item,
) -> Result<Answered, SessionFault>
    requires read { is_skipped item.now.line ≡ false }
    requires short { IsShortItem item.now }
    requires whole { session.old.broken ≡ false }
    requires open { IsTrue (H.told host.old).tells → ((made : List Event) × IsStoreOf (disk_now (H.told host.old)) session.old.state made) }
    ensures refused { IfOk result (λ a. a ≡ answered_as (gated (G.refusal gate.now) session.old.state item.now).refused) }
    ensures replied { OnOk result (IsTrue (H.told host.old).tells → said_now (H.told host.new) ≡ said_now (H.told host.old) ++ (gated (G.refusal gate.now) session.old.state item.now).reply) }
    ensures state { IfMade result (session.new.state ≡ after play session.old.state (gated (G.refusal gate.now) session.old.state item.now).event) }
    ensures added { IfMade result (IsTrue (H.told host.old).tells → (made : List Event) → IsStoreOf (disk_now (H.told host.old)) session.old.state made
        → IsStoreOf (disk_now (H.told host.new)) session.new.state (made ++ listed (gated (G.refusal gate.now) session.old.state item.now).event)) }
    ensures whole { IfMade result (session.new.broken ≡ false) }
    ensures event { IsErrOf result SessionFault.DiskFault → IsSome (gated (G.refusal gate.now) session.old.state item.now).event }
    ensures unsaid { IsErrOf result SessionFault.DiskFault → KeepsSaid (H.told host.old) (H.told host.new) }
    ensures still { (gated (G.refusal gate.now) session.old.state item.now).event ≡ None → KeepsDisk (H.told host.old) (H.told host.new) }
    ensures part { Throughout (H.told host.old) (H.told host.new) (λ _ said. AddsPart (said_now (H.told host.old)) (gated (G.refusal gate.now) session.old.state item.now).reply said) }
    ensures moments { (made : List Event) → IsStoreOf (disk_now (H.told host.old)) session.old.state made
        → Throughout (H.told host.old) (H.told host.new) (IsStepping StandsForEvents made (gated (G.refusal gate.now) session.old.state item.now).event (said_now (H.told host.old))) }
    ensures course { GoesOn (H.told host.old) (H.told host.new) }
    ensures input { KeepsInput (H.told host.old) (H.told host.new) }
    ensures disk_cause { IsErrOf result SessionFault.DiskFault → Rose (H.told host.old).disk_faults (H.told host.new).disk_faults }
    ensures say_cause { IsErrOf result SessionFault.SayFault → Rose (H.told host.old).say_faults (H.told host.new).say_faults }
    ensures memory { IsErrOf result SessionFault.Memory → KeepsDisk (H.told host.old) (H.told host.new) × KeepsSaid (H.told host.old) (H.told host.new) }
    ensures never { IfErr result (λ e. (at : ℕ) → e ≡ SessionFault.Damaged at → ⊥) }
{
    let line = item.line();
    let reply = match gate.refusal_of(alloc, session.repo(), line) {
        Ok(Some(reply)) => reply,
        Ok(None) => return session.step(alloc, host, line, item.block()),
        Err(_) => return Err(SessionFault::Memory),
    };
    match host.say(&reply) {
        Ok(()) => Ok(Answered::Refused),
        Err(_) => Err(SessionFault::SayFault),
    }
}

/// Answers the lines that are left; a line that gets no reply is skipped.
fn serve_lines<H: Host, G: Gate>(
    alloc: Global,
    host: &mut H,
    session: &mut Session,
    gate: &G,
    lines: &mut Lines,
) -> Status
    requires fresh { lines.old.failed ≡ false }
    requires whole { session.old.broken ≡ false }
    requires open { IsTrue (H.told host.old).tells → ((made : List Event) × IsStoreOf (disk_now (H.told host.old)) session.old.state made) }
    ensures done { (made : List Event) → IsStoreOf (disk_now (H.told host.old)) session.old.state made
        → IsDone (serving_by (gated (G.refusal gate.now)) session.old.state (script_from takes_block lines.old.offset (lines.old.pending ++ (H.told host.old).left))) made (H.told host.old) (H.told host.new) result }
    ensures words { result ≢ Status.BadWords }
    ensures read { result ≡ Status.ReadFault → Rose (H.told host.old).take_faults (H.told host.new).take_faults }
    ensures write { result ≡ Status.WriteFault → Rose (H.told host.old).say_faults (H.told host.new).say_faults }
    ensures disk { result ≡ Status.DiskFault → Rose (H.told host.old).disk_faults (H.told host.new).disk_faults }
    ensures damaged { (at : ℕ) → result ≢ Status.Damaged at }
    ensures course { GoesOn (H.told host.old) (H.told host.new) }
{
    let mut refused = false;
    'commands: loop {
        match next_item(alloc, lines, host) {
            Err(fault) => return status_of_input(fault),
            Ok(None) => {
                if refused {
                    return Status::Refused;
                }
                return Status::Accepted;
            }
            Ok(Some(item)) => {
                if item.is_skipped() {
                    drop(item);
                    continue;
                }
                let answered = answer_item(alloc, host, session, gate, &item);
                drop(item);
                match answered {
                    Ok(answered) => refused = refused_so_far(refused, answered),
                    Err(fault) => return status_of(fault),
                }
            }
        }
    }
}

/// Serves the input as a script, over a store that is open. A line that the gate refuses makes no event, and a block that follows it
/// is dropped.
pub fn serve<H: Host, G: Gate>(
    alloc: Global,
    host: &mut H,
    session: &mut Session,
    gate: &G,
) -> Status
    requires whole { session.old.broken ≡ false }
    requires open { IsTrue (H.told host.old).tells → ((made : List Event) × IsStoreOf (disk_now (H.told host.old)) session.old.state made) }
    ensures done { (made : List Event) → IsStoreOf (disk_now (H.told host.old)) session.old.state made
        → IsDone (serving_by (gated (G.refusal gate.now)) session.old.state (script (H.told host.old).left)) made (H.told host.old) (H.told host.new) result }
    ensures unread { KeepsUnread (serving_by (gated (G.refusal gate.now)) session.old.state (script (H.told host.old).left)) (H.told host.old) (H.told host.new) }
    ensures words { result ≢ Status.BadWords }
    ensures read { result ≡ Status.ReadFault → Rose (H.told host.old).take_faults (H.told host.new).take_faults }
    ensures write { result ≡ Status.WriteFault → Rose (H.told host.old).say_faults (H.told host.new).say_faults }
    ensures disk { result ≡ Status.DiskFault → Rose (H.told host.old).disk_faults (H.told host.new).disk_faults }
    ensures damaged { (at : ℕ) → result ≢ Status.Damaged at }
    ensures course { GoesOn (H.told host.old) (H.told host.new) }
{
    let Ok(mut lines) = Lines::new(alloc) else {
        return Status::Memory;
    };
    serve_lines(alloc, host, session, gate, &mut lines)
}
