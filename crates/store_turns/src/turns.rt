//! Turns are served, one after the other.
ghost use Rattle.std.specs.Prelude.{◌≡◌, ◌≢◌, ◌++◌, ◌||◌, true, false, Bool, ℕ, List, ◌∷◌, None, refl, IsTrue, IfOk, IfErr, OnOk, string_bytes};
ghost use Rattle.host_port.specs.Host.{Told, disk_now, said_now, Rose, GoesOn, KeepsInput};
ghost use Rattle.command_runs.specs.Runs.{Answer};
ghost use Rattle.op_form.specs.declared.event.Event.{Event};
ghost use Rattle.plain_repository.specs.State.{State};
ghost use Rattle.store_session.specs.Session.{IsStoreOf, answered_as};
ghost use Rattle.store_session.specs.Endings.{IsDone, KeepsUnread};
ghost use Rattle.store_session.specs.Tasks.{Task};
ghost use Rattle.store_session.specs.declared.status.Status.TheVariants.{Input};
ghost use Rattle.tool_requests.specs.Turns.{turn_refusal};
ghost use Rattle.turn_frames.specs.Turns as frames;
ghost use Rattle.turn_frames.specs.Runs.{closing, in_turn, mark, turns_answers};
ghost use Rattle.store_turns.specs.Serving.{fault_line, is_of_script, manner, said_of, serving_turns, turn_status};
ghost use Rattle.store_turns.specs.Standing.{IsOver, IsStop, Standing};

use crate::items::TurnItems;
use access_rules::Policy;
use host_port::{Host, LineFault};
use repo_state::Repo;
use std::alloc::{AllocError, Global};
use store_runs::{Gate, answer_item};
use store_session::{Answered, Session, Status, status_of, status_of_input};
use tool_requests::turn_refusal;
use turn_frames::{Turn, TurnFault, TurnReader};

/// A user and a policy, as a gate over the lines of the user's turn.
#[derive(Clone, Copy)]
struct OnBehalf<'a> {
    policy: &'a Policy,
    user: &'a str,
}

impl<'a> Gate for OnBehalf<'a> {
    ghost refusal = { λ o. turn_refusal o.policy.now.grants o.user.now };

    fn refusal_of(
        &self,
        alloc: Global,
        repo: &Repo,
        line: &str,
    ) -> Result<Option<Vec<u8>>, AllocError> {
        turn_refusal(alloc, self.policy, self.user, repo, line)
    }
}

/// Whether a reply was a refusal, once more was answered.
fn refused_so_far(refused: bool, answered: Answered) -> bool
    ensures { (last : Bool) → answered ≡ answered_as last → result ≡ (refused || last) }
{
    refused || answered == Answered::Refused
}

/// Whether a fault is one of the script, and not of the host in memory that hands it over.
fn is_of_script(fault: LineFault) -> bool
    ensures { result ≡ is_of_script fault }
{
    match fault {
        LineFault::LineTooLong { .. } => true,
        LineFault::BlockTooLong { .. } => true,
        LineFault::NotText { .. } => true,
        LineFault::UnendedBlock { .. } => true,
        LineFault::InputTooLong { .. } => true,
        LineFault::Failed => false,
        LineFault::Memory => false,
    }
}

/// Answers the items that are left of a user's turn, and says how its script ends.
fn serve_items<H: Host>(
    alloc: Global,
    host: &mut H,
    session: &mut Session,
    policy: &Policy,
    user: &str,
    items: &mut TurnItems,
    refused: bool,
) -> Result<(bool, Option<LineFault>), Status>
    requires fresh { items.old.failed ≡ false }
    requires whole { session.old.broken ≡ false }
    requires open { IsTrue (H.told host.old).tells → ((made : List Event) × IsStoreOf (disk_now (H.told host.old)) session.old.state made) }
    ensures on { IfOk result (λ ended. (entry : Told) (first : State) (task : Task) (end : Bool → Status) (rest : List frames.Turn)
        → Standing entry (H.told host.old) first task end (in_turn (manner policy.now.grants) user.now session.old.state items.old.script rest) refused session.old.state session.old.broken
        → Standing entry (H.told host.new) first task end (closing said_of ended.1 ++ turns_answers (manner policy.now.grants) session.new.state rest) ended.0 session.new.state session.new.broken) }
    ensures stopped { IfErr result (λ status. (entry : Told) (first : State) (task : Task) (end : Bool → Status) (rest : List frames.Turn)
        → IsOver entry (H.told host.old) (H.told host.new) first task end (in_turn (manner policy.now.grants) user.now session.old.state items.old.script rest) refused session.old.state session.old.broken status) }
    ensures stop { IfErr result (λ status. IsStop status (H.told host.old) (H.told host.new)) }
    ensures input { KeepsInput (H.told host.old) (H.told host.new) }
    ensures course { GoesOn (H.told host.old) (H.told host.new) }
{
    let mut so_far = refused;
    'items: loop {
        match items.next(alloc) {
            Err(fault) => {
                if is_of_script(fault) {
                    return Ok((so_far, Some(fault)));
                }
                return Err(Status::Memory);
            }
            Ok(None) => return Ok((so_far, None)),
            Ok(Some(item)) => {
                if item.is_skipped() {
                    drop(item);
                    continue;
                }
                let answered = answer_item(alloc, host, session, &OnBehalf { policy, user }, &item);
                drop(item);
                match answered {
                    Ok(answered) => so_far = refused_so_far(so_far, answered),
                    Err(fault) => return Err(status_of(fault)),
                }
            }
        }
    }
}

/// The line that is said of a fault of a turn's script.
fn fault_line(alloc: Global, fault: u32, at: u64) -> Result<String, AllocError>
    ensures { IfOk result (λ line. string_bytes line ≡ fault_line (Input fault at)) }
{
    format!(in alloc; "no 44 BadFrame {fault} {at}\n")
}

/// Marks the end of a turn's answers.
fn say_mark<H: Host>(host: &mut H, refused: bool) -> Result<bool, Status>
    ensures on { IfOk result (λ ended. (entry : Told) (first : State) (task : Task) (end : Bool → Status) (next : List (Answer Event)) (state : State) (broken : Bool)
        → Standing entry (H.told host.old) first task end (mark ∷ next) refused state broken → Standing entry (H.told host.new) first task end next ended state broken) }
    ensures stopped { IfErr result (λ status. (entry : Told) (first : State) (task : Task) (end : Bool → Status) (next : List (Answer Event)) (state : State) (broken : Bool)
        → IsOver entry (H.told host.old) (H.told host.new) first task end (mark ∷ next) refused state broken status) }
    ensures stop { IfErr result (λ status. IsStop status (H.told host.old) (H.told host.new)) }
    ensures input { KeepsInput (H.told host.old) (H.told host.new) }
    ensures course { GoesOn (H.told host.old) (H.told host.new) }
{
    match host.say(b"\n") {
        Ok(()) => Ok(refused),
        Err(_) => Err(Status::WriteFault),
    }
}

/// Says the fault of a turn's script, where that ended by one, and marks the end of the turn's answers.
fn close_turn<H: Host>(
    alloc: Global,
    host: &mut H,
    fault: Option<LineFault>,
    refused: bool,
) -> Result<bool, Status>
    ensures on { IfOk result (λ ended. (entry : Told) (first : State) (task : Task) (end : Bool → Status) (next : List (Answer Event)) (state : State) (broken : Bool)
        → Standing entry (H.told host.old) first task end (closing said_of fault ++ next) refused state broken → Standing entry (H.told host.new) first task end next ended state broken) }
    ensures stopped { IfErr result (λ status. (entry : Told) (first : State) (task : Task) (end : Bool → Status) (next : List (Answer Event)) (state : State) (broken : Bool)
        → IsOver entry (H.told host.old) (H.told host.new) first task end (closing said_of fault ++ next) refused state broken status) }
    ensures stop { IfErr result (λ status. IsStop status (H.told host.old) (H.told host.new)) }
    ensures input { KeepsInput (H.told host.old) (H.told host.new) }
    ensures course { GoesOn (H.told host.old) (H.told host.new) }
{
    let Some(fault) = fault else {
        return say_mark(host, refused);
    };
    let Status::Input { fault, at } = status_of_input(fault) else {
        return Err(Status::Memory);
    };
    let Ok(line) = fault_line(alloc, fault, at) else {
        return Err(Status::Memory);
    };
    match host.say(line.as_str().as_bytes()) {
        Ok(()) => say_mark(host, true),
        Err(_) => Err(Status::WriteFault),
    }
}

/// Serves a turn.
fn serve_turn<H: Host>(
    alloc: Global,
    host: &mut H,
    session: &mut Session,
    policy: &Policy,
    turn: Turn,
    refused: bool,
) -> Result<bool, Status>
    requires whole { session.old.broken ≡ false }
    requires open { IsTrue (H.told host.old).tells → ((made : List Event) × IsStoreOf (disk_now (H.told host.old)) session.old.state made) }
    ensures on { IfOk result (λ ended. (entry : Told) (first : State) (task : Task) (end : Bool → Status) (rest : List frames.Turn)
        → Standing entry (H.told host.old) first task end (turns_answers (manner policy.now.grants) session.old.state (turn ∷ rest)) refused session.old.state session.old.broken
        → Standing entry (H.told host.new) first task end (turns_answers (manner policy.now.grants) session.new.state rest) ended session.new.state session.new.broken) }
    ensures stopped { IfErr result (λ status. (entry : Told) (first : State) (task : Task) (end : Bool → Status) (rest : List frames.Turn)
        → IsOver entry (H.told host.old) (H.told host.new) first task end (turns_answers (manner policy.now.grants) session.old.state (turn ∷ rest)) refused session.old.state session.old.broken status) }
    ensures stop { IfErr result (λ status. IsStop status (H.told host.old) (H.told host.new)) }
    ensures input { KeepsInput (H.told host.old) (H.told host.new) }
    ensures course { GoesOn (H.told host.old) (H.told host.new) }
{
    let (user, bytes) = turn.into_parts();
    let Ok(mut items) = TurnItems::new(alloc, bytes) else {
        return Err(Status::Memory);
    };
    let (refused, fault) = serve_items(
        alloc,
        host,
        session,
        policy,
        user.as_str(),
        &mut items,
        refused,
    )?;
    close_turn(alloc, host, fault, refused)
}

/// The status of turns that end by a fault of their frames.
fn status_of_turns(fault: TurnFault) -> Status
    ensures { result ≡ turn_status fault }
{
    match fault {
        TurnFault::NotFrame { at } => Status::Input { fault: 6, at },
        TurnFault::InputTooLong { at } => Status::Input { fault: 5, at },
        TurnFault::Failed => Status::ReadFault,
        TurnFault::Memory => Status::Memory,
    }
}

/// Serves the turns of the input, over a store that is open, each behind the policy's guard of its user.
pub fn serve_turns<H: Host>(
    alloc: Global,
    host: &mut H,
    session: &mut Session,
    policy: &Policy,
) -> Status
    requires whole { session.old.broken ≡ false }
    requires open { IsTrue (H.told host.old).tells → ((made : List Event) × IsStoreOf (disk_now (H.told host.old)) session.old.state made) }
    ensures done { (made : List Event) → IsStoreOf (disk_now (H.told host.old)) session.old.state made
        → IsDone (serving_turns policy.now.grants session.old.state (H.told host.old).left) made (H.told host.old) (H.told host.new) result }
    ensures unread { KeepsUnread (serving_turns policy.now.grants session.old.state (H.told host.old).left) (H.told host.old) (H.told host.new) }
    ensures words { result ≢ Status.BadWords }
    ensures read { result ≡ Status.ReadFault → Rose (H.told host.old).take_faults (H.told host.new).take_faults }
    ensures write { result ≡ Status.WriteFault → Rose (H.told host.old).say_faults (H.told host.new).say_faults }
    ensures disk { result ≡ Status.DiskFault → Rose (H.told host.old).disk_faults (H.told host.new).disk_faults }
    ensures damaged { (at : ℕ) → result ≢ Status.Damaged at }
    ensures course { GoesOn (H.told host.old) (H.told host.new) }
{
    let mut reader = TurnReader::new(alloc);
    let mut refused = false;
    'turns: loop {
        match reader.next_turn(alloc, host) {
            Err(fault) => return status_of_turns(fault),
            Ok(None) => {
                if refused {
                    return Status::Refused;
                }
                return Status::Accepted;
            }
            Ok(Some(turn)) => match serve_turn(alloc, host, session, policy, turn, refused) {
                Ok(ended) => refused = ended,
                Err(status) => return status,
            },
        }
    }
}
