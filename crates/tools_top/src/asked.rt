//! What the words ask for, as work over a store.
ghost use Rattle.std.specs.Prelude.{◌≡◌, ◌≢◌, ℕ, List};
ghost use Rattle.host_port.specs.Host.{disk_now, Rose, GoesOn, KeepsInput};
ghost use Rattle.op_form.specs.declared.event.Event.{Event};
ghost use Rattle.plain_repository.specs.Answers.{is_refusal};
ghost use Rattle.plain_repository.specs.State.{State};
ghost use Rattle.store_session.specs.Session.{IsStoreOf};
ghost use Rattle.store_session.specs.Endings.{IsDone};
ghost use Rattle.tools_top.specs.Tasks.{refusal_of, replying, same_reads, task_of};

use feature_writers::{blame, query};
use host_port::Host;
use repo_state::Repo;
use script_lang::{Last, Reply, print_reply};
use std::alloc::{AllocError, Global};
use store_runs::{Gate, Work, serve, show};
use store_session::{Session, Status};
use store_turns::serve_turns;
use tool_requests::{Guard, Tool};

/// A guard as a gate.
#[derive(Clone, Copy)]
struct Behind<'a> {
    guard: &'a Guard,
}

impl<'a> Gate for Behind<'a> {
    ghost refusal = { λ behind. refusal_of behind.guard.now };

    fn refusal_of(
        &self,
        alloc: Global,
        repo: &Repo,
        line: &str,
    ) -> Result<Option<Vec<u8>>, AllocError> {
        self.guard.refusal(alloc, repo, line)
    }
}

/// Whether a reply is a refusal.
fn is_refusal(reply: &Reply) -> bool
    ensures { result ≡ is_refusal reply.now }
{
    match reply.last {
        Last::Ok(_) => false,
        Last::No(_) => true,
    }
}

/// Prints a reply, of a store that is open.
fn tell<H: Host>(alloc: Global, host: &mut H, reply: &Reply) -> Status
    ensures done { (state : State) (made : List Event) → IsStoreOf (disk_now (H.told host.old)) state made → IsDone (replying reply.now) made (H.told host.old) (H.told host.new) result }
    ensures unread { KeepsInput (H.told host.old) (H.told host.new) }
    ensures words { result ≢ Status.BadWords }
    ensures read { result ≡ Status.ReadFault → Rose (H.told host.old).take_faults (H.told host.new).take_faults }
    ensures write { result ≡ Status.WriteFault → Rose (H.told host.old).say_faults (H.told host.new).say_faults }
    ensures disk { result ≡ Status.DiskFault → Rose (H.told host.old).disk_faults (H.told host.new).disk_faults }
    ensures damaged { (at : ℕ) → result ≢ Status.Damaged at }
    ensures course { GoesOn (H.told host.old) (H.told host.new) }
{
    match print_reply(alloc, reply) {
        Ok(bytes) => show(host, bytes.as_slice(), is_refusal(reply)),
        Err(_) => Status::Memory,
    }
}

/// What is asked for, as work.
#[derive(Drop)]
pub(crate) struct Asked {
    pub(crate) tool: Tool,
}

impl Work for Asked {
    ghost task = { λ asked. task_of asked.tool };

    fn fulfil<H: Host>(&self, alloc: Global, host: &mut H, session: &mut Session) -> Status {
        match &self.tool {
            Tool::Query {
                spec,
                element,
                class,
                feature,
            } => match query(
                alloc,
                session.repo(),
                spec,
                element.as_str(),
                class.as_str(),
                feature.as_str(),
            ) {
                Ok(reply) => tell(alloc, host, &reply),
                Err(_) => Status::Memory,
            },
            Tool::Blame { spec, element } => {
                match blame(alloc, session.repo(), spec, element.as_str()) {
                    Ok(reply) => tell(alloc, host, &reply),
                    Err(_) => Status::Memory,
                }
            }
            Tool::Guard(guard) => serve(alloc, host, session, &Behind { guard }),
            Tool::Serve(policy) => serve_turns(alloc, host, session, policy),
        }
    }

    ghost reads_alike = { λ asked. same_reads asked.tool };
}
