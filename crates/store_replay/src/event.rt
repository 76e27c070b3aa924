//! What is printed of one event.
ghost use Rattle.std.specs.Prelude.{◌≡◌, [], IfOk, false};
ghost use Rattle.op_form.specs.Formed.{IsEvent};
ghost use Rattle.plain_repository.specs.State.{State};
ghost use Rattle.replay_script.specs.Answers.{history_of};
ghost use Rattle.script_lang.specs.Reply.{printed};
ghost use Rattle.script_lang.specs.declared.reply.Last.TheVariants.{No};
ghost use Rattle.store_replay.specs.Printing.{IsPlayed, IsPlayedEvent, can_print, said_of};

use history_tree::History;
use op_form::Event;
use replay_script::{PrintFault, line_of};
use repo_state::Repo;
use script_lang::{Last, Refusal, Reply, print_reply};
use std::alloc::{AllocError, Global};
use store_session::Played;
use texts::List;

/// What is printed of an event.
#[derive(Drop)]
pub(crate) struct Said {
    /// Its lines, or the line that says why it has none.
    pub(crate) bytes: Vec<u8>,
    /// Whether a script can hold it.
    pub(crate) printable: bool,
}

/// What is printed of an event that was played, over the repository after it.
pub(crate) fn event_said(alloc: Global, repo: &Repo, played: &Played) -> Result<Said, AllocError>
    requires { IsPlayed repo.now played.now }
    ensures { IfOk result (λ said. (was : IsPlayed repo.now played.now) → (said.bytes.items ≡ said_of was.before was.event) × (said.printable ≡ can_print was.before was.event)) }
{
    let event = played.event(alloc)?;
    let said = said_over(alloc, repo, &event);
    drop(event);
    said
}

/// The same of the event itself.
fn said_over(alloc: Global, repo: &Repo, event: &Event) -> Result<Said, AllocError>
    requires formed { IsEvent event.now }
    requires played { (s : State) × IsPlayedEvent repo.now s event.now }
    ensures { IfOk result (λ said. (s : State) → IsPlayedEvent repo.now s event.now → (said.bytes.items ≡ said_of s event.now) × (said.printable ≡ can_print s event.now)) }
{
    let number = repo.event_count();
    match line_of(alloc, history(repo), event) {
        Ok(bytes) => Ok(Said {
            bytes,
            printable: true,
        }),
        Err(PrintFault::TooLong) => refused(alloc, Refusal::TooLong { number }),
        Err(PrintFault::NotPrintable) => refused(alloc, Refusal::NotPrintable { number }),
        Err(PrintFault::Memory) => Err(AllocError),
        Err(PrintFault::Unknown) => unreachable!(),
    }
}

/// The history of a repository; none before there is a metamodel.
fn history(repo: &Repo) -> Option<&History>
    ensures { history_of result ≡ repo.now.history }
{
    match repo.begun() {
        None => None,
        Some(begun) => Some(&begun.history),
    }
}

/// The line of a refusal, of an event that a script can't hold.
fn refused(alloc: Global, refusal: Refusal) -> Result<Said, AllocError>
    ensures line { IfOk result (λ said. said.bytes.items ≡ printed (record { lines = []; last = No refusal })) }
    ensures none { IfOk result (λ said. said.printable ≡ false) }
{
    let bytes = print_reply(
        alloc,
        &Reply {
            lines: List::new(alloc),
            last: Last::No(refusal),
        },
    )?;
    Ok(Said {
        bytes,
        printable: false,
    })
}
