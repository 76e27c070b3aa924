//! A decision: the reply to a command, and the event that it makes.
ghost use Rattle.std.specs.Prelude.{◌≡◌, ℕ, [], IfErr, IfOk, IfSome, List, Some, true};
ghost use Rattle.std.specs.Fmt.{decimal};
ghost use Rattle.plain_repository.specs.State.{State};
ghost use Rattle.plain_repository.specs.Answers as plain;
ghost use Rattle.plain_repository.specs.Answers.{accepted, refused, refused_with, told, with_room};
ghost use Rattle.plain_repository.specs.Events.{playable_with, suits};
ghost use Rattle.event_play.specs.Foreseen.{IsForeseen};
ghost use Rattle.event_play.specs.declared.foreseen.Foreseen.{Foreseen};
ghost use Rattle.repo_answers.specs.Decisions.{plain_decision, CanMake, CanMakeIt};

use commit_journal::{Fit, fits};
use event_play::Foreseen;
use op_form::{Event, encode_event, has_encoding};
use repo_state::Repo;
use script_lang::{Last, Refusal, Reply};
use std::alloc::{AllocError, Global};
use texts::{List, Text};

/// An event that is to be made, its bytes, and what was found out of it.
#[derive(Drop)]
pub struct Made {
    pub event: Event,
    pub form: Vec<u8>,
    pub foreseen: Foreseen,
}

/// A reply, and the event that goes with it.
#[derive(Drop)]
pub struct Decision {
    pub reply: Reply,
    pub made: Option<Made>,
}

/// A refusal with data lines, which makes no event.
pub(crate) fn refuse_with(lines: List<Text>, refusal: Refusal) -> Decision
    ensures decision { plain_decision result ≡ refused_with lines refusal }
    ensures made { (s : State) → CanMakeIt s result.made }
{
    Decision {
        reply: Reply {
            lines,
            last: Last::No(refusal),
        },
        made: None,
    }
}

/// A refusal without any.
pub(crate) fn refuse(alloc: Global, refusal: Refusal) -> Decision
    ensures decision { plain_decision result ≡ refused refusal }
    ensures made { (s : State) → CanMakeIt s result.made }
{
    refuse_with(List::new(alloc), refusal)
}

/// An answer that changes nothing.
pub(crate) fn tell(lines: List<Text>, words: Text) -> Decision
    ensures decision { plain_decision result ≡ told lines words }
    ensures made { (s : State) → CanMakeIt s result.made }
{
    Decision {
        reply: Reply {
            lines,
            last: Last::Ok(words),
        },
        made: None,
    }
}

/// An answer, with the event that the command makes.
fn accept(lines: List<Text>, words: Text, made: Made) -> Decision
    ensures decision { plain_decision result ≡ accepted lines words made.event }
    ensures made { result.made ≡ Some made }
{
    Decision {
        reply: Reply {
            lines,
            last: Last::Ok(words),
        },
        made: Some(made),
    }
}

/// The refusal as an answer, or out of memory where there is none.
pub(crate) fn refuse_or_fail(alloc: Global, fault: Option<Refusal>) -> Result<Decision, AllocError>
    ensures decision { (x : plain.Decision) → IfSome fault (λ refusal. refused refusal ≡ x) → IfOk result (λ d. plain_decision d ≡ x) }
    ensures made { (s : State) → IfOk result (λ d. CanMakeIt s d.made) }
{
    match fault {
        Some(refusal) => Ok(refuse(alloc, refusal)),
        None => Err(AllocError),
    }
}

/// An answer of data lines alone, which changes nothing.
pub(crate) fn tell_lines(alloc: Global, lines: List<Text>) -> Result<Decision, AllocError>
    ensures decision { IfOk result (λ d. plain_decision d ≡ told lines []) }
    ensures made { (s : State) → IfOk result (λ d. CanMakeIt s d.made) }
{
    match Text::new(alloc, "") {
        Ok(words) => Ok(tell(lines, words)),
        Err(fault) => Err(fault),
    }
}

/// A number as an answer, which changes nothing.
pub(crate) fn tell_number(alloc: Global, n: u64) -> Result<Decision, AllocError>
    ensures decision { IfOk result (λ d. plain_decision d ≡ told [] (decimal n)) }
    ensures made { (s : State) → IfOk result (λ d. CanMakeIt s d.made) }
{
    let words = number_words(alloc, n)?;
    Ok(tell(List::new(alloc), words))
}

/// A number in decimal digits.
pub(crate) fn number_words(alloc: Global, n: u64) -> Result<Text, AllocError>
    ensures { IfOk result (λ words. words ≡ decimal n) }
{
    let text = format!(in alloc; "{n}")?;
    Text::new(alloc, text.as_str())
}

/// The bytes of an event, where the history and the journal have room for it; else the refusal. When out of memory it is none.
#[tactic(auto, unfolding(plain_repository::specs::Answers::with_room, plain_repository::specs::Events::playable))]
fn form_of(alloc: Global, repo: &Repo, event: &Event) -> Result<Vec<u8>, Option<Refusal>>
    requires could { playable_with repo.now repo.now.meta event.now ≡ true }
    requires suits { suits repo.now.upgraded event.now ≡ true }
    ensures accepted { IfOk result (λ form. (lines : List (List ℕ)) (words : List ℕ) → accepted lines words event.now ≡ with_room repo.now lines words event.now) }
    ensures made { IfOk result (λ form. (f : Foreseen) → IsForeseen repo.now event.now f → CanMake repo.now (record { event = event.now; form = form; foreseen = f })) }
    ensures refused { IfErr result (λ fault. (lines : List (List ℕ)) (words : List ℕ) → IfSome fault (λ refusal. refused refusal ≡ with_room repo.now lines words event.now)) }
{
    if repo.is_full() {
        return Err(Some(Refusal::HistoryFull));
    }
    // Such an event has a text of 2^32 bytes, a list of 2^32 items, or an index past them.
    if !has_encoding(event) {
        return Err(Some(Refusal::TooLarge));
    }
    let form = match encode_event(alloc, event) {
        Ok(form) => form,
        Err(_) => return Err(None),
    };
    match fits(repo.end(), form.len() as u64) {
        Fit::Yes => Ok(form),
        Fit::TooLarge => Err(Some(Refusal::TooLarge)),
        Fit::Full => Err(Some(Refusal::JournalFull)),
    }
}

/// Makes an event, where the history and the journal have room. One that has no encoding is too large.
pub(crate) fn with_room(
    alloc: Global,
    repo: &Repo,
    lines: List<Text>,
    words: Text,
    event: Event,
) -> Result<Decision, AllocError>
    requires could { playable_with repo.now repo.now.meta event ≡ true }
    requires suits { suits repo.now.upgraded event ≡ true }
    ensures decision { IfOk result (λ d. plain_decision d ≡ with_room repo.now lines words event) }
    ensures made { IfOk result (λ d. CanMakeIt repo.now d.made) }
{
    with_foreseen(alloc, repo, lines, words, event, Foreseen::Nothing)
}

/// The same, with what was foreseen of the event.
fn with_foreseen(
    alloc: Global,
    repo: &Repo,
    lines: List<Text>,
    words: Text,
    event: Event,
    foreseen: Foreseen,
) -> Result<Decision, AllocError>
    requires could { playable_with repo.now repo.now.meta event ≡ true }
    requires suits { suits repo.now.upgraded event ≡ true }
    requires foreseen { IsForeseen repo.now event foreseen }
    ensures decision { IfOk result (λ d. plain_decision d ≡ with_room repo.now lines words event) }
    ensures made { IfOk result (λ d. CanMakeIt repo.now d.made) }
{
    match form_of(alloc, repo, &event) {
        Ok(form) => Ok(accept(
            lines,
            words,
            Made {
                event,
                form,
                foreseen,
            },
        )),
        Err(fault) => refuse_or_fail(alloc, fault),
    }
}

/// The same, where there was memory for the words.
pub(crate) fn with_words(
    alloc: Global,
    repo: &Repo,
    lines: List<Text>,
    words: Result<Text, AllocError>,
    event: Event,
) -> Result<Decision, AllocError>
    requires could { playable_with repo.now repo.now.meta event ≡ true }
    requires suits { suits repo.now.upgraded event ≡ true }
    ensures decision { (x : List ℕ) → IfOk words (λ w. w ≡ x) → IfOk result (λ d. plain_decision d ≡ with_room repo.now lines x event) }
    ensures made { IfOk result (λ d. CanMakeIt repo.now d.made) }
{
    match words {
        Ok(text) => with_room(alloc, repo, lines, text, event),
        Err(fault) => Err(fault),
    }
}

/// Makes an event that is answered without data lines and words.
pub(crate) fn with_event(alloc: Global, repo: &Repo, event: Event) -> Result<Decision, AllocError>
    requires could { playable_with repo.now repo.now.meta event ≡ true }
    requires suits { suits repo.now.upgraded event ≡ true }
    ensures decision { IfOk result (λ d. plain_decision d ≡ with_room repo.now [] [] event) }
    ensures made { IfOk result (λ d. CanMakeIt repo.now d.made) }
{
    let words = Text::new(alloc, "");
    with_words(alloc, repo, List::new(alloc), words, event)
}

/// Makes an event that is answered a number.
pub(crate) fn with_number(
    alloc: Global,
    repo: &Repo,
    n: u64,
    event: Event,
) -> Result<Decision, AllocError>
    requires could { playable_with repo.now repo.now.meta event ≡ true }
    requires suits { suits repo.now.upgraded event ≡ true }
    ensures decision { IfOk result (λ d. plain_decision d ≡ with_room repo.now [] (decimal n) event) }
    ensures made { IfOk result (λ d. CanMakeIt repo.now d.made) }
{
    let words = number_words(alloc, n);
    with_words(alloc, repo, List::new(alloc), words, event)
}

/// The same, with what was foreseen of the event.
pub(crate) fn with_number_foreseen(
    alloc: Global,
    repo: &Repo,
    n: u64,
    event: Event,
    foreseen: Foreseen,
) -> Result<Decision, AllocError>
    requires could { playable_with repo.now repo.now.meta event ≡ true }
    requires suits { suits repo.now.upgraded event ≡ true }
    requires foreseen { IsForeseen repo.now event foreseen }
    ensures decision { IfOk result (λ d. plain_decision d ≡ with_room repo.now [] (decimal n) event) }
    ensures made { IfOk result (λ d. CanMakeIt repo.now d.made) }
{
    match number_words(alloc, n) {
        Ok(words) => with_foreseen(alloc, repo, List::new(alloc), words, event, foreseen),
        Err(fault) => Err(fault),
    }
}
