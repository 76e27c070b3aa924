//! A reply, and the bytes that are printed of it.
ghost use Rattle.std.specs.Prelude.{◌≡◌, ◌++◌, ◌∷◌, [], IfOk, OnOk, string_bytes};
ghost use Rattle.script_lang.specs.Reply.{refusal_text, with_fields, printed, printed_lines, last_line, ok_line};

use std::alloc::{AllocError, Global};
use std::fmt;
use texts::{List, Text};

/// Why a command is refused, with the number and the name that its reply has. After each of them the repository and the file are as before.
#[derive(Drop)]
pub enum Refusal {
    /// 1: the line spells no command. The column is a byte's, from 1.
    BadLine { column: u32 },
    /// 2: there is no metamodel yet.
    NotInit,
    /// 3: there is a metamodel already.
    AlreadyInit,
    /// 4: the block is no metamodel, for the fault of that number.
    BadMetamodel { n: u32 },
    /// 5: no workspace has that number.
    NoWorkspace,
    /// 6: no version has that number, or no version that tag.
    NoVersion,
    /// 7: no branch has that name.
    NoBranch,
    /// 8: a branch has that name.
    BranchExists,
    /// 9: a tag has that name.
    TagExists,
    /// 10: no live element has that id.
    NoElement,
    /// 11: an element with that id is live.
    IdInUse,
    /// 12: the text is no id.
    BadId,
    /// 13: the metamodel has no class of that name.
    NoClass,
    /// 14: the class is abstract.
    Abstract,
    /// 15: the element's class has no feature of that name.
    NoFeature,
    /// 16: the feature is of a kind that the command does not take.
    WrongKind,
    /// 17: the text is no value of the attribute's type, or for a reference no JSON text.
    BadValue,
    /// 18: the class of what would be linked or contained is not the feature's type, nor below it.
    WrongType,
    /// 19: a list that would get an entry more is full, or a list or place must be renumbered and is too long.
    Bound,
    /// 20: the feature holds each value once, and holds that one already.
    AlreadyThere,
    /// 21: the list or place has no such index, or the list no such target.
    NoEntry,
    /// 22: the element would stand inside itself.
    WouldCycle,
    /// 23: no operation is recorded, and for a commit no version is pending either.
    NothingLocal,
    /// 24: the workspace's base is not its branch's head.
    Stale { base: u32, head: u32 },
    /// 25: operations of both sides are in conflict, in so many buckets, and the line has no choices.
    Conflicts { buckets: u64 },
    /// 26: the choices are not a letter `m` or `t` for each bucket: so many buckets there are, and so many bytes the choices have.
    BadChoice { want: u64, got: u64 },
    /// 27: a composite is open in the workspace.
    CompositeOpen,
    /// 28: no composite is open in the workspace.
    NoComposite,
    /// 29: the block is no model text, for the fault of that number.
    BadModel { n: u32 },
    /// 30: an operation of that later version interferes with the version to be reverted, or local operations alone do.
    Interferes { version: Option<u32> },
    /// 31: the branch is the workspace's own.
    SameBranch,
    /// 32: the version is not on the path of the workspace's base.
    NotOnPath,
    /// 33: as many events stand in the history as it can hold.
    HistoryFull,
    /// 34: the event's record would be longer than a record may be, or the event has no encoding. Or, for `package`, a list of the version's
    /// operations has too many items to have bytes.
    TooLarge,
    /// 35: the event's record would pass the journal's limit.
    JournalFull,
    /// 36: the package's step of that number, from 0 over all its operations, can't be applied.
    NotApplicable { step: u64 },
    /// 37: the bytes are no package: the offset is that of the first field that can't be read, or of the first byte left over.
    NotForm { at: u64 },
    /// 38: the document's metamodel doesn't have the part of that name as the store's has it.
    NotExtension { name: Text },
    /// 39: versions are not signed before the store is upgraded.
    OldForm,
    /// 40: each version is signed since the store is upgraded.
    Unsigned,
    /// 41: the rule of that number denies the command to the user.
    Denied { rule: u32 },
    /// 42: no block of a script has room for the package of the event of that number, from 1.
    TooLong { number: u32 },
    /// 43: no line or block of a script holds the event of that number, from 1, as it stands.
    NotPrintable { number: u32 },
}

/// What stands after a refusal's name.
enum Fields<'a> {
    Nothing,
    One(u64),
    Two(u64, u64),
    Name(&'a str),
}

impl fmt::Display for Refusal {
    ghost use Rattle.std.specs.Prelude.{Some};
    ghost use Rattle.script_lang.specs.Reply.{refusal_text};

    ghost output = { λ refusal. Some (refusal_text refusal) };

    fn fmt<W: fmt::Write>(&self, f: &mut fmt::Formatter<W>) -> fmt::Result {
        let (title, fields) = self.parts();
        match fields {
            Fields::Nothing => f.write_str(title),
            Fields::One(first) => write!(f, "{title} {first}"),
            Fields::Two(first, second) => write!(f, "{title} {first} {second}"),
            Fields::Name(name) => write!(f, "{title} {name}"),
        }
    }
}

impl Refusal {
    /// The number and the name that the reply has, and what stands after them.
    #[tactic(auto, unfolding(crate::specs::Reply::refusal_text))]
    fn parts(&self) -> (&'static str, Fields<'_>)
        ensures { with_fields result.0.now result.1 ≡ refusal_text self.now }
    {
        match self {
            Refusal::BadLine { column } => ("1 BadLine", Fields::One(u64::from(*column))),
            Refusal::NotInit => ("2 NotInit", Fields::Nothing),
            Refusal::AlreadyInit => ("3 AlreadyInit", Fields::Nothing),
            Refusal::BadMetamodel { n } => ("4 BadMetamodel", Fields::One(u64::from(*n))),
            Refusal::NoWorkspace => ("5 NoWorkspace", Fields::Nothing),
            Refusal::NoVersion => ("6 NoVersion", Fields::Nothing),
            Refusal::NoBranch => ("7 NoBranch", Fields::Nothing),
            Refusal::BranchExists => ("8 BranchExists", Fields::Nothing),
            Refusal::TagExists => ("9 TagExists", Fields::Nothing),
            Refusal::NoElement => ("10 NoElement", Fields::Nothing),
            Refusal::IdInUse => ("11 IdInUse", Fields::Nothing),
            Refusal::BadId => ("12 BadId", Fields::Nothing),
            Refusal::NoClass => ("13 NoClass", Fields::Nothing),
            Refusal::Abstract => ("14 Abstract", Fields::Nothing),
            Refusal::NoFeature => ("15 NoFeature", Fields::Nothing),
            Refusal::WrongKind => ("16 WrongKind", Fields::Nothing),
            Refusal::BadValue => ("17 BadValue", Fields::Nothing),
            Refusal::WrongType => ("18 WrongType", Fields::Nothing),
            Refusal::Bound => ("19 Bound", Fields::Nothing),
            Refusal::AlreadyThere => ("20 AlreadyThere", Fields::Nothing),
            Refusal::NoEntry => ("21 NoEntry", Fields::Nothing),
            Refusal::WouldCycle => ("22 WouldCycle", Fields::Nothing),
            Refusal::NothingLocal => ("23 NothingLocal", Fields::Nothing),
            Refusal::Stale { base, head } => (
                "24 Stale",
                Fields::Two(u64::from(*base), u64::from(*head)),
            ),
            Refusal::Conflicts { buckets } => ("25 Conflicts", Fields::One(*buckets)),
            Refusal::BadChoice { want, got } => ("26 BadChoice", Fields::Two(*want, *got)),
            Refusal::CompositeOpen => ("27 CompositeOpen", Fields::Nothing),
            Refusal::NoComposite => ("28 NoComposite", Fields::Nothing),
            Refusal::BadModel { n } => ("29 BadModel", Fields::One(u64::from(*n))),
            Refusal::Interferes { version: None } => ("30 Interferes local", Fields::Nothing),
            Refusal::Interferes {
                version: Some(version),
            } => ("30 Interferes", Fields::One(u64::from(*version))),
            Refusal::SameBranch => ("31 SameBranch", Fields::Nothing),
            Refusal::NotOnPath => ("32 NotOnPath", Fields::Nothing),
            Refusal::HistoryFull => ("33 HistoryFull", Fields::Nothing),
            Refusal::TooLarge => ("34 TooLarge", Fields::Nothing),
            Refusal::JournalFull => ("35 JournalFull", Fields::Nothing),
            Refusal::NotApplicable { step } => ("36 NotApplicable", Fields::One(*step)),
            Refusal::NotForm { at } => ("37 NotForm", Fields::One(*at)),
            Refusal::NotExtension { name } => ("38 NotExtension", Fields::Name(name.as_str())),
            Refusal::OldForm => ("39 OldForm", Fields::Nothing),
            Refusal::Unsigned => ("40 Unsigned", Fields::Nothing),
            Refusal::Denied { rule } => ("41 Denied", Fields::One(u64::from(*rule))),
            Refusal::TooLong { number } => ("42 TooLong", Fields::One(u64::from(*number))),
            Refusal::NotPrintable { number } => (
                "43 NotPrintable",
                Fields::One(u64::from(*number)),
            ),
        }
    }
}

/// The last line of a reply.
#[derive(Drop)]
pub enum Last {
    /// The command is accepted: the words after `ok`, or none.
    Ok(Text),
    /// The command is refused.
    No(Refusal),
}

/// What one command is answered: data lines, and a last line.
#[derive(Drop)]
pub struct Reply {
    pub lines: List<Text>,
    pub last: Last,
}

/// The bytes of a reply: each line, ended by a line feed.
pub fn print_reply(alloc: Global, reply: &Reply) -> Result<Vec<u8>, AllocError>
    ensures bytes { IfOk result (λ bytes. bytes.items ≡ printed reply.now) }
{
    let mut out = Vec::new(alloc);
    print_lines(&mut out, reply.lines.as_slice())?;
    let last = last_line(alloc, &reply.last)?;
    print_line(&mut out, last.as_str())?;
    Ok(out)
}

fn print_lines(out: &mut Vec<u8>, lines: &[Text]) -> Result<(), AllocError>
    ensures { OnOk result (out.new.items ≡ out.old.items ++ printed_lines lines.now) }
{
    for line in lines {
        print_line(out, line.as_str())?;
    }
    Ok(())
}

fn print_line(out: &mut Vec<u8>, line: &str) -> Result<(), AllocError>
    ensures { OnOk result (out.new.items ≡ out.old.items ++ line.now ++ 10 ∷ []) }
{
    out.extend_from_slice(line.as_bytes())?;
    out.push(b'\n')?;
    Ok(())
}

fn last_line(alloc: Global, last: &Last) -> Result<String, AllocError>
    ensures { IfOk result (λ line. string_bytes line ≡ last_line last.now) }
{
    match last {
        Last::Ok(words) => ok_line(alloc, words.as_str()),
        Last::No(refusal) => format!(in alloc; "no {refusal}"),
    }
}

fn ok_line(alloc: Global, words: &str) -> Result<String, AllocError>
    ensures { IfOk result (λ line. string_bytes line ≡ ok_line words.now) }
{
    if words.is_empty() {
        return String::from_str(alloc, "ok");
    }
    format!(in alloc; "ok {words}")
}
