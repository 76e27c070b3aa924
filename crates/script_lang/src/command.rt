//! Commands, and how a line names a version.
use crate::Bytes;
use edits::Edit;
use texts::Text;

/// How a line names a version.
#[derive(Drop)]
pub enum Spec {
    /// A version's number.
    Number(u32),
    /// A branch's name, for the version at its head.
    Branch(Text),
    /// A tag's name, written after `@`.
    Tag(Text),
}

/// A command, with a field for each word after the first, in the order in which they stand.
#[derive(Drop)]
pub enum Command {
    /// `init`: the block after the line is the metamodel.
    Init,
    /// `evolve`: the block after the line is a metamodel that extends the present one.
    Evolve,
    /// `import WS`: the elements of the document in the block after the line are created in the workspace's model.
    Import {
        ws: u32,
    },
    /// `load WS`: the block after the line has the bytes of a package in hexadecimal digits; its operations are recorded.
    Load {
        ws: u32,
    },
    /// `checkout SPEC`: a new workspace at that version.
    Checkout {
        spec: Spec,
    },
    /// An edit of a workspace's model. It is `create WS CLASS DESTINATION [ID]`, `delete WS ID` or `move WS ID
    /// DESTINATION [INDEX]`. Or it is `set WS ID FEATURE VALUE`, `unset WS ID FEATURE`, `add WS ID FEATURE AT VALUE` or
    /// `remove WS ID FEATURE INDEX`. Or it is `shift WS ID FEATURE FROM TO`, `link WS ID FEATURE TARGET [INDEX]` or
    /// `unlink WS ID FEATURE TARGET`. Or it is `reorder WS ID FEATURE TARGET INDEX`. A destination is `/`, the root, or
    /// `PARENT FEATURE`.
    Edit {
        ws: u32,
        edit: Edit,
    },
    /// `begin WS NAME`: a composite of that name is open.
    Begin {
        ws: u32,
        name: Text,
    },
    /// `end WS`: the open composite is closed.
    End {
        ws: u32,
    },
    /// `undo WS`: the last local operation is dropped.
    Undo {
        ws: u32,
    },
    /// `discard WS`: all that is local is dropped.
    Discard {
        ws: u32,
    },
    /// `tidy WS`: the local operations are tidied.
    Tidy {
        ws: u32,
    },
    /// `apply WS HEX`: the operations of the package with those bytes are recorded. HEX is two hexadecimal digits a byte, of either case.
    Apply {
        ws: u32,
        bytes: Bytes,
    },
    /// `changes WS`: what is local is shown.
    Changes {
        ws: u32,
    },
    /// `show WS`: the text of the workspace's model.
    Show {
        ws: u32,
    },
    /// `cat SPEC`: the text of that version.
    Cat {
        spec: Spec,
    },
    /// `validate WS`: the features of the workspace's model that are below their lower bounds.
    Validate {
        ws: u32,
    },
    /// `commit WS [MESSAGE]`: what is local is a new version.
    Commit {
        ws: u32,
        message: Option<Text>,
    },
    /// `signed WS AUTHOR MOMENT [MESSAGE]`: what is local is a new version, with that author and that moment.
    Signed {
        ws: u32,
        author: Text,
        moment: u64,
        message: Option<Text>,
    },
    /// `branch WS NAME`: a branch that starts at the workspace's base.
    Branch {
        ws: u32,
        name: Text,
    },
    /// `tag NAME SPEC`: a tag of that version.
    Tag {
        name: Text,
        spec: Spec,
    },
    /// `log`: the versions.
    Log,
    /// `package SPEC`: the operations of that version.
    Package {
        spec: Spec,
    },
    /// `update WS [CHOICES]`: the versions up to the head of the workspace's branch are taken up. CHOICES is a letter for each bucket of
    /// operations in conflict: `m` keeps the workspace's own, `t` those of the versions.
    Update {
        ws: u32,
        choices: Option<Text>,
    },
    /// `merge WS BRANCH [CHOICES]`: the versions of that branch are taken up.
    Merge {
        ws: u32,
        branch: Text,
        choices: Option<Text>,
    },
    /// `revert WS VERSION`: what that version did is undone by operations of the workspace.
    Revert {
        ws: u32,
        version: u32,
    },
    /// `drop WS`: the workspace is dropped.
    Drop {
        ws: u32,
    },
    /// `upgrade`: each later version is signed.
    Upgrade,
}
