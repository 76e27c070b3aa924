//! The events of a store, and which of them have an encoding.
ghost use Rattle.std.specs.Prelude.{◌≡◌};
ghost use Rattle.op_form.specs.Formed.{is_event};

use crate::formed::{are_operations, is_short_text, is_u32, is_u64};
use model_state::Package;
use texts::Text;

/// What an accepted command changes in the repository. The journal keeps one record an event.
#[derive(Debug, Drop)]
pub enum Event {
    /// The metamodel's document.
    Init {
        text: Text,
    },
    /// A new workspace at that version, on that branch.
    Checkout {
        version: u32,
        branch: u32,
    },
    /// Operations recorded in a workspace.
    Edit {
        ws: u32,
        package: Package,
    },
    /// A composite is opened under that name.
    Begin {
        ws: u32,
        name: Text,
    },
    /// The open composite is closed.
    End {
        ws: u32,
    },
    /// The last local operation is dropped.
    Undo {
        ws: u32,
    },
    /// What the workspace has recorded is dropped.
    Discard {
        ws: u32,
    },
    /// The local operations are tidied.
    Tidy {
        ws: u32,
    },
    /// The local operations are a new version, with that message.
    Commit {
        ws: u32,
        message: Text,
    },
    /// A branch of that name starts at the workspace's base, and the workspace is on it.
    Branch {
        ws: u32,
        name: Text,
    },
    /// A version has a tag of that name.
    Tag {
        name: Text,
        version: u32,
    },
    /// The workspace takes up the versions up to its branch's head, with these choices; an empty text where there is no bucket.
    Update {
        ws: u32,
        choices: Text,
    },
    /// The workspace takes up the versions of that branch, with these choices.
    Merge {
        ws: u32,
        branch: u32,
        choices: Text,
    },
    /// The workspace is dropped.
    Drop {
        ws: u32,
    },
    /// The metamodel is extended to that of the document.
    Evolve {
        text: Text,
    },
    /// Each later version has an author and a moment.
    Upgrade,
    /// The local operations are a new version, with that author, moment and message.
    Signed {
        ws: u32,
        author: Text,
        moment: u64,
        message: Text,
    },
}

/// Whether an event has an encoding: one case an event.
#[tactic(auto, unfolding(crate::specs::Formed::is_event))]
pub(crate) fn is_event(event: &Event) -> bool
    ensures { result ≡ is_event event.now }
{
    match event {
        Event::Init { text } => is_short_text(text),
        Event::Checkout { version, branch } => is_u32(*version) && is_u32(*branch),
        Event::Edit { ws, package } => is_u32(*ws) && are_operations(package),
        Event::Begin { ws, name } => is_u32(*ws) && is_short_text(name),
        Event::End { ws } => is_u32(*ws),
        Event::Undo { ws } => is_u32(*ws),
        Event::Discard { ws } => is_u32(*ws),
        Event::Tidy { ws } => is_u32(*ws),
        Event::Commit { ws, message } => is_u32(*ws) && is_short_text(message),
        Event::Branch { ws, name } => is_u32(*ws) && is_short_text(name),
        Event::Tag { name, version } => is_short_text(name) && is_u32(*version),
        Event::Update { ws, choices } => is_u32(*ws) && is_short_text(choices),
        Event::Merge {
            ws,
            branch,
            choices,
        } => is_u32(*ws) && is_u32(*branch) && is_short_text(choices),
        Event::Drop { ws } => is_u32(*ws),
        Event::Evolve { text } => is_short_text(text),
        Event::Upgrade => true,
        Event::Signed {
            ws,
            author,
            moment,
            message,
        } => { is_u32(*ws) && is_short_text(author) && is_u64(*moment) && is_short_text(message) }
    }
}
