//! A store that is open: its file is read and its events are played, one by one, and then one command after another is
//! answered. The event of a command is in the file before any byte of its reply is printed. Definitions say what a run over a store
//! has to do, and how it ends.
#![tactic(auto)]

mod answered;
mod opening;
mod preparing;
mod session;
mod status;

pub use answered::{Answered, SessionFault};
pub use opening::{Opening, Played};
pub use session::Session;
pub use status::{Status, status_of, status_of_input};
