//! What each command is for, the workspace that it names, and what it needs to be answered: one table of all commands.
#![tactic(auto)]

mod table;

pub use table::{CommandFacts, CommandKind, Needs, facts};
