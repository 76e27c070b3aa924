//! The script: a line as the command that it spells, and a reply as the bytes that are printed.
//!
//! A line is words separated by exactly one space. It spells a command of the program: an edit of a model, a commit, a
//! merge, a tag, a question and more. [LANGUAGE](../../../docs/LANGUAGE.md) tells each of them. A line that spells none
//! is refused with the column of the first word that does not fit.
#![tactic(auto)]

mod bytes;
mod command;
mod fault;
mod laws;
mod parse;
mod reply;
mod words;

pub use bytes::Bytes;
pub use command::{Command, Spec};
pub use fault::ParseFault;
pub use laws::law_of_lines;
pub use parse::parse_line;
pub use reply::{Last, Refusal, Reply, print_reply};
