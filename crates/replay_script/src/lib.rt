//! The history of a repository as a script: the line and the block by which each event is made again, and which events a script
//! can't hold.
#![tactic(auto)]

mod block;
mod draft;
mod fault;
mod print;
mod standing;
mod words;

pub use fault::PrintFault;
pub use print::line_of;
