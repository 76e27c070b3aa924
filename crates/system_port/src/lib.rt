//! The few calls of a system that a program over one file makes, each made once, with what they do where they go through,
//! are interrupted, or fail.
#![tactic(auto)]

mod answers;
mod laws;
mod over;
mod system;
mod words;

pub use answers::{Found, Name, Stop};
pub use laws::law_of_short_writes;
pub use over::HostSystem;
pub use system::System;
pub use words::WordsFault;
