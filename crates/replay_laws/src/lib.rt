//! The laws of replay: an event that could be made is what its own line is answered with, and the script of a repository, run on an
//! empty one, makes the same events. A law is the contract of a function that does nothing.
#![tactic(auto)]

mod laws;

pub use laws::{law_of_events_made_again, law_of_replay};
