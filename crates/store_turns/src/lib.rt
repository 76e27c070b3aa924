//! Turns of many users are served by one process, over one store: each is a frame, whose script is answered behind its user's guard.
#![tactic(auto)]

mod items;
mod laws;
mod turns;

pub use laws::{law_of_marks, law_of_turns};
pub use turns::serve_turns;
