//! The law of lifetimes: what stands in a file after many runs of both programs, each stopped at any moment, and after crashes. A law is
//! the contract of a function that does nothing.
#![tactic(auto)]

mod laws;
mod runs;

pub use laws::{law_of_guarded_lifetimes, law_of_lifetimes};
pub use runs::{run_once, tools_once};
