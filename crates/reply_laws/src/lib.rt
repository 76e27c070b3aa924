//! The laws of replies: what a command prints, tied to what later commands find and to what the lists are of. A law is the contract of
//! a function that does nothing.
#![tactic(auto)]

mod laws;

pub use laws::{law_of_answers_found_again, law_of_lists};
