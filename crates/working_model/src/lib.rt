//! The model that a workspace works on, which knows where the search for its next fresh id begins.
#![tactic(auto)]

mod deletions;
mod working;

pub use working::Working;
