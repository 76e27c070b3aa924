//! Who wrote a feature: which version wrote it last, as the questions `query` and `blame` ask of a repository.
#![tactic(auto)]

mod asked;
mod fault;
mod replies;
mod writers;

pub use replies::{blame, query};
