//! Packages tidied: what was taken back is dropped, and what was changed twice is changed once.
#![tactic(auto)]

mod joining;
mod search;
mod splitting;
mod tidying;
mod turns;
mod undoing;

pub use tidying::{is_tidy, tidy};
