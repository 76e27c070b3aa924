//! Which version of a path wrote a feature of an element last.
#![tactic(auto)]

mod common;
mod index;
mod laws;
mod table;

pub use index::{ChangeIndex, index_of};
pub use laws::law_of_last_writes;
