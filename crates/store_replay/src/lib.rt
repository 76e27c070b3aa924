//! A store printed as the script that makes it again, and the law that it does.
#![tactic(auto)]

mod event;
mod laws;
mod replay;

pub use laws::law_of_moved_stores;
pub use replay::replay_store;
