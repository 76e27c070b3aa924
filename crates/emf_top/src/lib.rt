//! All that the program does, as one call over a host. It reads the words, and what they ask for is work over the store: to serve the
//! input, to look at the store, or to answer a generated script.
#![tactic(auto)]

mod asked;
mod filling;
mod looking;
mod top;

pub use plain_repository::law_of_stores;
pub use repo_state::law_of_counts;
pub use script_items::generate;
pub use store_session::Status;
pub use top::run;
