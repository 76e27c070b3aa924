//! Edits of a model as they are given: what each leaves, the steps that are recorded of it, and when it is refused. The
//! laws say that the steps lead there. A law is the contract of a function that does nothing.
#![tactic(auto)]

mod edit;
mod fresh_ids;
mod laws;

pub use edit::{Destination, Edit, Recorded};
pub use fresh_ids::numbered_id;
pub use laws::{law_of_edits, law_of_fresh_ids, law_of_recording};
