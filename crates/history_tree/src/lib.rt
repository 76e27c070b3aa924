//! Versions, branches and tags, as numbers and names: what is on a version's path, which version is a branch's head,
//! and what a name names. The last version that two paths have in common is found here too.
#![tactic(auto)]

mod found;
mod history;
mod laws;
mod merging;
mod names;
mod version;

pub use found::{FindFault, Found};
pub use history::History;
pub use laws::{law_of_histories, law_of_merge_bases};
pub use version::{Signature, Version};
