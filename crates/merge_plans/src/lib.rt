//! The plans of an update and of a merge: theirs and mine, their buckets, and what choices make of them. What stands in
//! a revert's way is found here too.
#![tactic(auto)]

mod gathering;
mod letters;
mod pairs;
mod plan;

pub use gathering::{copy_operations, operations_after, path_after};
pub use letters::are_choices;
pub use pairs::{first_interfering, have_pair};
pub use plan::{Plan, plan_merge, plan_update};
