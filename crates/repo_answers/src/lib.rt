//! What a line is answered, and the event that it makes; what a repository holds, for those who look at it.
#![tactic(auto)]

mod counting;
mod deciding;
mod loads;
mod versions;

pub use counting::{Counts, counts_of, elements_at_head};
pub use deciding::{Decision, Made, decide};
pub use loads::event_of_load;
