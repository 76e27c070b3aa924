//! Laws of the steps: each keeps the invariant of a state, reversal undoes, and steps whose cells are disjoint
//! commute. A law is the contract of a function that does nothing.
#![tactic(auto)]

mod laws;
mod taking;

pub use laws::{law_of_reversal, law_of_reversals, law_of_step_exchange, law_of_stops};
pub use taking::take_in_order;
