//! The package that builds a state from the empty project, and its bytes.
#![tactic(auto)]

mod laws;
mod whole;

pub use laws::law_of_spelled_states;
pub use whole::encode_state;
