//! The law of the offset at which bytes are refused that are no package or no event. A law is the contract of a function
//! that does nothing.
#![tactic(auto)]

mod laws;

pub use laws::law_of_form_faults;
