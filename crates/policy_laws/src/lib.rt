//! The laws of policies: what the lines of a user leave as it was, by the user's role. A law is the contract of a function that does
//! nothing.
#![tactic(auto)]

mod laws;

pub use laws::law_of_policy_effects;
