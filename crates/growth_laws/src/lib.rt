//! The laws of a metamodel that grows. What was good stays good, each run of steps leads where it led, and each model has
//! the text that it had. A law is the contract of a function that does nothing.
#![tactic(auto)]

mod laws;

pub use laws::{law_of_evolved_metamodels, law_of_evolved_texts};
