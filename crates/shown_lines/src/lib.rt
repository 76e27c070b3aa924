//! The lines that show operations and their steps, versions, buckets, and what a model lacks. A law says that steps which were taken can be
//! shown. It is the contract of a function that does nothing.
#![tactic(auto)]

mod laws;

pub use laws::law_of_taken_steps;
