//! The steps that build a model from the empty one.
#![tactic(auto)]

mod elements;
mod laws;
mod links;
mod values;
mod whole;

pub use laws::law_of_whole;
pub use whole::as_steps;
