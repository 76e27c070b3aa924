//! What a document makes of a model that it is brought into: the ids of its elements, the steps that are recorded, and the model after them.
//! The laws say that the steps lead there. A law is the contract of a function that does nothing.
#![tactic(auto)]

mod laws;

pub use laws::{law_of_imports, law_of_new_names};
