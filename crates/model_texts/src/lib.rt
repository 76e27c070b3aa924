//! What the text of a model is: a tree of JSON in the form of emfjson. The laws say what it depends on. A law is the contract of a function that
//! does nothing.
#![tactic(auto)]

mod key;
mod laws;

pub use key::Key;
pub use laws::law_of_texts;
