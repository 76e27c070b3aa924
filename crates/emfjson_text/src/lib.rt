//! The text of a model: JSON in the form of emfjson, without spaces.
#![tactic(auto)]

mod frame;
mod key;
mod leaf;
mod part;
mod write;

pub use write::write_model;
