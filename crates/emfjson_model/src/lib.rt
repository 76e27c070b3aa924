//! Models in emfjson: a text is read as the elements that it describes, or refused with its first fault.
#![tactic(auto)]

mod completed;
mod paths;
mod read;
mod references;
mod sources;
mod targets;

pub use read::read_model;
