//! Values under ids, each in a slot of its own.
#![tactic(auto)]

mod arena;

pub use arena::Nodes;
