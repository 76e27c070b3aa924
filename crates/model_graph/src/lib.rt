//! A model over elements in slots. Beside each element stand its values, its references and those to it, and the
//! elements inside it.
#![tactic(auto)]

mod graph;
mod lists;
mod look;
mod run;
mod write;
mod writes;

pub use graph::Graph;
