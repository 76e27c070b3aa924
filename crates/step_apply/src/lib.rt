//! A model over ordered maps, as plain as its queries and its writes can be written.
#![tactic(auto)]

mod attrs;
mod groups;
mod kinds;
mod places;
mod plain;
mod rows;
mod write;

pub use plain::Plain;
