//! How often each value is held, found without going over the values.
#![tactic(auto)]

mod counts;
mod trees;

pub use counts::ValueCounts;
