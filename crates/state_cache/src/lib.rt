//! Byte strings by version number, kept in frames of a pool, the most recently used first.
#![tactic(auto)]

mod cache;

pub use cache::Cache;
