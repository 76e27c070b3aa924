//! The conflicts of two packages: the pairs of operations that interfere, whether there are such, and the buckets, between whose two sides a
//! user chooses.
#![tactic(auto)]

mod asking;
mod grouping;
mod labelling;
mod pairing;

pub use asking::PackageIndex;
pub use grouping::buckets;
pub use pairing::pairs;
