//! The real system: each call is one of the library's, on the store's file and the standard streams.
#![tactic(auto)]

mod answers;
mod beside;
mod gates;
mod system;
mod words;

pub use beside::BesideSystem;
pub use system::RealSystem;
pub use words::words_of;
