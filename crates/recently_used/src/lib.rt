//! Numbers in the order in which they were used. Those used last stay, 64 of them at most.
#![tactic(auto)]

mod laws;
mod recent;

pub use laws::law_of_places;
pub use recent::Recent;
