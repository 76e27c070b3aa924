//! Turns of many users in one input: each comes as a frame, a head that says whose script follows and how many bytes it has, and then
//! these bytes.
#![tactic(auto)]

mod fault;
mod head;
mod laws;
mod reader;
mod turn;

pub use fault::TurnFault;
pub use laws::{law_of_faults, law_of_heads};
pub use reader::TurnReader;
pub use turn::Turn;
