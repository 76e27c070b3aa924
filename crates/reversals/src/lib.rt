//! The reversals of operations and packages, which undo what these did.
#![tactic(auto)]

mod reversal;

pub use reversal::{reverse, reverse_op};
