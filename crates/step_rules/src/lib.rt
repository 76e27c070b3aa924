//! The rules of the steps: the tests of each kind and its effect, over any model whose maps can be written.
#![tactic(auto)]

mod births;
mod links;
mod many;
mod moves;
mod queries;
mod take;
mod values;
mod write;

pub use take::take_step;
pub use write::Write;
