//! The operations that an update or a merge appends, by what the choices keep and drop.
#![tactic(auto)]

mod choices;
mod fault;
mod lists;
mod packages;
mod picking;

pub use fault::ChoiceFault;
pub use packages::{merge_package, update_package};
