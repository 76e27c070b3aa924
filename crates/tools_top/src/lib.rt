//! The program `emftools` as a call: questions of a store, a script that is served behind a guard, and a store printed as the script
//! that makes it again.
#![tactic(auto)]

mod asked;
mod top;

pub use store_session::Status;
pub use top::tools;
