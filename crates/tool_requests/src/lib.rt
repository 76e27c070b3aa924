//! What `emftools` is asked: the words of its command line, and a guard that refuses lines by a policy.
#![tactic(auto)]

mod guard;
mod tool;
mod turn;
mod words;

pub use guard::Guard;
pub use tool::{Request, Tool};
pub use turn::turn_refusal;
pub use words::request_of;
