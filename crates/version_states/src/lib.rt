//! The state of a version: made from the nearest one before it that a cache has, and kept there. Steps taken, and taken back.
#![tactic(auto)]

mod cached;
mod states;
mod trying;
mod ways;

pub use states::{follow, follow_all, state_at, steps_out, stop_in, take_back, take_steps};
pub use trying::take_all;
pub use ways::{go_over, steps_between, steps_in, take_back_all};
