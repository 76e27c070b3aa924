//! Operations, packages and events written as bytes, with one encoding each.
#![tactic(auto)]

mod event;
mod formed;
mod write_event;
mod write_step;

pub use event::Event;
pub use formed::{has_encoding, is_package};
pub use write_event::{encode, encode_event};
