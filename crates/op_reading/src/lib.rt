//! Packages and events read from bytes: what was encoded is read again, and what is read was encoded so.
#![tactic(auto)]

mod fault;
mod laws;
mod read_event;
mod read_step;
mod read_value;

pub use fault::FormFault;
pub use laws::law_of_encodings;
pub use read_event::{decode, decode_event};
