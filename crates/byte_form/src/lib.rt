//! Fields of bytes: numbers most significant byte first, and texts after their length. Each value has one encoding, and no encoding begins another.
#![tactic(auto)]

mod form;
mod laws;
mod reader;

pub use form::Form;
pub use laws::law_of_fields;
pub use reader::{ReadFault, Reader};
