//! Attribute values in the JSON of model texts. A text is read as a value of a type, and a value is written as its
//! text.
#![tactic(auto)]

mod laws;
mod read;
mod write;

pub use ecore_meta::ValueFault;
pub use laws::law_of_values;
pub use read::{read_value, value_in};
pub use write::write_value;
