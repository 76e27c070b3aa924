//! The law of the column at which a line is refused that spells no command. A law is the contract of a function that does
//! nothing.
#![tactic(auto)]

mod laws;

pub use laws::law_of_columns;
