//! Items of a script as bytes. The law says that an input is cut into the items that it was printed of.
#![tactic(auto)]

mod laws;

pub use laws::law_of_printed_items;
