//! Texts that a script can hold: which messages stand in a line, and which texts in a block, and are cut out as they are.
#![tactic(auto)]

mod laws;

pub use laws::law_of_script_texts;
