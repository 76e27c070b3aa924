//! The law of shown lines: what commands show is lines, none of them empty, so that an empty line can mark where answers end.
#![tactic(auto)]

mod laws;

pub use laws::law_of_shown_lines;
