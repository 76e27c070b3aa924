//! The plain repository: what each command is answered and which event it makes, as definitions over a plain state. The program
//! is proved against it.
//!
//! A workspace stands at a version of a branch. It records edits, alone or in a composite, and takes them back. It shows them, its
//! model and what the model lacks. A commit makes a version of them. An update takes in what others committed on the branch, and a
//! merge what was committed on another.
#![tactic(auto)]

mod laws;

pub use laws::{
    law_of_commits, law_of_decisions, law_of_effects, law_of_events, law_of_growth, law_of_merging,
    law_of_metamodels, law_of_names, law_of_order, law_of_replies, law_of_signatures,
    law_of_standing, law_of_stores, law_of_three_way, law_of_undoing, law_of_versions,
    law_of_working_models, law_of_workspaces_apart,
};
