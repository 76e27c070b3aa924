//! A model's text walked: the elements that it describes as drafts, whose references are texts still, and what finds them by id and by place.
#![tactic(auto)]

mod attributes;
mod classes;
mod drafts;
mod finder;
mod held;
mod identity;
mod links;
mod walker;

pub use attributes::is_within;
pub use classes::after_prefix;
pub use finder::{Finder, child_at, take_numbers};
pub use walker::walk;
