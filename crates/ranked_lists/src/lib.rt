//! Lists of elements, found by id and ordered by rank.
#![tactic(auto)]

mod few;
mod many;
mod ranked_list;

pub use ranked_list::RankedList;
