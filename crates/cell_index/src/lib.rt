//! An index of operations by their cells: near an operation are all that interfere with it, and perhaps more; and the last that
//! touches it.
#![tactic(auto)]

mod draining;
mod keys;
mod listing;
mod meeting;
mod seeking;
mod staying;

pub use listing::{CellIndex, index_of, lists_of};
pub use staying::Standing;
