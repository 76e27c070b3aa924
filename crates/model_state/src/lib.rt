//! The state of a model, its steps, and what they do.
#![tactic(auto)]

mod containers;
mod copies;
mod entry;
mod id;
mod look;
mod name;
mod operation;
mod place_tests;
mod rank;
mod step;
mod typing;

pub use containers::chain;
pub use copies::{copied_values, copy_value};
pub use entry::{Entry, Incoming};
pub use id::{Id, IdFault};
pub use look::{Change, Look};
pub use name::is_name;
pub use operation::{OpKind, Operation, Package};
pub use place_tests::{has_room, may_move, may_stand};
pub use rank::{MOST_ENTRIES, RANK_GAP, rank_between};
pub use step::{ApplyFault, Place, Placed, Step, StepFault};
pub use typing::{
    attr_fits, child_upper, class_has, contains, fits, is_attr, is_below_bound, is_concrete,
    is_default, is_many, is_one, is_plain, is_same_option, is_same_value, is_unique, many_fits,
    may_contain, may_link, opposite_of, row_upper, upper_of,
};
