//! Single edits of a model: what each leaves, defined without steps, when it is refused, and the calls that make its steps.
//! An attribute or a reference gets other values; a reference and its opposite change together, but where an entry moves within
//! its list. An element is created in a place, moved, or deleted with all that it contains. The laws say that the steps lead to
//! what the edit is to leave, where its entries stand then, and what subtrees and containers are. A law is the contract of a
//! function that does nothing.
#![tactic(auto)]

mod bounds;
mod create;
mod delete;
mod entering;
mod fault;
mod features;
mod insertions;
mod laws;
mod link;
mod link_fault;
mod link_laws;
mod look_up;
mod move_fault;
mod moves;
mod place;
mod place_laws;
mod reorder;
mod rows;
mod set_ref;
mod spots;
mod there;
mod unlink;
mod unset_ref;
mod values;
mod walk;

pub use bounds::holds_one;
pub use create::{create_at, creation_spot};
pub use delete::delete_steps;
pub use fault::EditFault;
pub use features::{Slot, Sort, slots_of};
pub use insertions::Insertion;
pub use laws::{
    law_of_attribute_edits, law_of_creation, law_of_many_value_edits, law_of_moves,
    law_of_reference_edits, law_of_standing,
};
pub use link::{index_or_end, link_step, link_steps};
pub use link_fault::LinkFault;
pub use link_laws::law_of_calls;
pub use look_up::rank_of_mirror;
pub use move_fault::MoveFault;
pub use moves::move_steps;
pub use place::is_containment;
pub use place_laws::{
    law_of_containers, law_of_creation_steps, law_of_deletion_steps, law_of_move_steps,
    law_of_subtrees,
};
pub use reorder::{reorder_steps, stands_at, without_entry};
pub use set_ref::set_ref_steps;
pub use spots::Spot;
pub use unlink::{unlink_step, unlink_steps, unlinks};
pub use unset_ref::unset_ref_steps;
pub use values::dels;
pub use walk::subtree;
