//! Edits as they are recorded: names are looked up, values are read, and the steps are made. Or the edit is refused
//! with the first of its refusals.
#![tactic(auto)]

mod attribute;
mod create;
mod feature;
mod fresh;
mod many;
mod operation;
mod place;
mod record;
mod reference;

pub use edit_steps::EditFault;
pub use edits::{Destination, Edit, Recorded};
pub use record::take_edit;
