//! A document is brought into a model as one composite: its elements are created, get their values, and are linked.
#![tactic(auto)]

mod counts;
mod given;
mod import;
mod indexes;
mod links;
mod names;
mod news;
mod roots;
mod values;

pub use edit_steps::EditFault;
pub use import::import_doc;
