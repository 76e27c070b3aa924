//! Ecore documents in JSON: a text is read as the metamodel that it describes, or refused with its first fault.
#![tactic(auto)]

mod ecore;
mod fault;
mod laws;
mod read;
mod reference;
mod rows;
mod table;
mod walk;

pub use fault::EcoreFault;
pub use laws::law_of_read_metamodels;
pub use read::read_metamodel;
