//! A metamodel is built of the rows that a document describes, or refused with the first fault.
#![tactic(auto)]

mod building;
mod enums;
mod fault;
mod faults;
mod features;

pub use building::build;
pub use ecore_drafts::{
    ClassRow, ClassifierRow, EnumRow, FeatureRow, LiteralRow, MetaRows, OppositeRow, TypeName,
};
pub use fault::MetaFault;
