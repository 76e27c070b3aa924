//! What the rows of a document say: its classifiers by name, its features with the names in them resolved, and the
//! classes above each class.
#![tactic(auto)]

mod classifiers;
mod drafts;
mod names;
mod rows;
mod supers;
mod tables;

pub use classifiers::Classifiers;
pub use drafts::{End, FeatureDraft, Target};
pub use names::{feature_names, index, literal_names, literal_texts};
pub use rows::{
    ClassRow, ClassifierRow, EnumRow, FeatureRow, LiteralRow, MetaRows, OppositeRow, TypeName,
};
pub use tables::{all_above, any_cycle, own_features};
