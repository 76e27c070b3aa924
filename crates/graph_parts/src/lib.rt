//! What a model in memory is made of. An element has its class, its place and its values, its references and those to
//! it, and the elements inside it.
#![tactic(auto)]

mod attrs;
mod by_feature;
mod copies;
mod element;
mod feature_lists;
mod incoming;
mod pieces;
mod value_list;

pub use attrs::Attrs;
pub use element::Node;
pub use feature_lists::FeatureLists;
pub use incoming::IncomingReferences;
pub use value_list::ValueList;
