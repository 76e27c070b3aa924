//! Metamodels in Ecore's terms: classes with features, references with opposites, and enums; what holds of every metamodel, and its questions.
#![tactic(auto)]

mod above;
mod enums;
mod fault;
mod feature_index;
mod indexes;
mod meta;
mod metamodel;
mod values;

pub use above::is_in;
pub use enums::Enums;
pub use fault::ValueFault;
pub use meta::{Class, Enum, EnumLiteral, Feature, Kind, Scalar, Value};
pub use metamodel::{Metamodel, Parts};
pub use texts::{Boxed, CompactList, List, Text};
pub use values::{default_of, value_of};
