//! Metamodels that evolve. A metamodel that has all parts of another by name takes its place, with the other's numbers.
//! Else the first part that is missing is named.
#![tactic(auto)]

mod compare;
mod fault;
mod found;
mod growth;
mod kept;
mod laws;
mod missing;
mod moved;
mod names;
mod order;
mod same;

pub use fault::EvolveFault;
pub use growth::evolve;
pub use laws::{law_of_evolved, law_of_same};
pub use same::is_same;
