//! What it means to tidy a package, to group what interferes in two packages, and to merge them by choices; and what an update, a
//! merge and a revert lead to, for all choices. Equal steps, and the one step that does what two do, are the ground of tidying.
//! Buckets are the components of interfering operations that have operations of both packages.
#![tactic(auto)]

mod bucket_laws;
mod choice_laws;
mod laws;
mod pair_laws;
mod side;
mod three_way_laws;
mod tidy_laws;

pub use bucket_laws::law_of_buckets;
pub use choice_laws::law_of_choices;
pub use laws::{law_of_merge, law_of_revert};
pub use pair_laws::law_of_joins;
pub use side::Side;
pub use three_way_laws::law_of_three_way;
pub use tidy_laws::law_of_tidy;
