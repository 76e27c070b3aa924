//! Data lines: what the replies to commands show besides their last line. The lines of operations and steps, those of features below their lower
//! bounds, those of versions, and those of buckets.
#![tactic(auto)]

mod buckets;
mod line;
mod operation;
mod step;
mod validation;
mod versions;
mod words;

pub use buckets::bucket_lines;
pub use operation::{open_lines, operation_lines};
pub use validation::validate_lines;
pub use versions::{log_lines, package_lines};
