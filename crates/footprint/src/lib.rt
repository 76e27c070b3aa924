//! The cells that operations write and read, and which operations interfere: two that don't interfere commute.
#![tactic(auto)]

mod bucket;
mod cell;
mod exchanging;
mod laws;
mod meeting;
mod printing;
mod sorting;

pub use bucket::{Bucket, Buckets};
pub use cell::{Cell, Print};
pub use exchanging::exchange;
pub use laws::{
    law_of_disjoint_cells, law_of_exchange, law_of_interference, law_of_reads, law_of_writes,
};
pub use meeting::interferes;
pub use printing::{print_of, prints_of, put_prints};
