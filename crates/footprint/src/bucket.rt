//! Buckets, as the calls that group conflicts give them.
use texts::List;

/// The positions of the operations of one bucket, counted from 0 on each side, rising.
#[derive(Drop)]
pub struct Bucket {
    pub theirs: List<u64>,
    pub mine: List<u64>,
}

/// The buckets of two packages, in the order of their first operations.
#[derive(Drop)]
pub struct Buckets {
    pub rows: List<Bucket>,
}
