//! Which operations the choices drop, as flags for their places.
ghost use Rattle.std.specs.Prelude.{◌≡◌, length, IfOk};
ghost use Rattle.merge_laws.specs.Grouping.{is_in};
ghost use Rattle.merge_laws.specs.Merge.{drops_theirs, drops_mine};
ghost use Rattle.merge_choices.specs.Flags.{AreFlags, Flagged};
ghost use Rattle.merge_choices.specs.BucketDrops.{bucket_theirs, bucket_mine};

use footprint::Bucket;
use merge_laws::Side;
use std::alloc::{AllocError, Global};

/// Sets the flags of the places.
fn flag_places(flags: &mut Vec<bool>, places: &[u64])
    ensures { Flagged flags.old.items flags.new.items (λ i. is_in i places.now) }
{
    for place in places {
        if (*place as usize) < flags.len() {
            flags[*place as usize] = true;
        }
    }
}

fn flag_theirs(flags: &mut Vec<bool>, bucket: &Bucket, side: Side)
    ensures { Flagged flags.old.items flags.new.items (bucket_theirs bucket.now side) }
{
    match side {
        Side::Mine => flag_places(flags, bucket.theirs.as_slice()),
        Side::Theirs => {}
    }
}

fn flag_mine(flags: &mut Vec<bool>, bucket: &Bucket, side: Side)
    ensures { Flagged flags.old.items flags.new.items (bucket_mine bucket.now side) }
{
    match side {
        Side::Mine => {}
        Side::Theirs => flag_places(flags, bucket.mine.as_slice()),
    }
}

/// Flags for as many places of theirs, set where the sides drop the operation.
pub(crate) fn theirs_dropped(
    alloc: Global,
    buckets: &[Bucket],
    sides: &[Side],
    size: usize,
) -> Result<Vec<bool>, AllocError>
    requires { length sides.now ≡ length buckets.now }
    ensures { IfOk result (λ flags. AreFlags flags.items size (drops_theirs buckets.now sides.now)) }
{
    let mut flags = vec![in alloc; false; size]?;
    for k in 0..buckets.len() {
        flag_theirs(&mut flags, &buckets[k], sides[k]);
    }
    Ok(flags)
}

/// Flags for as many places of mine, set where the sides drop the operation.
pub(crate) fn mine_dropped(
    alloc: Global,
    buckets: &[Bucket],
    sides: &[Side],
    size: usize,
) -> Result<Vec<bool>, AllocError>
    requires { length sides.now ≡ length buckets.now }
    ensures { IfOk result (λ flags. AreFlags flags.items size (drops_mine buckets.now sides.now)) }
{
    let mut flags = vec![in alloc; false; size]?;
    for k in 0..buckets.len() {
        flag_mine(&mut flags, &buckets[k], sides[k]);
    }
    Ok(flags)
}
