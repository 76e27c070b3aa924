//! The laws of buckets. A law is the contract of a function that does nothing.
ghost use Rattle.merge_laws.specs.BucketLaws.{BucketsGroupInterfering, LabelsAreLeast, BucketsAreClasses, BucketsInOrder, BucketsAreSeparate, BucketsLeaveNoChoice};

/// The buckets are the mixed components, in the order of their first operations. No other list is. Operations that
/// interfere are in the same buckets, no operation is in two, and an operation's label is the first position of its component.
pub fn law_of_buckets()
    ensures grouped { BucketsGroupInterfering }
    ensures least { LabelsAreLeast }
    ensures classes { BucketsAreClasses }
    ensures order { BucketsInOrder }
    ensures separate { BucketsAreSeparate }
    ensures one { BucketsLeaveNoChoice }
{}
