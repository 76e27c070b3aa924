//! The laws of pairs of steps. A law is the contract of a function that does nothing.
ghost use Rattle.merge_laws.specs.PairLaws.{StepTestIsExact, JoinDoesBoth};

/// The test of equal steps is exact. Take two steps, one after the other, that set one attribute, or give one reference
/// or one element a new rank. Where the second doesn't undo the first, one step does what both do.
pub fn law_of_joins()
    ensures exact { StepTestIsExact }
    ensures both { JoinDoesBoth }
{}
