//! The laws of tidying. A law is the contract of a function that does nothing.
ghost use Rattle.merge_laws.specs.TidyLaws.{TidyFollowsRules, TidyIsNormal, TidyIsIdempotent, TidyTestIsExact, TidyKeepsEffect, RulesLeaveNoChoice};

/// Tidying cuts simple operations into their steps and then takes its rules in order until none applies. No rule
/// applies to what it leaves, and tidying leaves that as it is. What it leaves does what the package did, and the rules
/// leave no choice. The test whether a package is tidy is exact.
pub fn law_of_tidy()
    ensures rules { TidyFollowsRules }
    ensures normal { TidyIsNormal }
    ensures idempotent { TidyIsIdempotent }
    ensures test { TidyTestIsExact }
    ensures effect { TidyKeepsEffect }
    ensures one { RulesLeaveNoChoice }
{}
