//! The law of policies: a function without a body, whose contract is the law.
ghost use Rattle.access_rules.specs.Laws.{PoliciesAreRead, PoliciesAreSpelled};

/// The law of policies: a text is read as the grants that it spells. Each list of grants, one at least and each of another
/// user, is spelled by a text.
pub fn law_of_policies()
    ensures read { PoliciesAreRead }
    ensures spelled { PoliciesAreSpelled }
{}
