//! The laws of steps: reversal undoes, the invariant is kept, and steps of disjoint cells commute.
ghost use Rattle.model_laws.specs.Laws.{FirstIsStop, LeadsNoStop, NoStopLeads, StopIsFault, StopIsFirst, ReversalUndoes, StepsKeepGood, StartsGood, ExchangeHolds, SideBySide};
ghost use Rattle.model_laws.specs.Reversals.{PackageReversalUndoes, PackagesKeepGood, TwiceReversedIsSame, OperationTwiceReversedIsSame};

/// What steps did, their reversals in reversed order undo, and each step keeps the invariant.
pub fn law_of_reversal()
    ensures undoes { ReversalUndoes }
    ensures keeps { StepsKeepGood }
    ensures starts { StartsGood }
{}

/// The laws of reversal: what a package did, its reversal undoes; packages keep the invariant; what is reversed twice is as it was.
pub fn law_of_reversals()
    ensures undoes { PackageReversalUndoes }
    ensures keeps { PackagesKeepGood }
    ensures packages_twice { TwiceReversedIsSame }
    ensures operations_twice { OperationTwiceReversedIsSame }
{}

/// Steps whose cells are disjoint commute.
pub fn law_of_step_exchange()
    ensures exchange { ExchangeHolds }
    ensures side_by_side { SideBySide }
{}

/// Where steps can't all be taken one by one, there is one place up to which they can. The step there can't be taken
/// then: it is the first stop, with that step's fault.
pub fn law_of_stops()
    ensures first { StopIsFirst }
    ensures only { FirstIsStop }
    ensures leads { NoStopLeads }
    ensures none { LeadsNoStop }
    ensures fault { StopIsFault }
{}
