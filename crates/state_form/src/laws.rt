//! The law of spelled states, and of the packages that build them.
ghost use Rattle.state_form.specs.Laws.{NothingIsSpelled, StepsKeepSpelled, PackagesKeepSpelled, WholeStepsAreSpelled, WholeIsSpelled, WholeLeads, StepsTakeBytes};

/// States that spelled steps and packages lead to are spelled. The package that builds such a state has an encoding where it
/// has fewer than 2^32 steps. It leads to the state. A package has at least one byte for each step.
pub fn law_of_spelled_states()
    ensures start { NothingIsSpelled }
    ensures steps { StepsKeepSpelled }
    ensures packages { PackagesKeepSpelled }
    ensures whole_steps { WholeStepsAreSpelled }
    ensures whole { WholeIsSpelled }
    ensures leads { WholeLeads }
    ensures bytes { StepsTakeBytes }
{}
