//! The law of the steps that build a model.
ghost use Rattle.state_steps.specs.Whole.{StepsBuild};

/// The steps of a state build it from the empty one.
pub fn law_of_whole()
    ensures { StepsBuild }
{}
