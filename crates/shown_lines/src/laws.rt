//! Laws of the crate: functions without a body, whose contracts are the laws.
ghost use Rattle.shown_lines.specs.Laws.{TakenPackagesAreTyped, TakenStepsAreTyped};

/// The law of steps that were taken. What can be taken from a good state, one by one, is of the metamodel, as the lines
/// of steps ask. So a caller that keeps a state and the operations that led there needs no test.
pub fn law_of_taken_steps()
    ensures steps { TakenStepsAreTyped }
    ensures packages { TakenPackagesAreTyped }
{}
