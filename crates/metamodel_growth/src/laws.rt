//! The laws of metamodels that are the same and that evolve: each is a function without a body, whose contract is the law.
ghost use Rattle.metamodel_growth.specs.EvolvedLaws.{EvolvedHasTheNew};
ghost use Rattle.metamodel_growth.specs.Same.{SameIsEqual};

/// Two metamodels are the same part by part just where they are equal.
pub fn law_of_same()
    ensures { SameIsEqual }
{}

/// A metamodel that evolves has all parts of the new one, by name, and no other.
pub fn law_of_evolved()
    ensures { EvolvedHasTheNew }
{}
