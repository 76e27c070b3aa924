//! The laws of a metamodel and one that it evolves to: each is a function without a body, whose contract is the law.
ghost use Rattle.growth_laws.specs.Laws.{ExtensionEvolves, GrowthKeepsGood, GrowthKeepsRuns, GrowthKeepsSteps, GrowthKeepsText};

/// With a metamodel that another evolves to, states stay good, and steps do what they did and write the same cells. Each
/// metamodel that has all parts of another by name gives one, once it has the other's numbers.
pub fn law_of_evolved_metamodels()
    ensures extension { ExtensionEvolves }
    ensures good { GrowthKeepsGood }
    ensures steps { GrowthKeepsSteps }
    ensures runs { GrowthKeepsRuns }
{}

/// A good model has one text with both metamodels: what the new one adds is empty in it, and no text shows what is empty.
pub fn law_of_evolved_texts()
    ensures { GrowthKeepsText }
{}
