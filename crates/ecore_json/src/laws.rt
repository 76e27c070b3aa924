//! Laws of the crate: functions without a body, whose contracts are the laws.
ghost use Rattle.ecore_json.specs.Laws.{ReadMetamodelsHold, SupertypesAreRead};

/// The law of metamodels that are read: what holds of every metamodel holds of each. A class is another in it exactly
/// where a list of classes leads there, each a direct supertype of the one before in the text's package.
pub fn law_of_read_metamodels()
    ensures hold { ReadMetamodelsHold }
    ensures supertypes { SupertypesAreRead }
{}
