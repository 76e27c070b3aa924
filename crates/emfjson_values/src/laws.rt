//! The law of values: a value that is written is read again as itself.
ghost use Rattle.emfjson_values.specs.Laws.{ReadValuesFit, WrittenValuesAreRead};

/// The law of values: what is read is of the type, and what is written for a value is read again as that value. It asks
/// that the literals of an enum have different texts, as they have in every metamodel.
pub fn law_of_values()
    ensures fit { ReadValuesFit }
    ensures again { WrittenValuesAreRead }
{}
