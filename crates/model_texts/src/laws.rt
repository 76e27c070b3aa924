//! The laws of a model's text: what it depends on, and that it has every element.
ghost use Rattle.model_texts.specs.Laws.{TextIsOfLists, TextIsWhole};

/// The laws of texts: the text of a model depends on the classes, the values and the order of the lists alone. It has
/// every element, however deep it stands.
pub fn law_of_texts()
    ensures lists { TextIsOfLists }
    ensures whole { TextIsWhole }
{}
