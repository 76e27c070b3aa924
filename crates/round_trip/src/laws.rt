//! The laws of the round trip from a model to its text and back, by the parts that make it up.
ghost use Rattle.round_trip.specs.Laws.{DescriptionsAreShown, ImportsBringIn, TextsDescribe, TextsComeBack, TextsReadBack};

/// The law of texts that are read: the text of a good model reads as its tree.
pub fn law_of_reading_back()
    ensures { TextsReadBack }
{}

/// The law of reading: the document that the text of a good model stands for describes the model. What it asks of a metamodel
/// holds of each, by `ecore_meta::Metamodel::recall_promises`.
pub fn law_of_reading()
    ensures { TextsDescribe }
{}

/// The steps that are recorded of a document that fits can be taken one by one in any good model. They leave each of its
/// elements as its row says, after those that stood in its place, and each other id with the class, the place, the values and
/// the targets that it had.
pub fn law_of_imported_elements()
    ensures { ImportsBringIn }
{}

/// What rows that describe a good model leave in the empty project has the text of that model.
pub fn law_of_descriptions()
    ensures { DescriptionsAreShown }
{}

/// The law of round trips, for a good model whose elements have ids of the form of ids. Its text, brought into the
/// empty project, leaves a model that is shown as the same text. What it asks of a metamodel holds of each, by
/// `ecore_meta::Metamodel::recall_promises`. Each working model of the repository is good and has such ids, by the law of
/// working models of `plain_repository`.
pub fn law_of_round_trips()
    ensures { TextsComeBack }
{}
