//! The laws of imports: the ids are new and differ, and the steps lead to the model with the document's elements.
ghost use Rattle.import_laws.specs.Laws.{ImportsLead, NamesAreNew};

/// The ids that the elements of a document get are as many as the elements. None of them is live and no two are the
/// same, where the document gives no id that is live and none twice.
pub fn law_of_new_names()
    ensures { NamesAreNew }
{}

/// The steps that are recorded of a document that fits can be taken one by one. They leave the model with its elements,
/// a good one. Nothing is recorded exactly where that is the model at hand.
pub fn law_of_imports()
    ensures { ImportsLead }
{}
