//! The law of documents that are read: their ids differ, parents precede children, and all fits the metamodel.
ghost use Rattle.model_documents.specs.Fits.{DocumentsFit};
ghost use Rattle.model_documents.specs.Laws.{IdsAreApart, ParentsComeFirst};

/// The law of documents that are read. No id comes twice, each element stands after the one that contains it, and all
/// fit the metamodel and each other.
pub fn law_of_documents()
    ensures apart { IdsAreApart }
    ensures parents { ParentsComeFirst }
    ensures fit { DocumentsFit }
{}
