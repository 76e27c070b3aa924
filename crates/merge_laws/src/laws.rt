//! The laws of updates, merges and reverts. A law is the contract of a function that does nothing.
ghost use Rattle.merge_laws.specs.Laws.{UpdateGivesMerged, MergeGivesMerged, RevertTakesOut, MineLeads, MergeLeadsToMerged};

/// For all choices, one a bucket, the list of an update leads from the model after theirs to the merged model. The list
/// of a merge leads from the model after mine to the same. What a merge takes for mine leads to the model that it is
/// merged into. So the merge's list leads from there to the merged model.
pub fn law_of_merge()
    ensures update { UpdateGivesMerged }
    ensures merge { MergeGivesMerged }
    ensures mine { MineLeads }
    ensures whole { MergeLeadsToMerged }
{}

/// Where no later operation interferes with a package, its reversal at the end leads to the model without it.
pub fn law_of_revert()
    ensures revert { RevertTakesOut }
{}
