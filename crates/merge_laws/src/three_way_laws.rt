//! The law of the three-way merge. A law is the contract of a function that does nothing.
ghost use Rattle.merge_laws.specs.ThreeWayLaws.{ChoicesPart, KeptSidesLead, KeptSidesMeet, MergedCellByCell, MergedIsThreeWay, MergedWithoutConflict, MergedAsChosen, MergedIsOfEither, ThreeWayIsOne, NoChangeIsLost, NoElementIsLost, OnlyLettersDrop};

/// For all choices, what is kept of theirs doesn't interfere with what is kept of mine. What is kept of a side can be applied
/// without what is dropped of it. What is kept of both leads to one good model, in either order. At each cell that has what the side
/// that writes there leads to, and else what the base has. So it is the three-way merge of the two states that the kept sides lead
/// to, and there is one at most. Without a bucket it is that of the head and the working model. With buckets, what is kept of a side
/// stays as that side has it, and where something is dropped the model has what the other side has. So each entry is of the head or
/// of the working model. A three-way merge loses no change and no element. An operation is dropped by the letter of its bucket alone.
pub fn law_of_three_way()
    ensures apart { ChoicesPart }
    ensures lead { KeptSidesLead }
    ensures meet { KeptSidesMeet }
    ensures cells { MergedCellByCell }
    ensures states { MergedIsThreeWay }
    ensures unconflicted { MergedWithoutConflict }
    ensures chosen { MergedAsChosen }
    ensures either { MergedIsOfEither }
    ensures one { ThreeWayIsOne }
    ensures changes { NoChangeIsLost }
    ensures elements { NoElementIsLost }
    ensures letters { OnlyLettersDrop }
{}
