//! The laws of edits by name: their steps lead to the model after the edit, a good one, also as they are recorded; and which id is fresh.
ghost use Rattle.edits.specs.Laws.{EditsIdle, EditsKeepGood, EditsMeet, EditsStand, FirstIsFresh, FreshIsFirst, FreshIsId};
ghost use Rattle.edits.specs.RecordingLaws.{RecordingLeads};

/// The steps that are recorded of an edit lead to the model that the edit is to leave. There are none exactly where it
/// changes nothing. That model is good: a reference and its opposite stand together, and each list is within its bound.
/// In it an entry that is created, moved, set, linked or reordered stands where the edit asked. The other places or
/// lists of targets are as they were, without what the edit takes away.
pub fn law_of_edits()
    ensures meets { EditsMeet }
    ensures idle { EditsIdle }
    ensures good { EditsKeepGood }
    ensures stands { EditsStand }
{}

/// What is recorded of an edit that is not refused leads to the model that the edit is to leave. It is nothing exactly
/// where the edit changes nothing.
pub fn law_of_recording()
    ensures leads { RecordingLeads }
{}

/// A fresh id is the first of its workspace that is not live, and is of the form of an id.
pub fn law_of_fresh_ids()
    ensures first { FreshIsFirst }
    ensures only { FirstIsFresh }
    ensures form { FreshIsId }
{}
