//! The laws of histories.
ghost use Rattle.history_tree.specs.Laws.{PathsGoByParents, PathsLead, PathsStay, HeadIsLast, HeadIsStart, LastIsHead, OtherHeadsStay, LastCommonIsLast, MergeBaseIsLast, MergeBaseIsAfterCommon};

/// The law of histories: a version's path is its parent's and then the version itself. It begins with version 0, rises, and ends with its version.
/// The head of a branch is the last version on it, or its start where there is none. A further version leaves the paths that were there. It is
/// the head of its branch, and leaves the other heads.
pub fn law_of_histories()
    ensures paths { PathsGoByParents }
    ensures lead { PathsLead }
    ensures paths_stay { PathsStay }
    ensures head { HeadIsLast }
    ensures start { HeadIsStart }
    ensures last { LastIsHead }
    ensures heads_stay { OtherHeadsStay }
{}

/// The law of merge bases: the last common version of two versions is on both paths, and no later one is. The merge
/// base is the last version on the other's path that is on the base's path or counts as merged there. So it doesn't
/// come before the last common version.
pub fn law_of_merge_bases()
    ensures common { LastCommonIsLast }
    ensures base { MergeBaseIsLast }
    ensures after { MergeBaseIsAfterCommon }
{}
