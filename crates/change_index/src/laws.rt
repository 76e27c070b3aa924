//! The law of last writes: a function without a body, whose contract is the law.
ghost use Rattle.change_index.specs.Laws.{VersionsAreAdded, PathsAreAsked, LastIsOfHistory, LastIsOne, LastIsFound, LastWriteStays};

use history_tree::law_of_histories;

/// The law of last writes: an index to which the first versions of a history were added, in order, answers for the path
/// of each of them the last version on it that wrote the feature. There is one such answer, and it can be computed. Since that
/// version the feature has the same values and the same targets.
pub fn law_of_last_writes()
    ensures added { VersionsAreAdded }
    ensures asked { PathsAreAsked }
    ensures last { LastIsOfHistory }
    ensures one { LastIsOne }
    ensures found { LastIsFound }
    ensures stays { LastWriteStays }
{
    law_of_histories();
}
