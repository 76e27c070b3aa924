//! The laws of replies: each is a function without a body, whose contract is the law.
ghost use Rattle.reply_laws.specs.Again.{CommitsAreFound, CheckoutsAreFound, TagsAreFound, UpdatesSayHeads, MergesSayHeads, PackagesAreSpelled};
ghost use Rattle.reply_laws.specs.Lists.{LogsListVersions, ChangesGrow, ValidateIsExact, ConflictsAreCounted};

/// The law of answers that are found again: `cat` of the number that a commit says shows what `show` of the workspace showed. `show` of the
/// number that a checkout says shows what `cat` of its SPEC shows, which the checkout has printed. A new tag shows what its SPEC showed.
/// What an update or a merge says is the head of its branch, whether it makes an event or not. The bytes that `package` prints read as
/// the version's operations.
pub fn law_of_answers_found_again()
    ensures commits { CommitsAreFound }
    ensures checkouts { CheckoutsAreFound }
    ensures tags { TagsAreFound }
    ensures updates { UpdatesSayHeads }
    ensures merges { MergesSayHeads }
    ensures packages { PackagesAreSpelled }
{}

/// The law of lists: `log` has a line for each version, in their order, which begins with its number. What is recorded comes after the
/// lines that `changes` printed before. `validate` has a line for just those features of elements that hold less than their lower
/// bounds. A number of conflicts is that of the lines, and so many letters are no bad choice.
pub fn law_of_lists()
    ensures log { LogsListVersions }
    ensures changes { ChangesGrow }
    ensures validate { ValidateIsExact }
    ensures conflicts { ConflictsAreCounted }
{}
