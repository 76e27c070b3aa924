//! The laws of choices. A law is the contract of a function that does nothing.
ghost use Rattle.merge_laws.specs.ChoiceLaws.{LettersAreSides, TheirsGoByLetters, MineGoByLetters, UpdatesGoByLetters, MergesGoByLetters};

/// The letter `m` keeps mine, and `t` keeps theirs. An operation of theirs is dropped just where a bucket of the letter `m` has its
/// position, and one of mine where one of the letter `t` has. The list of an update takes back what is dropped of theirs, and then
/// has what is kept of mine. What a merge appends takes back what is dropped of mine, and then has what is kept of theirs.
pub fn law_of_choices()
    ensures letters { LettersAreSides }
    ensures theirs { TheirsGoByLetters }
    ensures mine { MineGoByLetters }
    ensures updates { UpdatesGoByLetters }
    ensures merges { MergesGoByLetters }
{}
